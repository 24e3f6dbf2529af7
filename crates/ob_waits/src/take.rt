ghost use Rattle.std.specs.Prelude.{[], ◌∷◌, ◌≡◌, ◌≢◌, ◌<◌, ◌≤◌, ℕ, List, Option, true, None, Some, length, slice_index_or};
ghost use Rattle.std.specs.List.{list_any, list_all};
ghost use Rattle.std.specs.Option.{IfNone};
ghost use Rattle.ob_body.specs.declared.body.Body.{Body};
ghost use Rattle.ob_waits.specs.Waits.{is_signaled, is_abandoned, first_signaled, list_ready, nowhere};
ghost use Rattle.ob_waits.specs.Waits.{with_all_acquired, code_now, objects_now};
ghost use Rattle.ob_waits.specs.Rules.{HasRoom, IsDistinct, IsOnlyIn, IsWaitable};

use crate::bodies::Bodies;
use crate::codes::WAIT_ABANDONED_0;
use crate::wait::Mode;
use ob_body::{Body, RECURSION_MAX};
use pin_core::Id;

/// Whether an object is signaled for a thread.
#[inline(never)]
fn is_signaled_apart<B: Bodies>(bodies: &B, thread: u32, id: Id) -> bool
    ensures { result ≡ is_signaled thread (B.objects bodies.now).bodies id }
{
    match bodies.body(id) {
        Some(body) => body.signaled_for(thread),
        None => false,
    }
}

/// The same, of an event by one comparison, as most objects are; of others apart, by a table of jumps.
#[inline(always)]
fn is_signaled<B: Bodies>(bodies: &B, thread: u32, id: Id) -> bool
    ensures { result ≡ is_signaled thread (B.objects bodies.now).bodies id }
{
    match bodies.body(id) {
        Some(Body::Event(event)) => event.set,
        Some(_) => is_signaled_apart(bodies, thread, id),
        None => false,
    }
}

/// The index of the first object that is signaled, or the length. None before `first` is.
fn first_signaled<B: Bodies>(bodies: &B, thread: u32, ids: &[Id], first: usize) -> usize
    requires most { first ≤ length ids.now }
    requires before { first ≤ first_signaled thread (B.objects bodies.now).bodies ids.now }
    ensures value { result ≡ first_signaled thread (B.objects bodies.now).bodies ids.now }
    ensures bound { result ≤ length ids.now }
{
    for i in first..ids.len() {
        if is_signaled(bodies, thread, ids[i]) {
            return i;
        }
    }
    ids.len()
}

/// The first place in a list of an object in the slot, or the length.
fn place_of(ids: &[Id], slot: u32) -> usize
    ensures bound { result ≤ length ids.now }
    ensures others { (i : ℕ) → i < result → (slice_index_or ids.now i nowhere).slot ≢ slot }
{
    for (i, id) in ids.iter().enumerate() {
        if id.slot == slot {
            return i;
        }
    }
    ids.len()
}

/// Where to look for an object that is signaled: at the first in a slot, where no object in another slot is.
fn first_place(ids: &[Id], slot: Option<u32>) -> usize
    ensures bound { result ≤ length ids.now }
    ensures before { (thread : ℕ) (bodies : List (Option Body)) → IsOnlyIn slot thread bodies ids.now
        → result ≤ first_signaled thread bodies ids.now }
{
    match slot {
        Some(slot) => place_of(ids, slot),
        None => 0,
    }
}

// Apart, and without a frame of its own, since it comes first where many waits for all are for one object.
#[inline(never)]
fn are_all_signaled<B: Bodies>(bodies: &B, thread: u32, ids: &[Id]) -> bool
    ensures { result ≡ list_all (is_signaled thread (B.objects bodies.now).bodies) ids.now }
{
    for id in ids {
        if !is_signaled(bodies, thread, *id) {
            return false;
        }
    }
    true
}

/// Whether a wait of the thread for these objects is satisfied now: for any, where one is signaled; for all, where each
/// is.
pub fn is_satisfied<B: Bodies>(bodies: &B, thread: u32, mode: Mode, ids: &[Id]) -> bool
    ensures { result ≡ list_ready mode thread (B.objects bodies.now).bodies ids.now }
{
    match mode {
        Mode::Any => first_signaled(bodies, thread, ids, 0) < ids.len(),
        Mode::All => are_all_signaled(bodies, thread, ids),
    }
}

/// A thread acquires each of some objects; whether one was an abandoned mutex.
#[inline(never)]
fn take_all<B: Bodies>(bodies: &mut B, thread: u32, ids: &[Id]) -> bool
    requires ready { list_all (is_signaled thread (B.objects bodies.old).bodies) ids.now ≡ true }
    requires room { HasRoom RECURSION_MAX thread (B.objects bodies.old).bodies ids.now }
    requires once { IsDistinct ids.now }
    ensures was_abandoned { result ≡ list_any (is_abandoned (B.objects bodies.old).bodies) ids.now }
    ensures objects { B.objects bodies.new ≡ record (B.objects bodies.old) {
      bodies = with_all_acquired thread
          (B.objects bodies.old).bodies ids.now;
    } }
    ensures rest { B.rest bodies.new ≡ B.rest bodies.old }
{
    let mut was_abandoned = false;
    for id in ids {
        if bodies.acquire(*id, thread) {
            was_abandoned = true;
        }
    }
    was_abandoned
}

/// Takes an object, if it is signaled, and gives the code.
#[inline(never)]
fn take_apart<B: Bodies>(bodies: &mut B, thread: u32, id: Id) -> Option<u32>
    requires room { HasRoom RECURSION_MAX thread (B.objects bodies.old).bodies (id ∷ []) }
    ensures code { (mode : Mode) → result ≡ code_now mode thread (B.objects bodies.old).bodies (id ∷ []) }
    ensures objects { (mode : Mode) → B.objects bodies.new ≡ objects_now mode thread (B.objects bodies.old) (id ∷ []) }
    ensures rest { B.rest bodies.new ≡ B.rest bodies.old }
    ensures unready { IfNone result (bodies.new ≡ bodies.old) }
{
    let Some(body) = bodies.body(id) else {
        return None;
    };
    if !body.signaled_for(thread) {
        return None;
    }
    if bodies.acquire(id, thread) {
        return Some(WAIT_ABANDONED_0);
    }
    Some(0)
}

/// The same, of an event here, and of what is none apart.
#[inline(always)]
fn take_one<B: Bodies>(bodies: &mut B, thread: u32, id: Id) -> Option<u32>
    requires room { HasRoom RECURSION_MAX thread (B.objects bodies.old).bodies (id ∷ []) }
    ensures code { (mode : Mode) → result ≡ code_now mode thread (B.objects bodies.old).bodies (id ∷ []) }
    ensures objects { (mode : Mode) → B.objects bodies.new ≡ objects_now mode thread (B.objects bodies.old) (id ∷ []) }
    ensures rest { B.rest bodies.new ≡ B.rest bodies.old }
    ensures unready { IfNone result (bodies.new ≡ bodies.old) }
{
    let Some(Body::Event(event)) = bodies.body(id) else {
        return take_apart(bodies, thread, id);
    };
    if !event.set {
        return None;
    }
    if bodies.acquire(id, thread) {
        return Some(WAIT_ABANDONED_0);
    }
    Some(0)
}

/// Takes the first object that is signaled, if there is one, and gives the code.
#[tactic(auto, using(std::proofs::lemmas::List::Sums::passes_at_first))]
fn take_any<B: Bodies>(bodies: &mut B, thread: u32, ids: &[Id], slot: Option<u32>) -> Option<u32>
    requires at_most { length ids.now ≤ 64 }
    requires only { IsOnlyIn slot thread (B.objects bodies.old).bodies ids.now }
    requires room { HasRoom RECURSION_MAX thread (B.objects bodies.old).bodies ids.now }
    ensures code { result ≡ code_now Mode.Any thread (B.objects bodies.old).bodies ids.now }
    ensures objects { B.objects bodies.new ≡ objects_now Mode.Any thread (B.objects bodies.old) ids.now }
    ensures rest { B.rest bodies.new ≡ B.rest bodies.old }
    ensures unready { IfNone result (bodies.new ≡ bodies.old) }
{
    let index = first_signaled(bodies, thread, ids, first_place(ids, slot));
    if index >= ids.len() {
        return None;
    }
    if bodies.acquire(ids[index], thread) {
        return Some(index as u32 + WAIT_ABANDONED_0);
    }
    Some(index as u32)
}

/// Takes all objects together, if each is signaled, and gives the code.
#[inline(always)]
fn take_each<B: Bodies>(bodies: &mut B, thread: u32, ids: &[Id]) -> Option<u32>
    requires room { HasRoom RECURSION_MAX thread (B.objects bodies.old).bodies ids.now }
    requires once { IsDistinct ids.now }
    ensures code { result ≡ code_now Mode.All thread (B.objects bodies.old).bodies ids.now }
    ensures objects { B.objects bodies.new ≡ objects_now Mode.All thread (B.objects bodies.old) ids.now }
    ensures rest { B.rest bodies.new ≡ B.rest bodies.old }
    ensures unready { IfNone result (bodies.new ≡ bodies.old) }
{
    if !are_all_signaled(bodies, thread, ids) {
        return None;
    }
    if take_all(bodies, thread, ids) {
        return Some(WAIT_ABANDONED_0);
    }
    Some(0)
}

/// The same as [`try_now`], of a wait for any object of which none is signaled but in a slot, where one is given.
#[inline(always)]
pub(crate) fn try_at<B: Bodies>(
    bodies: &mut B,
    thread: u32,
    mode: Mode,
    ids: &[Id],
    slot: Option<u32>,
) -> Option<u32>
    requires waitable { IsWaitable mode ids.now }
    requires room { HasRoom RECURSION_MAX thread (B.objects bodies.old).bodies ids.now }
    requires only { mode ≡ Mode.Any → IsOnlyIn slot thread (B.objects bodies.old).bodies ids.now }
    ensures code { result ≡ code_now mode thread (B.objects bodies.old).bodies ids.now }
    ensures objects { B.objects bodies.new ≡ objects_now mode thread (B.objects bodies.old) ids.now }
    ensures rest { B.rest bodies.new ≡ B.rest bodies.old }
    ensures unready { IfNone result (bodies.new ≡ bodies.old) }
{
    if let [id] = ids {
        return take_one(bodies, thread, *id);
    }
    match mode {
        Mode::Any => take_any(bodies, thread, ids, slot),
        Mode::All => take_each(bodies, thread, ids),
    }
}

/// Takes what a wait of the thread for these objects is satisfied by, where it is satisfied now, and gives its code
/// ([Wait Functions]): for any, the least index of a signaled object, and 128 more where that is an abandoned mutex;
/// for all, 0, or 128 where one is an abandoned mutex (*profile*). Else nothing changes.
///
/// [Wait Functions]: https://learn.microsoft.com/windows/win32/sync/wait-functions
#[inline(always)]
pub fn try_now<B: Bodies>(bodies: &mut B, thread: u32, mode: Mode, ids: &[Id]) -> Option<u32>
    requires waitable { IsWaitable mode ids.now }
    requires room { HasRoom RECURSION_MAX thread (B.objects bodies.old).bodies ids.now }
    ensures code { result ≡ code_now mode thread (B.objects bodies.old).bodies ids.now }
    ensures objects { B.objects bodies.new ≡ objects_now mode thread (B.objects bodies.old) ids.now }
    ensures rest { B.rest bodies.new ≡ B.rest bodies.old }
    ensures unready { IfNone result (bodies.new ≡ bodies.old) }
{
    try_at(bodies, thread, mode, ids, None)
}
