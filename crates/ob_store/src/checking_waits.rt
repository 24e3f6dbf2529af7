ghost use Rattle.std.specs.Prelude.{◌≡◌, length, true};
ghost use Rattle.std.specs.List.{list_all};
ghost use Rattle.ob_waits.specs.Spelling.{are_within};
ghost use Rattle.ob_waits.specs.declared.wait.State.TheVariants.{Pending};
ghost use Rattle.ob_store.specs.SavedWaits.{all_stand, may_wait_for, owner_stands, owners_stand, state_stands};
ghost use Rattle.ob_store.specs.SavedWaits.{wait_of, wait_stands, waits_stand};

use crate::object_headers::owner_of;
use crate::objects::Objects;
use ob_body::Body;
use ob_tables::{Limits, Processes};
use ob_waits::{Mode, Waits, is_satisfied};
use pin_core::{Id, same_id};
use pin_words::LockedPins;

/// Whether a thread may wait for the object of an Id: it is there, and has room for the thread.
fn may_wait_for(objects: &Objects<LockedPins>, limit: u32, thread: u32, id: Id) -> bool
    ensures { result ≡ may_wait_for limit objects.now thread id }
{
    let Some(found) = objects.look(id.slot) else {
        return false;
    };
    if !same_id(found.header.id, id) {
        return false;
    }
    match found.header.body {
        Some(body) => body.has_room(thread, limit),
        None => true,
    }
}

/// Whether a thread may wait for each of some objects.
fn may_wait_for_all(objects: &Objects<LockedPins>, limit: u32, thread: u32, ids: &[Id]) -> bool
    ensures { result ≡ list_all (may_wait_for limit objects.now thread) ids.now }
{
    for id in ids {
        if !may_wait_for(objects, limit, thread, *id) {
            return false;
        }
    }
    true
}

/// Whether a wait can be pending: its thread may wait for its objects, and it isn't satisfied.
fn pending_stands(
    objects: &Objects<LockedPins>,
    limit: u32,
    thread: u32,
    mode: Mode,
    ids: &[Id],
) -> bool
    ensures { result ≡ state_stands limit objects.now thread (Pending mode ids.now) }
{
    may_wait_for_all(objects, limit, thread, ids) && !is_satisfied(objects, thread, mode, ids)
}

/// Whether the wait of a thread, if it has one, can be there.
fn wait_stands(
    objects: &Objects<LockedPins>,
    limit: u32,
    processes: &Processes,
    waits: &Waits,
    thread: u32,
) -> bool
    ensures { result ≡ wait_stands limit processes.now.threads objects.now (wait_of thread waits.now.waits) }
{
    let Some(number) = waits.wait_of(thread) else {
        return true;
    };
    if processes.process(thread).is_none() {
        return false;
    }
    match waits.pending(number) {
        Some(wait) => pending_stands(objects, limit, thread, wait.mode, wait.ids),
        None => true,
    }
}

/// Whether all waits can be there: those of each thread number that was given.
fn waits_stand(
    objects: &Objects<LockedPins>,
    limits: Limits,
    processes: &Processes,
    waits: &Waits,
) -> bool
    requires { are_within (length processes.now.threads) limits.slots waits.now.waits ≡ true }
    ensures { result ≡ waits_stand limits.max_recursion processes.now.threads waits.now.waits objects.now }
{
    // It tells the proof that a thread has one wait.
    let _ = waits.wait_of(0);
    for thread in 0..processes.thread_places() {
        if !wait_stands(objects, limits.max_recursion, processes, waits, thread) {
            return false;
        }
    }
    true
}

/// Whether a mutex has no owner, or a live one.
fn owner_stands(processes: &Processes, body: Option<Body>) -> bool
    ensures { result ≡ owner_stands processes.now.threads body }
{
    match owner_of(body) {
        Some(thread) => processes.process(thread).is_some(),
        None => true,
    }
}

/// Whether each mutex has no owner, or a live one.
fn owners_stand(objects: &Objects<LockedPins>, processes: &Processes) -> bool
    ensures { result ≡ owners_stand processes.now.threads objects.now }
{
    objects.kept();
    for slot in 0..objects.slots() {
        if !owner_stands(processes, objects.headers.body(slot)) {
            return false;
        }
    }
    true
}

/// Whether the waits, and the owners of mutexes, can be there.
pub(crate) fn all_stand(
    objects: &Objects<LockedPins>,
    limits: Limits,
    processes: &Processes,
    waits: &Waits,
) -> bool
    requires { are_within (length processes.now.threads) limits.slots waits.now.waits ≡ true }
    ensures { result ≡ all_stand limits.max_recursion processes.now.threads waits.now.waits objects.now }
{
    waits_stand(objects, limits, processes, waits) && owners_stand(objects, processes)
}
