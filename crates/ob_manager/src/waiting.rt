ghost use Rattle.std.specs.Prelude.{[], ◌∷◌, ℕ, ◌≡◌, ◌≢◌, ◌==◌, ◌<◌, ◌≤◌, Err, IfErr, IfOk, IsSome, None};
ghost use Rattle.std.specs.Prelude.{Ok, OnOk, Some, is_ok, false, length, slice_index_or, true};
ghost use Rattle.std.specs.Cmp.Lexicographic.{pointwise};
ghost use Rattle.std.specs.Cmp.Rules.{comparing};
ghost use Rattle.std.specs.List.{list_any};
ghost use Rattle.std.proofs.Common.{rules};
ghost use Rattle.ob_waits.specs.Waits as waits;
ghost use Rattle.ob_waits.specs.Waits.{nowhere, number_of};
ghost use Rattle.ob_store.specs.State.{handles_of};
ghost use Rattle.ob_store.specs.Waiting.{wait_number};
ghost use Rattle.ob_manager.specs.Waiting.{after_signal, alert, becomes_pending, collected, deadline_in, expire};
ghost use Rattle.ob_manager.specs.Waiting.{give_and_wait, has_twice, have_room, lasts_until, signal_and_wait, signaled};
ghost use Rattle.ob_store.specs.Waiting.{are_waits_given};
ghost use Rattle.ob_waits.specs.Form.{IsAfter};
ghost use Rattle.ob_store.specs.Kept.{Yields};
ghost use Rattle.ob_manager.specs.Waiting.{is_for_one_twice, is_misshapen, is_zero, lacks_synchronize, may_repeat};
ghost use Rattle.ob_manager.specs.Waiting.{objects_of, same_handle, sleep, told_at, wait, wait_on, wait_result};
ghost use Rattle.ob_manager.specs.Checks.{caller};
ghost use Rattle.ob_manager.specs.Steps.{Gives, GivesOrLacks};
ghost use Rattle.pin_core.specs.Holds.{same_id};
ghost use Rattle.ob_manager.specs.Rising.{listed, place_of_handle, place_of_object, rise};

use crate::checks::{caller, found, granted};
use crate::reply::Reply;
use crate::timing::moment_of;
use arrayvec::ArrayVec;
use ob_body::Body;
use ob_rights::{Fault, Kind, Rights, within};
use ob_store::{LAST_MOMENT, Limits, Store};
use ob_tables::{Entry, entry_in};
use ob_waits::{MAXIMUM_WAIT_OBJECTS, Mode, WAIT_IO_COMPLETION, WAIT_TIMEOUT, WaitState};
use pin_core::{Id, same_id};
use pin_words::PinKeeper;
use std::alloc::{AllocError, Global};
use std::convert::AsSlice;
use std::marker::Model;

/// How long a thread waits.
#[derive(Clone, Copy, Debug, PartialEq, Eq)]
pub enum Timeout {
    /// Not at all: the code is 258, `WAIT_TIMEOUT`, where the wait isn't satisfied at once.
    Zero,
    /// Until the wait is satisfied: `INFINITE`.
    Infinite,
    /// For so many milliseconds, of 10,000 units of time each: 0 is not at all, 4,294,967,295 until the wait is
    /// satisfied.
    Millis(u32),
    /// Until a moment, in units of 100 ns, or below 0 for so many units from now; not at all where the moment isn't
    /// after now.
    Until(i64),
}

/// Handles that somebody waits for. A contract sees them as the list that they are.
#[derive(Drop)]
pub struct HandleList {
    handles: Vec<u32>,
}

impl Model for HandleList {
    ghost use Rattle.std.specs.Prelude.{ℕ, List};

    ghost Value = { List ℕ };

    ghost view = { λ list. list.handles.items };
}

impl HandleList {
    /// A copy of some handles. The refusal is want of memory.
    pub fn new(alloc: Global, handles: &[u32]) -> Result<HandleList, AllocError>
        ensures { IfOk result (λ list. list ≡ handles.now) }
    {
        let mut copy = Vec::new(alloc);
        copy.extend_from_slice(handles)?;
        Ok(HandleList { handles: copy })
    }

    /// The handles.
    pub fn as_slice(&self) -> &[u32]
        ensures { result.now ≡ self.now }
    {
        self.handles.as_slice()
    }
}

impl PartialEq for HandleList {
    ghost eq = { pointwise ◌==◌ };

    ghost laws = { Prim.search (comparing, rules) };

    fn eq(&self, other: &HandleList) -> bool {
        self.handles.as_slice() == other.handles.as_slice()
    }
}

impl AsSlice<u32> for HandleList {
    ghost items = { λ list. list };

    fn as_slice(&self) -> &[u32] {
        self.handles.as_slice()
    }
}

/// Whether a handle stands in a list.
fn has_handle(handle: u32, others: &[u32]) -> bool
    ensures { result ≡ list_any (same_handle handle) others.now }
{
    others.iter().any(|other| handle / 4 == *other / 4)
}

/// Whether each handle is above the one before it, as those of a list mostly are: then none stands twice.
fn handles_rise(handles: &[u32]) -> bool
    ensures { result ≡ rise place_of_handle 0 handles.now }
{
    let mut last = 0;
    for handle in handles {
        if *handle / 4 <= last {
            return false;
        }
        last = *handle / 4;
    }
    true
}

/// Whether a handle stands twice in a list of handles.
#[tactic(auto, using(crate::proofs::Rising::handles_apart))]
fn has_handle_twice(handles: &[u32]) -> bool
    ensures { result ≡ has_twice same_handle handles.now }
{
    if handles_rise(handles) {
        return false;
    }
    for (i, handle) in handles.iter().enumerate() {
        if has_handle(*handle, &handles[i + 1..]) {
            return true;
        }
    }
    false
}

/// Whether a handle may stand twice in a wait: in one for any, where the manager was made so.
fn may_repeat(limits: Limits, mode: Mode) -> bool
    ensures { result ≡ may_repeat limits mode }
{
    match mode {
        Mode::Any => limits.repeats,
        Mode::All => false,
    }
}

/// Whether a list of handles is empty, is longer than 64, or has a handle twice where none may be.
fn is_misshapen(repeats: bool, handles: &[u32]) -> bool
    ensures value { result ≡ is_misshapen repeats handles.now }
{
    handles.is_empty()
        || handles.len() > MAXIMUM_WAIT_OBJECTS
        || (has_handle_twice(handles) && !repeats)
}

/// Whether a handle wasn't granted the right to wait.
fn lacks_synchronize(entry: Entry) -> bool
    ensures { result ≡ lacks_synchronize entry }
{
    !within(Rights::SYNCHRONIZE, entry.rights)
}

/// Writes the objects of handles into an empty list. Refused with 6 where one is no handle of the process, and
/// otherwise with 5 where one wasn't granted SYNCHRONIZE.
fn objects_of<K: PinKeeper>(
    store: &Store<K>,
    process: u32,
    handles: &[u32],
    ids: &mut ArrayVec<Id, 64>,
) -> Result<(), Fault>
    requires table { process < length store.now.state.tables }
    requires at_most { length handles.now ≤ 64 }
    requires empty { ids.old.items ≡ [] }
    ensures value { collected result ids.new ≡ objects_of store.now.state process handles.now }
    ensures refusal { IfErr result (λ fault. fault ≢ Fault.Memory) }
{
    let mut lacks = false;
    for handle in handles {
        let entry = found(store, process, *handle)?;
        ids.push(entry.id);
        lacks = lacks | lacks_synchronize(entry);
    }
    if lacks {
        return Err(Fault::Access);
    }
    Ok(())
}

/// Writes the objects of handles into an empty list, as far as the handles rise and each may be waited for; whether all
/// are there.
fn objects_rise<K: PinKeeper>(
    store: &Store<K>,
    process: u32,
    handles: &[u32],
    ids: &mut ArrayVec<Id, 64>,
) -> bool
    requires table { process < length store.now.state.tables }
    requires at_most { length handles.now ≤ 64 }
    requires empty { ids.old.items ≡ [] }
    ensures apart { result ≡ true → has_twice same_handle handles.now ≡ false }
    ensures value { result ≡ true → Ok ids.new.items ≡ objects_of store.now.state process handles.now }
{
    let places = store.places(process);
    let mut last = 0;
    for handle in handles {
        if *handle / 4 <= last {
            return false;
        }
        last = *handle / 4;
        let Some(entry) = entry_in(places, *handle) else {
            return false;
        };
        if lacks_synchronize(entry) {
            return false;
        }
        ids.push(entry.id);
    }
    true
}

/// Writes the objects of handles into a list, whose order or rights may be any.
#[inline(never)]
fn collect_any<K: PinKeeper>(
    store: &Store<K>,
    process: u32,
    mode: Mode,
    handles: &[u32],
    ids: &mut ArrayVec<Id, 64>,
) -> Result<(), Fault>
    requires table { process < length store.now.state.tables }
    ensures value { collected result ids.new ≡ listed store.now.state process mode handles.now }
    ensures refusal { IfErr result (λ fault. fault ≢ Fault.Memory) }
{
    if is_misshapen(may_repeat(store.limits(), mode), handles) {
        return Err(Fault::Parameter);
    }
    ids.clear();
    objects_of(store, process, handles, ids)
}

/// Writes the objects of a list of handles into an empty list: at once where the handles rise, as they mostly do.
#[inline(always)]
fn collect<K: PinKeeper>(
    store: &Store<K>,
    process: u32,
    mode: Mode,
    handles: &[u32],
    ids: &mut ArrayVec<Id, 64>,
) -> Result<(), Fault>
    requires table { process < length store.now.state.tables }
    requires empty { ids.old.items ≡ [] }
    ensures value { collected result ids.new ≡ listed store.now.state process mode handles.now }
    ensures refusal { IfErr result (λ fault. fault ≢ Fault.Memory) }
{
    if handles.is_empty() || handles.len() > MAXIMUM_WAIT_OBJECTS {
        return Err(Fault::Parameter);
    }
    if objects_rise(store, process, handles, ids) {
        return Ok(());
    }
    collect_any(store, process, mode, handles, ids)
}

/// Whether an object stands in a list.
fn has_object(id: Id, others: &[Id]) -> bool
    ensures { result ≡ list_any (same_id id) others.now }
{
    others.iter().any(|other| same_id(id, *other))
}

/// Whether each object's slot is above that of the one before it: then none stands twice.
fn slots_rise(ids: &[Id]) -> bool
    ensures { result ≡ rise place_of_object 0 ids.now }
{
    let mut last = 0;
    for id in ids {
        let place = u64::from(id.slot) + 1;
        if place <= last {
            return false;
        }
        last = place;
    }
    true
}

/// Whether an object stands twice in a list.
#[tactic(auto, using(crate::proofs::Rising::objects_apart))]
fn has_object_twice(ids: &[Id]) -> bool
    ensures { result ≡ has_twice same_id ids.now }
{
    if slots_rise(ids) {
        return false;
    }
    for (i, id) in ids.iter().enumerate() {
        if has_object(*id, &ids[i + 1..]) {
            return true;
        }
    }
    false
}

/// Whether a wait for all is for one object twice.
#[inline(always)]
fn is_for_one_twice(mode: Mode, ids: &[Id]) -> bool
    ensures { result ≡ is_for_one_twice mode ids.now }
{
    match mode {
        Mode::Any => false,
        Mode::All => has_object_twice(ids),
    }
}

/// Whether no object is a mutex that the thread owns as often as the limit lets.
#[inline(never)]
fn each_has_room<K: PinKeeper>(store: &Store<K>, thread: u32, ids: &[Id]) -> bool
    ensures { result ≡ have_room store.now.state thread ids.now }
{
    for id in ids {
        if let Some(body) = store.body(*id) {
            if !body.has_room(thread, store.limits().max_recursion) {
                return false;
            }
        }
    }
    true
}

/// Whether no object is a mutex at its limit; where the thread owns none, no object is looked at.
#[inline(always)]
#[tactic(auto, using(crate::proofs::Waited::room_unowned))]
fn have_room<K: PinKeeper>(store: &Store<K>, thread: u32, ids: &[Id]) -> bool
    ensures { result ≡ have_room store.now.state thread ids.now }
{
    if store.owns_none(thread) {
        return true;
    }
    each_has_room(store, thread, ids)
}

/// Whether a wait never becomes pending.
#[inline(always)]
fn is_zero(now: u64, timeout: Timeout) -> bool
    requires { now ≤ LAST_MOMENT }
    ensures { result ≡ is_zero now timeout }
{
    match timeout {
        Timeout::Zero => true,
        Timeout::Infinite => false,
        Timeout::Millis(millis) => millis == 0,
        Timeout::Until(due) => moment_of(now, due) <= now,
    }
}

/// The deadline of a wait that becomes pending now.
#[inline(always)]
fn deadline_in(now: u64, timeout: Timeout) -> Option<u64>
    requires { now ≤ LAST_MOMENT }
    ensures { result ≡ deadline_in now timeout }
{
    match timeout {
        Timeout::Millis(millis) if millis < u32::MAX => Some(now + 10_000 * u64::from(millis)),
        Timeout::Until(due) => {
            let moment = moment_of(now, due);
            if now < moment { Some(moment) } else { None }
        }
        _ => None,
    }
}

/// Until when a wait lasts: what never becomes pending has no deadline.
fn lasts_until(now: u64, timeout: Timeout) -> Option<u64>
    requires { now ≤ LAST_MOMENT }
    ensures value { result ≡ lasts_until now timeout }
    ensures ahead { IsAfter now result }
{
    if is_zero(now, timeout) {
        return None;
    }
    deadline_in(now, timeout)
}

/// Waits for objects: takes what satisfies the wait now, or lets it become pending.
#[inline(always)]
fn wait_on<K: PinKeeper>(
    store: &mut Store<K>,
    thread: u32,
    mode: Mode,
    timeout: Timeout,
    ids: &[Id],
) -> Result<Reply, Fault>
    requires not_empty { mode ≡ Mode.All → 0 < length ids.now }
    requires at_most { length ids.now ≤ 64 }
    requires alone { number_of thread store.old.state.waits ≡ None }
    requires live { IsSome (slice_index_or store.old.state.threads thread None) }
    requires is_there { (i : ℕ) → i < length ids.now
        → 0 < handles_of store.old.state (slice_index_or ids.now i nowhere) }
    ensures gives { GivesOrLacks result store.old store.new (wait_on store.old.state thread mode timeout ids.now) }
    ensures memory { result ≡ Err Fault.Memory → becomes_pending (wait_on store.old.state thread mode timeout ids.now)
        ≡ true }
{
    // Called for its clause: that an object's slot has no other object.
    store.kept();
    if is_for_one_twice(mode, ids) {
        return Err(Fault::Parameter);
    }
    if !have_room(store, thread, ids) {
        return Err(Fault::Limit);
    }
    if let Some(code) = store.take_now(thread, mode, ids) {
        return Ok(Reply::Code { code });
    }
    if is_zero(store.now(), timeout) {
        return Ok(Reply::Code { code: WAIT_TIMEOUT });
    }
    let deadline = deadline_in(store.now(), timeout);
    let wait = store.add_wait(thread, mode, ids, deadline)?;
    Ok(Reply::Pending { wait })
}

/// Has a thread wait for the object of one handle, without making a list.
#[inline(always)]
fn wait_for_one<K: PinKeeper>(
    store: &mut Store<K>,
    process: u32,
    thread: u32,
    mode: Mode,
    timeout: Timeout,
    handle: u32,
) -> Result<Reply, Fault>
    requires caller { caller store.old.state thread ≡ Ok process }
    requires table { process < length store.old.state.tables }
    requires live { IsSome (slice_index_or store.old.state.threads thread None) }
    requires alone { number_of thread store.old.state.waits ≡ None }
    ensures gives { GivesOrLacks result store.old store.new (wait store.old.state thread mode timeout (handle ∷ [])) }
    ensures memory { result ≡ Err Fault.Memory
        → becomes_pending (wait store.old.state thread mode timeout (handle ∷ [])) ≡ true }
{
    let entry = found(store, process, handle)?;
    if lacks_synchronize(entry) {
        return Err(Fault::Access);
    }
    wait_on(store, thread, mode, timeout, &[entry.id])
}

/// Has a thread wait for the objects of some handles, of which it makes a list.
#[inline(never)]
#[tactic(auto, using(crate::proofs::Waited::waits_listed))]
fn wait_for_some<K: PinKeeper>(
    store: &mut Store<K>,
    process: u32,
    thread: u32,
    mode: Mode,
    timeout: Timeout,
    handles: &[u32],
) -> Result<Reply, Fault>
    requires caller { caller store.old.state thread ≡ Ok process }
    requires table { process < length store.old.state.tables }
    requires live { IsSome (slice_index_or store.old.state.threads thread None) }
    requires alone { number_of thread store.old.state.waits ≡ None }
    ensures gives { GivesOrLacks result store.old store.new (wait store.old.state thread mode timeout handles.now) }
    ensures memory { result ≡ Err Fault.Memory → becomes_pending (wait store.old.state thread mode timeout handles.now)
        ≡ true }
{
    let mut ids = ArrayVec::new();
    collect(store, process, mode, handles, &mut ids)?;
    wait_on(store, thread, mode, timeout, ids.as_slice())
}

/// Has a thread wait for the objects of handles.
#[inline(always)]
pub fn wait<K: PinKeeper>(
    store: &mut Store<K>,
    thread: u32,
    mode: Mode,
    timeout: Timeout,
    handles: &[u32],
) -> Result<Reply, Fault>
    ensures gives { GivesOrLacks result store.old store.new (wait store.old.state thread mode timeout handles.now) }
    ensures memory { result ≡ Err Fault.Memory → becomes_pending (wait store.old.state thread mode timeout handles.now)
        ≡ true }
{
    let process = caller(store, thread)?;
    if let [handle] = handles {
        return wait_for_one(store, process, thread, mode, timeout, *handle);
    }
    wait_for_some(store, process, thread, mode, timeout, handles)
}

/// Takes the code of a wait that was answered.
#[inline(always)]
pub fn wait_result<K: PinKeeper>(store: &mut Store<K>, wait: u32) -> Result<Reply, Fault>
    ensures { Gives result store.old store.new (wait_result store.old.state wait) }
{
    match store.take_if_answered(wait) {
        None => Err(Fault::Parameter),
        Some(WaitState::Pending) => Ok(Reply::Pending { wait }),
        Some(WaitState::Answered(code)) => Ok(Reply::Code { code }),
    }
}

/// Whether a wait is pending.
pub fn is_pending<K: PinKeeper>(store: &Store<K>, wait: u32) -> bool
    ensures { result ≡ waits.is_pending (slice_index_or store.now.state.waits (wait_number store.now.state wait) None) }
{
    match store.wait_state(wait) {
        Some(WaitState::Pending) => true,
        _ => false,
    }
}

/// Ends a pending wait as if its time were up.
pub fn expire<K: PinKeeper>(store: &mut Store<K>, wait: u32) -> Result<Reply, Fault>
    ensures { Gives result store.old store.new (expire store.old.state wait) }
{
    if !is_pending(store, wait) {
        return Err(Fault::Parameter);
    }
    store.end_wait(wait, WAIT_TIMEOUT);
    Ok(Reply::Expired { wait })
}

/// Ends a pending wait as an alert does.
pub fn alert<K: PinKeeper>(store: &mut Store<K>, wait: u32) -> Result<Reply, Fault>
    ensures { Gives result store.old store.new (alert store.old.state wait) }
{
    if !is_pending(store, wait) {
        return Err(Fault::Parameter);
    }
    store.end_wait(wait, WAIT_IO_COMPLETION);
    Ok(Reply::Done)
}

/// Has a thread wait for nothing, until its time is up.
#[inline(never)]
pub fn sleep<K: PinKeeper>(
    store: &mut Store<K>,
    thread: u32,
    timeout: Timeout,
) -> Result<Reply, Fault>
    ensures gives { GivesOrLacks result store.old store.new (sleep store.old.state thread timeout) }
    ensures memory { result ≡ Err Fault.Memory → becomes_pending (sleep store.old.state thread timeout) ≡ true }
{
    caller(store, thread)?;
    wait_on(store, thread, Mode::Any, timeout, &[])
}

/// Makes of a body what a signal does: an event is set, a semaphore raised by 1, a mutex released.
fn signal(thread: u32, entry: Entry, body: &mut Body) -> Result<(), Fault>
    ensures value { signaled result body.new ≡ after_signal thread entry (Some body.old) }
    ensures yields { OnOk result ((clock : ℕ) → Yields clock body.old body.new) }
    ensures refusal { IfErr result (λ fault. fault ≢ Fault.Memory) }
{
    match body.kind() {
        Kind::Event => {
            granted(Rights::MODIFY_STATE, entry)?;
            body.set();
        }
        Kind::Semaphore => {
            granted(Rights::MODIFY_STATE, entry)?;
            body.post(1)?;
        }
        Kind::Mutex => body.unlock(thread)?,
        _ => return Err(Fault::Handle),
    }
    Ok(())
}

/// What the wait of a signal and a wait is answered with, or that it is pending.
fn told_at(wait: u32, stands: Option<WaitState>) -> Reply
    ensures { result ≡ told_at wait stands }
{
    match stands {
        Some(WaitState::Answered(code)) => Reply::Code { code },
        _ => Reply::Signaled { wait },
    }
}

/// Gives an object the body by which it is signaled as a thread begins to wait for another.
fn give_and_wait<K: PinKeeper>(
    store: &mut Store<K>,
    thread: u32,
    timeout: Timeout,
    waited: Id,
    signaled: Id,
    before: Body,
    after: Body,
) -> Result<Reply, Fault>
    requires room { have_room store.old.state thread (waited ∷ []) ≡ true }
    requires alone { number_of thread store.old.state.waits ≡ None }
    requires live { IsSome (slice_index_or store.old.state.threads thread None) }
    requires handled { 0 < handles_of store.old.state waited }
    requires bodied { slice_index_or store.old.state.bodies signaled.slot None ≡ Some before }
    requires yields { Yields store.old.state.clock before after }
    ensures gives { GivesOrLacks result store.old store.new (give_and_wait store.old.state thread timeout waited signaled after) }
    ensures memory { result ≡ Err Fault.Memory → are_waits_given store.old.state ≡ false }
{
    let at_once = is_zero(store.now(), timeout);
    let deadline = lasts_until(store.now(), timeout);
    let (wait, stands) = store.signal_and_wait(
        thread, waited, at_once, deadline, signaled, before, after,
    )?;
    Ok(told_at(wait, stands))
}

/// Signals the object of one handle and has the thread wait for that of another, as one call.
#[inline(never)]
pub fn signal_and_wait<K: PinKeeper>(
    store: &mut Store<K>,
    thread: u32,
    to_signal: u32,
    timeout: Timeout,
    handle: u32,
) -> Result<Reply, Fault>
    ensures gives { GivesOrLacks result store.old store.new
        (signal_and_wait store.old.state thread to_signal timeout handle) }
    ensures memory { result ≡ Err Fault.Memory
        → is_ok (signal_and_wait store.old.state thread to_signal timeout handle) ≡ true }
{
    let process = caller(store, thread)?;
    let signaled = found(store, process, to_signal)?;
    let waited = found(store, process, handle)?;
    if lacks_synchronize(waited) {
        return Err(Fault::Access);
    }
    let before = store.body(signaled.id).ok_or(Fault::Handle)?;
    let mut after = before;
    signal(thread, signaled, &mut after)?;
    if !have_room(store, thread, &[waited.id]) {
        return Err(Fault::Limit);
    }
    give_and_wait(
        store,
        thread,
        timeout,
        waited.id,
        signaled.id,
        before,
        after,
    )
}
