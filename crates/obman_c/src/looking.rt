//! What there is, and what state it is in, for debuggers and monitors and for whoever runs the guests. Nothing is
//! changed.
ghost use Rattle.std.specs.Prelude.{◌≡◌, ◌+◌, ◌++◌, ◌≤◌, None, drop, length, map, slice_index_or};
ghost use Rattle.std.specs.Option.{option_map};
ghost use Rattle.least.specs.From.{IsLeastFrom};
ghost use Rattle.ob_waits.specs.Waits.{number_of};
ghost use Rattle.ob_store.specs.Room.{room_of};
ghost use Rattle.ob_store.specs.Waiting.{wait_name, wait_number};
ghost use Rattle.ob_store.specs.Walking.{is_process, is_thread_of};
ghost use Rattle.ob_manager.specs.Handles.{entry_of};
ghost use Rattle.ob_manager.specs.States.{state_of};
ghost use Rattle.obman_c.specs.Asking.{number_at};
ghost use Rattle.obman_c.specs.HostData.{kind_in};
ghost use Rattle.obman_c.specs.Looking.{FindsEntry, IdsTell, NextHandle, NextObject, SessionTold, TellsState, TellsStateOf};
ghost use Rattle.obman_c.specs.Looking.{WaitTells, c_room, handle_entry, or_zero, pending_wait, places, c_object_state_of};
ghost use Rattle.obman_c.specs.Pinning.{id_at};
ghost use Rattle.obman_c.specs.Telling.{object_of};

use crate::pinning::id_at;
use crate::status::NO_MORE;
use crate::values::{Object, object_of};
use ob_manager::{Manager, Mode, ObjectState};
use ob_rights::{Fault, code_of};
use ob_tables::Entry;
use obman_c_base::{ManagerOwner, SUCCESS, TOO_SMALL};
use pin_core::Id;
use pin_words::Keeper;

/// What state an object is in (`om_object_state`). What its kind hasn't is 0.
#[repr(C)]
#[derive(Clone, Copy)]
pub struct CObjectState {
    /// The moment at which a timer is due, in units of 100 ns.
    pub due: u64,
    /// Its kind: an event 0, a mutex 1, a semaphore 2, a timer 3, a host's object 256 + its type; 4 once it has ended.
    pub kind: u32,
    /// The count of a semaphore; how often a mutex is owned.
    pub count: u32,
    /// The maximum of a semaphore.
    pub max: u32,
    /// The thread that owns a mutex, or 0.
    pub owner: u32,
    /// Whether it is signaled: an event or a host's object is set, a mutex isn't owned, a semaphore has a count, a
    /// timer's moment has come.
    pub signaled: bool,
    /// Whether the last owner of a mutex ended.
    pub abandoned: bool,
    /// Whether a timer is set for a moment to come.
    pub has_due: bool,
}

/// A handle with what it names (`om_entry`).
#[repr(C)]
#[derive(Clone, Copy)]
pub struct HandleEntry {
    /// The object.
    pub object: Object,
    /// The handle.
    pub handle: u32,
    /// The rights that it grants.
    pub access: u32,
    /// Its flags.
    pub flags: u32,
}

/// What a pending wait is for, but for its objects (`om_pending`).
#[repr(C)]
#[derive(Clone, Copy)]
pub struct PendingWait {
    /// The moment at which its time is up, in units of 100 ns.
    pub deadline: u64,
    /// The thread that waits.
    pub thread: u32,
    /// Whether all objects together satisfy it, and not one of them.
    pub all: bool,
    /// Whether its time is ever up.
    pub has_deadline: bool,
}

/// What can still come (`om_room`).
#[repr(C)]
#[derive(Clone, Copy)]
pub struct CRoom {
    /// Vacant slots.
    pub slots: u32,
    /// Process numbers.
    pub processes: u32,
    /// Thread numbers.
    pub threads: u32,
    /// Handles of one process.
    pub handles: u32,
    /// Wait numbers: 4,294,967,295 where they come back.
    pub waits: u32,
}

/// The state of an object that has ended.
const ENDED: CObjectState = CObjectState {
    due: 0,
    kind: 4,
    count: 0,
    max: 0,
    owner: 0,
    signaled: false,
    abandoned: false,
    has_due: false,
};

/// A number, or 0 for none.
fn or_zero(number: Option<u32>) -> u32
    ensures { result ≡ or_zero number }
{
    match number {
        Some(number) => number,
        None => 0,
    }
}

/// A state as C is told of it.
fn c_object_state_of(state: ObjectState) -> CObjectState
    ensures { result ≡ c_object_state_of state }
{
    match state {
        ObjectState::Event { set } => CObjectState {
            kind: 0,
            signaled: set,
            ..ENDED
        },
        ObjectState::Mutex {
            owner,
            recursion,
            abandoned,
        } => CObjectState {
            kind: 1,
            count: recursion,
            owner: or_zero(owner),
            signaled: owner.is_none(),
            abandoned,
            ..ENDED
        },
        ObjectState::Semaphore { count, max } => CObjectState {
            kind: 2,
            count,
            max,
            signaled: count > 0,
            ..ENDED
        },
        ObjectState::Timer { signaled, due } => CObjectState {
            kind: 3,
            due: due.unwrap_or(0),
            signaled,
            has_due: due.is_some(),
            ..ENDED
        },
        ObjectState::Host {
            object_type,
            signaled,
        } => CObjectState {
            kind: 256 + u32::from(object_type),
            signaled,
            ..ENDED
        },
        ObjectState::Ended => ENDED,
    }
}

/// The kind of an object, as [`CObjectState`] has it.
pub(crate) fn kind_at(manager: &Manager<Keeper>, id: Id) -> u32
    ensures { result ≡ kind_in (state_of manager.now.state id) }
{
    match manager.state_of(id) {
        Some(state) => c_object_state_of(state).kind,
        None => ENDED.kind,
    }
}

/// A handle's entry as C is told of it.
fn handle_entry(handle: u32, entry: Entry) -> HandleEntry
    ensures { result ≡ handle_entry (handle, entry) }
{
    HandleEntry {
        object: object_of(entry.id),
        handle,
        access: entry.rights.0,
        flags: entry.flags.0,
    }
}

/// Tells what state an object is in.
fn tell_state(found: Option<ObjectState>, state: &mut CObjectState) -> u32
    ensures { TellsState found result state.old state.new }
{
    match found {
        Some(found) => {
            *state = c_object_state_of(found);
            SUCCESS
        }
        None => code_of(Fault::Handle),
    }
}

/// [`Manager::state_of`](ob_manager::Manager::state_of): 0, or 6 where there is no such object.
#[unsafe(no_mangle)]
pub extern "C" fn om_state(
    owner: &mut ManagerOwner,
    slot: u32,
    generation: u32,
    state: &mut CObjectState,
) -> u32
    ensures stands { TellsState (state_of owner.old.value.manager.state
        (id_at slot generation)) result state.old state.new }
    ensures same { owner.new.value ≡ owner.old.value }
{
    tell_state(
        owner.lend().manager.state_of(id_at(slot, generation)),
        state,
    )
}

/// What state the object is in that a handle names: 0, 87 where no such process lives, or 6 where there is no such
/// handle.
#[unsafe(no_mangle)]
pub extern "C" fn om_handle_state(
    owner: &mut ManagerOwner,
    process: u32,
    handle: u32,
    state: &mut CObjectState,
) -> u32
    ensures stands { TellsStateOf owner.old.value.manager.state
        (entry_of owner.old.value.manager.state process handle) result state.old state.new }
    ensures same { owner.new.value ≡ owner.old.value }
{
    let held = owner.lend();
    match held.manager.handle(process, handle) {
        Ok(entry) => tell_state(held.manager.state_of(entry.id), state),
        Err(fault) => code_of(fault),
    }
}

/// [`Manager::handle`](ob_manager::Manager::handle): 0, 87 or 6.
#[unsafe(no_mangle)]
pub extern "C" fn om_handle(
    owner: &mut ManagerOwner,
    process: u32,
    handle: u32,
    entry: &mut HandleEntry,
) -> u32
    ensures finds { FindsEntry handle (entry_of owner.old.value.manager.state process handle) result
        entry.old entry.new }
    ensures same { owner.new.value ≡ owner.old.value }
{
    match owner.lend().manager.handle(process, handle) {
        Ok(found) => {
            *entry = handle_entry(handle, found);
            SUCCESS
        }
        Err(fault) => code_of(fault),
    }
}

/// [`Manager::room`](ob_manager::Manager::room): 0.
#[unsafe(no_mangle)]
pub extern "C" fn om_room_of(owner: &mut ManagerOwner, process: u32, room: &mut CRoom) -> u32
    ensures answer { result ≡ 0 }
    ensures left { room.new ≡ c_room (room_of owner.old.value.manager.state process) }
    ensures same { owner.new.value ≡ owner.old.value }
{
    let left = owner.lend().manager.room(process);
    *room = CRoom {
        slots: left.slots,
        processes: left.processes,
        threads: left.threads,
        handles: left.handles,
        waits: left.waits,
    };
    SUCCESS
}

/// [`Manager::next_process`](ob_manager::Manager::next_process): 0 for none.
#[tactic(auto, using(crate::proofs::Looked::numbered))]
#[unsafe(no_mangle)]
pub extern "C" fn om_next_process(owner: &mut ManagerOwner, after: u32) -> u32
    ensures next { IsLeastFrom (after + 1) (is_process owner.old.value.manager.state) (number_at result) }
    ensures same { owner.new.value ≡ owner.old.value }
{
    or_zero(owner.lend().manager.next_process(after))
}

/// [`Manager::next_thread`](ob_manager::Manager::next_thread): 0 for none.
#[tactic(auto, using(crate::proofs::Looked::numbered))]
#[unsafe(no_mangle)]
pub extern "C" fn om_next_thread(owner: &mut ManagerOwner, process: u32, after: u32) -> u32
    ensures next { IsLeastFrom (after + 1) (is_thread_of owner.old.value.manager.state process) (number_at result) }
    ensures same { owner.new.value ≡ owner.old.value }
{
    or_zero(owner.lend().manager.next_thread(process, after))
}

/// [`Manager::next_object`](ob_manager::Manager::next_object): 0, or 259 behind the last.
#[tactic(auto, using(crate::proofs::Looked::object_next))]
#[unsafe(no_mangle)]
pub extern "C" fn om_next_object(owner: &mut ManagerOwner, from: u32, object: &mut Object) -> u32
    ensures next { NextObject owner.old.value.manager.state from result object.old object.new }
    ensures same { owner.new.value ≡ owner.old.value }
{
    match owner.lend().manager.next_object(from) {
        Some(id) => {
            *object = object_of(id);
            SUCCESS
        }
        None => NO_MORE,
    }
}

/// [`Manager::next_handle`](ob_manager::Manager::next_handle): 0, or 259 behind the last.
#[tactic(auto, using(crate::proofs::Looked::handle_next))]
#[unsafe(no_mangle)]
pub extern "C" fn om_next_handle(
    owner: &mut ManagerOwner,
    process: u32,
    after: u32,
    entry: &mut HandleEntry,
) -> u32
    ensures next { NextHandle owner.old.value.manager.state process after result entry.old entry.new }
    ensures same { owner.new.value ≡ owner.old.value }
{
    match owner.lend().manager.next_handle(process, after) {
        Some((handle, found)) => {
            *entry = handle_entry(handle, found);
            SUCCESS
        }
        None => NO_MORE,
    }
}

/// [`Manager::process_of`](ob_manager::Manager::process_of): 0 where the thread isn't live.
#[unsafe(no_mangle)]
pub extern "C" fn om_process_of(owner: &mut ManagerOwner, thread: u32) -> u32
    ensures process { result ≡ or_zero (slice_index_or owner.old.value.manager.state.threads thread None) }
    ensures same { owner.new.value ≡ owner.old.value }
{
    or_zero(owner.lend().manager.process_of(thread))
}

/// [`Manager::session_of`](ob_manager::Manager::session_of): 0, or 87 where the process isn't live.
#[unsafe(no_mangle)]
pub extern "C" fn om_session_of(owner: &mut ManagerOwner, process: u32, session: &mut u32) -> u32
    ensures session { SessionTold (slice_index_or owner.old.value.manager.state.processes process None) result
        session.old session.new }
    ensures same { owner.new.value ≡ owner.old.value }
{
    match owner.lend().manager.session_of(process) {
        Some(number) => {
            *session = number;
            SUCCESS
        }
        None => code_of(Fault::Parameter),
    }
}

/// [`Manager::wait_of`](ob_manager::Manager::wait_of): 0 where the thread has no wait.
#[unsafe(no_mangle)]
pub extern "C" fn om_wait_of(owner: &mut ManagerOwner, thread: u32) -> u32
    ensures wait { result ≡ or_zero (option_map (wait_name owner.old.value.manager.state thread)
        (number_of thread owner.old.value.manager.state.waits)) }
    ensures same { owner.new.value ≡ owner.old.value }
{
    or_zero(owner.lend().manager.wait_of(thread))
}

/// [`Manager::now`](ob_manager::Manager::now).
#[unsafe(no_mangle)]
pub extern "C" fn om_now(owner: &mut ManagerOwner) -> u64
    ensures moment { result ≡ owner.old.value.manager.state.clock }
    ensures same { owner.new.value ≡ owner.old.value }
{
    owner.lend().manager.now()
}

/// A pending wait as C is told of it, but for its objects.
fn pending_wait(thread: u32, mode: Mode, deadline: Option<u64>) -> PendingWait
    ensures { result ≡ pending_wait thread mode deadline }
{
    PendingWait {
        deadline: deadline.unwrap_or(0),
        thread,
        all: matches!(mode, Mode::All),
        has_deadline: deadline.is_some(),
    }
}

/// Writes objects at the front of places that are enough for them.
fn put_objects(ids: &[Id], objects: &mut [Object])
    requires { length ids.now ≤ length objects.old }
    ensures { objects.new ≡ map object_of ids.now ++ drop (length ids.now) objects.old }
{
    for at in 0..ids.len() {
        objects[at] = object_of(ids[at]);
    }
}

/// Tells of a wait's objects: 0, or 122 where they don't fit.
fn tell_ids(ids: &[Id], objects: &mut [Object]) -> u32
    ensures { IdsTell ids.now result objects.old objects.new }
{
    if ids.len() > objects.len() {
        return TOO_SMALL;
    }
    put_objects(ids, objects);
    SUCCESS
}

/// [`Manager::objects_waited_for`](ob_manager::Manager::objects_waited_for): 0, or 87 where no such wait is pending, or
/// 122 where the objects don't fit; `count` then says how many there are.
#[tactic(auto, using(crate::proofs::Looked::waited, crate::proofs::Looked::unwaited))]
#[unsafe(no_mangle)]
pub extern "C" fn om_objects_waited_for(
    owner: &mut ManagerOwner,
    wait: u32,
    pending: &mut PendingWait,
    objects: &mut [Object],
    count: &mut usize,
) -> u32
    ensures told { WaitTells (slice_index_or owner.old.value.manager.state.waits
        (wait_number owner.old.value.manager.state wait) None) result
        (places pending.old objects.old count.old) (places pending.new objects.new count.new) }
    ensures same { owner.new.value ≡ owner.old.value }
{
    match owner.lend().manager.objects_waited_for(wait) {
        Some(found) => {
            *pending = pending_wait(found.thread, found.mode, found.deadline);
            *count = found.ids.len();
            tell_ids(found.ids, objects)
        }
        None => code_of(Fault::Parameter),
    }
}
