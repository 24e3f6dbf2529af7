//! What the host keeps at objects, threads and processes.
ghost use Rattle.std.specs.Prelude.{◌≡◌, None, OnErr, OnOk, is_some, slice_index_or};
ghost use Rattle.ob_manager.specs.Counting.{card};
ghost use Rattle.ob_manager.specs.Handles.{entry_of};
ghost use Rattle.ob_manager.specs.HostData.{object_data, process_data, thread_data};
ghost use Rattle.ob_manager.specs.HostData.{with_object_data, with_process_data, with_thread_data};
ghost use Rattle.ob_manager.specs.Creating.{find_named};
ghost use Rattle.obman_c.specs.HostData.{FindsHandle, Keeps, named_entry};
ghost use Rattle.obman_c.specs.Pinning.{id_at};

use crate::looking::kind_at;
use crate::pinning::id_at;
use crate::values::{Object, object_of};
use ob_rights::{Fault, HandleFlags, Rights, code_of};
use ob_tables::Entry;
use obman_c_base::{ManagerOwner, OwnedManager, SUCCESS};
use std::alloc::AllocError;

/// What a handle names (`om_handle_info`).
#[repr(C)]
#[derive(Clone, Copy)]
pub struct HandleInfo {
    /// What the host keeps at the object.
    pub value: u64,
    /// The object.
    pub object: Object,
    /// Its kind: an event 0, a mutex 1, a semaphore 2, a timer 3, a host's object 256 and its type.
    pub kind: u32,
    /// The rights that the handle grants.
    pub access: u32,
    /// The handle's flags.
    pub flags: u32,
    /// 0.
    pub reserved: u32,
}

/// The number of what keeping came to.
fn status_of(kept: Result<(), AllocError>) -> u32
    ensures ok { OnOk kept (result ≡ 0) }
    ensures err { OnErr kept (result ≡ 8) }
{
    match kept {
        Ok(()) => SUCCESS,
        Err(_) => code_of(Fault::Memory),
    }
}

/// Keeps a number at an object: 0, 6 where there is no such object, or 8.
#[unsafe(no_mangle)]
pub extern "C" fn om_set_object_data(
    owner: &mut ManagerOwner,
    slot: u32,
    generation: u32,
    value: u64,
) -> u32
    ensures { Keeps (is_some (card owner.old.value.manager.state (id_at slot generation))) 6
        (with_object_data owner.old.value.kept (id_at slot generation) value) result owner.old.value owner.new.value }
{
    let id = id_at(slot, generation);
    let held = owner.lend();
    if held.manager.card(id).is_none() {
        return code_of(Fault::Handle);
    }
    status_of(held.kept.keep_at_object(id, value))
}

/// What is kept at an object: 0 unless something is. That of one that has ended is told until something is kept at a
/// later object of its slot.
#[unsafe(no_mangle)]
pub extern "C" fn om_object_data(owner: &mut ManagerOwner, slot: u32, generation: u32) -> u64
    ensures kept { result ≡ object_data owner.old.value.kept (id_at slot generation) }
    ensures same { owner.new.value ≡ owner.old.value }
{
    owner.lend().kept.object(id_at(slot, generation))
}

/// Keeps a number at a thread: 0, 87 where no such thread lives, or 8.
#[unsafe(no_mangle)]
pub extern "C" fn om_set_thread_data(owner: &mut ManagerOwner, thread: u32, value: u64) -> u32
    ensures { Keeps (is_some (slice_index_or owner.old.value.manager.state.threads thread None)) 87
        (with_thread_data owner.old.value.kept thread value) result owner.old.value owner.new.value }
{
    let held = owner.lend();
    if held.manager.process_of(thread).is_none() {
        return code_of(Fault::Parameter);
    }
    status_of(held.kept.keep_at_thread(thread, value))
}

/// What is kept at a thread: 0 unless something is. That of one that has ended is told until its number comes back.
#[unsafe(no_mangle)]
pub extern "C" fn om_thread_data(owner: &mut ManagerOwner, thread: u32) -> u64
    ensures kept { result ≡ thread_data owner.old.value.kept thread }
    ensures same { owner.new.value ≡ owner.old.value }
{
    owner.lend().kept.thread(thread)
}

/// Keeps a number at a process: 0, 87 where no such process lives, or 8.
#[unsafe(no_mangle)]
pub extern "C" fn om_set_process_data(owner: &mut ManagerOwner, process: u32, value: u64) -> u32
    ensures { Keeps (is_some (slice_index_or owner.old.value.manager.state.processes process None)) 87
        (with_process_data owner.old.value.kept process value) result owner.old.value owner.new.value }
{
    let held = owner.lend();
    if held.manager.session_of(process).is_none() {
        return code_of(Fault::Parameter);
    }
    status_of(held.kept.keep_at_process(process, value))
}

/// What is kept at a process: 0 unless something is. That of one that has ended is told until its number comes back.
#[unsafe(no_mangle)]
pub extern "C" fn om_process_data(owner: &mut ManagerOwner, process: u32) -> u64
    ensures kept { result ≡ process_data owner.old.value.kept process }
    ensures same { owner.new.value ≡ owner.old.value }
{
    owner.lend().kept.process(process)
}

/// Tells what a handle names, or a refusal.
fn tell_entry(held: &OwnedManager, entry: Result<Entry, Fault>, info: &mut HandleInfo) -> u32
    ensures { FindsHandle held.now entry result info.old info.new }
{
    match entry {
        Ok(entry) => {
            *info = HandleInfo {
                value: held.kept.object(entry.id),
                object: object_of(entry.id),
                kind: kind_at(&held.manager, entry.id),
                access: entry.rights.0,
                flags: entry.flags.0,
                reserved: 0,
            };
            SUCCESS
        }
        Err(fault) => code_of(fault),
    }
}

/// What a handle of a process names: 0, 87 where no such process lives, or 6 where there is no such handle.
#[unsafe(no_mangle)]
pub extern "C" fn om_query_handle(
    owner: &mut ManagerOwner,
    process: u32,
    handle: u32,
    info: &mut HandleInfo,
) -> u32
    ensures finds { FindsHandle owner.old.value (entry_of owner.old.value.manager.state process handle) result
        info.old info.new }
    ensures same { owner.new.value ≡ owner.old.value }
{
    let held = owner.lend();
    tell_entry(held, held.manager.handle(process, handle), info)
}

/// What a handle to the object of a name would name, with the object's whole grant.
fn named_entry(held: &OwnedManager, session: u32, name: &[u8]) -> Result<Entry, Fault>
    ensures { result ≡ named_entry held.now (find_named held.now.manager.state session name.now) }
{
    let id = held.manager.find(session, name)?;
    let rights = match held.manager.card(id) {
        Some(card) => card.grant,
        None => Rights(0),
    };
    Ok(Entry {
        id,
        rights,
        flags: HandleFlags(0),
    })
}

/// [`Manager::find`](ob_manager::Manager::find), with what a handle to the object would tell that had its whole grant:
/// 0, 206, 87, 3 or 2.
#[unsafe(no_mangle)]
pub extern "C" fn om_find(
    owner: &mut ManagerOwner,
    session: u32,
    name: &[u8],
    info: &mut HandleInfo,
) -> u32
    ensures finds { FindsHandle owner.old.value (named_entry owner.old.value
        (find_named owner.old.value.manager.state session name.now)) result info.old info.new }
    ensures same { owner.new.value ≡ owner.old.value }
{
    let held = owner.lend();
    let entry = named_entry(held, session, name);
    tell_entry(held, entry, info)
}
