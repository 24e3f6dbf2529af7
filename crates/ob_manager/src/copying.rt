ghost use Rattle.std.specs.Prelude.{◌≡◌, ◌<◌, ◌&&◌, ℕ, true, IfErr, IfOk, OnErr, OnOk, Some};
ghost use Rattle.ob_rights.specs.declared.fault.Fault.TheVariants.{Memory};
ghost use Rattle.ob_tables.specs.Table.{entry_at};
ghost use Rattle.ob_tables.specs.Tables.{table_of};
ghost use Rattle.ob_store.specs.State.{handles_of};
ghost use Rattle.ob_manager.specs.Copying.{closes, copied, copied_to, copy_rights, duplicate, is_copy};
ghost use Rattle.ob_manager.specs.Copying.{is_stuck, is_wrong, keeps_rights, leaves};
ghost use Rattle.ob_manager.specs.Creating.{takes_place};
ghost use Rattle.ob_manager.specs.Steps.{Copies, Duplicates};

use crate::checks::{caller, found};
use crate::creating::flags_of;
use crate::door::reply_of;
use crate::reply::Reply;
use ob_rights::{Fault, Rights, within};
use ob_store::Store;
use ob_tables::Entry;
use pin_words::PinKeeper;
use std::alloc::AllocError;

/// The option `DUPLICATE_CLOSE_SOURCE`.
const CLOSE_SOURCE: u32 = 1;

/// The option `DUPLICATE_SAME_ACCESS`.
const SAME_ACCESS: u32 = 2;

/// Whether the options ask for the source to be closed.
fn closes(options: u32) -> bool
    ensures { result ≡ closes options }
{
    options & CLOSE_SOURCE == CLOSE_SOURCE
}

/// Whether the source is closed: that is asked for, and the source isn't protected from it.
fn leaves(options: u32, entry: Entry) -> bool
    ensures { result ≡ leaves options entry }
{
    closes(options) && !entry.flags.is_protected()
}

/// Whether there is nothing to do but to close the source, which is protected from that.
fn is_stuck(target: Option<u32>, entry: Entry) -> bool
    ensures { result ≡ is_stuck target entry }
{
    target.is_none() && entry.flags.is_protected()
}

/// Whether the copy has the rights of the source.
fn keeps_rights(options: u32) -> bool
    ensures { result ≡ keeps_rights options }
{
    options & SAME_ACCESS == SAME_ACCESS
}

/// Whether a bit is set that is no option, or there is nothing to do: no copy and no close.
fn is_wrong(options: u32, target: Option<u32>) -> bool
    ensures { result ≡ is_wrong options target }
{
    options > 3 || (target.is_none() && !closes(options))
}

/// The rights of a copy; refused with 5 where it would have one that it may not get.
fn copy_rights<K: PinKeeper>(
    store: &Store<K>,
    entry: Entry,
    mask: Rights,
    options: u32,
) -> Result<Rights, Fault>
    ensures { result ≡ copy_rights store.now.state entry mask options }
{
    if keeps_rights(options) {
        return Ok(entry.rights);
    }
    let Some(found) = store.object(entry.id.slot) else {
        return Err(Fault::Handle);
    };
    if within(mask, Rights(entry.rights.0 | found.header.grant.0)) {
        return Ok(mask);
    }
    Err(Fault::Access)
}

/// Makes a copy of an entry in a target process. The outer error is want of memory.
fn copied<K: PinKeeper>(
    store: &mut Store<K>,
    entry: Entry,
    target: u32,
    mask: Rights,
    inherit: bool,
    options: u32,
) -> Result<Result<Reply, Fault>, AllocError>
    requires { 0 < handles_of store.old.state entry.id }
    ensures ok { IfOk result (λ answer. Copies answer store.old store.new
        (copied store.old.state entry target mask inherit options)) }
    ensures memory { OnErr result (is_copy (copied store.old.state entry target mask inherit options) ≡ true) }
    ensures place { OnErr result (takes_place store.old.state (Some target) ≡ true) }
    ensures err { OnErr result (store.new ≡ store.old) }
    ensures stays { (source handle : ℕ) (other : Entry)
        → entry_at (table_of store.old.state.tables source) handle ≡ Some other
        → entry_at (table_of store.new.state.tables source) handle ≡ Some other }
{
    if store.session(target).is_none() {
        return Ok(Err(Fault::Parameter));
    }
    let rights = match copy_rights(store, entry, mask, options) {
        Ok(rights) => rights,
        Err(fault) => return Ok(Err(fault)),
    };
    let id = entry.id;
    let flags = flags_of(inherit);
    match store.place_entry(target, Entry { id, rights, flags }) {
        Ok(handle) => return Ok(Ok(Reply::Duplicated { handle, id })),
        Err(Fault::Memory) => return Err(AllocError),
        Err(fault) => return Ok(Err(fault)),
    }
}

/// A duplicate with or without a target: without one nothing is copied. The outer error is want of memory.
fn copied_to<K: PinKeeper>(
    store: &mut Store<K>,
    entry: Entry,
    target: Option<u32>,
    mask: Rights,
    inherit: bool,
    options: u32,
) -> Result<Result<Reply, Fault>, AllocError>
    requires { 0 < handles_of store.old.state entry.id }
    ensures ok { IfOk result (λ answer. Copies answer store.old store.new
        (copied_to store.old.state entry target mask inherit options)) }
    ensures memory { OnErr result (is_copy (copied_to store.old.state entry target mask inherit options) ≡ true) }
    ensures place { OnErr result (takes_place store.old.state target ≡ true) }
    ensures err { OnErr result (store.new ≡ store.old) }
    ensures stays { (source handle : ℕ) (other : Entry)
        → entry_at (table_of store.old.state.tables source) handle ≡ Some other
        → entry_at (table_of store.new.state.tables source) handle ≡ Some other }
{
    match target {
        Some(target) => copied(store, entry, target, mask, inherit, options),
        None => Ok(Ok(Reply::Closed)),
    }
}

/// Duplicates a handle of the source process into the target.
pub fn duplicate<K: PinKeeper>(
    store: &mut Store<K>,
    thread: u32,
    source: u32,
    handle: u32,
    target: Option<u32>,
    mask: Rights,
    inherit: bool,
    options: u32,
) -> Result<Reply, Fault>
    ensures outcome { Duplicates result store.old store.new
        (duplicate store.old.state thread source handle target mask inherit options) }
    ensures memory { IfErr result (λ fault. fault ≡ Memory
        → is_copy (duplicate store.old.state thread source handle target mask inherit options)
        && takes_place store.old.state target ≡ true) }
{
    caller(store, thread)?;
    if store.session(source).is_none() {
        return Err(Fault::Parameter);
    }
    if is_wrong(options, target) {
        return Err(Fault::Parameter);
    }
    let entry = found(store, source, handle)?;
    if is_stuck(target, entry) {
        return Err(Fault::Handle);
    }
    let answer = copied_to(store, entry, target, mask, inherit, options)?;
    if leaves(options, entry) {
        store.remove_entry(source, handle, entry);
        return Ok(reply_of(answer));
    }
    // Called for its clause: that nothing is left to settle.
    store.kept();
    answer
}
