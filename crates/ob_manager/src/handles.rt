ghost use Rattle.std.specs.Prelude.{◌≡◌};
ghost use Rattle.ob_manager.specs.Handles.{close, entry_of, handle_flags, resolve, set_handle_flags};
ghost use Rattle.ob_manager.specs.Steps.{Gives};

use crate::checks::{caller, found};
use crate::reply::Reply;
use ob_rights::Fault;
use ob_store::Store;
use ob_tables::Entry;
use pin_core::Id;
use pin_words::PinKeeper;

/// All flags that there are: INHERIT and PROTECT_FROM_CLOSE.
const FLAGS: u32 = 3;

/// Closes a handle of the thread's process.
pub fn close<K: PinKeeper>(store: &mut Store<K>, thread: u32, handle: u32) -> Result<Reply, Fault>
    ensures { Gives result store.old store.new (close store.old.state thread handle) }
{
    let process = caller(store, thread)?;
    let entry = found(store, process, handle)?;
    if entry.flags.is_protected() {
        return Err(Fault::Handle);
    }
    store.remove_entry(process, handle, entry);
    Ok(Reply::Closed)
}

/// The flags of a handle of the thread's process.
pub fn handle_flags<K: PinKeeper>(
    store: &Store<K>,
    thread: u32,
    handle: u32,
) -> Result<Reply, Fault>
    ensures { Gives result store.now store.now (handle_flags store.now.state thread handle) }
{
    let process = caller(store, thread)?;
    let entry = found(store, process, handle)?;
    Ok(Reply::Flags {
        bits: entry.flags.0,
    })
}

/// Sets those flags of a handle that are in a mask.
pub fn set_handle_flags<K: PinKeeper>(
    store: &mut Store<K>,
    thread: u32,
    handle: u32,
    mask: u32,
    flags: u32,
) -> Result<Reply, Fault>
    ensures { Gives result store.old store.new (set_handle_flags store.old.state thread handle mask flags) }
{
    let process = caller(store, thread)?;
    if mask > FLAGS {
        return Err(Fault::Parameter);
    }
    let entry = found(store, process, handle)?;
    store.set_flags(process, handle, entry.flags.changed(mask, flags));
    Ok(Reply::Done)
}

/// What a handle of a process has: its object, its rights and its flags.
pub fn entry<K: PinKeeper>(store: &Store<K>, process: u32, handle: u32) -> Result<Entry, Fault>
    ensures { result ≡ entry_of store.now.state process handle }
{
    if store.session(process).is_none() {
        return Err(Fault::Parameter);
    }
    found(store, process, handle)
}

/// The object that a handle of a process names.
pub fn resolve<K: PinKeeper>(store: &Store<K>, process: u32, handle: u32) -> Result<Id, Fault>
    ensures { result ≡ resolve store.now.state process handle }
{
    Ok(entry(store, process, handle)?.id)
}
