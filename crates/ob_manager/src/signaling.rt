ghost use Rattle.std.specs.Prelude.{◌≡◌, IfOk, None, Some, true, slice_index_or};
ghost use Rattle.ob_body.specs.Body as spec;
ghost use Rattle.ob_manager.specs.Signaling.{pulse_event, release_mutex, release_semaphore, reset_event, set_event, signal_host};
ghost use Rattle.ob_manager.specs.Signaling.{host_of};
ghost use Rattle.ob_manager.specs.Steps.{Gives};

use crate::checks::{body_of, caller, found, granted, positive};
use crate::reply::Reply;
use ob_body::Body;
use ob_rights::{Fault, Kind, Rights};
use ob_store::Store;
use pin_core::Id;
use pin_words::PinKeeper;

// An event is matched where it is found: a body that is handed on whole is copied piece by piece.

/// Sets an event.
#[inline(always)]
pub fn set_event<K: PinKeeper>(
    store: &mut Store<K>,
    thread: u32,
    handle: u32,
) -> Result<Reply, Fault>
    ensures { Gives result store.old store.new (set_event store.old.state thread handle) }
{
    let process = caller(store, thread)?;
    let entry = found(store, process, handle)?;
    let Some(Body::Event(event)) = store.body(entry.id) else {
        return Err(Fault::Handle);
    };
    granted(Rights::MODIFY_STATE, entry)?;
    store.set(entry.id, Body::Event(event));
    Ok(Reply::Done)
}

/// Resets an event.
#[inline(always)]
pub fn reset_event<K: PinKeeper>(
    store: &mut Store<K>,
    thread: u32,
    handle: u32,
) -> Result<Reply, Fault>
    ensures { Gives result store.old store.new (reset_event store.old.state thread handle) }
{
    let process = caller(store, thread)?;
    let entry = found(store, process, handle)?;
    let Some(Body::Event(event)) = store.body(entry.id) else {
        return Err(Fault::Handle);
    };
    granted(Rights::MODIFY_STATE, entry)?;
    store.reset(entry.id, Body::Event(event));
    Ok(Reply::Done)
}

/// Sets an event, so that waits are satisfied, and resets it.
pub fn pulse_event<K: PinKeeper>(
    store: &mut Store<K>,
    thread: u32,
    handle: u32,
) -> Result<Reply, Fault>
    ensures { Gives result store.old store.new (pulse_event store.old.state thread handle) }
{
    let process = caller(store, thread)?;
    let entry = found(store, process, handle)?;
    let Some(Body::Event(event)) = store.body(entry.id) else {
        return Err(Fault::Handle);
    };
    granted(Rights::MODIFY_STATE, entry)?;
    store.set(entry.id, Body::Event(event));
    if let Some(Body::Event(event)) = store.body(entry.id) {
        store.reset(entry.id, Body::Event(event));
    }
    Ok(Reply::Done)
}

/// Raises a semaphore's count.
#[inline(always)]
pub fn release_semaphore<K: PinKeeper>(
    store: &mut Store<K>,
    thread: u32,
    handle: u32,
    count: i32,
) -> Result<Reply, Fault>
    ensures { Gives result store.old store.new (release_semaphore store.old.state thread handle count) }
{
    let process = caller(store, thread)?;
    let Some(more) = positive(count) else {
        return Err(Fault::Parameter);
    };
    let entry = found(store, process, handle)?;
    let semaphore = body_of(store, entry.id, Kind::Semaphore)?;
    granted(Rights::MODIFY_STATE, entry)?;
    let count = store.post(entry.id, semaphore, more)?;
    Ok(Reply::Previous { count })
}

/// Releases a mutex once.
pub fn release_mutex<K: PinKeeper>(
    store: &mut Store<K>,
    thread: u32,
    handle: u32,
) -> Result<Reply, Fault>
    ensures { Gives result store.old store.new (release_mutex store.old.state thread handle) }
{
    let process = caller(store, thread)?;
    let entry = found(store, process, handle)?;
    let Some(body) = store.body(entry.id) else {
        return Err(Fault::Handle);
    };
    store.unlock(entry.id, body, thread)?;
    Ok(Reply::Done)
}

/// The body of an object of the host's own; refused with 6 where no such object has the Id.
fn host_of<K: PinKeeper>(store: &Store<K>, id: Id) -> Result<Body, Fault>
    ensures value { result ≡ host_of store.now.state id }
    ensures is_there { IfOk result (λ body. slice_index_or store.now.state.bodies id.slot None ≡ Some body) }
    ensures settable { IfOk result (λ body. spec.is_settable body ≡ true) }
{
    let Some(found) = store.object(id.slot) else {
        return Err(Fault::Handle);
    };
    if found.header.id != id {
        return Err(Fault::Handle);
    }
    match found.header.body {
        Some(Body::Host(host)) => Ok(Body::Host(host)),
        _ => Err(Fault::Handle),
    }
}

/// Signals an object of the host's own, or resets it.
pub fn signal_host<K: PinKeeper>(
    store: &mut Store<K>,
    id: Id,
    signaled: bool,
) -> Result<Reply, Fault>
    ensures { Gives result store.old store.new (signal_host store.old.state id signaled) }
{
    let host = host_of(store, id)?;
    if signaled {
        store.set(id, host);
    } else {
        store.reset(id, host);
    }
    Ok(Reply::Done)
}
