ghost use Rattle.std.specs.Prelude.{◌≡◌, ◌<◌, None, Some, IfOk, length, slice_index_or};
ghost use Rattle.ob_body.specs.Body as spec;
ghost use Rattle.ob_tables.specs.Processes.{IsLive};
ghost use Rattle.ob_tables.specs.Table.{entry_at};
ghost use Rattle.ob_tables.specs.Tables.{table_of};
ghost use Rattle.ob_manager.specs.Checks.{body_of, caller, found, granted, if_kind, is_allowed, natural, positive, same_kind};

use ob_body::Body;
use ob_rights::{Fault, Kind, Rights, within};
use ob_store::Store;
use ob_tables::Entry;
use pin_core::Id;
use pin_words::PinKeeper;

/// The process of a thread that makes a call in its own name: refused with 87 where the thread isn't live, and with 170
/// where it has a wait.
pub fn caller<K: PinKeeper>(store: &Store<K>, thread: u32) -> Result<u32, Fault>
    ensures value { result ≡ caller store.now.state thread }
    ensures process { IfOk result (λ process. slice_index_or store.now.state.threads thread None ≡ Some process) }
    ensures table { IfOk result (λ process. process < length store.now.state.tables) }
    ensures live { IfOk result (λ process. IsLive store.now.state.processes process) }
{
    let Some(process) = store.process(thread) else {
        return Err(Fault::Parameter);
    };
    if store.is_busy(thread) {
        return Err(Fault::Busy);
    }
    Ok(process)
}

/// The entry of a handle of a process that has a table; refused with 6 where there is no such handle.
pub fn found<K: PinKeeper>(store: &Store<K>, process: u32, handle: u32) -> Result<Entry, Fault>
    requires { process < length store.now.state.tables }
    ensures value { result ≡ found store.now.state process handle }
    ensures is_there { IfOk result (λ entry. entry_at (table_of store.now.state.tables process) handle ≡ Some entry) }
{
    store.look(process, handle).ok_or(Fault::Handle)
}

/// Whether two kinds are the same, and the types of two of a host's objects.
#[inline]
pub fn same_kind(a: Kind, b: Kind) -> bool
    ensures { result ≡ same_kind a b }
{
    match (a, b) {
        (Kind::Event, Kind::Event)
        | (Kind::Mutex, Kind::Mutex)
        | (Kind::Semaphore, Kind::Semaphore)
        | (Kind::Timer, Kind::Timer) => true,
        (Kind::Host(one), Kind::Host(other)) => one == other,
        _ => false,
    }
}

/// A body; refused with 6 where there is none, and where it isn't of the kind.
#[inline(always)]
pub fn if_kind(kind: Kind, body: Option<Body>) -> Result<Body, Fault>
    ensures value { result ≡ if_kind kind body }
    ensures is_there { IfOk result (λ it. body ≡ Some it) }
    ensures kind { IfOk result (λ it. spec.kind_of it ≡ kind) }
{
    match body {
        Some(body) if same_kind(body.kind(), kind) => Ok(body),
        _ => Err(Fault::Handle),
    }
}

/// The body of an object; refused with 6 where it isn't of the kind.
#[inline(always)]
pub fn body_of<K: PinKeeper>(store: &Store<K>, id: Id, kind: Kind) -> Result<Body, Fault>
    ensures value { result ≡ body_of store.now.state id kind }
    ensures is_there { IfOk result (λ body. slice_index_or store.now.state.bodies id.slot None ≡ Some body) }
    ensures kind { IfOk result (λ body. spec.kind_of body ≡ kind) }
{
    if_kind(kind, store.body(id))
}

/// Refused with 5 where the handle wasn't granted the right.
pub fn granted(right: Rights, entry: Entry) -> Result<(), Fault>
    ensures { result ≡ granted right.0 entry }
{
    if within(right, entry.rights) {
        return Ok(());
    }
    Err(Fault::Access)
}

/// Whether an open may have these rights of an object: some, and each within its grant.
pub fn is_allowed(asked: Rights, grant: Rights) -> bool
    ensures { result ≡ is_allowed asked grant }
{
    asked.0 != 0 && within(asked, grant)
}

/// The number, where it is above 0.
pub fn positive(number: i32) -> Option<u32>
    ensures { result ≡ positive number }
{
    if number > 0 {
        return Some(number.cast_unsigned());
    }
    None
}

/// The number, where it isn't below 0.
pub fn natural(number: i32) -> Option<u32>
    ensures { result ≡ natural number }
{
    if number >= 0 {
        return Some(number.cast_unsigned());
    }
    None
}
