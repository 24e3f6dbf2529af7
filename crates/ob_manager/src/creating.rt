ghost use Rattle.std.specs.Prelude.{◌≡◌, ◌≢◌, ◌<◌, false, true, IfErr, IfOk, None, Ok, OnErr, OnOk, Some, ℕ, length};
ghost use Rattle.std.specs.Prelude.{slice_index_or};
ghost use Rattle.ob_body.specs.Body as spec;
ghost use Rattle.ob_name.specs.Refs.{name_at, parsed_name};
ghost use Rattle.ob_name.specs.Listing.{find_name};
ghost use Rattle.ob_waits.specs.Form.{form_of};
ghost use Rattle.ob_tables.specs.Table.{is_packed};
ghost use Rattle.ob_tables.specs.Tables.{table_of};
ghost use Rattle.pin_core.specs.Descrs.{IsGiven};
ghost use Rattle.ob_store.specs.Directory.{directory_of};
ghost use Rattle.ob_arena.specs.Slots.{is_vacant_at};
ghost use Rattle.ob_store.specs.State.{handles_of, is_full, vacancy};
ghost use Rattle.ob_tables.specs.Processes.{IsLive};
ghost use Rattle.ob_store.specs.Kept.{form_in};
ghost use Rattle.ob_manager.specs.Makings.{making_of};
ghost use Rattle.ob_manager.specs.Creating.{create, create_event, create_host, create_mutex, create_semaphore, create_timer};
ghost use Rattle.ob_manager.specs.Creating.{created, flags_of, name_in, new_event, new_handle, new_host, new_mutex, new_object};
ghost use Rattle.ob_manager.specs.Creating.{new_semaphore, new_timer, next_handle, open_named, or_all, room_for};
ghost use Rattle.ob_manager.specs.Creating.{takes_place};
ghost use Rattle.ob_manager.specs.Outcomes.{Refuses};
ghost use Rattle.ob_manager.specs.Steps.{GivesOrLacks};

use crate::checks::{caller, if_kind, is_allowed, natural, positive};
use crate::making::{AsMake, Make};
use crate::reply::Reply;
use ob_body::Body;
use ob_name::{NameRef, parse};
use ob_rights::{Fault, HandleFlags, Kind, Rights, all_access, within};
use ob_store::{Creation, Store};
use ob_tables::Entry;
use pin_core::{Descr, Id};
use pin_words::PinKeeper;

/// What a new object is, and its body.
#[derive(Clone, Copy, Debug)]
pub struct New {
    /// What it is, for its whole life.
    pub descr: Descr,
    /// What state it begins in.
    pub body: Body,
}

/// The rights that are asked for, or all of the kind where none are named.
#[inline(always)]
fn or_all(kind: Kind, rights: Option<Rights>) -> Rights
    ensures { result ≡ or_all kind rights }
{
    rights.unwrap_or(all_access(kind))
}

/// The flags of a new handle.
pub fn flags_of(inherit: bool) -> HandleFlags
    ensures { result ≡ flags_of inherit }
{
    if inherit {
        return HandleFlags(1);
    }
    HandleFlags(0)
}

/// What a new event is.
fn new_event(manual: bool, set: bool) -> New
    ensures { result ≡ new_event manual set }
{
    New {
        descr: Descr {
            kind: Kind::Event,
            manual,
            max: 0,
        },
        body: Body::new_event(manual, set),
    }
}

/// What a new mutex is, which the thread owns once, or nobody.
fn new_mutex(thread: u32, owned: bool) -> New
    ensures { result ≡ new_mutex thread owned }
{
    let owner = if owned { Some(thread) } else { None };
    New {
        descr: Descr {
            kind: Kind::Mutex,
            manual: false,
            max: 0,
        },
        body: Body::new_mutex(owner),
    }
}

/// What a new semaphore is. Refused with 87 for a maximum that isn't above 0, and for a count below 0 or above the
/// maximum.
fn new_semaphore(initial: i32, max: i32) -> Result<New, Fault>
    ensures value { result ≡ new_semaphore initial max }
    ensures given { IfOk result (λ new. IsGiven new.descr) }
    ensures formed { IfOk result (λ new. form_of new.body ≡ form_in new.descr) }
    ensures nobodys { IfOk result (λ new. spec.owner_of new.body ≡ None) }
{
    let Some(count) = natural(initial) else {
        return Err(Fault::Parameter);
    };
    let Some(most) = positive(max) else {
        return Err(Fault::Parameter);
    };
    if most < count {
        return Err(Fault::Parameter);
    }
    Ok(New {
        descr: Descr {
            kind: Kind::Semaphore,
            manual: false,
            max: most,
        },
        body: Body::new_semaphore(count, most),
    })
}

/// What a new timer is.
fn new_timer(manual: bool) -> New
    ensures { result ≡ new_timer manual }
{
    New {
        descr: Descr {
            kind: Kind::Timer,
            manual,
            max: 0,
        },
        body: Body::new_timer(manual),
    }
}

/// What a new object of the host's own is.
fn new_host(object_type: u8, manual: bool, signaled: bool) -> New
    ensures { result ≡ new_host object_type manual signaled }
{
    New {
        descr: Descr {
            kind: Kind::Event,
            manual,
            max: 0,
        },
        body: Body::new_host(object_type, manual, signaled),
    }
}

/// What a name that a caller gives stands for in its session.
#[tactic(auto, using(crate::proofs::Refusing::name_known))]
fn name_in<'a, K: PinKeeper>(
    store: &Store<K>,
    process: u32,
    text: &'a [u8],
) -> Result<NameRef<'a>, Fault>
    ensures value { parsed_name result ≡ name_in store.now.state process text.now }
    ensures refusal { IfErr result (λ fault. fault ≢ Fault.Memory) }
{
    let Some(session) = store.session(process) else {
        return Err(Fault::Parameter);
    };
    parse(text, session)
}

/// The slot of a new object: refused with 5 for a right outside all rights of its kind, and with 1450 where the process
/// has all its handles or no slot is vacant.
#[inline(always)]
fn room_for<K: PinKeeper>(
    store: &Store<K>,
    process: u32,
    make: &Make<'_>,
    kind: Kind,
) -> Result<u32, Fault>
    requires { process < length store.now.state.tables }
    ensures value { result ≡ room_for store.now.state process (making_of make.now) kind }
    ensures room { OnOk result (is_full store.now.state process ≡ false) }
    ensures vacant { IfOk result (λ slot. is_vacant_at (vacancy store.now.state) slot ≡ true) }
{
    if !within(or_all(kind, make.access), all_access(kind)) {
        return Err(Fault::Access);
    }
    if store.is_full(process) {
        return Err(Fault::Limit);
    }
    let Some(slot) = store.vacant() else {
        return Err(Fault::Limit);
    };
    Ok(slot)
}

/// What a new object and its first handle are, but for the object's name.
#[inline(always)]
fn creation_of(make: &Make<'_>, new: New) -> Creation
    ensures descr { result.descr ≡ new.descr }
    ensures body { result.body ≡ new.body }
    ensures grant { result.grant ≡ or_all (spec.kind_of new.body) make.now.grant }
    ensures rights { result.rights ≡ or_all (spec.kind_of new.body) make.now.access }
    ensures flags { result.flags ≡ flags_of make.now.inherit }
{
    Creation {
        descr: new.descr,
        body: new.body,
        grant: or_all(new.body.kind(), make.grant),
        rights: or_all(new.body.kind(), make.access),
        flags: flags_of(make.inherit),
    }
}

/// Makes a new object without a name, and a handle to it.
#[inline(always)]
fn new_nameless<K: PinKeeper>(
    store: &mut Store<K>,
    process: u32,
    make: &Make<'_>,
    new: New,
) -> Result<Reply, Fault>
    requires table { process < length store.old.state.tables }
    requires live { IsLive store.old.state.processes process }
    requires given { IsGiven new.descr }
    requires formed { form_of new.body ≡ form_in new.descr }
    requires owned { (t : ℕ) → spec.owner_of new.body ≡ Some t → IsLive store.old.state.threads t }
    ensures { GivesOrLacks result store.old store.new
        (new_object store.old.state process (making_of make.now) new None) }
{
    let slot = room_for(store, process, make, new.body.kind())?;
    let id = store.id_at(slot);
    let handle = store.add_nameless(process, slot, creation_of(make, new))?;
    Ok(Reply::Made { handle, id })
}

/// Makes a new object with a name that no object has, and a handle to it.
#[inline(always)]
fn new_named<K: PinKeeper>(
    store: &mut Store<K>,
    process: u32,
    make: &Make<'_>,
    new: New,
    name: &NameRef<'_>,
) -> Result<Reply, Fault>
    requires table { process < length store.old.state.tables }
    requires live { IsLive store.old.state.processes process }
    requires given { IsGiven new.descr }
    requires formed { form_of new.body ≡ form_in new.descr }
    requires owned { (t : ℕ) → spec.owner_of new.body ≡ Some t → IsLive store.old.state.threads t }
    requires absent { find_name (name_at name.now) (directory_of store.old.state) ≡ None }
    ensures { GivesOrLacks result store.old store.new
        (new_object store.old.state process (making_of make.now) new (Some (name_at name.now))) }
{
    let slot = room_for(store, process, make, new.body.kind())?;
    let id = store.id_at(slot);
    let handle = store.add_named(process, slot, creation_of(make, new), name)?;
    Ok(Reply::Made { handle, id })
}

/// Makes a handle to an object that was found by its name: refused with 6 where it is of another kind, and with 5 where
/// its grant doesn't allow the rights.
fn new_handle<K: PinKeeper>(
    store: &mut Store<K>,
    process: u32,
    id: Id,
    kind: Kind,
    rights: Rights,
    inherit: bool,
) -> Result<u32, Fault>
    requires live { IsLive store.old.state.processes process }
    requires is_there { 0 < handles_of store.old.state id }
    ensures handle { IfOk result (λ handle. handle ≡ next_handle store.old.state process) }
    ensures ok { OnOk result (new_handle store.old.state process id kind rights inherit ≡ Ok store.new.state) }
    ensures keeper { store.new.keeper ≡ store.old.keeper }
    ensures err { IfErr result (λ fault. Refuses fault (new_handle store.old.state process id kind rights inherit)) }
    ensures memory { IfErr result (λ fault. fault ≡ Fault.Memory
        → is_packed (table_of store.old.state.tables process) ≡ true) }
    ensures same { OnErr result (store.new ≡ store.old) }
{
    let Some(found) = store.object(id.slot) else {
        return Err(Fault::Handle);
    };
    if_kind(kind, found.header.body)?;
    if !is_allowed(rights, found.header.grant) {
        return Err(Fault::Access);
    }
    let entry = Entry {
        id,
        rights,
        flags: flags_of(inherit),
    };
    store.place_entry(process, entry)
}

/// Makes a handle to the object that has the name already, or a new object of that name.
#[inline(always)]
fn named_object<K: PinKeeper>(
    store: &mut Store<K>,
    process: u32,
    make: &Make<'_>,
    new: New,
    name: &NameRef<'_>,
) -> Result<Reply, Fault>
    requires table { process < length store.old.state.tables }
    requires live { IsLive store.old.state.processes process }
    requires given { IsGiven new.descr }
    requires formed { form_of new.body ≡ form_in new.descr }
    requires owned { (t : ℕ) → spec.owner_of new.body ≡ Some t → IsLive store.old.state.threads t }
    ensures { GivesOrLacks result store.old store.new
        (created store.old.state process (making_of make.now) new (Some (name_at name.now))) }
{
    let Some(id) = store.find(name) else {
        return new_named(store, process, make, new, name);
    };
    let kind = new.body.kind();
    let rights = or_all(kind, make.access);
    let handle = new_handle(store, process, id, kind, rights, make.inherit)?;
    Ok(Reply::Exists { handle, id })
}

/// Makes a new object, or a handle to the one that has the name already.
// It is inlined with all that follows from the kind, so that rights, descriptor and body are known in each create.
#[inline(always)]
#[tactic(auto, using(crate::proofs::Refusing::refuses_err))]
fn create<K: PinKeeper>(
    store: &mut Store<K>,
    thread: u32,
    make: &Make<'_>,
    what: Result<New, Fault>,
) -> Result<Reply, Fault>
    requires given { IfOk what (λ new. IsGiven new.descr) }
    requires formed { IfOk what (λ new. form_of new.body ≡ form_in new.descr) }
    requires owned { IfOk what (λ new. (t : ℕ) → spec.owner_of new.body ≡ Some t → t ≡ thread) }
    requires refused { IfErr what (λ fault. fault ≡ Fault.Parameter) }
    ensures { GivesOrLacks result store.old store.new (create store.old.state thread (making_of make.now) what) }
{
    let process = caller(store, thread)?;
    let new = what?;
    let kind = new.body.kind();
    if !within(or_all(kind, make.grant), all_access(kind)) {
        return Err(Fault::Parameter);
    }
    let Some(text) = make.name else {
        return new_nameless(store, process, make, new);
    };
    let name = name_in(store, process, text)?;
    named_object(store, process, make, new, &name)
}

/// Makes a new event, or a handle to the event that has the name already.
pub fn create_event<K: PinKeeper, M: AsMake>(
    store: &mut Store<K>,
    thread: u32,
    make: &M,
    manual: bool,
    set: bool,
) -> Result<Reply, Fault>
    ensures { GivesOrLacks result store.old store.new
        (create_event store.old.state thread (M.making make.now) manual set) }
{
    create(store, thread, &make.as_make(), Ok(new_event(manual, set)))
}

/// Makes a new mutex, or a handle to the mutex that has the name already.
pub fn create_mutex<K: PinKeeper, M: AsMake>(
    store: &mut Store<K>,
    thread: u32,
    make: &M,
    owned: bool,
) -> Result<Reply, Fault>
    ensures { GivesOrLacks result store.old store.new (create_mutex store.old.state thread (M.making make.now) owned) }
{
    create(store, thread, &make.as_make(), Ok(new_mutex(thread, owned)))
}

/// Makes a new semaphore, or a handle to the semaphore that has the name already.
pub fn create_semaphore<K: PinKeeper, M: AsMake>(
    store: &mut Store<K>,
    thread: u32,
    make: &M,
    initial: i32,
    max: i32,
) -> Result<Reply, Fault>
    ensures { GivesOrLacks result store.old store.new
        (create_semaphore store.old.state thread (M.making make.now) initial max) }
{
    create(store, thread, &make.as_make(), new_semaphore(initial, max))
}

/// Makes a new timer, or a handle to the timer that has the name already.
pub fn create_timer<K: PinKeeper, M: AsMake>(
    store: &mut Store<K>,
    thread: u32,
    make: &M,
    manual: bool,
) -> Result<Reply, Fault>
    ensures { GivesOrLacks result store.old store.new
        (create_timer store.old.state thread (M.making make.now) manual) }
{
    create(store, thread, &make.as_make(), Ok(new_timer(manual)))
}

/// Makes a new object of the host's own, or a handle to the one of its type that has the name already.
pub fn create_host<K: PinKeeper, M: AsMake>(
    store: &mut Store<K>,
    thread: u32,
    make: &M,
    object_type: u8,
    manual: bool,
    signaled: bool,
) -> Result<Reply, Fault>
    ensures { GivesOrLacks result store.old store.new
        (create_host store.old.state thread (M.making make.now) object_type manual signaled) }
{
    create(
        store,
        thread,
        &make.as_make(),
        Ok(new_host(object_type, manual, signaled)),
    )
}

/// Makes a handle to the object of a name.
#[tactic(auto, using(crate::proofs::Refusing::refuses_err))]
pub fn open_named<K: PinKeeper>(
    store: &mut Store<K>,
    thread: u32,
    kind: Kind,
    mask: Rights,
    inherit: bool,
    text: &[u8],
) -> Result<Reply, Fault>
    ensures gives { GivesOrLacks result store.old store.new
        (open_named store.old.state thread kind mask inherit text.now) }
    ensures memory { IfErr result (λ fault. fault ≡ Fault.Memory
        → takes_place store.old.state (slice_index_or store.old.state.threads thread None) ≡ true) }
{
    let process = caller(store, thread)?;
    let name = name_in(store, process, text)?;
    let Some(id) = store.find(&name) else {
        return Err(Fault::NotFound);
    };
    let handle = new_handle(store, process, id, kind, mask, inherit)?;
    Ok(Reply::Opened { handle, id })
}
