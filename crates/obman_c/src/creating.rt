//! Objects, new or by their names.
ghost use Rattle.std.specs.Prelude.{◌≡◌};
ghost use Rattle.ob_manager.specs.Makings.{making_of};
ghost use Rattle.ob_manager.specs.declared.call.CallOf.TheVariants as Call;
ghost use Rattle.obman_c.specs.Asking.{asked_for, mask_of, rights_in};
ghost use Rattle.obman_c.specs.Telling.{TellsValue, opening_in};

use crate::values::{Opening, tell_opening};
use ob_manager::{Ask, Make};
use ob_rights::{Kind, Rights};
use obman_c_base::ManagerOwner;

/// What a create asks for (`om_making`), beside the name's bytes and the object's own state. All zeros ask for no name,
/// no inheritance and all rights.
#[repr(C)]
#[derive(Clone, Copy)]
pub struct Asking {
    /// The rights that the handle is to have, where `has_access` says so; else all rights of the kind.
    pub access: u32,
    /// The rights that opens of a new object may get, where `has_grant` says so; else all rights of the kind
    /// (*profile*).
    pub grant: u32,
    /// Whether the bytes that come with it are a name. An empty name is one too, and is refused.
    pub named: bool,
    /// Whether the handle has the flag INHERIT.
    pub inherit: bool,
    /// Whether `access` counts.
    pub has_access: bool,
    /// Whether `grant` counts.
    pub has_grant: bool,
}

/// What the manager is asked for.
fn make_of<'a>(asking: &Asking, name: &'a [u8]) -> Make<'a>
    ensures { making_of result ≡ asked_for asking.now name.now }
{
    Make {
        name: if asking.named { Some(name) } else { None },
        inherit: asking.inherit,
        access: rights_in(asking.has_access, asking.access),
        grant: rights_in(asking.has_grant, asking.grant),
    }
}

/// A mask, where there is one.
fn rights_in(is_there: bool, mask: u32) -> Option<Rights>
    ensures { result ≡ rights_in is_there mask }
{
    if is_there { Some(Rights(mask)) } else { None }
}

/// [`Manager::create_event`](ob_manager::Manager::create_event): 0, 183, 87, 170, 206, 3, 6, 5, 1450 or 8.
#[unsafe(no_mangle)]
pub extern "C" fn om_create_event(
    owner: &mut ManagerOwner,
    thread: u32,
    asking: &Asking,
    name: &[u8],
    manual: bool,
    set: bool,
    opening: &mut Opening,
) -> u32
    ensures { TellsValue opening_in owner.old.value
        (Call.MakeEvent thread (asked_for asking.now name.now) manual set)
        result owner.new.value opening.old opening.new }
{
    let make = make_of(asking, name);
    tell_opening(
        owner.call(&Ask::MakeEvent {
            thread,
            make,
            manual,
            set,
        }),
        opening,
    )
}

/// [`Manager::create_mutex`](ob_manager::Manager::create_mutex): 0, 183, 87, 170, 206, 3, 6, 5, 1450 or 8.
#[unsafe(no_mangle)]
pub extern "C" fn om_create_mutex(
    owner: &mut ManagerOwner,
    thread: u32,
    asking: &Asking,
    name: &[u8],
    owned: bool,
    opening: &mut Opening,
) -> u32
    ensures { TellsValue opening_in owner.old.value
        (Call.MakeMutex thread (asked_for asking.now name.now) owned)
        result owner.new.value opening.old opening.new }
{
    let make = make_of(asking, name);
    tell_opening(
        owner.call(&Ask::MakeMutex {
            thread,
            make,
            owned,
        }),
        opening,
    )
}

/// [`Manager::create_semaphore`](ob_manager::Manager::create_semaphore): 0, 183, 87, 170, 206, 3, 6, 5, 1450 or 8.
#[unsafe(no_mangle)]
pub extern "C" fn om_create_semaphore(
    owner: &mut ManagerOwner,
    thread: u32,
    asking: &Asking,
    name: &[u8],
    initial: i32,
    max: i32,
    opening: &mut Opening,
) -> u32
    ensures { TellsValue opening_in owner.old.value
        (Call.MakeSemaphore thread
        (asked_for asking.now name.now) initial max) result owner.new.value opening.old opening.new }
{
    let make = make_of(asking, name);
    tell_opening(
        owner.call(&Ask::MakeSemaphore {
            thread,
            make,
            initial,
            max,
        }),
        opening,
    )
}

/// [`Manager::create_timer`](ob_manager::Manager::create_timer): 0, 183, 87, 170, 206, 3, 6, 5, 1450 or 8.
#[unsafe(no_mangle)]
pub extern "C" fn om_create_timer(
    owner: &mut ManagerOwner,
    thread: u32,
    asking: &Asking,
    name: &[u8],
    manual: bool,
    opening: &mut Opening,
) -> u32
    ensures { TellsValue opening_in owner.old.value
        (Call.MakeTimer thread (asked_for asking.now name.now) manual)
        result owner.new.value opening.old opening.new }
{
    let make = make_of(asking, name);
    tell_opening(
        owner.call(&Ask::MakeTimer {
            thread,
            make,
            manual,
        }),
        opening,
    )
}

/// [`Manager::create_host`](ob_manager::Manager::create_host): 0, 183, 87, 170, 206, 3, 6, 5, 1450 or 8.
#[unsafe(no_mangle)]
pub extern "C" fn om_create_host(
    owner: &mut ManagerOwner,
    thread: u32,
    asking: &Asking,
    name: &[u8],
    object_type: u8,
    manual: bool,
    signaled: bool,
    opening: &mut Opening,
) -> u32
    ensures { TellsValue opening_in owner.old.value
        (Call.MakeHost thread (asked_for asking.now name.now) object_type manual signaled)
        result owner.new.value opening.old opening.new }
{
    let make = make_of(asking, name);
    tell_opening(
        owner.call(&Ask::MakeHost {
            thread,
            make,
            object_type,
            manual,
            signaled,
        }),
        opening,
    )
}

/// Opens the object of a name and a kind.
#[inline(always)]
#[tactic(auto, using(crate::proofs::Told::tells_as))]
fn open(
    owner: &mut ManagerOwner,
    thread: u32,
    kind: Kind,
    access: u32,
    inherit: bool,
    name: &[u8],
    opening: &mut Opening,
) -> u32
    ensures { TellsValue opening_in owner.old.value
        (Call.OpenNamed thread kind (mask_of access) inherit name.now)
        result owner.new.value opening.old opening.new }
{
    let mask = Rights(access);
    tell_opening(
        owner.call(&Ask::OpenNamed {
            thread,
            kind,
            mask,
            inherit,
            text: name,
        }),
        opening,
    )
}

/// [`Manager::open_named`](ob_manager::Manager::open_named) of an event: 0, 87, 170, 206, 3, 2, 6, 5, 1450 or 8.
#[unsafe(no_mangle)]
pub extern "C" fn om_open_event(
    owner: &mut ManagerOwner,
    thread: u32,
    access: u32,
    inherit: bool,
    name: &[u8],
    opening: &mut Opening,
) -> u32
    ensures { TellsValue opening_in owner.old.value
        (Call.OpenNamed thread Kind.Event
        (mask_of access) inherit name.now) result owner.new.value opening.old opening.new }
{
    open(owner, thread, Kind::Event, access, inherit, name, opening)
}

/// [`Manager::open_named`](ob_manager::Manager::open_named) of a mutex: 0, 87, 170, 206, 3, 2, 6, 5, 1450 or 8.
#[unsafe(no_mangle)]
pub extern "C" fn om_open_mutex(
    owner: &mut ManagerOwner,
    thread: u32,
    access: u32,
    inherit: bool,
    name: &[u8],
    opening: &mut Opening,
) -> u32
    ensures { TellsValue opening_in owner.old.value
        (Call.OpenNamed thread Kind.Mutex
        (mask_of access) inherit name.now) result owner.new.value opening.old opening.new }
{
    open(owner, thread, Kind::Mutex, access, inherit, name, opening)
}

/// [`Manager::open_named`](ob_manager::Manager::open_named) of a semaphore: 0, 87, 170, 206, 3, 2, 6, 5, 1450 or 8.
#[unsafe(no_mangle)]
pub extern "C" fn om_open_semaphore(
    owner: &mut ManagerOwner,
    thread: u32,
    access: u32,
    inherit: bool,
    name: &[u8],
    opening: &mut Opening,
) -> u32
    ensures { TellsValue opening_in owner.old.value
        (Call.OpenNamed thread Kind.Semaphore
        (mask_of access) inherit name.now) result owner.new.value opening.old opening.new }
{
    open(
        owner,
        thread,
        Kind::Semaphore,
        access,
        inherit,
        name,
        opening,
    )
}

/// [`Manager::open_named`](ob_manager::Manager::open_named) of a timer: 0, 87, 170, 206, 3, 2, 6, 5, 1450 or 8.
#[unsafe(no_mangle)]
pub extern "C" fn om_open_timer(
    owner: &mut ManagerOwner,
    thread: u32,
    access: u32,
    inherit: bool,
    name: &[u8],
    opening: &mut Opening,
) -> u32
    ensures { TellsValue opening_in owner.old.value
        (Call.OpenNamed thread Kind.Timer
        (mask_of access) inherit name.now) result owner.new.value opening.old opening.new }
{
    open(owner, thread, Kind::Timer, access, inherit, name, opening)
}

/// [`Manager::open_named`](ob_manager::Manager::open_named) of a host's object of a type: 0, 87, 170, 206, 3, 2, 6, 5,
/// 1450 or 8.
#[unsafe(no_mangle)]
pub extern "C" fn om_open_host(
    owner: &mut ManagerOwner,
    thread: u32,
    object_type: u8,
    access: u32,
    inherit: bool,
    name: &[u8],
    opening: &mut Opening,
) -> u32
    ensures { TellsValue opening_in owner.old.value
        (Call.OpenNamed thread (Kind.Host object_type)
        (mask_of access) inherit name.now) result owner.new.value opening.old opening.new }
{
    open(
        owner,
        thread,
        Kind::Host(object_type),
        access,
        inherit,
        name,
        opening,
    )
}
