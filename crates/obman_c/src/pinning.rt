//! Ids, the numbers of refused pins, and what objects were created as.
ghost use Rattle.std.specs.Prelude.{◌≡◌};
ghost use Rattle.ob_rights.specs.declared.kind.Kind.TheVariants as kind;
ghost use Rattle.ob_manager.specs.Counting.{card};
ghost use Rattle.obman_c.specs.Finding.{Describes, description_of, kind_number};
ghost use Rattle.obman_c.specs.Pinning.{id_at, pin_status};

use ob_manager::Card;
use ob_rights::{Fault, Kind, code_of};
use obman_c_base::{ManagerOwner, SUCCESS};
use pin_core::Id;
use pin_words::PinFault;

/// What an object was created as (`om_description`).
#[repr(C)]
#[derive(Clone, Copy)]
pub struct Description {
    /// Its kind: an event 0, a mutex 1, a semaphore 2, a timer 3.
    pub kind: u32,
    /// The maximum of a semaphore; else 0.
    pub max: u32,
    /// The rights that opens may get.
    pub grant: u32,
    /// Whether it is an event that is reset by hand, or a timer that stays signaled until it is set again.
    pub manual: bool,
}

/// The Id of a slot's generation.
pub(crate) fn id_at(slot: u32, generation: u32) -> Id
    ensures { result ≡ id_at slot generation }
{
    Id { slot, generation }
}

/// The number of a refused pin: 87 for no such slot, 1168 where the object isn't there yet, 6 where it has ended, 1450
/// where the slot has all its pins, 1816 where the reader has 16 copies, and 170 where the word changed in between.
pub(crate) fn number_of(fault: PinFault) -> u32
    ensures { result ≡ pin_status fault }
{
    match fault {
        PinFault::NoSuchSlot => 87,
        PinFault::Unborn => 1168,
        PinFault::Stale => 6,
        PinFault::Busy { .. } => 170,
        PinFault::PinsFull => 1450,
        PinFault::HeldFull => 1816,
    }
}

/// The number of a kind.
pub(crate) fn number_of_kind(kind: Kind) -> u32
    ensures { result ≡ kind_number kind }
{
    match kind {
        Kind::Event => 0,
        Kind::Mutex => 1,
        Kind::Semaphore => 2,
        Kind::Timer => 3,
        Kind::Host(object_type) => 256 + u32::from(object_type),
    }
}

/// A card as C is told of it.
pub(crate) fn description_of(card: Card) -> Description
    ensures { result ≡ description_of card }
{
    Description {
        kind: number_of_kind(card.descr.kind),
        max: card.descr.max,
        grant: card.grant.0,
        manual: card.descr.manual,
    }
}

/// [`Manager::card`](ob_manager::Manager::card): 0, or 6 where there is no such object.
#[unsafe(no_mangle)]
pub extern "C" fn om_card(
    owner: &mut ManagerOwner,
    slot: u32,
    generation: u32,
    description: &mut Description,
) -> u32
    ensures describes { Describes (card owner.old.value.manager.state
        (id_at slot generation)) result description.old description.new }
    ensures same { owner.new.value ≡ owner.old.value }
{
    match owner.lend().manager.card(id_at(slot, generation)) {
        Some(card) => {
            *description = description_of(card);
            SUCCESS
        }
        None => code_of(Fault::Handle),
    }
}
