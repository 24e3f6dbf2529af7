//! What the one thread that has a manager and a reader of the same pins is answered.
//!
//! The reader pins slots without the manager, and the manager doesn't know what the reader holds. A meeting of the two
//! ([`Manager::meet`](ob_manager::Manager::meet)) is one look at a slot that tells how they agree there: so a pin is
//! answered by the manager's state, a held Id has its object, and a slot of which something is held isn't taken back.
ghost use Rattle.std.specs.Prelude.{◌≡◌, Some};
ghost use Rattle.ob_console.specs.Attempts.{Attempts};
ghost use Rattle.ob_console.specs.Pinning.{Pins, Unpins, shown_of};

use ob_manager::{Card, Manager};
use pin_core::{Descr, Id};
use pin_words::{Keeper, PinFault, Reader};

/// Pins the slot of an Id once more, and reads its descriptor: [`Reader::try_pin`], and where that succeeds
/// [`Reader::descr`]. At most three atomic steps.
fn try_descr(reader: &mut Reader, id: Id) -> Result<Descr, PinFault>
    ensures attempts { Attempts reader.old.view id result reader.new.view }
    ensures table { reader.new.table ≡ reader.old.table }
{
    match reader.try_pin(id) {
        Ok(()) => Ok(reader.descr(id)),
        Err(fault) => Err(fault),
    }
}

/// [`try_descr`] between two meetings, so that its answer is told by the manager's state.
///
/// Refused, in this order: [`PinFault::NoSuchSlot`] where there is no such slot; [`PinFault::HeldFull`] where 16 copies
/// are held; [`PinFault::Unborn`] where the Id has no object yet; [`PinFault::Stale`] where its object ended;
/// [`PinFault::PinsFull`] where the slot has all its pins; and [`PinFault::Busy`] where another reader changed the
/// slot's word in between.
#[tactic(auto, using(crate::proofs::Attempting::no_slot))]
pub fn pin(manager: &mut Manager<Keeper>, reader: &mut Reader, id: Id) -> Result<Descr, PinFault>
    requires { manager.old.keeper.table ≡ Some reader.old.table }
    ensures pins { Pins manager.old.state reader.old.view.held reader.old.view.looks id result reader.new.view.held
        reader.new.view.looks }
    ensures same { manager.new ≡ manager.old }
    ensures table { reader.new.table ≡ reader.old.table }
{
    manager.same_shape(reader);
    if id.slot >= reader.shape().slots {
        return Err(PinFault::NoSuchSlot);
    }
    manager.kept();
    manager.meet(reader, id.slot);
    let answer = try_descr(reader, id);
    manager.meet(reader, id.slot);
    answer
}

/// Lets one copy of an Id go: whether there was one.
pub fn unpin(reader: &mut Reader, id: Id) -> bool
    ensures unpins { Unpins reader.old.view.held id result reader.new.view.held }
    ensures table { reader.new.table ≡ reader.old.table }
{
    let held = reader.holds(id);
    if held {
        reader.release(id);
    }
    held
}

/// What the object of an Id was created as, where the reader holds a copy of the Id.
pub fn card(manager: &mut Manager<Keeper>, reader: &mut Reader, id: Id) -> Option<Card>
    requires { manager.old.keeper.table ≡ Some reader.old.table }
    ensures shown { result ≡ shown_of manager.old.state reader.old.view.held id }
    ensures same { manager.new ≡ manager.old }
    ensures held { reader.new.view.held ≡ reader.old.view.held }
    ensures table { reader.new.table ≡ reader.old.table }
{
    if reader.holds(id) {
        Some(manager.inspect(reader, id))
    } else {
        None
    }
}
