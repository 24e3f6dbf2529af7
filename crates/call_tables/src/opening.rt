ghost use Rattle.std.specs.Prelude.{◌≡◌, IfOk};
ghost use Rattle.pin_words.specs.Keepers.{IsFresh};
ghost use Rattle.pin_words.specs.Views.{opening_keeper, keeper_gave, reader_given};
ghost use Rattle.ob_store.specs.State.{opening, shape_of};

use ob_manager::{Limits, Manager};
use ob_rights::Fault;
use pin_words::{Keeper, LockedPins, Opening, PinKeeper, Pins, Reader};
use std::alloc::Global;

/// Pins of the shape that the limits give.
pub fn pins_for(alloc: Global, limits: Limits) -> Result<(Pins, Opening), Fault>
    ensures { IfOk result (λ r. (r.0.shape ≡ shape_of limits) × (r.1 ≡ r.0)) }
{
    match Pins::new(alloc, limits.shape()) {
        Ok(made) => Ok(made),
        Err(_) => Pins::new(alloc, limits.shape()),
    }
}

/// The keeper of pins, and their first reader.
pub fn started(opening: Opening, pins: &Pins) -> Result<(Keeper, Reader), Fault>
    requires { opening ≡ pins.now }
    ensures keeper { IfOk result (λ r. (r.0.table ≡ opening)
        × (r.0.view ≡ keeper_gave (opening_keeper opening.shape))) }
    ensures reader { IfOk result (λ r. (r.1.table ≡ opening)
        × (r.1.view ≡ reader_given (opening_keeper opening.shape))) }
{
    let opening = match opening.start(pins) {
        Ok(both) => return Ok(both),
        Err(opening) => opening,
    };
    match opening.start(pins) {
        Ok(both) => Ok(both),
        Err(_) => Err(Fault::Memory),
    }
}

/// A manager over a keeper that nothing has used yet.
pub fn manager_over<K: PinKeeper + Drop>(
    alloc: Global,
    limits: Limits,
    keeper: K,
) -> Result<Manager<K>, Fault>
    requires { IsFresh (K.kept keeper) (shape_of limits) }
    ensures { IfOk result (λ manager. manager ≡ record { state = opening limits; keeper = K.kept keeper }) }
{
    let keeper = match Manager::new(alloc, limits, keeper) {
        Ok(manager) => return Ok(manager),
        Err(keeper) => keeper,
    };
    match Manager::new(alloc, limits, keeper) {
        Ok(manager) => Ok(manager),
        Err(_) => Err(Fault::Memory),
    }
}

/// Pins under a lock, of the shape that the limits give.
fn locked_pins(alloc: Global, limits: Limits) -> Result<LockedPins, Fault>
    ensures { IfOk result (λ keeper. IsFresh keeper (shape_of limits)) }
{
    match LockedPins::new(alloc, limits.shape()) {
        Ok(keeper) => Ok(keeper),
        Err(_) => LockedPins::new(alloc, limits.shape()),
    }
}

/// A manager over pins under a lock.
pub fn locked_manager(alloc: Global, limits: Limits) -> Result<Manager<LockedPins>, Fault> {
    let keeper = locked_pins(alloc, limits)?;
    manager_over(alloc, limits, keeper)
}
