ghost use Rattle.std.specs.Prelude.{◌≡◌, ◌≢◌, ◌↔◌, ℕ, IsOk, OnOk, OnErr, IfOk, Some, None, Err};
ghost use Rattle.pin_core.specs.declared.event.ReplayFault.TheVariants.{Memory, Refused};
ghost use Rattle.pin_core.specs.declared.event.Reason.{Reason};
ghost use Rattle.pin_core.specs.Worlds.{opening_of};
ghost use Rattle.pin_core.specs.Events.{Transition, refusal, IsSchedule, after_all, IsFirstRefused};

use crate::event::{Event, ReplayFault};
use crate::shape::Shape;
use crate::world::World;
use std::alloc::Global;

/// Carries out one event.
///
/// [`ReplayFault::Refused`], with the event 1, exactly where it isn't possible; else
/// [`ReplayFault::Memory`] where memory ran out. A refusal leaves the world unchanged.
pub fn step(world: &mut World, event: &Event) -> Result<(), ReplayFault>
    ensures done { OnOk result (Transition world.old event.now world.new) }
    ensures unchanged { OnErr result (world.new ≡ world.old) }
    ensures refused { (n : ℕ) (r : Reason) → (result ≡ Err (Refused n r))
        ↔ ((n ≡ 1) × (refusal world.old event.now ≡ Some r)) }
    ensures memory { result ≡ Err Memory → refusal world.old event.now ≡ None }
{
    if let Some(reason) = world.refusal(event) {
        return Err(ReplayFault::Refused { event: 1, reason });
    }
    match world.enact(event) {
        Ok(()) => Ok(()),
        Err(_) => Err(ReplayFault::Memory),
    }
}

/// Carries out the events in turn from the opening world.
///
/// Unless memory ran out before, which [`ReplayFault::Memory`] says: it succeeds exactly where each event is possible
/// where it stands, and else [`ReplayFault::Refused`] names the first that isn't.
pub fn replay(alloc: Global, shape: Shape, events: &[Event]) -> Result<World, ReplayFault>
    ensures value { IfOk result (λ w. w ≡ after_all (opening_of shape) events.now) }
    ensures possible { result ≢ Err Memory
        → (IsOk result ↔ IsSchedule (opening_of shape) events.now) }
    ensures refused { result ≢ Err Memory → (n : ℕ) (r : Reason)
        → (result ≡ Err (Refused n r)) ↔ IsFirstRefused (opening_of shape) events.now n r }
{
    let Ok(mut world) = World::new(alloc, shape) else {
        return Err(ReplayFault::Memory);
    };
    for (i, event) in events.iter().enumerate() {
        if let Some(reason) = world.refusal(event) {
            return Err(ReplayFault::Refused {
                event: i as u64 + 1,
                reason,
            });
        }
        let Ok(()) = world.enact(event) else {
            return Err(ReplayFault::Memory);
        };
    }
    Ok(world)
}
