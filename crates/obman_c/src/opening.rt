//! A manager's beginning and its end.
ghost use Rattle.std.specs.Prelude.{◌≡◌, IfErr, IfOk, false, true};
ghost use Rattle.pin_core.specs.Shapes.{IsWithinLimits};
ghost use Rattle.pin_words.specs.Seats.{TableState};
ghost use Rattle.obman_c_base.specs.Allowed.{AreAs};
ghost use Rattle.obman_c_base.specs.declared.owned.OwnedManager.{OwnedManager};
ghost use Rattle.obman_c.specs.Opening.{Opens, new_keeper, new_owned};

use ob_manager::{HostData, Limits, Manager};
use ob_rights::{Fault, code_of};
use obman_c_base::{
    CLimits, ManagerOut, ManagerOwner, ManagerTaken, OwnedManager, SUCCESS, limits_of,
};
use pin_core::Shape;
use pin_words::{Keeper, Pins};
use std::alloc::Global;

/// A new manager, at a place of C's: 0, 87 where a limit is out of its range, or 8. What stood at the place isn't read.
#[unsafe(no_mangle)]
pub extern "C" fn om_new(alloc: Global, bounds: &CLimits, place: &mut ManagerOut) -> u32
    ensures { Opens false false bounds.now result place.old.value place.new.value }
{
    opened(alloc, bounds, false, false, place)
}

/// The same, and the manager's numbers come back.
#[unsafe(no_mangle)]
pub extern "C" fn om_new_reusing(alloc: Global, bounds: &CLimits, place: &mut ManagerOut) -> u32
    ensures { Opens true false bounds.now result place.old.value place.new.value }
{
    opened(alloc, bounds, true, false, place)
}

/// The same, and the manager's numbers come back or not, and it takes a handle twice in a wait for any or not.
#[unsafe(no_mangle)]
pub extern "C" fn om_new_with(
    alloc: Global,
    bounds: &CLimits,
    reuse: bool,
    repeats: bool,
    place: &mut ManagerOut,
) -> u32
    ensures { Opens reuse repeats bounds.now result place.old.value place.new.value }
{
    opened(alloc, bounds, reuse, repeats, place)
}

/// A new manager, with what it does beside.
#[tactic(auto, using(crate::proofs::Opened::out_of_range, crate::proofs::Opened::no_memory))]
fn opened(
    alloc: Global,
    bounds: &CLimits,
    reuse: bool,
    repeats: bool,
    place: &mut ManagerOut,
) -> u32
    ensures { Opens reuse repeats bounds.now result place.old.value place.new.value }
{
    let Ok(limits) = limits_of(bounds) else {
        return code_of(Fault::Parameter);
    };
    match held(alloc, limits.with_reuse(reuse).with_repeats(repeats)) {
        Ok(held) => {
            *place = ManagerOut::of(held);
            SUCCESS
        }
        Err(fault) => code_of(fault),
    }
}

/// The end of a manager: its memory is given back, and C may use what it passed no more. Zeros are no manager, and
/// nothing is done.
#[unsafe(no_mangle)]
pub extern "C" fn om_free(ending: ManagerTaken) {
    if let Some(owner) = ending.owner() {
        drop(owner.into_box());
    }
}

/// [`Manager::limits`](ob_manager::Manager::limits): 0.
#[unsafe(no_mangle)]
pub extern "C" fn om_limits_of(owner: &mut ManagerOwner, bounds: &mut CLimits) -> u32
    ensures answer { result ≡ 0 }
    ensures limits { AreAs bounds.new owner.old.value.manager.state.limits }
    ensures same { owner.new.value ≡ owner.old.value }
{
    let limits = owner.lend().manager.limits();
    *bounds = CLimits {
        slots: limits.slots,
        processes: limits.processes,
        threads: limits.threads,
        handles: limits.handles,
        waits: limits.waits,
        max_pins: limits.max_pins,
        max_gen: limits.max_gen,
        max_recursion: limits.max_recursion,
    };
    SUCCESS
}

/// A new manager in a box of its own.
fn held(alloc: Global, limits: Limits) -> Result<Box<OwnedManager>, Fault>
    ensures new { IfOk result (λ held. (t : TableState) × (held.value ≡ new_owned limits t)) }
    ensures memory { IfErr result (λ fault. fault ≡ Fault.Memory) }
{
    let keeper = keeper(alloc, limits.shape())?;
    match Manager::new(alloc, limits, keeper) {
        Ok(manager) => Ok(OwnedManager::boxed(alloc, manager, HostData::new(alloc))?),
        Err(_) => Err(Fault::Memory),
    }
}

/// A keeper over words of its own, which are given back with it and the last reader.
fn keeper(alloc: Global, shape: Shape) -> Result<Keeper, Fault>
    requires { IsWithinLimits shape }
    ensures new { IfOk result (λ keeper. (t : TableState) × (keeper ≡ new_keeper shape t)) }
    ensures memory { IfErr result (λ fault. fault ≡ Fault.Memory) }
{
    let (pins, opening) = Pins::new(alloc, shape)?;
    match opening.start(&pins) {
        Ok((keeper, _)) => Ok(keeper),
        Err(_) => Err(Fault::Memory),
    }
}
