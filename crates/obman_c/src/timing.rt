//! Timers, and the time.
ghost use Rattle.std.specs.Prelude.{◌≡◌, ◌⊎◌, ◌<◌, ◌≤◌, ℕ, IfNone, IfSome, Some};
ghost use Rattle.least.specs.Dues.{IsLeast};
ghost use Rattle.ob_store.specs.Dues.{dues_of};
ghost use Rattle.ob_manager.specs.declared.call.CallOf.TheVariants as Call;
ghost use Rattle.obman_c.specs.Looking.{NextDue};
ghost use Rattle.obman_c.specs.Telling.{TellsStatus};
ghost use Rattle.obman_c.specs.Timing.{Advances, Serves};

use crate::status::{NO_MORE, told};
use ob_manager::Ask;
use ob_store::LAST_MOMENT;
use obman_c_base::{ManagerOwner, OwnedManager, SUCCESS};

/// [`Manager::set_timer`](ob_manager::Manager::set_timer): 0, 87, 170, 6 or 5.
#[unsafe(no_mangle)]
pub extern "C" fn om_set_timer(owner: &mut ManagerOwner, thread: u32, handle: u32, due: i64) -> u32
    ensures { TellsStatus owner.old.value (Call.SetTimer thread handle due) result owner.new.value }
{
    told(owner.call(&Ask::SetTimer {
        thread,
        handle,
        due,
    }))
}

/// [`Manager::set_periodic_timer`](ob_manager::Manager::set_periodic_timer): 0, 87, 170, 6 or 5.
#[unsafe(no_mangle)]
pub extern "C" fn om_set_periodic_timer(
    owner: &mut ManagerOwner,
    thread: u32,
    handle: u32,
    due: i64,
    period: i32,
) -> u32
    ensures { TellsStatus owner.old.value
        (Call.SetPeriodicTimer thread handle due period) result owner.new.value }
{
    told(owner.call(&Ask::SetPeriodicTimer {
        thread,
        handle,
        due,
        period,
    }))
}

/// [`Manager::cancel_timer`](ob_manager::Manager::cancel_timer): 0, 87, 170, 6 or 5.
#[tactic(auto, using(crate::proofs::Told::tells))]
#[unsafe(no_mangle)]
pub extern "C" fn om_cancel_timer(owner: &mut ManagerOwner, thread: u32, handle: u32) -> u32
    ensures { TellsStatus owner.old.value (Call.CancelTimer thread handle) result owner.new.value }
{
    told(owner.call(&Ask::CancelTimer { thread, handle }))
}

/// [`Manager::tick`](ob_manager::Manager::tick): 0 or 87.
#[tactic(auto, using(crate::proofs::Told::tells))]
#[unsafe(no_mangle)]
pub extern "C" fn om_tick(owner: &mut ManagerOwner, now: u64) -> u32
    ensures { TellsStatus owner.old.value (Call.Tick now) result owner.new.value }
{
    told(owner.call(&Ask::Tick { now }))
}

/// [`Manager::next_due`](ob_manager::Manager::next_due): 0, or 259 where nothing is due that a tick can reach.
#[tactic(auto, using(crate::proofs::Looked::due_next))]
#[unsafe(no_mangle)]
pub extern "C" fn om_next_due(owner: &mut ManagerOwner, moment: &mut u64) -> u32
    ensures due { NextDue owner.old.value.manager.state result moment.old moment.new }
    ensures same { owner.new.value ≡ owner.old.value }
{
    match owner.lend().manager.next_due() {
        Some(due) => {
            *moment = due;
            SUCCESS
        }
        None => NO_MORE,
    }
}

/// The next moment at which something is due, where that is before a moment.
fn due_before(held: &mut OwnedManager, moment: u64) -> Option<u64>
    ensures next { IfSome result (λ due. IsLeast (dues_of held.old.manager.state) (Some due)) }
    ensures before { IfSome result (λ due. due < moment) }
    ensures after { IfSome result (λ due. held.old.manager.state.clock < due) }
    ensures last { IfSome result (λ due. due ≤ LAST_MOMENT) }
    ensures none { IfNone result ((due : ℕ) → IsLeast (dues_of held.old.manager.state) (Some due) → moment ≤ due) }
    ensures same { held.new ≡ held.old }
{
    held.manager.kept();
    let due = held.manager.next_due()?;
    if due < moment { Some(due) } else { None }
}

/// Ticks to each moment before this one at which something is due, one after another.
fn serve(held: &mut OwnedManager, moment: u64)
    ensures served { Serves moment held.old held.new }
    ensures all { (due : ℕ) → IsLeast (dues_of held.new.manager.state) (Some due) → moment ≤ due }
    ensures still { (held.new ≡ held.old) ⊎ (held.new.manager.state.clock < moment) }
{
    while let Some(due) = due_before(held, moment) {
        let _ = held.call(&Ask::Tick { now: due });
    }
}

/// As many steps [`Manager::tick`](ob_manager::Manager::tick) as there are moments before this one at which something is
/// due, in their order, and one to this moment: 0, or 87, and then nothing is ticked to.
#[unsafe(no_mangle)]
pub extern "C" fn om_advance(owner: &mut ManagerOwner, moment: u64) -> u32
    ensures { Advances owner.old.value moment result owner.new.value }
{
    let held = owner.lend();
    if moment <= LAST_MOMENT {
        serve(held, moment);
    }
    told(held.call(&Ask::Tick { now: moment }))
}
