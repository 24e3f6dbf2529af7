//! Slots taken back, and what refers to objects.
ghost use Rattle.std.specs.Prelude.{◌≡◌};
ghost use Rattle.ob_manager.specs.declared.call.CallOf.TheVariants as Call;
ghost use Rattle.obman_c.specs.Pinning.{id_at};
ghost use Rattle.obman_c.specs.Reaping.{ReapsAll};
ghost use Rattle.obman_c.specs.Telling.{TellsValue, reaping_in, references_in};

use crate::values::{Reaping, References, tell_reaping, tell_references};
use ob_manager::Ask;
use obman_c_base::{ManagerOwner, OwnedManager, SUCCESS};
use pin_core::Id;

/// [`Manager::reap`](ob_manager::Manager::reap): 0, 87 or 6.
#[tactic(auto, using(crate::proofs::Told::tells_as))]
#[unsafe(no_mangle)]
pub extern "C" fn om_reap(owner: &mut ManagerOwner, slot: u32, reaping: &mut Reaping) -> u32
    ensures { TellsValue reaping_in owner.old.value
        (Call.Reap slot) result owner.new.value reaping.old reaping.new }
{
    tell_reaping(owner.call(&Ask::Reap { slot }), reaping)
}

/// Slots of ended objects by rising number, each taken back by [`Manager::reap`], as far as there are any and places
/// for them. Answers how many.
fn take_ended(held: &mut OwnedManager, reapings: &mut [Reaping]) -> usize
    ensures { ReapsAll held.old reapings.old result held.new reapings.new }
{
    let mut from = 0;
    for place in 0..reapings.len() {
        held.manager.kept();
        let Some(id) = held.manager.next_closing(from) else {
            return place;
        };
        let answer = held.call(&Ask::Reap { slot: id.slot });
        let _ = tell_reaping(answer, &mut reapings[place]);
        from = id.slot + 1;
    }
    reapings.len()
}

/// As many steps [`Manager::reap`] as there are slots whose objects have ended, by rising slot, or as there are places:
/// always 0.
#[unsafe(no_mangle)]
pub extern "C" fn om_take_ended(
    owner: &mut ManagerOwner,
    reapings: &mut [Reaping],
    count: &mut usize,
) -> u32
    ensures ended { ReapsAll owner.old.value reapings.old count.new owner.new.value reapings.new }
    ensures status { result ≡ 0 }
{
    *count = take_ended(owner.lend(), reapings);
    SUCCESS
}

/// [`Manager::counts`](ob_manager::Manager::counts): 0, 87 or 6.
#[tactic(auto, using(crate::proofs::Told::tells_as, crate::proofs::Told::counts_same))]
#[unsafe(no_mangle)]
pub extern "C" fn om_counts(
    owner: &mut ManagerOwner,
    slot: u32,
    generation: u32,
    references: &mut References,
) -> u32
    ensures step { TellsValue references_in owner.old.value
        (Call.Counts (id_at slot generation)) result owner.new.value references.old references.new }
    ensures same { owner.new.value.manager ≡ owner.old.value.manager }
{
    let id = Id { slot, generation };
    tell_references(owner.call(&Ask::Counts { id }), references)
}
