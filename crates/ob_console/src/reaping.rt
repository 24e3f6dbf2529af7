ghost use Rattle.std.specs.Prelude.{◌≡◌, ◌<◌, IfNone, IfSome, Some, position};
ghost use Rattle.pin_core.specs.Holds.{tally, same_id};
ghost use Rattle.pin_words.specs.Views.{is_of_slot};
ghost use Rattle.ob_manager.specs.Reaping.{IfReaped};
ghost use Rattle.ob_manager.specs.Steps.{Step};
ghost use Rattle.ob_manager.specs.declared.reply.Reply.{Reply};
ghost use Rattle.ob_store.specs.State.{Whole};
ghost use Rattle.ob_manager.specs.declared.call.CallOf.TheVariants as Call;
ghost use Rattle.ob_console.specs.Pinning.{SparesHeld};

use ob_manager::Manager;
use pin_core::Id;
use pin_words::{Keeper, Reader};

/// Has the reader meet the manager's keeper at a slot of which it holds something: a reap that was made there hasn't
/// taken the slot back.
#[tactic(auto, using(crate::proofs::Sparing::spares_none))]
pub fn meet_at(manager: &mut Manager<Keeper>, reader: &mut Reader, slot: u32)
    requires { manager.old.keeper.table ≡ Some reader.old.table }
    ensures spares { (before : Whole) (reply : Reply) → Step before (Call.Reap slot) reply manager.old
        → IfReaped reply (SparesHeld reader.old.view.held slot) }
    ensures held { reader.new.view.held ≡ reader.old.view.held }
    ensures same { manager.new ≡ manager.old }
    ensures table { reader.new.table ≡ reader.old.table }
{
    if let Some(id) = held_at(reader.held(), slot) {
        let slot = reader.slot_of_held(id);
        manager.same_shape(reader);
        manager.kept();
        manager.meet(reader, slot);
    }
}

/// An Id of this slot of which there is a copy.
#[tactic(auto, using(crate::proofs::Sparing::there, crate::proofs::Sparing::nowhere))]
fn held_at(held: &[Id], slot: u32) -> Option<Id>
    ensures is_there { IfSome result (λ id. (id.slot ≡ slot) × (0 < tally (same_id id) held.now)) }
    ensures none { IfNone result (tally (is_of_slot slot) held.now ≡ 0) }
{
    let place = place_at(held, slot)?;
    Some(held[place])
}

fn place_at(held: &[Id], slot: u32) -> Option<usize>
    ensures { result ≡ position (is_of_slot slot) held.now }
{
    held.iter().position(|id| id.slot == slot)
}
