ghost use Rattle.std.specs.Prelude.{◌≡◌};

use ob_manager::{Call, Manager, Reply};
use ob_rights::Fault;
use pin_words::PinKeeper;

/// The reply to a call of a manager. It is made once more where memory was wanting, since it changed nothing. No call
/// changes which words are the keeper's.
#[tactic(auto, using(ob_manager::proofs::TableLaws::step_same_table))]
pub fn asked<K: PinKeeper>(manager: &mut Manager<K>, call: &Call) -> Reply
    ensures { manager.new.keeper.table ≡ manager.old.keeper.table }
{
    let reply = manager.apply(call);
    if reply == Reply::Refused(Fault::Memory) {
        return manager.apply(call);
    }
    reply
}
