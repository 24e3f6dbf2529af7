ghost use Rattle.ob_manager.specs.Reaping.{IfReaped, reap};
ghost use Rattle.ob_manager.specs.Steps.{Gives, reclaim_in, reply_of};

use crate::reply::Reply;
use ob_rights::Fault;
use ob_store::Store;
use pin_core::Id;
use pin_words::PinKeeper;

/// Takes the slot of an ended object back, unless somebody holds it.
pub fn reap<K: PinKeeper>(store: &mut Store<K>, slot: u32) -> Result<Reply, Fault>
    ensures gives { Gives result store.old store.new (reap store.old.state slot (reclaim_in (reply_of result))) }
    ensures exact { IfReaped (reply_of result) (λ outcome. K.reclaims store.old.keeper slot outcome store.new.keeper) }
{
    // (the slot of an object is one of those that there are, so the limit is asked where none is found)
    let Some(found) = store.object(slot) else {
        if store.limits().slots <= slot {
            return Err(Fault::Parameter);
        }
        return Err(Fault::Handle);
    };
    let header = found.header;
    if header.body.is_some() {
        return Err(Fault::Handle);
    }
    // (by its parts, so that a caller doesn't read as a whole what was just written in parts)
    let id = Id {
        slot: header.id.slot,
        generation: header.id.generation,
    };
    let outcome = store.reclaim(slot);
    Ok(Reply::Reaped { id, outcome })
}
