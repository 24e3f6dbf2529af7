ghost use Rattle.std.specs.Prelude.{◌≡◌, ◌+◌, ◌==◌, if◌then◌else◌};
ghost use Rattle.ob_manager.specs.Counting.{card, counts};
ghost use Rattle.ob_manager.specs.Steps.{Gives};

use crate::card::Card;
use crate::reply::Reply;
use ob_rights::Fault;
use ob_store::Store;
use pin_core::Id;
use pin_words::PinKeeper;

/// What refers to an object.
pub fn counts<K: PinKeeper>(store: &Store<K>, id: Id) -> Result<Reply, Fault>
    ensures { Gives result store.now store.now (counts store.now.state id) }
{
    // (the slot of an object is one of those that there are, so the limit is asked where none is found)
    let Some(found) = store.object(id.slot) else {
        if store.limits().slots <= id.slot {
            return Err(Fault::Parameter);
        }
        return Err(Fault::Handle);
    };
    let header = found.header;
    if header.id != id {
        return Err(Fault::Handle);
    }
    Ok(Reply::CountsAre {
        handles: header.handles,
        waits: header.blocks,
        hold: hold_of(header.handles, header.blocks),
    })
}

/// 1 where nothing refers to an object, else 0.
fn hold_of(handles: u32, blocks: u64) -> u32
    ensures { result ≡ if handles + blocks == 0 then 1 else 0 }
{
    if handles == 0 && blocks == 0 {
        return 1;
    }
    0
}

/// What an object was created as.
pub fn card<K: PinKeeper>(store: &Store<K>, id: Id) -> Option<Card>
    ensures { result ≡ card store.now.state id }
{
    match store.object(id.slot) {
        Some(found) if found.header.id == id => {
            return Some(Card {
                id,
                descr: found.label.descr,
                grant: found.header.grant,
            });
        }
        _ => return None,
    }
}
