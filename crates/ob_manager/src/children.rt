ghost use Rattle.ob_manager.specs.Processes.{child};
ghost use Rattle.ob_manager.specs.Steps.{GivesOrLacks};

use crate::checks::caller;
use crate::reply::Reply;
use ob_rights::Fault;
use ob_store::Store;
use pin_words::PinKeeper;

/// Makes a process in the session of the calling thread's process, with the handles that it inherits.
pub fn child<K: PinKeeper>(store: &mut Store<K>, thread: u32, inherit: bool) -> Result<Reply, Fault>
    ensures { GivesOrLacks result store.old store.new (child store.old.state thread inherit) }
{
    let parent = caller(store, thread)?;
    let Some(session) = store.session(parent) else {
        return Err(Fault::Parameter);
    };
    let process = store.next_process();
    let thread = store.next_thread();
    if store.limits().processes < process {
        return Err(Fault::Limit);
    }
    if store.limits().threads < thread {
        return Err(Fault::Limit);
    }
    if inherit {
        store.add_child(parent, session)?;
    } else {
        store.add_process(session)?;
    }
    Ok(Reply::Spawned { process, thread })
}
