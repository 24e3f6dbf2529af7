ghost use Rattle.ob_manager.specs.Ending.{end_thread, exit};
ghost use Rattle.ob_manager.specs.Steps.{Gives};

use crate::reply::Reply;
use ob_rights::Fault;
use ob_store::Store;
use pin_words::PinKeeper;

/// Ends a thread, and its process with the last one.
pub fn end_thread<K: PinKeeper>(store: &mut Store<K>, thread: u32) -> Result<Reply, Fault>
    ensures { Gives result store.old store.new (end_thread store.old.state thread) }
{
    let Some(process) = store.process(thread) else {
        return Err(Fault::Parameter);
    };
    store.end_thread(thread, process);
    Ok(Reply::Ended { thread })
}

/// Ends a process with its threads.
pub fn exit<K: PinKeeper>(store: &mut Store<K>, process: u32) -> Result<Reply, Fault>
    ensures { Gives result store.old store.new (exit store.old.state process) }
{
    if store.session(process).is_none() {
        return Err(Fault::Parameter);
    }
    store.exit(process);
    Ok(Reply::Exited { process })
}
