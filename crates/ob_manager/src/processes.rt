ghost use Rattle.ob_manager.specs.Processes.{spawn, thread};
ghost use Rattle.ob_manager.specs.Steps.{GivesOrLacks};

use crate::reply::Reply;
use ob_rights::Fault;
use ob_store::Store;
use pin_words::PinKeeper;

/// Makes a process of a session, with its first thread.
pub fn spawn<K: PinKeeper>(store: &mut Store<K>, session: u32) -> Result<Reply, Fault>
    ensures { GivesOrLacks result store.old store.new (spawn store.old.state session) }
{
    let process = store.next_process();
    let thread = store.next_thread();
    if store.limits().processes < process {
        return Err(Fault::Limit);
    }
    if store.limits().threads < thread {
        return Err(Fault::Limit);
    }
    store.add_process(session)?;
    Ok(Reply::Spawned { process, thread })
}

/// Makes a thread of a process.
pub fn thread<K: PinKeeper>(store: &mut Store<K>, process: u32) -> Result<Reply, Fault>
    ensures { GivesOrLacks result store.old store.new (thread store.old.state process) }
{
    if store.session(process).is_none() {
        return Err(Fault::Parameter);
    }
    let thread = store.next_thread();
    if store.limits().threads < thread {
        return Err(Fault::Limit);
    }
    store.add_thread(process)?;
    Ok(Reply::Started { thread })
}
