//! Processes and threads.
ghost use Rattle.ob_manager.specs.declared.call.CallOf.TheVariants as Call;
ghost use Rattle.obman_c.specs.Telling.{TellsStatus, TellsValue, member_in, thread_in};

use crate::status::told;
use crate::values::{Member, tell_member, tell_thread};
use ob_manager::Ask;
use obman_c_base::ManagerOwner;

/// [`Manager::spawn`](ob_manager::Manager::spawn): 0, 1450 or 8.
#[tactic(auto, using(crate::proofs::Told::tells_as))]
#[unsafe(no_mangle)]
pub extern "C" fn om_spawn(owner: &mut ManagerOwner, session: u32, member: &mut Member) -> u32
    ensures { TellsValue member_in owner.old.value
        (Call.Spawn session) result owner.new.value member.old member.new }
{
    tell_member(owner.call(&Ask::Spawn { session }), member)
}

/// [`Manager::child`](ob_manager::Manager::child): 0, 87, 170, 1450 or 8.
#[tactic(auto, using(crate::proofs::Told::tells_as))]
#[unsafe(no_mangle)]
pub extern "C" fn om_child(
    owner: &mut ManagerOwner,
    thread: u32,
    inherit: bool,
    member: &mut Member,
) -> u32
    ensures { TellsValue member_in owner.old.value
        (Call.Child thread inherit) result owner.new.value member.old member.new }
{
    tell_member(owner.call(&Ask::Child { thread, inherit }), member)
}

/// [`Manager::thread`](ob_manager::Manager::thread): 0, 87, 1450 or 8.
#[tactic(auto, using(crate::proofs::Told::tells_as))]
#[unsafe(no_mangle)]
pub extern "C" fn om_thread(owner: &mut ManagerOwner, process: u32, thread: &mut u32) -> u32
    ensures { TellsValue thread_in owner.old.value
        (Call.StartThread process) result owner.new.value thread.old thread.new }
{
    tell_thread(owner.call(&Ask::StartThread { process }), thread)
}

/// [`Manager::end_thread`](ob_manager::Manager::end_thread): 0 or 87.
#[tactic(auto, using(crate::proofs::Told::tells))]
#[unsafe(no_mangle)]
pub extern "C" fn om_end_thread(owner: &mut ManagerOwner, thread: u32) -> u32
    ensures { TellsStatus owner.old.value (Call.EndThread thread) result owner.new.value }
{
    told(owner.call(&Ask::EndThread { thread }))
}

/// [`Manager::exit`](ob_manager::Manager::exit): 0 or 87.
#[tactic(auto, using(crate::proofs::Told::tells))]
#[unsafe(no_mangle)]
pub extern "C" fn om_exit(owner: &mut ManagerOwner, process: u32) -> u32
    ensures { TellsStatus owner.old.value (Call.Exit process) result owner.new.value }
{
    told(owner.call(&Ask::Exit { process }))
}
