//! Events, semaphores, mutexes, and objects of the host's own.
ghost use Rattle.ob_manager.specs.declared.call.CallOf.TheVariants as Call;
ghost use Rattle.obman_c.specs.Pinning.{id_at};
ghost use Rattle.obman_c.specs.Telling.{TellsStatus, TellsValue, count_in};

use crate::status::told;
use crate::values::tell_count;
use ob_manager::Ask;
use obman_c_base::ManagerOwner;
use pin_core::Id;

/// [`Manager::set_event`](ob_manager::Manager::set_event): 0, 87, 170, 6 or 5.
#[tactic(auto, using(crate::proofs::Told::tells))]
#[unsafe(no_mangle)]
pub extern "C" fn om_set_event(owner: &mut ManagerOwner, thread: u32, handle: u32) -> u32
    ensures { TellsStatus owner.old.value (Call.SetEvent thread handle) result owner.new.value }
{
    told(owner.call(&Ask::SetEvent { thread, handle }))
}

/// [`Manager::reset_event`](ob_manager::Manager::reset_event): 0, 87, 170, 6 or 5.
#[tactic(auto, using(crate::proofs::Told::tells))]
#[unsafe(no_mangle)]
pub extern "C" fn om_reset_event(owner: &mut ManagerOwner, thread: u32, handle: u32) -> u32
    ensures { TellsStatus owner.old.value (Call.ResetEvent thread handle) result owner.new.value }
{
    told(owner.call(&Ask::ResetEvent { thread, handle }))
}

/// [`Manager::pulse_event`](ob_manager::Manager::pulse_event): 0, 87, 170, 6 or 5.
#[tactic(auto, using(crate::proofs::Told::tells))]
#[unsafe(no_mangle)]
pub extern "C" fn om_pulse_event(owner: &mut ManagerOwner, thread: u32, handle: u32) -> u32
    ensures { TellsStatus owner.old.value (Call.PulseEvent thread handle) result owner.new.value }
{
    told(owner.call(&Ask::PulseEvent { thread, handle }))
}

/// [`Manager::release_semaphore`](ob_manager::Manager::release_semaphore): 0, 87, 170, 6, 5 or 298.
#[unsafe(no_mangle)]
pub extern "C" fn om_release_semaphore(
    owner: &mut ManagerOwner,
    thread: u32,
    handle: u32,
    count: i32,
    previous: &mut u32,
) -> u32
    ensures { TellsValue count_in owner.old.value
        (Call.ReleaseSemaphore thread handle count) result owner.new.value previous.old previous.new }
{
    tell_count(
        owner.call(&Ask::ReleaseSemaphore {
            thread,
            handle,
            count,
        }),
        previous,
    )
}

/// [`Manager::release_mutex`](ob_manager::Manager::release_mutex): 0, 87, 170, 6 or 288.
#[tactic(auto, using(crate::proofs::Told::tells))]
#[unsafe(no_mangle)]
pub extern "C" fn om_release_mutex(owner: &mut ManagerOwner, thread: u32, handle: u32) -> u32
    ensures { TellsStatus owner.old.value (Call.ReleaseMutex thread handle) result owner.new.value }
{
    told(owner.call(&Ask::ReleaseMutex { thread, handle }))
}

/// [`Manager::signal_host`](ob_manager::Manager::signal_host): 0 or 6.
#[tactic(auto, using(crate::proofs::Told::tells))]
#[unsafe(no_mangle)]
pub extern "C" fn om_signal_host(
    owner: &mut ManagerOwner,
    slot: u32,
    generation: u32,
    signaled: bool,
) -> u32
    ensures { TellsStatus owner.old.value (Call.SignalHost (id_at slot generation) signaled) result owner.new.value }
{
    let id = Id { slot, generation };
    told(owner.call(&Ask::SignalHost { id, signaled }))
}
