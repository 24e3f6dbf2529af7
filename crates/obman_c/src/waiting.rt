//! Waits.
ghost use Rattle.std.specs.Prelude.{◌≡◌, None, slice_index_or};
ghost use Rattle.ob_store.specs.Waiting.{wait_number};
ghost use Rattle.ob_waits.specs.Waits as waits;
ghost use Rattle.ob_manager.specs.declared.call.CallOf.TheVariants as Call;
ghost use Rattle.obman_c.specs.Telling.{TellsStatus, TellsValue, answer_in};
ghost use Rattle.ob_manager.specs.declared.waiting.Timeout.TheVariants as Timeout;
ghost use Rattle.obman_c.specs.Waiting.{TakesAll, mode_of, timeout_of};

use crate::status::told;
use crate::values::tell_answer;
use ob_manager::{Answer, Ask, Mode, Timeout};
use obman_c_base::{ManagerOwner, OwnedManager, SUCCESS};

/// The answer of a wait (`om_answer`).
#[repr(C)]
#[derive(Clone, Copy)]
pub struct CAnswer {
    /// The wait, which is over.
    pub wait: u32,
    /// Its thread, which may make calls again.
    pub thread: u32,
    /// Its code.
    pub code: u32,
}

/// For any or for all.
fn mode_of(all: bool) -> Mode
    ensures { result ≡ mode_of all }
{
    if all { Mode::All } else { Mode::Any }
}

/// [`Manager::wait`](ob_manager::Manager::wait), for so many milliseconds. 0 with the wait's code, 997 with its number,
/// or 87, 170, 6, 5, 1450 or 8.
#[unsafe(no_mangle)]
pub extern "C" fn om_wait(
    owner: &mut ManagerOwner,
    thread: u32,
    all: bool,
    milliseconds: u32,
    handles: &[u32],
    answer: &mut u32,
) -> u32
    ensures { TellsValue answer_in owner.old.value
        (Call.WaitFor thread (mode_of all)
        (Timeout.Millis milliseconds) handles.now) result owner.new.value answer.old answer.new }
{
    let mode = mode_of(all);
    let timeout = Timeout::Millis(milliseconds);
    tell_answer(
        owner.call(&Ask::WaitFor {
            thread,
            mode,
            timeout,
            handles,
        }),
        answer,
    )
}

/// Until a moment in units of 100 ns, or below 0 for so many units; for good at the greatest number.
fn timeout_of(due: i64) -> Timeout
    ensures { result ≡ timeout_of due }
{
    if due == i64::MAX {
        Timeout::Infinite
    } else {
        Timeout::Until(due)
    }
}

/// [`Manager::wait`](ob_manager::Manager::wait), until a moment. 0 with the wait's code, 997 with its number, or 87, 170,
/// 6, 5, 1450 or 8.
#[unsafe(no_mangle)]
pub extern "C" fn om_wait_until(
    owner: &mut ManagerOwner,
    thread: u32,
    all: bool,
    due: i64,
    handles: &[u32],
    answer: &mut u32,
) -> u32
    ensures { TellsValue answer_in owner.old.value
        (Call.WaitFor thread (mode_of all)
        (timeout_of due) handles.now) result owner.new.value answer.old answer.new }
{
    let mode = mode_of(all);
    let timeout = timeout_of(due);
    tell_answer(
        owner.call(&Ask::WaitFor {
            thread,
            mode,
            timeout,
            handles,
        }),
        answer,
    )
}

/// [`Manager::signal_and_wait`](ob_manager::Manager::signal_and_wait), until a moment. 0 with the wait's code, 997 with
/// its number, or 87, 170, 6, 5, 298, 288, 1450 or 8.
#[unsafe(no_mangle)]
pub extern "C" fn om_signal_and_wait(
    owner: &mut ManagerOwner,
    thread: u32,
    signal: u32,
    handle: u32,
    due: i64,
    answer: &mut u32,
) -> u32
    ensures { TellsValue answer_in owner.old.value
        (Call.SignalAndWait thread signal (timeout_of due) handle)
        result owner.new.value answer.old answer.new }
{
    let timeout = timeout_of(due);
    tell_answer(
        owner.call(&Ask::SignalAndWait {
            thread,
            signal,
            timeout,
            handle,
        }),
        answer,
    )
}

/// [`Manager::sleep`](ob_manager::Manager::sleep), until a moment. 0 with the wait's code, 997 with its number, or 87,
/// 170, 1450 or 8.
#[unsafe(no_mangle)]
pub extern "C" fn om_sleep(owner: &mut ManagerOwner, thread: u32, due: i64, answer: &mut u32) -> u32
    ensures { TellsValue answer_in owner.old.value
        (Call.Sleep thread (timeout_of due)) result owner.new.value answer.old answer.new }
{
    let timeout = timeout_of(due);
    tell_answer(owner.call(&Ask::Sleep { thread, timeout }), answer)
}

/// [`Manager::wait_result`](ob_manager::Manager::wait_result): 0 with the wait's code, 997 with its number, or 87.
#[tactic(auto, using(crate::proofs::Told::tells_as))]
#[unsafe(no_mangle)]
pub extern "C" fn om_wait_result(owner: &mut ManagerOwner, wait: u32, answer: &mut u32) -> u32
    ensures { TellsValue answer_in owner.old.value
        (Call.WaitResult wait) result owner.new.value answer.old answer.new }
{
    tell_answer(owner.call(&Ask::WaitResult { wait }), answer)
}

/// The answers of waits in the order in which they began, each taken by [`Manager::wait_result`], as far as there are
/// any and places for them. Answers how many.
fn take_answers(held: &mut OwnedManager, answers: &mut [CAnswer]) -> usize
    ensures { TakesAll held.old answers.old result held.new answers.new }
{
    for place in 0..answers.len() {
        let Some(Answer { wait, thread, code }) = held.manager.next_answered(0) else {
            return place;
        };
        let _ = held.call(&Ask::WaitResult { wait });
        answers[place] = CAnswer { wait, thread, code };
    }
    answers.len()
}

/// As many steps [`Manager::wait_result`] as waits are answered, in the order in which they began, or as there are
/// places: always 0.
#[unsafe(no_mangle)]
pub extern "C" fn om_take_answered(
    owner: &mut ManagerOwner,
    answers: &mut [CAnswer],
    count: &mut usize,
) -> u32
    ensures taken { TakesAll owner.old.value answers.old count.new owner.new.value answers.new }
    ensures status { result ≡ 0 }
{
    *count = take_answers(owner.lend(), answers);
    SUCCESS
}

/// [`Manager::expire`](ob_manager::Manager::expire): 0 or 87.
#[tactic(auto, using(crate::proofs::Told::tells))]
#[unsafe(no_mangle)]
pub extern "C" fn om_expire(owner: &mut ManagerOwner, wait: u32) -> u32
    ensures { TellsStatus owner.old.value (Call.Expire wait) result owner.new.value }
{
    told(owner.call(&Ask::Expire { wait }))
}

/// [`Manager::alert`](ob_manager::Manager::alert): 0 or 87.
#[tactic(auto, using(crate::proofs::Told::tells))]
#[unsafe(no_mangle)]
pub extern "C" fn om_alert(owner: &mut ManagerOwner, wait: u32) -> u32
    ensures { TellsStatus owner.old.value (Call.Alert wait) result owner.new.value }
{
    told(owner.call(&Ask::Alert { wait }))
}

/// [`Manager::is_pending`](ob_manager::Manager::is_pending).
#[unsafe(no_mangle)]
pub extern "C" fn om_is_pending(owner: &mut ManagerOwner, wait: u32) -> bool
    ensures pending { result ≡ waits.is_pending (slice_index_or owner.old.value.manager.state.waits
        (wait_number owner.old.value.manager.state wait) None) }
    ensures same { owner.new.value ≡ owner.old.value }
{
    owner.lend().manager.is_pending(wait)
}
