ghost use Rattle.std.specs.Prelude.{◌≡◌, ◌==◌, ◌<◌, ℕ, None, OnOk, slice_index_or, length, if◌then◌else◌};
ghost use Rattle.std.specs.Option.{option_copied};
ghost use Rattle.ob_waits.specs.ByThread.{answered_at, number_at, wait_at};

use crate::numbered_wait::NumberedWait;
use crate::wait::Wait;
use std::alloc::AllocError;

/// Makes room for a thread.
#[inline(always)]
pub(crate) fn make_room(
    by_thread: &mut Vec<Option<NumberedWait>>,
    thread: u32,
) -> Result<(), AllocError>
    ensures room { OnOk result (thread < length by_thread.new.items) }
    ensures same { (t : ℕ) → slice_index_or by_thread.new.items t None ≡ slice_index_or by_thread.old.items t None }
{
    while by_thread.len() <= thread as usize {
        by_thread.push(None)?;
    }
    Ok(())
}

/// The number of a thread's wait.
pub(crate) fn number_at(by_thread: &[Option<NumberedWait>], thread: u32) -> Option<u32>
    ensures { result ≡ number_at (slice_index_or by_thread.now thread None) }
{
    let at = thread as usize;
    if at < by_thread.len() {
        return match &by_thread[at] {
            Some(held) => Some(held.number),
            None => None,
        };
    }
    None
}

/// A thread's wait.
pub(crate) fn wait_at(by_thread: &[Option<NumberedWait>], thread: u32) -> Option<&Wait>
    ensures { option_copied result ≡ wait_at (slice_index_or by_thread.now thread None) }
{
    let at = thread as usize;
    if at < by_thread.len() {
        return match &by_thread[at] {
            Some(held) => Some(&held.wait),
            None => None,
        };
    }
    None
}

/// Takes a thread's wait away.
pub(crate) fn clear(by_thread: &mut Vec<Option<NumberedWait>>, thread: u32)
    ensures { (t : ℕ) → slice_index_or by_thread.new.items t None
        ≡ (if thread == t then None else slice_index_or by_thread.old.items t None) }
{
    let at = thread as usize;
    if at < by_thread.len() {
        by_thread[at] = None;
    }
}

/// Answers a thread's wait.
pub(crate) fn answer(by_thread: &mut Vec<Option<NumberedWait>>, thread: u32, code: u32)
    ensures { (t : ℕ) → slice_index_or by_thread.new.items t None
        ≡ (if thread == t then answered_at code (slice_index_or by_thread.old.items thread None)
        else slice_index_or by_thread.old.items t None) }
{
    let at = thread as usize;
    if at < by_thread.len() {
        if let Some(held) = &mut by_thread[at] {
            held.wait.answer(code);
        }
    }
}
