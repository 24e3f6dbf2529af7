ghost use Rattle.std.specs.Prelude.{◌≤◌, All};
ghost use Rattle.ob_manager.specs.Calls.{with_parts};
ghost use Rattle.ob_manager.specs.Makings.{making_of};
ghost use Rattle.ob_script.specs.Fitting.{FitHandles, Fits, FitsKind, FitsMake, FitsMask, FitsSign, FitsTarget};
ghost use Rattle.ob_script.specs.Fitting.{FitsTimeout, Small};

use ob_manager::{AsMake, CallOf, Make, Timeout};
use ob_rights::{Kind, Rights};
use std::convert::AsSlice;

// Each function here reads numbers, which is how a contract knows that they are those of their types.

fn small(_number: u32)
    ensures { Small _number }
{}

fn signed(_number: i32)
    ensures { FitsSign 2147483648 _number }
{}

fn long(_number: i64)
    ensures { FitsSign 9223372036854775808 _number }
{}

fn byte(_number: u8)
    ensures { _number ≤ 255 }
{}

fn kind(kind: Kind)
    ensures { FitsKind kind }
{
    if let Kind::Host(object_type) = kind {
        byte(object_type);
    }
}

fn mask(mask: Option<Rights>)
    ensures { FitsMask mask }
{
    if let Some(mask) = mask {
        small(mask.0);
    }
}

fn target(target: Option<u32>)
    ensures { FitsTarget target }
{
    if let Some(process) = target {
        small(process);
    }
}

fn timeout(timeout: Timeout)
    ensures { FitsTimeout timeout }
{
    match timeout {
        Timeout::Millis(millis) => small(millis),
        Timeout::Until(due) => long(due),
        _ => {}
    }
}

fn make(make: Make<'_>)
    ensures { FitsMake (making_of make.entry) }
{
    mask(make.access);
    mask(make.grant);
}

fn each(handles: &[u32])
    ensures { All Small handles.now }
{
    for handle in handles {
        small(*handle);
    }
}

#[tactic(auto, using(crate::proofs::Fitted::each_fits))]
fn handles(handles: &[u32])
    ensures { FitHandles handles.now }
{
    each(handles);
}

/// Says of each number of a call that its type has it, as a contract over ℕ and ℤ doesn't know by itself.
pub(crate) fn fits<M: AsMake, T: AsSlice<u8>, H: AsSlice<u32>>(call: &CallOf<M, T, H>)
    ensures { Fits (with_parts M.making T.items H.items call.now) }
{
    match call {
        CallOf::Spawn { session } => small(*session),
        CallOf::Child { thread, .. } => small(*thread),
        CallOf::StartThread { process } => small(*process),
        CallOf::MakeEvent {
            thread,
            make: what,
            ..
        } => {
            small(*thread);
            make(what.as_make());
        }
        CallOf::MakeMutex {
            thread,
            make: what,
            ..
        } => {
            small(*thread);
            make(what.as_make());
        }
        CallOf::MakeSemaphore {
            thread,
            make: what,
            initial,
            max,
        } => {
            small(*thread);
            make(what.as_make());
            signed(*initial);
            signed(*max);
        }
        CallOf::MakeTimer {
            thread,
            make: what,
            ..
        } => {
            small(*thread);
            make(what.as_make());
        }
        CallOf::MakeHost {
            thread,
            make: what,
            object_type,
            ..
        } => {
            small(*thread);
            make(what.as_make());
            byte(*object_type);
        }
        CallOf::OpenNamed {
            thread,
            kind: of,
            mask: asked,
            ..
        } => {
            small(*thread);
            small(asked.0);
            kind(*of);
        }
        CallOf::Duplicate {
            thread,
            source,
            handle,
            target: to,
            mask: asked,
            ..
        } => {
            small(*thread);
            small(*source);
            small(*handle);
            target(*to);
            small(asked.0);
        }
        CallOf::CloseHandle { thread, handle }
        | CallOf::GetFlags { thread, handle }
        | CallOf::SetEvent { thread, handle }
        | CallOf::ResetEvent { thread, handle }
        | CallOf::PulseEvent { thread, handle }
        | CallOf::ReleaseMutex { thread, handle }
        | CallOf::CancelTimer { thread, handle } => {
            small(*thread);
            small(*handle);
        }
        CallOf::SetFlags {
            thread,
            handle,
            mask: chosen,
            flags,
        } => {
            small(*thread);
            small(*handle);
            small(*chosen);
            small(*flags);
        }
        CallOf::ReleaseSemaphore {
            thread,
            handle,
            count,
        } => {
            small(*thread);
            small(*handle);
            signed(*count);
        }
        CallOf::SetTimer {
            thread,
            handle,
            due,
        } => {
            small(*thread);
            small(*handle);
            long(*due);
        }
        CallOf::SetPeriodicTimer {
            thread,
            handle,
            due,
            period,
        } => {
            small(*thread);
            small(*handle);
            long(*due);
            signed(*period);
        }
        CallOf::Tick { .. } => {}
        CallOf::WaitFor {
            thread,
            timeout: limit,
            handles: list,
            ..
        } => {
            small(*thread);
            timeout(*limit);
            handles(list.as_slice());
        }
        CallOf::SignalAndWait {
            thread,
            signal,
            timeout: limit,
            handle,
        } => {
            small(*thread);
            small(*signal);
            timeout(*limit);
            small(*handle);
        }
        CallOf::Sleep {
            thread,
            timeout: limit,
        } => {
            small(*thread);
            timeout(*limit);
        }
        CallOf::WaitResult { wait } | CallOf::Expire { wait } | CallOf::Alert { wait } => {
            small(*wait)
        }
        CallOf::EndThread { thread } => small(*thread),
        CallOf::Exit { process } => small(*process),
        CallOf::Reap { slot } => small(*slot),
        CallOf::SignalHost { id, .. } | CallOf::Counts { id } => {
            small(id.slot);
            small(id.generation);
        }
    }
}
