//! The door of the manager: each call, by whatever way it comes, is made here.
ghost use Rattle.std.specs.Prelude.{◌≡◌};
ghost use Rattle.ob_manager.specs.Calls.{with_parts};
ghost use Rattle.ob_manager.specs.Reaping.{IfReap, IfReaped};
ghost use Rattle.ob_manager.specs.Steps.{Step, reply_of};

use crate::call::{Call, CallOf};
use crate::making::AsMake;
use crate::manager::Manager;
use crate::reply::Reply;
use crate::{
    children, copying, counting, creating, ending, handles, processes, reaping, signaling, timing,
    waiting,
};
use ob_rights::Fault;
use pin_words::PinKeeper;
use std::convert::AsSlice;

impl<K: PinKeeper> Manager<K> {
    /// Makes a call, whose name and handles may be borrowed. A refusal is an error.
    // A call is a row: the layout is by hand. Six of the functions are always inlined, here and so in whoever names a
    // call (`wait`, `wait_result`, `set_event`, `reset_event`, `release_semaphore`, `set_timer`): they are short, and
    // would else have a frame each, and a reply that goes through memory.
    #[inline(always)]
    #[rattlefmt::skip]
    pub fn try_call<M: AsMake, T: AsSlice<u8>, H: AsSlice<u32>>(
        &mut self,
        call: &CallOf<M, T, H>,
    ) -> Result<Reply, Fault>
        ensures step { Step self.old (with_parts M.making T.items H.items call.now) (reply_of result) self.new }
        ensures exact { IfReap (with_parts M.making T.items H.items call.now) (λ slot. IfReaped (reply_of result)
            (λ outcome. K.reclaims self.old.keeper slot outcome self.new.keeper)) }
    {
        match call {
            CallOf::Spawn { session } => processes::spawn(&mut self.store, *session),
            CallOf::Child { thread, inherit } => children::child(&mut self.store, *thread, *inherit),
            CallOf::StartThread { process } => processes::thread(&mut self.store, *process),
            CallOf::MakeEvent { thread, make, manual, set } =>
                creating::create_event(&mut self.store, *thread, make, *manual, *set),
            CallOf::MakeMutex { thread, make, owned } => creating::create_mutex(&mut self.store, *thread, make, *owned),
            CallOf::MakeSemaphore { thread, make, initial, max } =>
                creating::create_semaphore(&mut self.store, *thread, make, *initial, *max),
            CallOf::MakeTimer { thread, make, manual } =>
                creating::create_timer(&mut self.store, *thread, make, *manual),
            CallOf::MakeHost { thread, make, object_type, manual, signaled } =>
                creating::create_host(&mut self.store, *thread, make, *object_type, *manual, *signaled),
            CallOf::OpenNamed { thread, kind, mask, inherit, text } =>
                creating::open_named(&mut self.store, *thread, *kind, *mask, *inherit, text.as_slice()),
            CallOf::Duplicate { thread, source, handle, target, mask, inherit, options } =>
                copying::duplicate(&mut self.store, *thread, *source, *handle, *target, *mask, *inherit, *options),
            CallOf::CloseHandle { thread, handle } => handles::close(&mut self.store, *thread, *handle),
            CallOf::GetFlags { thread, handle } => handles::handle_flags(&self.store, *thread, *handle),
            CallOf::SetFlags { thread, handle, mask, flags } =>
                handles::set_handle_flags(&mut self.store, *thread, *handle, *mask, *flags),
            CallOf::SetEvent { thread, handle } => signaling::set_event(&mut self.store, *thread, *handle),
            CallOf::ResetEvent { thread, handle } => signaling::reset_event(&mut self.store, *thread, *handle),
            CallOf::PulseEvent { thread, handle } => signaling::pulse_event(&mut self.store, *thread, *handle),
            CallOf::ReleaseSemaphore { thread, handle, count } =>
                signaling::release_semaphore(&mut self.store, *thread, *handle, *count),
            CallOf::ReleaseMutex { thread, handle } => signaling::release_mutex(&mut self.store, *thread, *handle),
            CallOf::SignalHost { id, signaled } => signaling::signal_host(&mut self.store, *id, *signaled),
            CallOf::SetTimer { thread, handle, due } => timing::set_timer(&mut self.store, *thread, *handle, *due),
            CallOf::SetPeriodicTimer { thread, handle, due, period } =>
                timing::set_periodic_timer(&mut self.store, *thread, *handle, *due, *period),
            CallOf::CancelTimer { thread, handle } => timing::cancel_timer(&mut self.store, *thread, *handle),
            CallOf::Tick { now } => timing::tick(&mut self.store, *now),
            CallOf::WaitFor { thread, mode, timeout, handles } =>
                waiting::wait(&mut self.store, *thread, *mode, *timeout, handles.as_slice()),
            CallOf::SignalAndWait { thread, signal, timeout, handle } =>
                waiting::signal_and_wait(&mut self.store, *thread, *signal, *timeout, *handle),
            CallOf::Sleep { thread, timeout } => waiting::sleep(&mut self.store, *thread, *timeout),
            CallOf::WaitResult { wait } => waiting::wait_result(&mut self.store, *wait),
            CallOf::Expire { wait } => waiting::expire(&mut self.store, *wait),
            CallOf::Alert { wait } => waiting::alert(&mut self.store, *wait),
            CallOf::EndThread { thread } => ending::end_thread(&mut self.store, *thread),
            CallOf::Exit { process } => ending::exit(&mut self.store, *process),
            CallOf::Reap { slot } => reaping::reap(&mut self.store, *slot),
            CallOf::Counts { id } => counting::counts(&self.store, *id),
        }
    }

    /// Makes a call, whose name and handles may be borrowed. A refusal is a reply.
    #[inline(always)]
    pub fn call<M: AsMake, T: AsSlice<u8>, H: AsSlice<u32>>(
        &mut self,
        call: &CallOf<M, T, H>,
    ) -> Reply
        ensures step { Step self.old (with_parts M.making T.items H.items call.now) result self.new }
        ensures exact { IfReap (with_parts M.making T.items H.items call.now) (λ slot. IfReaped result
            (λ outcome. K.reclaims self.old.keeper slot outcome self.new.keeper)) }
    {
        reply_of(self.try_call(call))
    }

    /// Makes a call with a name and handles of its own.
    #[tactic(auto, using(crate::proofs::OwnParts::own_parts))]
    pub fn apply(&mut self, call: &Call) -> Reply
        ensures step { Step self.old call.now result self.new }
        ensures exact { IfReap call.now (λ slot. IfReaped result
            (λ outcome. K.reclaims self.old.keeper slot outcome self.new.keeper)) }
    {
        self.call(call)
    }
}

/// The reply that a call's function comes to.
// It names the parts of most replies, so that these are handed over one by one, and not as bytes that were just written
// in parts. `Flags` and `Reaped` are handed over whole.
#[inline(always)]
pub(crate) fn reply_of(answer: Result<Reply, Fault>) -> Reply
    ensures { result ≡ reply_of answer }
{
    match answer {
        Ok(Reply::Spawned { process, thread }) => Reply::Spawned { process, thread },
        Ok(Reply::Started { thread }) => Reply::Started { thread },
        Ok(Reply::Made { handle, id }) => Reply::Made { handle, id },
        Ok(Reply::Exists { handle, id }) => Reply::Exists { handle, id },
        Ok(Reply::Opened { handle, id }) => Reply::Opened { handle, id },
        Ok(Reply::Duplicated { handle, id }) => Reply::Duplicated { handle, id },
        Ok(Reply::Closed) => Reply::Closed,
        Ok(Reply::Done) => Reply::Done,
        Ok(Reply::Previous { count }) => Reply::Previous { count },
        Ok(Reply::Code { code }) => Reply::Code { code },
        Ok(Reply::Pending { wait }) => Reply::Pending { wait },
        Ok(Reply::Signaled { wait }) => Reply::Signaled { wait },
        Ok(Reply::Expired { wait }) => Reply::Expired { wait },
        Ok(Reply::Ticked { now }) => Reply::Ticked { now },
        Ok(Reply::Ended { thread }) => Reply::Ended { thread },
        Ok(Reply::Exited { process }) => Reply::Exited { process },
        Ok(
            Reply::CountsAre {
                handles,
                waits,
                hold,
            },
        ) => Reply::CountsAre {
            handles,
            waits,
            hold,
        },
        Ok(reply) => reply,
        Err(fault) => Reply::Refused(fault),
    }
}
