ghost use Rattle.std.specs.Prelude.{◌≡◌, ◌↔◌, ℕ, List, IfErr, IfOk, IsTrue, false, true};
ghost use Rattle.ob_manager.specs.Calls.{is_plain, is_wait, with_parts};

use crate::making::{AsMake, Make, Making, Text};
use crate::waiting::{HandleList, Timeout};
use ob_rights::{Kind, Rights};
use ob_waits::Mode;
use pin_core::Id;
use std::alloc::{AllocError, Global};
use std::convert::AsSlice;

/// A call of the manager with its arguments: what a create asks for is an `M`, a name a `T`, and a list of handles an
/// `H`.
#[derive(PartialEq, Drop)]
pub enum CallOf<M, T, H> {
    /// `Manager::spawn`.
    Spawn {
        /// The session of the new process.
        session: u32,
    },
    /// `Manager::child`.
    Child {
        /// The calling thread.
        thread: u32,
        /// Whether the new process inherits.
        inherit: bool,
    },
    /// `Manager::thread`.
    StartThread {
        /// The process.
        process: u32,
    },
    /// `Manager::create_event`.
    MakeEvent {
        /// The calling thread.
        thread: u32,
        /// What it asks for.
        make: M,
        /// Whether the event is reset by hand.
        manual: bool,
        /// Whether it begins set.
        set: bool,
    },
    /// `Manager::create_mutex`.
    MakeMutex {
        /// The calling thread.
        thread: u32,
        /// What it asks for.
        make: M,
        /// Whether the calling thread owns it.
        owned: bool,
    },
    /// `Manager::create_semaphore`.
    MakeSemaphore {
        /// The calling thread.
        thread: u32,
        /// What it asks for.
        make: M,
        /// The first count.
        initial: i32,
        /// The greatest count.
        max: i32,
    },
    /// `Manager::create_timer`.
    MakeTimer {
        /// The calling thread.
        thread: u32,
        /// What it asks for.
        make: M,
        /// Whether only setting it resets it.
        manual: bool,
    },
    /// `Manager::create_host`.
    MakeHost {
        /// The calling thread.
        thread: u32,
        /// What it asks for.
        make: M,
        /// The type of the object, which the host chooses.
        object_type: u8,
        /// Whether it stays signaled until the host resets it; else the wait that it satisfies resets it.
        manual: bool,
        /// Whether it begins signaled.
        signaled: bool,
    },
    /// `Manager::open_named`.
    OpenNamed {
        /// The calling thread.
        thread: u32,
        /// The kind of the object.
        kind: Kind,
        /// The rights that the handle is to have.
        mask: Rights,
        /// Whether the handle has the flag INHERIT.
        inherit: bool,
        /// The name, as the caller gives it.
        text: T,
    },
    /// `Manager::duplicate`.
    Duplicate {
        /// The calling thread.
        thread: u32,
        /// The process of the handle.
        source: u32,
        /// The handle.
        handle: u32,
        /// The process of the new handle, if there is to be one.
        target: Option<u32>,
        /// The rights that the new handle is to have.
        mask: Rights,
        /// Whether the new handle has the flag INHERIT.
        inherit: bool,
        /// 1 to close the handle, 2 for its rights.
        options: u32,
    },
    /// `Manager::close`.
    CloseHandle {
        /// The calling thread.
        thread: u32,
        /// The handle.
        handle: u32,
    },
    /// `Manager::handle_flags`.
    GetFlags {
        /// The calling thread.
        thread: u32,
        /// The handle.
        handle: u32,
    },
    /// `Manager::set_handle_flags`.
    SetFlags {
        /// The calling thread.
        thread: u32,
        /// The handle.
        handle: u32,
        /// Which flags are set.
        mask: u32,
        /// What they become.
        flags: u32,
    },
    /// `Manager::set_event`.
    SetEvent {
        /// The calling thread.
        thread: u32,
        /// The handle.
        handle: u32,
    },
    /// `Manager::reset_event`.
    ResetEvent {
        /// The calling thread.
        thread: u32,
        /// The handle.
        handle: u32,
    },
    /// `Manager::pulse_event`.
    PulseEvent {
        /// The calling thread.
        thread: u32,
        /// The handle.
        handle: u32,
    },
    /// `Manager::release_semaphore`.
    ReleaseSemaphore {
        /// The calling thread.
        thread: u32,
        /// The handle.
        handle: u32,
        /// How much the count is raised.
        count: i32,
    },
    /// `Manager::release_mutex`.
    ReleaseMutex {
        /// The calling thread.
        thread: u32,
        /// The handle.
        handle: u32,
    },
    /// `Manager::signal_host`.
    SignalHost {
        /// The object.
        id: Id,
        /// Whether it is to be signaled, or reset.
        signaled: bool,
    },
    /// `Manager::set_timer`.
    SetTimer {
        /// The calling thread.
        thread: u32,
        /// The handle.
        handle: u32,
        /// When it is due, in units of 100 ns: a moment, or below 0 so many units from now.
        due: i64,
    },
    /// `Manager::set_periodic_timer`.
    SetPeriodicTimer {
        /// The calling thread.
        thread: u32,
        /// The handle.
        handle: u32,
        /// When it is due, as of `SetTimer`.
        due: i64,
        /// The period in milliseconds, 0 for none.
        period: i32,
    },
    /// `Manager::cancel_timer`.
    CancelTimer {
        /// The calling thread.
        thread: u32,
        /// The handle.
        handle: u32,
    },
    /// `Manager::tick`.
    Tick {
        /// The moment that it is, in units of 100 ns.
        now: u64,
    },
    /// `Manager::wait`.
    WaitFor {
        /// The calling thread.
        thread: u32,
        /// Whether it waits for any or for all.
        mode: Mode,
        /// How long it waits.
        timeout: Timeout,
        /// What it waits for.
        handles: H,
    },
    /// `Manager::signal_and_wait`.
    SignalAndWait {
        /// The calling thread.
        thread: u32,
        /// The handle whose object is signaled.
        signal: u32,
        /// How long it waits.
        timeout: Timeout,
        /// What it waits for.
        handle: u32,
    },
    /// `Manager::sleep`.
    Sleep {
        /// The calling thread.
        thread: u32,
        /// How long it waits.
        timeout: Timeout,
    },
    /// `Manager::wait_result`.
    WaitResult {
        /// The wait.
        wait: u32,
    },
    /// `Manager::expire`.
    Expire {
        /// The wait.
        wait: u32,
    },
    /// `Manager::alert`.
    Alert {
        /// The wait.
        wait: u32,
    },
    /// `Manager::end_thread`.
    EndThread {
        /// The thread.
        thread: u32,
    },
    /// `Manager::exit`.
    Exit {
        /// The process.
        process: u32,
    },
    /// `Manager::reap`.
    Reap {
        /// The slot.
        slot: u32,
    },
    /// `Manager::counts`.
    Counts {
        /// The object.
        id: Id,
    },
}

// Not derived, which would copy part by part and takes three minutes of proof.
impl<M: Copy, T: Copy, H: Copy> Clone for CallOf<M, T, H> {
    ghost is_clone = { λ call copy. copy ≡ call };

    fn clone(&self) -> Result<CallOf<M, T, H>, AllocError> {
        Ok(*self)
    }
}

impl<M: Copy, T: Copy, H: Copy> Copy for CallOf<M, T, H> {}

/// A call with a name and handles of its own, as a journal keeps it.
pub type Call = CallOf<Making, Text, HandleList>;

/// A call whose name and handles are borrowed.
pub type Ask<'a> = CallOf<Make<'a>, &'a [u8], &'a [u32]>;

impl<M, T, H> CallOf<M, T, H> {
    /// Whether nothing of it lies apart in memory: it is no create, no open and no wait, which may have a name or
    /// handles.
    #[inline(always)]
    pub fn is_plain(&self) -> bool
        ensures { result ≡ is_plain self.now }
    {
        !matches!(
            self,
            CallOf::MakeEvent { .. }
                | CallOf::MakeMutex { .. }
                | CallOf::MakeSemaphore { .. }
                | CallOf::MakeTimer { .. }
                | CallOf::MakeHost { .. }
                | CallOf::OpenNamed { .. }
                | CallOf::WaitFor { .. }
        )
    }

    /// The same call as a call whose parts have other types; a plain call has none of these parts.
    #[inline(always)]
    fn plain<N, U, G>(&self) -> CallOf<N, U, G>
        requires { is_plain self.now ≡ true }
        ensures { (f : M → N) (g : T → U) (h : H → G) → result ≡ with_parts f g h self.now }
    {
        match *self {
            CallOf::Spawn { session } => CallOf::Spawn { session },
            CallOf::Child { thread, inherit } => CallOf::Child { thread, inherit },
            CallOf::StartThread { process } => CallOf::StartThread { process },
            CallOf::Duplicate {
                thread,
                source,
                handle,
                target,
                mask,
                inherit,
                options,
            } => CallOf::Duplicate {
                thread,
                source,
                handle,
                target,
                mask,
                inherit,
                options,
            },
            CallOf::CloseHandle { thread, handle } => CallOf::CloseHandle { thread, handle },
            CallOf::GetFlags { thread, handle } => CallOf::GetFlags { thread, handle },
            CallOf::SetFlags {
                thread,
                handle,
                mask,
                flags,
            } => CallOf::SetFlags {
                thread,
                handle,
                mask,
                flags,
            },
            CallOf::SetEvent { thread, handle } => CallOf::SetEvent { thread, handle },
            CallOf::ResetEvent { thread, handle } => CallOf::ResetEvent { thread, handle },
            CallOf::PulseEvent { thread, handle } => CallOf::PulseEvent { thread, handle },
            CallOf::ReleaseSemaphore {
                thread,
                handle,
                count,
            } => CallOf::ReleaseSemaphore {
                thread,
                handle,
                count,
            },
            CallOf::ReleaseMutex { thread, handle } => CallOf::ReleaseMutex { thread, handle },
            CallOf::SignalHost { id, signaled } => CallOf::SignalHost { id, signaled },
            CallOf::SetTimer {
                thread,
                handle,
                due,
            } => CallOf::SetTimer {
                thread,
                handle,
                due,
            },
            CallOf::SetPeriodicTimer {
                thread,
                handle,
                due,
                period,
            } => CallOf::SetPeriodicTimer {
                thread,
                handle,
                due,
                period,
            },
            CallOf::CancelTimer { thread, handle } => CallOf::CancelTimer { thread, handle },
            CallOf::Tick { now } => CallOf::Tick { now },
            CallOf::SignalAndWait {
                thread,
                signal,
                timeout,
                handle,
            } => CallOf::SignalAndWait {
                thread,
                signal,
                timeout,
                handle,
            },
            CallOf::Sleep { thread, timeout } => CallOf::Sleep { thread, timeout },
            CallOf::WaitResult { wait } => CallOf::WaitResult { wait },
            CallOf::Expire { wait } => CallOf::Expire { wait },
            CallOf::Alert { wait } => CallOf::Alert { wait },
            CallOf::EndThread { thread } => CallOf::EndThread { thread },
            CallOf::Exit { process } => CallOf::Exit { process },
            CallOf::Reap { slot } => CallOf::Reap { slot },
            CallOf::Counts { id } => CallOf::Counts { id },
            _ => unreachable!(),
        }
    }
}

impl<M: AsMake, T: AsSlice<u8>, H> CallOf<M, T, H> {
    /// The same call, which is no wait, with a name of its own. It is refused for want of memory alone, and a plain
    /// call takes none.
    pub fn named(&self, alloc: Global) -> Result<Call, AllocError>
        requires { is_wait self.now ≡ false }
        ensures call { (h : H → List ℕ) → IfOk result (λ call. call ≡ with_parts M.making T.items h self.now) }
        ensures refusal { IfErr result (λ _. is_plain self.now ≡ false) }
    {
        match self {
            CallOf::MakeEvent {
                thread,
                make,
                manual,
                set,
            } => Ok(Call::MakeEvent {
                thread: *thread,
                make: make.as_make().owned(alloc)?,
                manual: *manual,
                set: *set,
            }),
            CallOf::MakeMutex {
                thread,
                make,
                owned,
            } => Ok(Call::MakeMutex {
                thread: *thread,
                make: make.as_make().owned(alloc)?,
                owned: *owned,
            }),
            CallOf::MakeSemaphore {
                thread,
                make,
                initial,
                max,
            } => Ok(Call::MakeSemaphore {
                thread: *thread,
                make: make.as_make().owned(alloc)?,
                initial: *initial,
                max: *max,
            }),
            CallOf::MakeTimer {
                thread,
                make,
                manual,
            } => Ok(Call::MakeTimer {
                thread: *thread,
                make: make.as_make().owned(alloc)?,
                manual: *manual,
            }),
            CallOf::MakeHost {
                thread,
                make,
                object_type,
                manual,
                signaled,
            } => Ok(Call::MakeHost {
                thread: *thread,
                make: make.as_make().owned(alloc)?,
                object_type: *object_type,
                manual: *manual,
                signaled: *signaled,
            }),
            CallOf::OpenNamed {
                thread,
                kind,
                mask,
                inherit,
                text,
            } => Ok(Call::OpenNamed {
                thread: *thread,
                kind: *kind,
                mask: *mask,
                inherit: *inherit,
                text: Text::new(alloc, text.as_slice())?,
            }),
            CallOf::WaitFor { .. } => unreachable!(),
            plain => Ok(plain.plain()),
        }
    }
}

impl<M: AsMake, T: AsSlice<u8>, H: AsSlice<u32>> CallOf<M, T, H> {
    /// The same call with a name and handles of its own. It is refused for want of memory alone, and a plain call takes
    /// none.
    #[inline(never)]
    pub fn owned(&self, alloc: Global) -> Result<Call, AllocError>
        ensures call { IfOk result (λ call. call ≡ with_parts M.making T.items H.items self.now) }
        ensures refusal { IfErr result (λ _. is_plain self.now ≡ false) }
    {
        match self {
            CallOf::WaitFor {
                thread,
                mode,
                timeout,
                handles,
            } => Ok(Call::WaitFor {
                thread: *thread,
                mode: *mode,
                timeout: *timeout,
                handles: HandleList::new(alloc, handles.as_slice())?,
            }),
            _ => self.named(alloc),
        }
    }
}

impl Call {
    /// An equal call: its name or its handles are copied. It is refused for want of memory alone, and a plain call
    /// takes none.
    #[inline(always)]
    #[tactic(auto, using(crate::proofs::OwnParts::own_parts))]
    pub fn copy(&self, alloc: Global) -> Result<Call, AllocError>
        ensures copy { IfOk result (λ copy. copy ≡ self.now) }
        ensures refusal { IfErr result (λ _. is_plain self.now ≡ false) }
    {
        if self.is_plain() {
            return Ok(self.plain_copy());
        }
        self.owned(alloc)
    }

    /// An equal call, made without memory: nothing of the call may lie apart ([`CallOf::is_plain`]).
    #[inline(never)]
    pub fn plain_copy(&self) -> Call
        requires { is_plain self.now ≡ true }
        ensures { result ≡ self.now }
    {
        self.plain()
    }

    /// Whether it is the same call, with the same arguments.
    pub fn is_same(&self, other: &Call) -> bool
        ensures { IsTrue result ↔ (self.now ≡ other.now) }
    {
        *self == *other
    }
}
