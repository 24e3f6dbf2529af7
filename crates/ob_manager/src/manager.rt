ghost use Rattle.std.specs.Prelude.{◌≡◌, ◌<◌, ℕ, List, false, IfErr, IfOk, IfSome, None, length, slice_get};
ghost use Rattle.std.specs.Prelude.{slice_index_or};
ghost use Rattle.std.specs.Option.{option_map};
ghost use Rattle.ob_name.specs.Refs.{row_at};
ghost use Rattle.pin_words.specs.Keepers.{IsFresh};
ghost use Rattle.ob_store.specs.Directory.{directory_of};
ghost use Rattle.ob_store.specs.Consistent.{IsConsistent};
ghost use Rattle.ob_store.specs.Objects.{object_of, tag_of};
ghost use Rattle.ob_store.specs.Room.{room_of};
ghost use Rattle.ob_store.specs.State.{blocks_of, handles_of, hold_of, opening, shape_of};
ghost use Rattle.ob_store.specs.Stored.{MatchesState, hold_in};
ghost use Rattle.ob_store.specs.Waiting.{wait_number};
ghost use Rattle.ob_manager.specs.declared.call.CallOf.TheVariants as calls;
ghost use Rattle.ob_manager.specs.Makings.{making_of};
ghost use Rattle.ob_manager.specs.Counting.{card};
ghost use Rattle.ob_manager.specs.Handles.{resolve};
ghost use Rattle.ob_manager.specs.Reaping.{IfReaped};
ghost use Rattle.ob_waits.specs.Waits as waits;
ghost use Rattle.ob_manager.specs.Steps.{Step};

use crate::call::Ask;
use crate::card::Card;
use crate::door::reply_of;
use crate::making::Make;
use crate::reply::Reply;
use crate::waiting::Timeout;
use crate::{counting, handles, waiting};
use ob_name::{NameRef, Rows};
use ob_rights::{Fault, Kind, Rights};
use ob_store::{Found, Limits, Room, Store, Stored};
use ob_waits::Mode;
use pin_core::Id;
use pin_words::PinKeeper;
use std::alloc::Global;
use std::marker::Model;

/// The object manager, over a keeper of its slots. A contract sees it as its state (`State` of ob_store) and what its
/// keeper says.
///
/// Each call is one step (`specs/Steps.antt`), whose refusals are tested in the order in which they are listed. A
/// refusal changes nothing, but that a [`duplicate`](Manager::duplicate) may close its source.
#[derive(Drop)]
pub struct Manager<K: PinKeeper> {
    pub(crate) store: Store<K>,
}

impl<K: PinKeeper> Model for Manager<K> {
    ghost use Rattle.ob_store.specs.State.{Whole};

    ghost Value = { Whole };

    ghost view = { λ manager. manager.store };
}

impl<K: PinKeeper> Manager<K> {
    /// A manager with no process, and no object in any slot. The keeper, which has to have as many slots as the limits
    /// say, pins and generations, comes back where memory is wanting.
    pub fn new(alloc: Global, limits: Limits, keeper: K) -> Result<Manager<K>, K>
        requires { IsFresh (K.kept keeper) (shape_of limits) }
        ensures opening { IfOk result (λ manager. manager ≡ record { state = opening limits; keeper = K.kept keeper }) }
        ensures memory { IfErr result (λ k. k ≡ keeper) }
    {
        match Store::new(alloc, limits, keeper) {
            Ok(store) => Ok(Manager { store }),
            Err(keeper) => Err(keeper),
        }
    }

    /// What it may hold at most.
    pub fn limits(&self) -> Limits
        ensures { result ≡ self.now.state.limits }
    {
        self.store.limits()
    }

    /// What can still come before a call is refused with 1450 for want of it: objects, processes, threads, waits, and
    /// handles of one process. It takes constant time.
    pub fn room(&self, process: u32) -> Room
        ensures { result ≡ room_of self.now.state process }
    {
        self.store.room(process)
    }

    /// What holds whenever no call is under way: each slot is empty or holds one object, which has a body exactly where
    /// entries or pending waits refer to it; each of these refers to an object that is there; no name stands twice; and
    /// no pending wait is ready.
    pub fn kept(&self)
        ensures { IsConsistent self.now }
    {
        self.store.kept();
    }

    /// What is stored, whenever no call is under way: each slot is empty or holds one object with its body, and there
    /// are no other slots; the object's handle count is the number of table entries that name it, and its references
    /// are these entries, its places in pending waits, and a hold once there is neither; the directory lists just the
    /// named objects that have handles; and each object's Id is published with its descriptor.
    pub fn stored(&self) -> Stored<'_, K>
        ensures { MatchesState self.now result }
    {
        self.store.stored()
    }

    /// What a slot holds, as it is stored: the object and its body; its handles are the entries that name the object,
    /// its blocks the places of pending waits that do, and it has a hold once there is neither.
    pub fn slot(&self, slot: u32) -> Option<Found<'_>>
        ensures object { slice_index_or self.now.state.objects slot None
            ≡ option_map (λ found. object_of found.header.now (tag_of found.label.now found.name.now)) result }
        ensures place { IfSome result (λ found. found.header.now.id.slot ≡ slot) }
        ensures body { IfSome result (λ found. slice_index_or self.now.state.bodies slot None ≡ found.header.now.body) }
        ensures within { IfSome result (λ found. slot < self.now.state.limits.slots) }
        ensures handles { IfSome result (λ found. found.header.now.handles
            ≡ handles_of self.now.state found.header.now.id) }
        ensures blocks { IfSome result (λ found. found.header.now.blocks
            ≡ blocks_of self.now.state found.header.now.id) }
        ensures hold { IfSome result (λ found. hold_in found.header.now.body
            ≡ hold_of self.now.state found.header.now.id) }
    {
        // For `hold`: that an object has a body just where something refers to it.
        self.store.kept();
        self.store.object(slot)
    }

    /// A new process of a session, with its first thread: `Spawned`.
    ///
    /// Refused with 1450 where each process number or each thread number was given, and with 8 for want of memory.
    pub fn spawn(&mut self, session: u32) -> Reply
        ensures { Step self.old (calls.Spawn session) result self.new }
    {
        self.call(&Ask::Spawn { session })
    }

    /// A new process of the session of the thread's process, with its first thread: `Spawned`. With `inherit` it has
    /// each inheritable entry of the thread's process, at the same value and with the same rights and flags, so
    /// inheritable in turn and protected from close where that one is ([Handle inheritance]; that the flags are the
    /// same is *profile*).
    ///
    /// Refused with 87 where the thread isn't live, 170 where it waits, 1450 where each process number or each thread
    /// number was given, and with 8 for want of memory.
    ///
    /// [Handle inheritance]: https://learn.microsoft.com/windows/win32/sysinfo/handle-inheritance
    pub fn child(&mut self, thread: u32, inherit: bool) -> Reply
        ensures { Step self.old (calls.Child thread inherit) result self.new }
    {
        self.call(&Ask::Child { thread, inherit })
    }

    /// A new thread of a process: `Started`.
    ///
    /// Refused with 87 where the process isn't live, with 1450 where each thread number was given, and with 8 for want
    /// of memory.
    pub fn thread(&mut self, process: u32) -> Reply
        ensures { Step self.old (calls.StartThread process) result self.new }
    {
        self.call(&Ask::StartThread { process })
    }

    /// A new event, in the least slot that may have one, and a handle to it at the least free value: `Made`. Where an
    /// event has the name already, a handle to that one: `Exists` ([CreateEvent]).
    ///
    /// Refused with 87 where the thread isn't live, 170 where it waits, 87 for a grant with a bit outside all rights of
    /// an event; for the name with 206, 87 or 3 ([`parse`](ob_name::parse)); 6 where an object of another kind has the
    /// name; 5 where a new event is asked for with a right that events haven't, or an old one's grant doesn't allow the
    /// rights; 1450 where the process has each handle or each slot has an object; and 8 for want of memory.
    ///
    /// [CreateEvent]: https://learn.microsoft.com/windows/win32/api/synchapi/nf-synchapi-createeventa
    pub fn create_event(&mut self, thread: u32, make: &Make<'_>, manual: bool, set: bool) -> Reply
        ensures { Step self.old (calls.MakeEvent thread (making_of make.now) manual set) result self.new }
    {
        let make = *make;
        self.call(&Ask::MakeEvent {
            thread,
            make,
            manual,
            set,
        })
    }

    /// A new mutex, which the calling thread owns once or nobody, as [`create_event`](Manager::create_event) makes an
    /// event ([CreateMutex]). It is refused in the same way.
    ///
    /// [CreateMutex]: https://learn.microsoft.com/windows/win32/api/synchapi/nf-synchapi-createmutexa
    pub fn create_mutex(&mut self, thread: u32, make: &Make<'_>, owned: bool) -> Reply
        ensures { Step self.old (calls.MakeMutex thread (making_of make.now) owned) result self.new }
    {
        let make = *make;
        self.call(&Ask::MakeMutex {
            thread,
            make,
            owned,
        })
    }

    /// A new semaphore, as [`create_event`](Manager::create_event) makes an event ([CreateSemaphore]).
    ///
    /// It is refused in the same way, and with 87 for a maximum that isn't above 0 and a count below 0 or above the
    /// maximum.
    ///
    /// [CreateSemaphore]: https://learn.microsoft.com/windows/win32/api/winbase/nf-winbase-createsemaphorea
    pub fn create_semaphore(
        &mut self,
        thread: u32,
        make: &Make<'_>,
        initial: i32,
        max: i32,
    ) -> Reply
        ensures { Step self.old (calls.MakeSemaphore thread (making_of make.now) initial max) result self.new }
    {
        let make = *make;
        self.call(&Ask::MakeSemaphore {
            thread,
            make,
            initial,
            max,
        })
    }

    /// A new timer, which isn't signaled and isn't set, as [`create_event`](Manager::create_event) makes an event
    /// ([CreateWaitableTimer]). Once it is signaled, one that is `manual` stays so until it is set again, and another
    /// until it satisfies a wait. It is refused in the same way.
    ///
    /// [CreateWaitableTimer]: https://learn.microsoft.com/windows/win32/api/synchapi/nf-synchapi-createwaitabletimerw
    pub fn create_timer(&mut self, thread: u32, make: &Make<'_>, manual: bool) -> Reply
        ensures { Step self.old (calls.MakeTimer thread (making_of make.now) manual) result self.new }
    {
        let make = *make;
        self.call(&Ask::MakeTimer {
            thread,
            make,
            manual,
        })
    }

    /// A new object of the host's own, such as a thread, a process or a file, or a handle to the one of this type that
    /// has the name already, as [`create_event`](Manager::create_event) makes an event. One that is `manual` stays
    /// signaled until the host resets it, another until it satisfies a wait. It is refused in the same way; all rights
    /// of such an object are each standard right and each specific one (0x1F_FFFF), of which `make` says those of its
    /// type.
    ///
    /// Waits take it as they take an event, [`open_named`](Manager::open_named) opens it as
    /// [`Kind::Host`](ob_rights::Kind), and each call for another kind of object is refused with 6. A descriptor tells
    /// it as an event.
    pub fn create_host(
        &mut self,
        thread: u32,
        make: &Make<'_>,
        object_type: u8,
        manual: bool,
        signaled: bool,
    ) -> Reply
        ensures { Step self.old (calls.MakeHost thread (making_of make.now) object_type manual signaled) result self.new }
    {
        let make = *make;
        self.call(&Ask::MakeHost {
            thread,
            make,
            object_type,
            manual,
            signaled,
        })
    }

    /// A handle to the object of a name: `Opened` ([OpenEvent]).
    ///
    /// Refused with 87 where the thread isn't live, 170 where it waits; for the name with 206, 87 or 3; 2 where no
    /// object has it; 6 where an object of another kind has it; 5 for no rights and for one that the object's grant
    /// doesn't have; 1450 where the process has each handle; and 8 for want of memory, unless the value of a handle
    /// that was closed is free.
    ///
    /// [OpenEvent]: https://learn.microsoft.com/windows/win32/api/synchapi/nf-synchapi-openeventa
    pub fn open_named(
        &mut self,
        thread: u32,
        kind: Kind,
        mask: Rights,
        inherit: bool,
        text: &[u8],
    ) -> Reply
        ensures { Step self.old (calls.OpenNamed thread kind mask inherit text.now) result self.new }
    {
        self.call(&Ask::OpenNamed {
            thread,
            kind,
            mask,
            inherit,
            text,
        })
    }

    /// A handle of the process `target` to what a handle of the process `source` names: `Duplicated`
    /// ([DuplicateHandle]). The options are `DUPLICATE_CLOSE_SOURCE`, 1, and `DUPLICATE_SAME_ACCESS`, 2, with which
    /// `mask` is ignored. Without a target the source alone is closed: `Closed`.
    ///
    /// Refused with 87 where the thread isn't live, 170 where it waits, 87 where the source process isn't live, 87 for
    /// another option, and for no target without `DUPLICATE_CLOSE_SOURCE`; 6 where there is no such handle; 87 where
    /// the target process isn't live; 5 for a right that neither the source has nor the object's grant; 1450 where the
    /// target has each handle; and 8 for want of memory, only with a target, and unless the value of a handle that was
    /// closed is free there.
    ///
    /// Once the source is found `DUPLICATE_CLOSE_SOURCE` closes it, whatever the answer is, want of memory excepted
    /// (*profile*): a refusal by the target, by a right or by the limit then leaves all but the source as it was. A
    /// source that is protected from close stays, whatever the answer is; without a target that is then 6 (*profile*).
    /// The copy isn't protected.
    ///
    /// [DuplicateHandle]: https://learn.microsoft.com/windows/win32/api/handleapi/nf-handleapi-duplicatehandle
    pub fn duplicate(
        &mut self,
        thread: u32,
        source: u32,
        handle: u32,
        target: Option<u32>,
        mask: Rights,
        inherit: bool,
        options: u32,
    ) -> Reply
        ensures { Step self.old (calls.Duplicate thread source handle target mask inherit options) result self.new }
    {
        self.call(&Ask::Duplicate {
            thread,
            source,
            handle,
            target,
            mask,
            inherit,
            options,
        })
    }

    /// Closes a handle of the thread's process, whose two lowest bits are ignored (*profile*): `Closed`. With its last
    /// handle an object's name leaves the directory, and with the last reference the object ends ([CloseHandle]).
    ///
    /// Refused with 87 where the thread isn't live, 170 where it waits, and 6 where there is no such handle or it is
    /// protected from close (*profile*).
    ///
    /// [CloseHandle]: https://learn.microsoft.com/windows/win32/api/handleapi/nf-handleapi-closehandle
    pub fn close(&mut self, thread: u32, handle: u32) -> Reply
        ensures { Step self.old (calls.CloseHandle thread handle) result self.new }
    {
        self.call(&Ask::CloseHandle { thread, handle })
    }

    /// The flags of a handle: `Flags` ([GetHandleInformation]).
    ///
    /// Refused with 87 where the thread isn't live, 170 where it waits, and 6 where there is no such handle.
    ///
    /// [GetHandleInformation]:
    /// https://learn.microsoft.com/windows/win32/api/handleapi/nf-handleapi-gethandleinformation
    pub fn handle_flags(&self, thread: u32, handle: u32) -> Reply
        ensures { Step self.now (calls.GetFlags thread handle) result self.now }
    {
        reply_of(handles::handle_flags(&self.store, thread, handle))
    }

    /// Sets the flags of a handle that are in the mask to what they are in `flags`, whose other bits are ignored
    /// (*profile*): `Done` ([SetHandleInformation]). `HANDLE_FLAG_INHERIT` is 1, `HANDLE_FLAG_PROTECT_FROM_CLOSE` 2. A
    /// handle that is protected from close is closed only with its process.
    ///
    /// Refused with 87 where the thread isn't live, 170 where it waits, 87 for a mask with another bit (*profile*), and
    /// 6 where there is no such handle.
    ///
    /// [SetHandleInformation]:
    /// https://learn.microsoft.com/windows/win32/api/handleapi/nf-handleapi-sethandleinformation
    pub fn set_handle_flags(&mut self, thread: u32, handle: u32, mask: u32, flags: u32) -> Reply
        ensures { Step self.old (calls.SetFlags thread handle mask flags) result self.new }
    {
        self.call(&Ask::SetFlags {
            thread,
            handle,
            mask,
            flags,
        })
    }

    /// Sets an event, and lets what waits for it be satisfied: `Done` ([SetEvent]).
    ///
    /// Refused with 87 where the thread isn't live, 170 where it waits, 6 where there is no such handle or it is no
    /// event's, 5 without the right MODIFY_STATE.
    ///
    /// [SetEvent]: https://learn.microsoft.com/windows/win32/api/synchapi/nf-synchapi-setevent
    pub fn set_event(&mut self, thread: u32, handle: u32) -> Reply
        ensures { Step self.old (calls.SetEvent thread handle) result self.new }
    {
        self.call(&Ask::SetEvent { thread, handle })
    }

    /// Resets an event: `Done` ([ResetEvent]). It is refused as [`set_event`](Manager::set_event) is.
    ///
    /// [ResetEvent]: https://learn.microsoft.com/windows/win32/api/synchapi/nf-synchapi-resetevent
    pub fn reset_event(&mut self, thread: u32, handle: u32) -> Reply
        ensures { Step self.old (calls.ResetEvent thread handle) result self.new }
    {
        self.call(&Ask::ResetEvent { thread, handle })
    }

    /// Raises a semaphore's count: `Previous`, with the count before ([ReleaseSemaphore]).
    ///
    /// Refused with 87 where the thread isn't live, 170 where it waits, 87 for a count of 0 or less, 6 where there is
    /// no such handle or it is no semaphore's, 5 without the right MODIFY_STATE, and 298 where the maximum would be
    /// passed.
    ///
    /// [ReleaseSemaphore]: https://learn.microsoft.com/windows/win32/api/synchapi/nf-synchapi-releasesemaphore
    pub fn release_semaphore(&mut self, thread: u32, handle: u32, count: i32) -> Reply
        ensures { Step self.old (calls.ReleaseSemaphore thread handle count) result self.new }
    {
        self.call(&Ask::ReleaseSemaphore {
            thread,
            handle,
            count,
        })
    }

    /// Releases a mutex once: `Done` ([ReleaseMutex]). It needs no right (*profile*).
    ///
    /// Refused with 87 where the thread isn't live, 170 where it waits, 6 where there is no such handle or it is no
    /// mutex's, and 288 where the thread doesn't own it.
    ///
    /// [ReleaseMutex]: https://learn.microsoft.com/windows/win32/api/synchapi/nf-synchapi-releasemutex
    pub fn release_mutex(&mut self, thread: u32, handle: u32) -> Reply
        ensures { Step self.old (calls.ReleaseMutex thread handle) result self.new }
    {
        self.call(&Ask::ReleaseMutex { thread, handle })
    }

    /// Sets an event and resets it: `Done` ([PulseEvent]). Who waits may be satisfied by it, one of them where the
    /// event isn't reset by hand; it is nonsignaled behind the call.
    ///
    /// Refused as [`set_event`](Manager::set_event) is.
    ///
    /// [PulseEvent]: https://learn.microsoft.com/windows/win32/api/winbase/nf-winbase-pulseevent
    pub fn pulse_event(&mut self, thread: u32, handle: u32) -> Reply
        ensures { Step self.old (calls.PulseEvent thread handle) result self.new }
    {
        self.call(&Ask::PulseEvent { thread, handle })
    }

    /// Signals an object of the host's own, or resets it: `Done`. It is the host's call, which needs no handle, no
    /// thread and no right.
    ///
    /// Refused with 6 where no object has the Id, or it has ended, or is of one of the other kinds.
    pub fn signal_host(&mut self, id: Id, signaled: bool) -> Reply
        ensures { Step self.old (calls.SignalHost id signaled) result self.new }
    {
        self.call(&Ask::SignalHost { id, signaled })
    }

    /// Sets a timer: `Done` ([SetWaitableTimer]). `due` is a moment in units of 100 ns, or below 0 so many units from
    /// now. The timer is nonsignaled until then; where the moment isn't after now it is signaled at once, and what
    /// waits for it may be satisfied.
    ///
    /// Refused with 87 where the thread isn't live, 170 where it waits, 6 where there is no such handle or it is no
    /// timer's, 5 without the right MODIFY_STATE.
    ///
    /// [SetWaitableTimer]: https://learn.microsoft.com/windows/win32/api/synchapi/nf-synchapi-setwaitabletimer
    pub fn set_timer(&mut self, thread: u32, handle: u32, due: i64) -> Reply
        ensures { Step self.old (calls.SetTimer thread handle due) result self.new }
    {
        self.call(&Ask::SetTimer {
            thread,
            handle,
            due,
        })
    }

    /// Sets a timer with a period in milliseconds, of 10,000 units of time each, 0 for none: `Done`
    /// ([SetWaitableTimer]). Each time its moment comes it is signaled, and due again at the first moment after that of
    /// the tick which lies whole periods behind the moment it was due: it never drifts, and where several have passed
    /// it is signaled once. It goes on so until it is set anew or cancelled, or ends.
    ///
    /// Refused with 87 where the thread isn't live, 170 where it waits, 87 for a period below 0, and then as
    /// [`set_timer`](Manager::set_timer).
    ///
    /// [SetWaitableTimer]: https://learn.microsoft.com/windows/win32/api/synchapi/nf-synchapi-setwaitabletimer
    pub fn set_periodic_timer(&mut self, thread: u32, handle: u32, due: i64, period: i32) -> Reply
        ensures { Step self.old (calls.SetPeriodicTimer thread handle due period) result self.new }
    {
        self.call(&Ask::SetPeriodicTimer {
            thread,
            handle,
            due,
            period,
        })
    }

    /// Takes a timer's due moment away, and its period; it stays as signaled as it is: `Done` ([CancelWaitableTimer]).
    /// It is refused as
    /// [`set_timer`](Manager::set_timer) is.
    ///
    /// [CancelWaitableTimer]: https://learn.microsoft.com/windows/win32/api/synchapi/nf-synchapi-cancelwaitabletimer
    pub fn cancel_timer(&mut self, thread: u32, handle: u32) -> Reply
        ensures { Step self.old (calls.CancelTimer thread handle) result self.new }
    {
        self.call(&Ask::CancelTimer { thread, handle })
    }

    /// It is the moment `now`, in units of 100 ns from 0: `Ticked` (*profile*). Each timer that is due becomes
    /// signaled, then what waits may be satisfied, and then each pending wait whose deadline isn't after `now` is
    /// answered with 258. So a signal goes before a deadline of the same tick. Where nothing is due and no deadline is
    /// over it looks at no timer and no wait; the deadline of a wait that was answered before it came is dropped once
    /// it is over.
    ///
    /// Refused with 87 where `now` is before the moment that it is, or above 9,223,372,036,854,775,807.
    pub fn tick(&mut self, now: u64) -> Reply
        ensures { Step self.old (calls.Tick now) result self.new }
    {
        self.call(&Ask::Tick { now })
    }

    /// Waits for any or all of 1 to 64 objects ([WaitForMultipleObjects]): `Code` where the wait is satisfied at once,
    /// and then the thread has what satisfies it; else `Code` with 258 for [`Timeout::Zero`], and otherwise `Pending`
    /// with the next wait number, until its time is up. A pending wait keeps its objects, and its thread makes no other
    /// call until [`wait_result`](Manager::wait_result) took the answer (*profile*).
    ///
    /// Refused with 87 where the thread isn't live, 170 where it waits, 87 for no handle, more than 64, or one that
    /// stands twice, whose two lowest bits don't count (*profile*), unless it waits for any and the limits have
    /// `repeats`; 6 where there is no such handle; 5 without the right SYNCHRONIZE; 87 where a wait for all is for one
    /// object twice (*profile*); 1450 for a mutex that the thread owns as often as the limit lets, and where the wait
    /// would become pending and each wait number was given; and there with 8 for want of memory.
    ///
    /// [WaitForMultipleObjects]:
    /// https://learn.microsoft.com/windows/win32/api/synchapi/nf-synchapi-waitformultipleobjects
    pub fn wait(&mut self, thread: u32, mode: Mode, timeout: Timeout, handles: &[u32]) -> Reply
        ensures { Step self.old (calls.WaitFor thread mode timeout handles.now) result self.new }
    {
        self.call(&Ask::WaitFor {
            thread,
            mode,
            timeout,
            handles,
        })
    }

    /// Signals the object of one handle and waits for that of another, as one call ([SignalObjectAndWait]): an event is
    /// set, a semaphore raised by 1, a mutex released. `Code` where the wait is satisfied then, and `Code` with 258
    /// where it may not last; otherwise `Signaled` with the number of the wait, which is pending. The wait stands
    /// behind those that stood before the signal was given; it takes a number though it is satisfied at once
    /// (*profile*).
    ///
    /// All that may refuse is looked at before anything changes: 87 where the thread isn't live, 170 where it waits, 6
    /// where there is no such handle, of which the one to signal is looked at first; 5 without the right SYNCHRONIZE to
    /// wait; 6 where the object to signal is no event, semaphore or mutex, 5 without MODIFY_STATE for an event or a
    /// semaphore, 298 where the count would pass the maximum, 288 where the thread doesn't own the mutex; 1450 for a
    /// mutex to wait for that the thread owns as often as the limit lets before the call, and where each wait number
    /// was given; and then 8 for want of memory.
    ///
    /// [SignalObjectAndWait]: https://learn.microsoft.com/windows/win32/api/synchapi/nf-synchapi-signalobjectandwait
    pub fn signal_and_wait(
        &mut self,
        thread: u32,
        signal: u32,
        timeout: Timeout,
        handle: u32,
    ) -> Reply
        ensures { Step self.old (calls.SignalAndWait thread signal timeout handle) result self.new }
    {
        self.call(&Ask::SignalAndWait {
            thread,
            signal,
            timeout,
            handle,
        })
    }

    /// Waits for nothing until its time is up ([Sleep]): `Code` with 258 where it may not last, and otherwise `Pending`
    /// with the number of the wait, which is answered with 258 then.
    ///
    /// Refused with 87 where the thread isn't live, 170 where it waits, 1450 where each wait number was given, and then
    /// with 8 for want of memory.
    ///
    /// [Sleep]: https://learn.microsoft.com/windows/win32/api/synchapi/nf-synchapi-sleep
    pub fn sleep(&mut self, thread: u32, timeout: Timeout) -> Reply
        ensures { Step self.old (calls.Sleep thread timeout) result self.new }
    {
        self.call(&Ask::Sleep { thread, timeout })
    }

    /// Takes the code of an answered wait: `Code`. The wait is then over, and its thread may wait again. Where the wait
    /// isn't answered yet the reply is `Pending` (*profile*).
    ///
    /// Refused with 87 where there is no such wait.
    pub fn wait_result(&mut self, wait: u32) -> Reply
        ensures { Step self.old (calls.WaitResult wait) result self.new }
    {
        self.call(&Ask::WaitResult { wait })
    }

    /// Ends a pending wait as if its time were up: `Expired`, and the wait's code is 258 (*profile*).
    ///
    /// Refused with 87 where no such wait is pending.
    pub fn expire(&mut self, wait: u32) -> Reply
        ensures { Step self.old (calls.Expire wait) result self.new }
    {
        self.call(&Ask::Expire { wait })
    }

    /// Ends a pending wait whose thread is to run what was queued to it, as an alertable wait ends ([Wait Functions]):
    /// `Done`, and the wait's code is 192, `WAIT_IO_COMPLETION`. Which waits are alertable the caller knows.
    ///
    /// Refused with 87 where no such wait is pending.
    ///
    /// [Wait Functions]: https://learn.microsoft.com/windows/win32/sync/wait-functions
    pub fn alert(&mut self, wait: u32) -> Reply
        ensures { Step self.old (calls.Alert wait) result self.new }
    {
        self.call(&Ask::Alert { wait })
    }

    /// Whether a wait is pending.
    pub fn is_pending(&self, wait: u32) -> bool
        ensures { result ≡ waits.is_pending (slice_index_or self.now.state.waits (wait_number self.now.state wait) None) }
    {
        waiting::is_pending(&self.store, wait)
    }

    /// Ends a thread: `Ended`. Its wait is dropped, answered or not; then the mutexes that it owns are abandoned
    /// ([Mutex Objects]), and who waits may get them. With its last thread a process ends, as by
    /// [`exit`](Manager::exit).
    ///
    /// Refused with 87 where the thread isn't live. A thread that waits may be ended (*profile*).
    ///
    /// [Mutex Objects]: https://learn.microsoft.com/windows/win32/sync/mutex-objects
    pub fn end_thread(&mut self, thread: u32) -> Reply
        ensures { Step self.old (calls.EndThread thread) result self.new }
    {
        self.call(&Ask::EndThread { thread })
    }

    /// Ends a process: `Exited`. Its threads end by rising number, as by [`end_thread`](Manager::end_thread), then its
    /// handles are closed by rising value, protected ones too, and then who waits may get what is signaled (the order
    /// is *profile*; [Terminating a Process] has what is done).
    ///
    /// Refused with 87 where the process isn't live.
    ///
    /// [Terminating a Process]: https://learn.microsoft.com/windows/win32/procthread/terminating-a-process
    pub fn exit(&mut self, process: u32) -> Reply
        ensures { Step self.old (calls.Exit process) result self.new }
    {
        self.call(&Ask::Exit { process })
    }

    /// Takes the slot of an object that nothing refers to back, unless somebody pins it: `Reaped` (*profile*).
    ///
    /// Refused with 87 where there is no such slot, and with 6 where it has no such object.
    pub fn reap(&mut self, slot: u32) -> Reply
        ensures step { Step self.old (calls.Reap slot) result self.new }
        ensures exact { IfReaped result (λ outcome. K.reclaims self.old.keeper slot outcome self.new.keeper) }
    {
        self.call(&Ask::Reap { slot })
    }

    /// What refers to an object: `CountsAre` (*profile*).
    ///
    /// Refused with 87 where there is no such slot, and with 6 where the slot has no object of this Id.
    pub fn counts(&self, id: Id) -> Reply
        ensures { Step self.now (calls.Counts id) result self.now }
    {
        reply_of(counting::counts(&self.store, id))
    }

    /// What a handle of a process names.
    ///
    /// Refused with 87 where the process isn't live, and with 6 where there is no such handle.
    pub fn resolve(&self, process: u32, handle: u32) -> Result<Id, Fault>
        ensures { result ≡ resolve self.now.state process handle }
    {
        handles::resolve(&self.store, process, handle)
    }

    /// What an object was created as, until its slot is taken back.
    pub fn card(&self, id: Id) -> Option<Card>
        ensures { result ≡ card self.now.state id }
    {
        counting::card(&self.store, id)
    }

    /// How many names objects have.
    pub fn directory_len(&self) -> usize
        ensures { result ≡ length (directory_of self.now.state) }
    {
        self.store.names()
    }

    /// The name at a place of the directory, from 0, with its object, in the order in which the objects were made.
    ///
    /// It takes constant time; but once a name has gone, a time that grows with the number of names, until
    /// [`close_holes`](Manager::close_holes) is called.
    pub fn directory_at(&self, at: usize) -> Option<(NameRef<'_>, Id)>
        ensures { option_map row_at result ≡ slice_get (directory_of self.now.state) at }
    {
        self.store.name_at(at)
    }

    /// Makes [`directory_at`](Manager::directory_at) take constant time until the next name goes. Where one has gone
    /// this takes a time that grows with the number of names; it takes no memory.
    pub fn close_holes(&mut self)
        ensures { self.new ≡ self.old }
    {
        self.store.close_holes();
    }

    /// The names with their objects, in the order in which the objects were made. A walk over all of them takes a time
    /// that grows with their number.
    pub fn directory(&self) -> Rows<'_>
        ensures { result ≡ directory_of self.now.state }
    {
        self.store.rows()
    }
}
