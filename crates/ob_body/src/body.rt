ghost use Rattle.std.specs.Prelude.{◌≡◌, ◌<◌, ◌≤◌, true, false, None, IsSome, IfOk, IfErr, Ok, Err};
ghost use Rattle.ob_body.specs.Body as spec;
ghost use Rattle.ob_body.specs.Mutex as mutex;
ghost use Rattle.ob_body.specs.Timer.{is_due};

use crate::event::Event;
use crate::host_object::HostObject;
use crate::mutex::{Mutex, RECURSION_MAX};
use crate::semaphore::{COUNT_MAX, Semaphore};
use crate::timer::{LAST_MOMENT, Timer};
use ob_rights::{Fault, Kind};

/// What an object is now. Threads are numbered from 1.
#[derive(Clone, Copy, Debug, PartialEq, Eq)]
pub enum Body {
    /// Set or not set.
    Event(Event),
    /// Owned by a thread or by none.
    Mutex(Mutex),
    /// A count up to a maximum.
    Semaphore(Semaphore),
    /// Signaled from a due moment on.
    Timer(Timer),
    /// Of the host's own.
    Host(HostObject),
}

impl Body {
    /// An event, reset by hand or not, set or not ([CreateEvent]).
    ///
    /// [CreateEvent]: https://learn.microsoft.com/windows/win32/api/synchapi/nf-synchapi-createeventa
    pub fn new_event(manual: bool, set: bool) -> Body
        ensures { result ≡ Body.Event (record { manual = manual; set = set }) }
    {
        Body::Event(Event { manual, set })
    }

    /// A mutex that the owner owns once, or that nobody owns ([CreateMutex]).
    ///
    /// [CreateMutex]: https://learn.microsoft.com/windows/win32/api/synchapi/nf-synchapi-createmutexa
    pub fn new_mutex(owner: Option<u32>) -> Body
        ensures { result ≡ Body.Mutex (mutex.opening owner) }
    {
        Body::Mutex(Mutex::new(owner))
    }

    /// A semaphore with a first count, from 0 to its maximum ([CreateSemaphore]).
    ///
    /// [CreateSemaphore]: https://learn.microsoft.com/windows/win32/api/winbase/nf-winbase-createsemaphorea
    pub fn new_semaphore(initial: u32, max: u32) -> Body
        requires above_zero { 0 < max }
        requires within { initial ≤ max }
        requires countable { max ≤ COUNT_MAX }
        ensures { result ≡ Body.Semaphore (record { count = initial; maximum = max }) }
    {
        Body::Semaphore(Semaphore::new(initial, max))
    }

    /// A timer that isn't signaled and isn't set, a manual-reset or a synchronization timer ([CreateWaitableTimer]).
    ///
    /// [CreateWaitableTimer]: https://learn.microsoft.com/windows/win32/api/synchapi/nf-synchapi-createwaitabletimerw
    pub fn new_timer(manual: bool) -> Body
        ensures { result ≡ Body.Timer (record { manual = manual; signaled = false; due = None; period = 0 }) }
    {
        Body::Timer(Timer::new(manual))
    }

    /// An object of the host's own, of a type that the host chooses, kept signaled until the host resets it or taken by
    /// one wait, signaled or not.
    pub fn new_host(object_type: u8, manual: bool, signaled: bool) -> Body
        ensures { result ≡ Body.Host (record {
          object_type = object_type;
          event = record { manual = manual; set = signaled };
        }) }
    {
        Body::Host(HostObject {
            object_type,
            event: Event {
                manual,
                set: signaled,
            },
        })
    }

    /// The object's kind.
    pub fn kind(&self) -> Kind
        ensures { result ≡ spec.kind_of self.now }
    {
        match self {
            Body::Event(_) => Kind::Event,
            Body::Mutex(_) => Kind::Mutex,
            Body::Semaphore(_) => Kind::Semaphore,
            Body::Timer(_) => Kind::Timer,
            Body::Host(host) => Kind::Host(host.object_type),
        }
    }

    /// Whether a wait of this thread is satisfied by it ([Wait Functions]): an event that is set, a semaphore with a
    /// count above 0, a mutex that nobody or this thread owns, a timer or a host's object that is signaled.
    ///
    /// [Wait Functions]: https://learn.microsoft.com/windows/win32/sync/wait-functions
    pub fn signaled_for(&self, thread: u32) -> bool
        ensures { result ≡ spec.is_signaled thread self.now }
    {
        match self {
            Body::Event(event) => event.set,
            Body::Mutex(mutex) => mutex.signaled_for(thread),
            Body::Semaphore(semaphore) => semaphore.is_signaled(),
            Body::Timer(timer) => timer.is_signaled(),
            Body::Host(host) => host.event.set,
        }
    }

    /// Whether this thread may acquire it once more: false exactly for a mutex that the thread owns `max_recursion`
    /// times or more (*profile*).
    pub fn has_room(&self, thread: u32, max_recursion: u32) -> bool
        ensures { result ≡ spec.has_room max_recursion thread self.now }
    {
        match self {
            Body::Mutex(mutex) => mutex.has_room(thread, max_recursion),
            _ => true,
        }
    }

    /// What a satisfied wait of this thread does, and whether it was an abandoned mutex: an event and a host's object
    /// that aren't reset by hand and a synchronization timer are reset, a semaphore's count falls by 1, and the thread
    /// owns a mutex once more, which is no longer abandoned.
    pub fn acquire(&mut self, thread: u32) -> bool
        requires signaled { spec.is_signaled thread self.old ≡ true }
        requires room { spec.has_room RECURSION_MAX thread self.old ≡ true }
        ensures was_abandoned { result ≡ spec.is_abandoned self.old }
        ensures value { self.new ≡ spec.after_acquire thread self.old }
    {
        match self {
            Body::Event(event) => {
                event.acquire();
                false
            }
            Body::Mutex(mutex) => mutex.acquire(thread),
            Body::Semaphore(semaphore) => {
                semaphore.acquire();
                false
            }
            Body::Timer(timer) => {
                timer.acquire();
                false
            }
            Body::Host(host) => {
                host.event.acquire();
                false
            }
        }
    }

    /// Sets an event ([SetEvent]), or signals an object of the host's own.
    ///
    /// [SetEvent]: https://learn.microsoft.com/windows/win32/api/synchapi/nf-synchapi-setevent
    pub fn set(&mut self)
        requires settable { spec.is_settable self.old ≡ true }
        ensures { self.new ≡ spec.after_set self.old }
    {
        match self {
            Body::Event(event) => event.set(),
            Body::Host(host) => host.event.set(),
            _ => unreachable!(),
        }
    }

    /// Resets an event ([ResetEvent]), or an object of the host's own.
    ///
    /// [ResetEvent]: https://learn.microsoft.com/windows/win32/api/synchapi/nf-synchapi-resetevent
    pub fn reset(&mut self)
        requires settable { spec.is_settable self.old ≡ true }
        ensures { self.new ≡ spec.after_reset self.old }
    {
        match self {
            Body::Event(event) => event.reset(),
            Body::Host(host) => host.event.reset(),
            _ => unreachable!(),
        }
    }

    /// Raises a semaphore's count, and gives the count before ([ReleaseSemaphore]).
    ///
    /// [`Fault::Posts`] (298) where the count would pass the maximum; then nothing changes.
    ///
    /// [ReleaseSemaphore]: https://learn.microsoft.com/windows/win32/api/synchapi/nf-synchapi-releasesemaphore
    pub fn post(&mut self, count: u32) -> Result<u32, Fault>
        requires semaphore { spec.kind_of self.old ≡ Kind.Semaphore }
        ensures answer { result ≡ spec.post_answer count self.old }
        ensures value { self.new ≡ spec.after_post count self.old }
    {
        match self {
            Body::Semaphore(semaphore) => semaphore.post(count),
            _ => unreachable!(),
        }
    }

    /// Releases a mutex once; after as many releases as acquisitions nobody owns it ([ReleaseMutex]).
    ///
    /// [`Fault::NotOwner`] (288) where the thread doesn't own it; then nothing changes.
    ///
    /// [ReleaseMutex]: https://learn.microsoft.com/windows/win32/api/synchapi/nf-synchapi-releasemutex
    pub fn unlock(&mut self, thread: u32) -> Result<(), Fault>
        requires mutex { spec.kind_of self.old ≡ Kind.Mutex }
        ensures answer { result ≡ spec.unlock_answer thread self.old }
        ensures value { self.new ≡ spec.after_unlock thread self.old }
    {
        match self {
            Body::Mutex(mutex) => mutex.unlock(thread),
            _ => unreachable!(),
        }
    }

    /// What it is once the thread has released it once, as [`unlock`](Body::unlock) does. [`Fault::Handle`] (6) where
    /// it is no mutex.
    #[inline(always)]
    pub fn unlocked(&self, thread: u32) -> Result<Body, Fault>
        ensures answer { IfOk result (λ after. spec.unlock_answer thread self.now ≡ Ok tt) }
        ensures value { IfOk result (λ after. after ≡ spec.after_unlock thread self.now) }
        ensures err { IfErr result (λ fault. spec.unlock_answer thread self.now ≡ Err fault) }
    {
        match self {
            Body::Mutex(mutex) => {
                let mut after = *mutex;
                after.unlock(thread)?;
                Ok(Body::Mutex(after))
            }
            _ => Err(Fault::Handle),
        }
    }

    /// Takes a mutex from a thread that ended: where the thread owns it, nobody does, and it is abandoned
    /// ([Mutex Objects]). Another thread's mutex, and one that nobody owns, stay as they are.
    ///
    /// [Mutex Objects]: https://learn.microsoft.com/windows/win32/sync/mutex-objects
    pub fn abandon(&mut self, thread: u32)
        requires mutex { spec.kind_of self.old ≡ Kind.Mutex }
        ensures { self.new ≡ spec.after_abandon thread self.old }
    {
        match self {
            Body::Mutex(mutex) => mutex.abandon(thread),
            _ => unreachable!(),
        }
    }

    /// Sets a timer to a moment, in units of 100 ns, and to a period, in milliseconds, 0 for none: it is nonsignaled
    /// until then, and signaled at once where the moment isn't after `now` ([SetWaitableTimer]). With a period it
    /// becomes signaled again a period after its moment, and so on.
    ///
    /// [SetWaitableTimer]: https://learn.microsoft.com/windows/win32/api/synchapi/nf-synchapi-setwaitabletimer
    pub fn arm(&mut self, due: u64, now: u64, period: u32)
        requires timer { spec.kind_of self.old ≡ Kind.Timer }
        requires last { now ≤ LAST_MOMENT }
        ensures { self.new ≡ spec.after_arm due now period self.old }
    {
        match self {
            Body::Timer(timer) => timer.arm(due, now, period),
            _ => unreachable!(),
        }
    }

    /// Takes a timer's due moment and its period away; it stays as signaled as it is ([CancelWaitableTimer]).
    ///
    /// [CancelWaitableTimer]: https://learn.microsoft.com/windows/win32/api/synchapi/nf-synchapi-cancelwaitabletimer
    pub fn disarm(&mut self)
        requires timer { spec.kind_of self.old ≡ Kind.Timer }
        ensures { self.new ≡ spec.after_disarm self.old }
    {
        match self {
            Body::Timer(timer) => timer.disarm(),
            _ => unreachable!(),
        }
    }

    /// Signals a timer that is due at `now` or before. It is then due again by its period, at the first such moment
    /// after `now`, so that it doesn't drift; without a period it is set no longer ([Waitable Timer Objects]).
    ///
    /// [Waitable Timer Objects]: https://learn.microsoft.com/windows/win32/sync/waitable-timer-objects
    pub fn fire(&mut self, now: u64)
        requires timer { spec.kind_of self.old ≡ Kind.Timer }
        requires last { now ≤ LAST_MOMENT }
        ensures value { self.new ≡ spec.after_fire now self.old }
        ensures undue { is_due now (spec.due_of self.new) ≡ false }
    {
        match self {
            Body::Timer(timer) => timer.fire(now),
            _ => unreachable!(),
        }
    }

    /// The moment at which it becomes signaled, if it is a timer that is set, in units of 100 ns.
    pub fn due(&self) -> Option<u64>
        ensures { result ≡ spec.due_of self.now }
    {
        match self {
            Body::Timer(timer) => timer.due(),
            _ => None,
        }
    }

    /// The thread that owns it, if it is a mutex that has an owner. While a thread owns a mutex, it isn't abandoned.
    pub fn owner(&self) -> Option<u32>
        ensures owner { result ≡ spec.owner_of self.now }
        ensures unabandoned { IsSome result → spec.is_abandoned self.now ≡ false }
    {
        match self {
            Body::Mutex(mutex) => mutex.owner(),
            _ => None,
        }
    }

    /// Takes a mutex from its owner without abandoning it, once no handle and no wait names it (*profile*).
    pub fn clear_owner(&mut self)
        requires mutex { spec.kind_of self.old ≡ Kind.Mutex }
        ensures { self.new ≡ spec.after_clear_owner self.old }
    {
        match self {
            Body::Mutex(mutex) => mutex.clear_owner(),
            _ => unreachable!(),
        }
    }
}
