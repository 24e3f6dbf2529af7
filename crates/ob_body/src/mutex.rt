use ob_codec::{Cursor, ReadFault, Spelled, TextFault};
use ob_rights::Fault;
use std::alloc::{AllocError, Global};
use std::marker::Model;

/// The greatest number of times that a thread may own a mutex at once (*profile*; Windows counts in a LONG).
pub const RECURSION_MAX: u32 = 2_147_483_647;

/// The body of a mutex ([Mutex Objects]).
///
/// [Mutex Objects]: https://learn.microsoft.com/windows/win32/sync/mutex-objects
#[derive(Clone, Copy, Debug, PartialEq, Eq)]
pub struct Mutex {
    owner: Option<u32>,
    recursion: u32,
    abandoned: bool,
}

impl Model for Mutex {
    ghost use Rattle.ob_body.specs.MutexState.{MutexState, IsPossible};

    ghost Value = { MutexState };

    ghost view = { λ m. record { owner = m.owner; recursion = m.recursion; abandoned = m.abandoned } };

    ghost invariant = { λ m. IsPossible m.owner m.recursion m.abandoned };

    ghost inverse = { λ m. record { owner = m.owner; recursion = m.recursion; abandoned = m.abandoned } };
}

impl Mutex {
    ghost use Rattle.std.specs.Prelude.{◌≡◌, ◌<◌, true, false, IsSome};
    ghost use Rattle.ob_body.specs.Mutex as spec;
    ghost use Rattle.ob_body.specs.Spelling.{mutex_of};

    /// A mutex owned once by a thread, or by none.
    pub(crate) fn new(owner: Option<u32>) -> Mutex
        ensures { result ≡ spec.opening owner }
    {
        Mutex {
            owner,
            recursion: if owner.is_some() { 1 } else { 0 },
            abandoned: false,
        }
    }

    /// A mutex as it may have become, where such a one can be.
    fn checked(owner: Option<u32>, recursion: u32, abandoned: bool) -> Option<Mutex>
        ensures { result ≡ mutex_of (owner, (recursion, abandoned)) }
    {
        let can_be = match owner {
            None => recursion == 0,
            Some(_) => 0 < recursion && recursion <= RECURSION_MAX && !abandoned,
        };
        if can_be {
            return Some(Mutex {
                owner,
                recursion,
                abandoned,
            });
        }
        None
    }

    /// Whether no thread owns it, or this one does.
    pub(crate) fn signaled_for(&self, thread: u32) -> bool
        ensures { result ≡ spec.is_signaled thread self.now }
    {
        match self.owner {
            Some(owner) => owner == thread,
            None => true,
        }
    }

    /// Whether the thread may own it once more, where it may own it `max_recursion` times.
    pub(crate) fn has_room(&self, thread: u32, max_recursion: u32) -> bool
        ensures { result ≡ spec.has_room max_recursion thread self.now }
    {
        match self.owner {
            Some(owner) => owner != thread || self.recursion < max_recursion,
            None => true,
        }
    }

    /// Owned by the thread once more; whether it was abandoned.
    pub(crate) fn acquire(&mut self, thread: u32) -> bool
        requires room { spec.has_room RECURSION_MAX thread self.old ≡ true }
        ensures was_abandoned { result ≡ self.old.abandoned }
        ensures value { self.new ≡ spec.after_acquire thread self.old }
    {
        let was_abandoned = self.abandoned;
        match self.owner {
            Some(owner) => {
                if owner == thread {
                    self.recursion += 1;
                }
            }
            None => {
                self.owner = Some(thread);
                self.recursion = 1;
                self.abandoned = false;
            }
        }
        was_abandoned
    }

    /// Owned by the thread once less.
    pub(crate) fn unlock(&mut self, thread: u32) -> Result<(), Fault>
        ensures answer { result ≡ spec.unlock_answer thread self.old }
        ensures value { self.new ≡ spec.after_unlock thread self.old }
    {
        if self.owner != Some(thread) {
            return Err(Fault::NotOwner);
        }
        self.recursion -= 1;
        if self.recursion == 0 {
            self.owner = None;
        }
        Ok(())
    }

    /// Without owner and abandoned, where the thread owns it.
    pub(crate) fn abandon(&mut self, thread: u32)
        ensures { self.new ≡ spec.after_abandon thread self.old }
    {
        if self.owner == Some(thread) {
            self.owner = None;
            self.recursion = 0;
            self.abandoned = true;
        }
    }

    /// The thread that owns it. While one does, it isn't abandoned.
    pub fn owner(&self) -> Option<u32>
        ensures owner { result ≡ self.now.owner }
        ensures unabandoned { IsSome result → self.now.abandoned ≡ false }
    {
        self.owner
    }

    /// How many times its owner owns it; 0 where it has none.
    pub fn recursion(&self) -> u32
        ensures { result ≡ self.now.recursion }
    {
        self.recursion
    }

    /// Whether its last owner ended, and nobody acquired it since.
    pub fn is_abandoned(&self) -> bool
        ensures { result ≡ self.now.abandoned }
    {
        self.abandoned
    }

    /// Without owner.
    pub(crate) fn clear_owner(&mut self)
        ensures { self.new ≡ spec.after_clear_owner self.old }
    {
        self.owner = None;
        self.recursion = 0;
    }
}

impl Spelled for Mutex {
    ghost use Rattle.ob_body.specs.Spelling.{MutexFits, mutex_at, mutex_text};
    ghost use Rattle.ob_body.specs.SpellingLaws.{mutex_codec};

    ghost spell = { mutex_text };

    ghost read_at = { mutex_at };

    ghost Fits = { MutexFits };

    fn write(&self, out: &mut Vec<u8>) -> Result<(), AllocError> {
        self.owner.write(out)?;
        self.recursion.write(out)?;
        self.abandoned.write(out)
    }

    fn read(alloc: Global, from: &mut Cursor<'_>) -> Result<Mutex, ReadFault> {
        let owner = Option::<u32>::read(alloc, from)?;
        let recursion = from.four()?;
        let abandoned = bool::read(alloc, from)?;
        match Mutex::checked(owner, recursion, abandoned) {
            Some(mutex) => Ok(mutex),
            None => Err(ReadFault::Text(TextFault::Value)),
        }
    }

    ghost codec = { mutex_codec };
}
