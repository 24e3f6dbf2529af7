use ob_codec::{Cursor, ReadFault, Spelled, TextFault};
use ob_rights::Fault;
use std::alloc::{AllocError, Global};
use std::marker::Model;

/// The greatest maximum of a semaphore, which Windows counts in a LONG.
pub const COUNT_MAX: u32 = 2_147_483_647;

/// The body of a semaphore ([Semaphore Objects]).
///
/// [Semaphore Objects]: https://learn.microsoft.com/windows/win32/sync/semaphore-objects
#[derive(Clone, Copy, Debug, PartialEq, Eq)]
pub struct Semaphore {
    count: u32,
    maximum: u32,
}

impl Model for Semaphore {
    ghost use Rattle.ob_body.specs.SemaphoreState.{SemaphoreState, IsPossible};

    ghost Value = { SemaphoreState };

    ghost view = { λ s. record { count = s.count; maximum = s.maximum } };

    ghost invariant = { λ s. IsPossible s.count s.maximum };

    ghost inverse = { λ s. record { count = s.count; maximum = s.maximum } };
}

impl Semaphore {
    ghost use Rattle.std.specs.Prelude.{◌≡◌, ◌<◌, ◌≤◌};
    ghost use Rattle.ob_body.specs.Semaphore as spec;
    ghost use Rattle.ob_body.specs.Spelling.{semaphore_of};

    /// A semaphore with a first count and a maximum.
    pub(crate) fn new(initial: u32, maximum: u32) -> Semaphore
        requires above_zero { 0 < maximum }
        requires within { initial ≤ maximum }
        requires countable { maximum ≤ COUNT_MAX }
        ensures { result ≡ record { count = initial; maximum = maximum } }
    {
        Semaphore {
            count: initial,
            maximum,
        }
    }

    /// A semaphore with a count and a maximum, where such a one can be.
    fn checked(count: u32, maximum: u32) -> Option<Semaphore>
        ensures { result ≡ semaphore_of (count, maximum) }
    {
        if 0 < maximum && count <= maximum && maximum <= COUNT_MAX {
            return Some(Semaphore { count, maximum });
        }
        None
    }

    /// Whether the count is above 0.
    pub(crate) fn is_signaled(&self) -> bool
        ensures { result ≡ spec.is_signaled self.now }
    {
        self.count > 0
    }

    /// How often it may be acquired before it is released again.
    pub fn count(&self) -> u32
        ensures { result ≡ self.now.count }
    {
        self.count
    }

    /// Its greatest count.
    pub fn maximum(&self) -> u32
        ensures { result ≡ self.now.maximum }
    {
        self.maximum
    }

    /// The count falls by 1.
    pub(crate) fn acquire(&mut self)
        requires { 0 < self.old.count }
        ensures { self.new ≡ spec.after_acquire self.old }
    {
        self.count -= 1;
    }

    /// The count rises by `count`, unless it would pass the maximum; the count before.
    pub(crate) fn post(&mut self, count: u32) -> Result<u32, Fault>
        ensures answer { result ≡ spec.post_answer count self.old }
        ensures value { self.new ≡ spec.after_post count self.old }
    {
        if self.maximum - self.count < count {
            return Err(Fault::Posts);
        }
        let previous = self.count;
        self.count += count;
        Ok(previous)
    }
}

impl Spelled for Semaphore {
    ghost use Rattle.ob_body.specs.Spelling.{SemaphoreFits, semaphore_at, semaphore_text};
    ghost use Rattle.ob_body.specs.SpellingLaws.{semaphore_codec};

    ghost spell = { semaphore_text };

    ghost read_at = { semaphore_at };

    ghost Fits = { SemaphoreFits };

    fn write(&self, out: &mut Vec<u8>) -> Result<(), AllocError> {
        self.count.write(out)?;
        self.maximum.write(out)
    }

    fn read(_alloc: Global, from: &mut Cursor<'_>) -> Result<Semaphore, ReadFault> {
        let count = from.four()?;
        let maximum = from.four()?;
        match Semaphore::checked(count, maximum) {
            Some(semaphore) => Ok(semaphore),
            None => Err(ReadFault::Text(TextFault::Value)),
        }
    }

    ghost codec = { semaphore_codec };
}
