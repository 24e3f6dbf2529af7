ghost use Rattle.std.specs.Prelude.{◌≡◌};
ghost use Rattle.ob_store.specs.Room.{handles_left, room_of, waits_left};

use crate::store::Store;
use pin_words::PinKeeper;

/// What can still come in a manager before a call is refused for want of it.
#[derive(Clone, Copy, Debug, PartialEq, Eq)]
pub struct Room {
    /// Vacant slots: so many objects can be made before a slot is taken back.
    pub slots: u32,
    /// Process numbers that can still be given: where they come back, one for each process less that lives.
    pub processes: u32,
    /// Thread numbers, alike. A process takes one with its first thread.
    pub threads: u32,
    /// Handles that one process can still have: none where it isn't live.
    pub handles: u32,
    /// Wait numbers that can still be given: 4,294,967,295 where they come back, which have no end.
    pub waits: u32,
}

impl<K: PinKeeper> Store<K> {
    /// How many further handles a process may have: none where it isn't live.
    fn handles_left(&self, process: u32) -> u32
        ensures { result ≡ handles_left self.now.state process }
    {
        match self.session(process) {
            Some(_) => self.parts.tables.left(process),
            None => 0,
        }
    }

    /// How many wait numbers can still be given.
    fn waits_left(&self) -> u32
        ensures { result ≡ waits_left self.now.state }
    {
        let limits = self.parts.limits;
        if limits.reuse {
            return u32::MAX;
        }
        limits.waits.saturating_sub(self.parts.waits.given())
    }

    /// What can still come, with the handles of one process.
    pub fn room(&self, process: u32) -> Room
        ensures { result ≡ room_of self.now.state process }
    {
        let limits = self.parts.limits;
        Room {
            slots: self.parts.objects.headers.vacant_count(),
            processes: limits.processes - self.parts.processes.used_processes(limits.reuse),
            threads: limits.threads - self.parts.processes.used_threads(limits.reuse),
            handles: self.handles_left(process),
            waits: self.waits_left(),
        }
    }
}
