ghost use Rattle.std.specs.Prelude.{◌≡◌};
ghost use Rattle.least.specs.Dues.{IsLeast};
ghost use Rattle.ob_store.specs.Dues.{dues_of};
ghost use Rattle.ob_store.specs.Waiting.{IsNextAnswered};

use crate::manager::Manager;
use ob_waits::Answer;
use pin_words::PinKeeper;

impl<K: PinKeeper> Manager<K> {
    /// The answer of the next wait behind the one that is called `after`, by the order in which waits began, of those
    /// that are answered and whose answer was not taken: which wait, whose, and its code. 0 is before all waits, and so
    /// is what is called like no wait where numbers come back. Nothing changes: the answer stays until
    /// [`wait_result`](Manager::wait_result) takes it or its thread ends.
    ///
    /// A host that asks from 0 on after each call, and takes what it is told until there is none, wakes just the
    /// threads whose waits came to be answered, and never asks for another's. A call that answers waits is a signal, a
    /// release, a post, an abandoned mutex, a tick or an expiry; the wait of a call that is answered at once has no
    /// number and is not told here.
    ///
    /// It takes no memory, and its cost does not grow with the waits that are pending.
    pub fn next_answered(&self, after: u32) -> Option<Answer>
        ensures { IsNextAnswered self.now.state after result }
    {
        self.store.next_answered(after)
    }

    /// The least of all moments that a tick can reach at which a timer is due or the time of a pending wait is up, in
    /// units of 100 ns, as [`tick`](Manager::tick) takes them; none where there is no such moment. It is after the
    /// present moment, and not after the last one, 9,223,372,036,854,775,807: a timer that is set to a later moment, by
    /// a relative time, or a deadline behind it never comes, as its moment never does.
    ///
    /// A tick to a moment before it answers no wait and signals no timer. It takes no memory and is known at once,
    /// except that the deadline of a wait that was answered before it came is dropped by the first call behind it,
    /// once.
    pub fn next_due(&mut self) -> Option<u64>
        ensures least { IsLeast (dues_of self.old.state) result }
        ensures same { self.new ≡ self.old }
    {
        self.store.next_due()
    }
}
