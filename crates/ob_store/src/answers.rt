ghost use Rattle.ob_store.specs.Waiting.{IsNextAnswered};

use crate::store::Store;
use ob_waits::Answer;
use pin_words::PinKeeper;

impl<K: PinKeeper> Store<K> {
    /// The answer of the next wait, behind the one that is called `after`, of those whose answer was not taken yet: in
    /// the order in which waits began.
    pub fn next_answered(&self, after: u32) -> Option<Answer>
        ensures { IsNextAnswered self.now.state after result }
    {
        let mut answer = self.parts.waits.next_answered(self.wait_number(after))?;
        if self.parts.limits.reuse {
            // Called for its clause: that a thread has one wait.
            self.kept();
            answer.wait = answer.thread;
        }
        Some(answer)
    }
}
