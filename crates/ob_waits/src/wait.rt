ghost use Rattle.std.specs.Prelude.{◌≡◌};

use crate::ids::Ids;

/// Whether a wait is satisfied by one of its objects or by all of them together.
#[derive(Clone, Copy, Debug, PartialEq, Eq, Hash)]
pub enum Mode {
    /// One object that is signaled satisfies the wait: the first of the list.
    Any,
    /// All objects of the list, once each is signaled.
    All,
}

/// Where a wait stands.
#[derive(Clone, Copy, Debug, PartialEq, Eq, Hash)]
pub enum WaitState {
    /// Not satisfied yet.
    Pending,
    /// Satisfied or expired, with the code that its thread is to get: the index of the object, or 128 and the index
    /// where that is an abandoned mutex, or 258 where it expired.
    Answered(u32),
}

/// Where a wait stands, with the objects that it is for.
#[derive(Drop)]
pub enum State {
    /// Not satisfied yet.
    Pending(Mode, Ids),
    /// Answered with a code; it is for no object any more.
    Answered(u32),
}

/// A thread's wait.
#[derive(Drop)]
pub struct Wait {
    /// The thread that waits.
    pub thread: u32,
    /// The moment at which its time is up, in units of 100 ns: none where it waits for good.
    pub deadline: Option<u64>,
    /// Where it stands.
    pub state: State,
}

impl Wait {
    /// Answers the wait.
    pub(crate) fn answer(&mut self, code: u32)
        ensures { self.new ≡ record self.old { state = State.Answered code } }
    {
        self.state = State::Answered(code);
    }
}
