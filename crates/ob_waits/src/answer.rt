/// The answer of a wait, which its thread is still to take.
#[derive(Clone, Copy, Debug, PartialEq, Eq)]
pub struct Answer {
    /// The number of the wait.
    pub wait: u32,
    /// The thread that waits.
    pub thread: u32,
    /// What it is answered with: the index of the object, or 128 and the index where that is an abandoned mutex, or 258
    /// where the wait expired.
    pub code: u32,
}
