use crate::wait::Mode;
use pin_core::Id;

/// A wait that is pending.
#[derive(Clone, Copy)]
pub struct Pending<'a> {
    /// The thread that waits.
    pub thread: u32,
    /// Whether one of the objects satisfies it, or all together.
    pub mode: Mode,
    /// The moment at which its time is up, in units of 100 ns: none where it waits for good.
    pub deadline: Option<u64>,
    /// The objects, in the order in which they were listed.
    pub ids: &'a [Id],
}
