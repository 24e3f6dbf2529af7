use crate::event::Event;

/// The body of an object of the host's own, such as a thread, a process or a file. A wait takes it as it takes an event,
/// and only the host signals it.
#[derive(Clone, Copy, Debug, PartialEq, Eq)]
pub struct HostObject {
    /// Its type, which the host chooses.
    pub object_type: u8,
    /// Whether it stays signaled until the host resets it, as a thread that has ended does, and whether it is signaled.
    pub event: Event,
}
