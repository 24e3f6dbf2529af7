/// What an object is: the kinds that share one namespace ([Object Names]).
///
/// [Object Names]: https://learn.microsoft.com/windows/win32/sync/object-names
#[derive(Clone, Copy, Debug, PartialEq, Eq, Hash)]
pub enum Kind {
    /// Set or not set; reset by hand, or by the wait that it satisfies.
    Event,
    /// Owned by one thread at a time, any number of times over.
    Mutex,
    /// A count from 0 to a maximum.
    Semaphore,
    /// Signaled from a due moment on; reset when it is set again, or by the wait that it satisfies.
    Timer,
    /// An object of the host's own, such as a thread, a process or a file, that a wait takes as it takes an event. The
    /// number is its type, which the host chooses.
    Host(u8),
}
