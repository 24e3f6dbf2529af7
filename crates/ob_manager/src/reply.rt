use ob_rights::Fault;
use pin_core::Id;
use pin_words::Reclaim;

/// What a call answers.
#[derive(Clone, Copy, Debug, PartialEq, Eq)]
pub enum Reply {
    /// A new process, with its first thread.
    Spawned {
        /// The process's number, from 1.
        process: u32,
        /// The thread's number, from 1.
        thread: u32,
    },
    /// A new thread.
    Started {
        /// Its number.
        thread: u32,
    },
    /// A new object, and a handle to it.
    Made {
        /// The handle: 4, 8, 12 and so on.
        handle: u32,
        /// The object.
        id: Id,
    },
    /// A handle to an object that had the name already (`ERROR_ALREADY_EXISTS`).
    Exists {
        /// The handle.
        handle: u32,
        /// The object.
        id: Id,
    },
    /// A handle to an object by its name.
    Opened {
        /// The handle.
        handle: u32,
        /// The object.
        id: Id,
    },
    /// A handle to the object of another handle.
    Duplicated {
        /// The handle.
        handle: u32,
        /// The object.
        id: Id,
    },
    /// The handle was closed.
    Closed,
    /// An event was set, reset or pulsed, an object of the host's own signaled or reset, a mutex released, a timer set or
    /// cancelled, a wait ended by an alert, or the flags of a handle were set.
    Done,
    /// The flags of a handle.
    Flags {
        /// Their bits: `HANDLE_FLAG_INHERIT` is 1, `HANDLE_FLAG_PROTECT_FROM_CLOSE` 2.
        bits: u32,
    },
    /// A semaphore's count was raised.
    Previous {
        /// The count before.
        count: u32,
    },
    /// A wait was satisfied, or its time was up ([Wait Functions]).
    ///
    /// [Wait Functions]: https://learn.microsoft.com/windows/win32/sync/wait-functions
    Code {
        /// For any, the index of the object that satisfied it, from 0, and 128 more where that is an abandoned mutex;
        /// for all, 0, or 128 where one is an abandoned mutex (*profile*); 258 where its time was up, 192 where an alert
        /// ended it.
        code: u32,
    },
    /// A wait isn't satisfied yet.
    Pending {
        /// Its number, from 1.
        wait: u32,
    },
    /// An object was signaled, and the wait that came with it isn't satisfied yet.
    Signaled {
        /// The number of the wait, from 1.
        wait: u32,
    },
    /// A pending wait's time was up.
    Expired {
        /// Its number.
        wait: u32,
    },
    /// It is another moment now.
    Ticked {
        /// Which, in units of 100 ns.
        now: u64,
    },
    /// A thread has ended.
    Ended {
        /// The thread.
        thread: u32,
    },
    /// A process has ended.
    Exited {
        /// The process.
        process: u32,
    },
    /// A slot was to be taken back.
    Reaped {
        /// The object that was in it.
        id: Id,
        /// What became of the slot.
        outcome: Reclaim,
    },
    /// What refers to an object.
    CountsAre {
        /// How many handles name it.
        handles: u32,
        /// How many places of pending waits name it.
        waits: u64,
        /// 1 where neither does, else 0.
        hold: u32,
    },
    /// The call was refused, and nothing has changed, but that a duplicate may have closed its source.
    Refused(Fault),
}
