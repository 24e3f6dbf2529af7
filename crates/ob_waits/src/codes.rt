/// How many objects a wait may list ([WaitForMultipleObjects]).
///
/// [WaitForMultipleObjects]: https://learn.microsoft.com/windows/win32/api/synchapi/nf-synchapi-waitformultipleobjects
pub const MAXIMUM_WAIT_OBJECTS: usize = 64;

/// The least code of a wait that acquired an abandoned mutex ([WaitForMultipleObjects]): the index of the object is
/// added to it.
///
/// [WaitForMultipleObjects]: https://learn.microsoft.com/windows/win32/api/synchapi/nf-synchapi-waitformultipleobjects
pub const WAIT_ABANDONED_0: u32 = 128;

/// The code of an alertable wait that its thread left for what was queued to it ([Wait Functions]).
///
/// [Wait Functions]: https://learn.microsoft.com/windows/win32/sync/wait-functions
pub const WAIT_IO_COMPLETION: u32 = 192;

/// The code of a wait that expired ([Wait Functions]).
///
/// [Wait Functions]: https://learn.microsoft.com/windows/win32/sync/wait-functions
pub const WAIT_TIMEOUT: u32 = 258;
