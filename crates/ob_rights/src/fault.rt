ghost use Rattle.std.specs.Prelude.{◌≡◌};
ghost use Rattle.ob_rights.specs.Fault.{code_of};
ghost use Rattle.ob_rights.specs.declared.fault.Fault.TheVariants.{Memory};

use std::alloc::{AllocError, AllocFailed};
use thiserror::Error;

/// Why a call is refused. A refused call changes nothing, unless the call says otherwise.
///
/// Each has the number of a [Win32 system error code], which [`code_of`] gives.
///
/// [Win32 system error code]: https://learn.microsoft.com/windows/win32/debug/system-error-codes
#[derive(Clone, Copy, Debug, PartialEq, Eq, Hash, Error)]
pub enum Fault {
    /// `ERROR_INVALID_PARAMETER` (87): an argument, or a number of a process, thread or wait that isn't live.
    #[error("the parameter is incorrect")]
    Parameter,
    /// `ERROR_BUSY` (170): the calling thread waits.
    #[error("the calling thread waits")]
    Busy,
    /// `ERROR_FILENAME_EXCED_RANGE` (206): a name that is too long.
    #[error("the name is too long")]
    NameLong,
    /// `ERROR_PATH_NOT_FOUND` (3): a name with a path in it.
    #[error("the name has a path")]
    NamePath,
    /// `ERROR_INVALID_HANDLE` (6): no such handle, or an object of another kind.
    #[error("the handle is invalid")]
    Handle,
    /// `ERROR_ACCESS_DENIED` (5): a right that isn't granted.
    #[error("access is denied")]
    Access,
    /// `ERROR_FILE_NOT_FOUND` (2): no object has the name.
    #[error("no object has the name")]
    NotFound,
    /// `ERROR_NOT_OWNER` (288): the thread doesn't own the mutex.
    #[error("the caller doesn't own the mutex")]
    NotOwner,
    /// `ERROR_TOO_MANY_POSTS` (298): the semaphore would pass its maximum.
    #[error("the semaphore would pass its maximum")]
    Posts,
    /// `ERROR_NO_SYSTEM_RESOURCES` (1450): a limit of the manager is reached.
    #[error("a limit is reached")]
    Limit,
    /// `ERROR_NOT_ENOUGH_MEMORY` (8): memory ran out.
    #[error("memory ran out")]
    Memory,
}

impl From<AllocError> for Fault {
    ghost from_gives = { λ _ fault. fault ≡ Memory };

    fn from(_: AllocError) -> Fault {
        Fault::Memory
    }
}

impl<T: Drop> From<AllocFailed<T>> for Fault {
    ghost from_gives = { λ _ fault. fault ≡ Memory };

    fn from(_: AllocFailed<T>) -> Fault {
        Fault::Memory
    }
}

/// The Win32 number of a refusal.
pub fn code_of(fault: Fault) -> u32
    ensures { result ≡ code_of fault }
{
    match fault {
        Fault::Parameter => 87,
        Fault::Busy => 170,
        Fault::NameLong => 206,
        Fault::NamePath => 3,
        Fault::Handle => 6,
        Fault::Access => 5,
        Fault::NotFound => 2,
        Fault::NotOwner => 288,
        Fault::Posts => 298,
        Fault::Limit => 1450,
        Fault::Memory => 8,
    }
}
