//! The number that C is told of a reply.
ghost use Rattle.std.specs.Prelude.{◌≡◌};
ghost use Rattle.ob_manager.specs.Steps.{reply_of};
ghost use Rattle.obman_c.specs.Telling.{status_of};

use ob_manager::Reply;
use ob_rights::{Fault, code_of};
use obman_c_base::SUCCESS;

/// `ERROR_NO_MORE_ITEMS`.
pub(crate) const NO_MORE: u32 = 259;

/// `ERROR_ALREADY_EXISTS`.
pub(crate) const EXISTS: u32 = 183;

/// `ERROR_IO_PENDING`.
pub(crate) const PENDING: u32 = 997;

/// 0, or a Win32 error code ([System Error Codes]): `ERROR_ALREADY_EXISTS` (183) where a name was there and its object
/// was opened, `ERROR_IO_PENDING` (997) for a wait that is pending, and for a refusal its own.
///
/// [System Error Codes]: https://learn.microsoft.com/windows/win32/debug/system-error-codes
#[inline(always)]
pub(crate) fn told(answer: Result<Reply, Fault>) -> u32
    ensures { result ≡ status_of (reply_of answer) }
{
    match answer {
        Ok(Reply::Exists { .. }) => EXISTS,
        Ok(Reply::Pending { .. } | Reply::Signaled { .. }) => PENDING,
        Err(fault) | Ok(Reply::Refused(fault)) => code_of(fault),
        Ok(_) => SUCCESS,
    }
}
