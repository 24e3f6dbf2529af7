//! Numbers that C is told, by the public [System Error Codes].
//!
//! [System Error Codes]: https://learn.microsoft.com/windows/win32/debug/system-error-codes

/// The call was answered.
pub const SUCCESS: u32 = 0;

/// `ERROR_INVALID_DATA`.
pub const INVALID_DATA: u32 = 13;

/// `ERROR_INSUFFICIENT_BUFFER`.
pub const TOO_SMALL: u32 = 122;
