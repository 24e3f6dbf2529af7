//! The object manager as a C library: a static library whose functions a C program calls, as `include/obman.h` at the
//! top of the repository declares them.
//!
//! C holds a pointer that tells it nothing. To a contract it is a
//! [`ManagerOwner`](obman_c_base::ManagerOwner) with the manager's
//! state as its value, so each function's contract is that of the manager's call: the same step from the state before
//! to the state after, and the same answer, told by a number (0, or a Win32 error code) and by what is written where C
//! asks for it.
//!
//! ```c
//! # om_member member;
//! om_manager m;
//! om_limits limits = OM_LIMITS_DEFAULT;
//! om_new(&limits, &m);                     // 0
//! om_spawn(&m, 1, &member);                // 0, process 1 with thread 1
//! om_free(m);
//! ```
#![tactic(auto)]

mod creating;
mod handles;
mod host_data;
mod looking;
mod opening;
mod pinning;
mod processes;
mod readers;
mod reading;
mod reaping;
mod recording;
mod signaling;
mod status;
mod timing;
mod values;
mod version;
mod waiting;
