ghost use Rattle.std.specs.Prelude.{◌≡◌};
ghost use Rattle.ob_console.specs.declared.lanes.fault.LanesFault.TheVariants.{Memory, Write};

use ob_rights::Fault;
use ob_script::NotWritten;
use std::alloc::AllocError;
use thiserror::Error;

/// Why a script with lanes wasn't answered to its end.
#[derive(Clone, Copy, Debug, PartialEq, Eq, Error)]
pub enum LanesFault {
    /// Memory was wanting.
    #[error("no memory")]
    Memory,
    /// The source failed, or one read more than may be made was needed.
    #[error("read fault")]
    Read,
    /// The sink failed, took no byte, or needed one write more than may be made.
    #[error("write fault")]
    Write,
    /// The lanes and the journal don't agree.
    #[error("lanes differ")]
    Differ,
}

impl From<AllocError> for LanesFault {
    ghost from_gives = { λ _ fault. fault ≡ Memory };

    fn from(_: AllocError) -> LanesFault {
        LanesFault::Memory
    }
}

impl From<NotWritten> for LanesFault {
    ghost from_gives = { λ _ fault. fault ≡ Write };

    fn from(_: NotWritten) -> LanesFault {
        LanesFault::Write
    }
}
