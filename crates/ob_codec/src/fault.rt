ghost use Rattle.std.specs.Prelude.{◌≡◌};
ghost use Rattle.ob_codec.specs.declared.fault.ReadFault.TheVariants.{Memory};

use std::alloc::{AllocError, AllocFailed};
use thiserror::Error;

/// What is wrong with a text. A text with several faults is refused with the first, from left to right.
#[derive(Clone, Copy, Debug, PartialEq, Eq, Error)]
pub enum TextFault {
    /// The text ends within a value.
    #[error("the text is too short")]
    Short,
    /// The byte that says which of several forms a value has says none of them: a flag is neither 0 nor 1, for one.
    #[error("a flag or tag says nothing")]
    Tag,
    /// A value stands there that can't be.
    #[error("a value can't be")]
    Value,
    /// Bytes stand behind the last value.
    #[error("bytes stand behind the last value")]
    Trailing,
    /// The digest is another one than the text has.
    #[error("the digest is wrong")]
    Digest,
}

/// Why nothing was read.
#[derive(Clone, Copy, Debug, PartialEq, Eq, Error)]
pub enum ReadFault {
    /// Memory ran out.
    #[error("memory ran out")]
    Memory,
    /// The text is wrong.
    #[error("{0}")]
    Text(TextFault),
}

impl From<AllocError> for ReadFault {
    ghost from_gives = { λ _ fault. fault ≡ Memory };

    fn from(_: AllocError) -> ReadFault {
        ReadFault::Memory
    }
}

impl<T: Drop> From<AllocFailed<T>> for ReadFault {
    ghost from_gives = { λ _ fault. fault ≡ Memory };

    fn from(_: AllocFailed<T>) -> ReadFault {
        ReadFault::Memory
    }
}
