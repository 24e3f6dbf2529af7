// Masks and flags as bytes: each as its number of 32 bits.
ghost use Rattle.ob_rights.specs.Spelling.{FlagsFit, RightsFit, flags_at, flags_text, rights_at, rights_text};
ghost use Rattle.ob_rights.specs.SpellingLaws.{flags_codec, rights_codec};

use crate::handle_flags::HandleFlags;
use crate::rights::Rights;
use ob_codec::{Cursor, ReadFault, Spelled};
use std::alloc::{AllocError, Global};

impl Spelled for Rights {
    ghost spell = { rights_text };

    ghost read_at = { rights_at };

    ghost Fits = { RightsFit };

    fn write(&self, out: &mut Vec<u8>) -> Result<(), AllocError> {
        self.0.write(out)
    }

    fn read(_alloc: Global, from: &mut Cursor<'_>) -> Result<Rights, ReadFault> {
        let bits = from.four()?;
        Ok(Rights(bits))
    }

    ghost codec = { rights_codec };
}

impl Spelled for HandleFlags {
    ghost spell = { flags_text };

    ghost read_at = { flags_at };

    ghost Fits = { FlagsFit };

    fn write(&self, out: &mut Vec<u8>) -> Result<(), AllocError> {
        self.0.write(out)
    }

    fn read(_alloc: Global, from: &mut Cursor<'_>) -> Result<HandleFlags, ReadFault> {
        let bits = from.four()?;
        Ok(HandleFlags(bits))
    }

    ghost codec = { flags_codec };
}
