ghost use Rattle.std.specs.Prelude.{◌<◌, ◌^◌};
ghost use Rattle.std.specs.Int.{w32, w64, to_le_bytes};
ghost use Rattle.ob_codec.specs.Reading.{flag_at, number_at, option_at};
ghost use Rattle.ob_codec.specs.Spelling.{Any, OptionFits, flag, option};
ghost use Rattle.ob_codec.specs.Codecs.{flag_codec, option_codec, u32_codec, u64_codec};

use crate::cursor::Cursor;
use crate::fault::{ReadFault, TextFault};
use crate::spelled::Spelled;
use std::alloc::{AllocError, Global};

impl Spelled for u32 {
    ghost spell = { to_le_bytes w32 };

    ghost read_at = { number_at w32 };

    ghost Fits = { λ n. n < 2 ^ 32 };

    fn write(&self, out: &mut Vec<u8>) -> Result<(), AllocError> {
        out.extend_from_slice(&self.to_le_bytes())
    }

    fn read(_alloc: Global, from: &mut Cursor<'_>) -> Result<u32, ReadFault> {
        from.four()
    }

    ghost codec = { u32_codec };
}

impl Spelled for u64 {
    ghost spell = { to_le_bytes w64 };

    ghost read_at = { number_at w64 };

    ghost Fits = { λ n. n < 2 ^ 64 };

    fn write(&self, out: &mut Vec<u8>) -> Result<(), AllocError> {
        out.extend_from_slice(&self.to_le_bytes())
    }

    fn read(_alloc: Global, from: &mut Cursor<'_>) -> Result<u64, ReadFault> {
        from.eight()
    }

    ghost codec = { u64_codec };
}

impl Spelled for bool {
    ghost spell = { flag };

    ghost read_at = { flag_at };

    ghost Fits = { Any };

    fn write(&self, out: &mut Vec<u8>) -> Result<(), AllocError> {
        out.push(if *self { 1 } else { 0 })?;
        Ok(())
    }

    #[tactic(auto, unfolding(crate::specs::Reading::flag_at))]
    fn read(_alloc: Global, from: &mut Cursor<'_>) -> Result<bool, ReadFault> {
        match from.byte()? {
            0 => Ok(false),
            1 => Ok(true),
            _ => Err(ReadFault::Text(TextFault::Tag)),
        }
    }

    ghost codec = { flag_codec };
}

impl<T: Spelled> Spelled for Option<T> {
    ghost spell = { option T.spell };

    ghost read_at = { option_at T.read_at };

    ghost Fits = { OptionFits T.Fits };

    fn write(&self, out: &mut Vec<u8>) -> Result<(), AllocError> {
        match self {
            None => {
                out.push(0)?;
                Ok(())
            }
            Some(value) => {
                out.push(1)?;
                value.write(out)
            }
        }
    }

    #[tactic(auto, unfolding(crate::specs::Reading::option_at))]
    fn read(alloc: Global, from: &mut Cursor<'_>) -> Result<Option<T>, ReadFault> {
        match from.byte()? {
            0 => Ok(None),
            1 => {
                let value = T::read(alloc, from)?;
                Ok(Some(value))
            }
            _ => Err(ReadFault::Text(TextFault::Tag)),
        }
    }

    ghost codec = { option_codec T.codec };
}
