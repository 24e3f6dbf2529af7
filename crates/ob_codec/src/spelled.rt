ghost use Rattle.std.specs.Prelude.{◌≡◌, ◌++◌, ℕ, List, OnOk};
ghost use Rattle.ob_codec.specs.Reading.{Read, Gives};
ghost use Rattle.ob_codec.specs.Laws.{IsCodec};

use crate::cursor::Cursor;
use crate::fault::ReadFault;
use std::alloc::{AllocError, Global};

/// A type whose values have one spelling each.
///
/// `spell` is the spelling of a value, `read_at` reads one from the front of some bytes, `Fits` says which values have
/// a spelling: a list of 2^32 values has none. `codec` is the law: what fits is read again as it was spelled, whatever
/// stands behind it, and what is read was spelled so, and fits.
pub trait Spelled {
    ghost spell: { Self → List ℕ };

    ghost read_at: { List ℕ → Read Self };

    ghost Fits: { Self → Type 0 };

    /// Writes the value behind some bytes. Where memory was wanting, part of it may stand there.
    fn write(&self, out: &mut Vec<u8>) -> Result<(), AllocError>
        ensures text { OnOk result (out.new.items ≡ out.old.items ++ spell self.now) }
        ensures fits { OnOk result (Fits self.now) };

    /// Reads a value from the front of what is left.
    fn read(alloc: Global, from: &mut Cursor<'_>) -> Result<Self, ReadFault>
        ensures { Gives (λ value. value) result (read_at from.old) from.new };

    ghost codec: { IsCodec spell read_at Fits };
}
