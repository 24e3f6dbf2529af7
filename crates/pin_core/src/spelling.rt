// Ids and descriptors as bytes.
ghost use Rattle.std.specs.Prelude.{◌≡◌, ◌++◌, OnOk};
ghost use Rattle.ob_codec.specs.Reading.{Gives};
ghost use Rattle.pin_core.specs.Descrs.{IsGiven};
ghost use Rattle.pin_core.specs.Spelling.{IdFits, descr_at, descr_text, id_at, id_text};
ghost use Rattle.pin_core.specs.SpellingLaws.{id_codec};

use crate::descr::Descr;
use crate::id::Id;
use ob_codec::{Cursor, ReadFault, Spelled, TextFault};
use std::alloc::{AllocError, Global};

impl Spelled for Id {
    ghost spell = { id_text };

    ghost read_at = { id_at };

    ghost Fits = { IdFits };

    fn write(&self, out: &mut Vec<u8>) -> Result<(), AllocError> {
        self.slot.write(out)?;
        self.generation.write(out)
    }

    fn read(_alloc: Global, from: &mut Cursor<'_>) -> Result<Id, ReadFault> {
        let slot = from.four()?;
        let generation = from.four()?;
        Ok(Id { slot, generation })
    }

    ghost codec = { id_codec };
}

/// Writes a descriptor behind some bytes: the eight bytes of its word.
pub fn write_descr(out: &mut Vec<u8>, descr: Descr) -> Result<(), AllocError>
    requires { IsGiven descr }
    ensures { OnOk result (out.new.items ≡ out.old.items ++ descr_text descr) }
{
    descr.encode().write(out)
}

/// Reads a descriptor from the front of what is left. A word that no descriptor has is refused with
/// [`TextFault::Value`].
pub fn read_descr(from: &mut Cursor<'_>) -> Result<Descr, ReadFault>
    ensures { Gives (λ descr. descr) result (descr_at from.old) from.new }
{
    let word = from.eight()?;
    match Descr::decode(word) {
        Some(descr) => Ok(descr),
        None => Err(ReadFault::Text(TextFault::Value)),
    }
}
