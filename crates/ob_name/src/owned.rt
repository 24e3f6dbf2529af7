ghost use Rattle.std.specs.Prelude.{◌≡◌, ◌≤◌, IfOk, IsOk, length};
ghost use Rattle.ob_name.specs.Refs.{name_at};

use crate::name::{NameRef, is_base};
use crate::space::Space;
use ob_codec::{Cursor, ReadFault, Spelled, TextFault, write_string};
use smallvec::SmallVec;
use std::alloc::{AllocError, Global};
use std::marker::Model;

/// How many bytes a name may have that takes no memory beside itself.
pub(crate) const INLINE: usize = 16;

/// A name that owns its bytes: one that [`Directory::reserve`] copied, to be entered, or one that an object keeps.
///
/// [`Directory::reserve`]: crate::Directory::reserve
#[derive(Drop)]
pub struct Name {
    // The session's number, 0 for the global namespace.
    session: u32,
    base: SmallVec<u8, INLINE>,
}

impl Model for Name {
    ghost use Rattle.std.specs.Prelude.{◌≡◌, true};
    ghost use Rattle.ob_name.specs.Names.{ObjectName, home};
    ghost use Rattle.ob_name.specs.Texts.{is_base};

    ghost Value = { ObjectName };

    ghost view = { λ n. record { space = home n.session; base = n.base.items } };

    ghost invariant = { λ n. is_base n.base.items ≡ true };
}

impl Name {
    /// A copy of a borrowed name. The refusal is want of memory, which a name of at most 16 bytes doesn't take.
    pub fn new(alloc: Global, name: &NameRef<'_>) -> Result<Name, AllocError>
        ensures copy { IfOk result (λ copy. copy ≡ name_at name.now) }
        ensures short { length (name_at name.now).base ≤ INLINE → IsOk result }
    {
        Ok(Name {
            session: name.space.session(),
            base: SmallVec::from_slice(alloc, name.base)?,
        })
    }

    /// The name, to be read or looked up. Takes no memory.
    #[inline(always)]
    pub fn borrowed(&self) -> NameRef<'_>
        ensures { name_at result ≡ self.now }
    {
        NameRef {
            space: Space::of_session(self.session),
            base: self.base.as_slice(),
        }
    }
}

/// A name is the number of its session, 0 for the global namespace, and its base.
impl Spelled for Name {
    ghost use Rattle.ob_name.specs.Spelling.{NameFits, name_text, name_text_at};
    ghost use Rattle.ob_name.specs.SpellingLaws.{name_codec};

    ghost spell = { name_text };

    ghost read_at = { name_text_at };

    ghost Fits = { NameFits };

    fn write(&self, out: &mut Vec<u8>) -> Result<(), AllocError> {
        self.session.write(out)?;
        write_string(out, self.base.as_slice())
    }

    fn read(alloc: Global, from: &mut Cursor<'_>) -> Result<Name, ReadFault> {
        let session = from.four()?;
        let base = from.string()?;
        if !is_base(base) {
            return Err(ReadFault::Text(TextFault::Value));
        }
        Ok(Name {
            session,
            base: SmallVec::from_slice(alloc, base)?,
        })
    }

    ghost codec = { name_codec };
}
