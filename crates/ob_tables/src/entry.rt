ghost use Rattle.std.specs.Prelude.{◌≡◌, None, Some};
ghost use Rattle.ob_tables.specs.Inheritance.{inheritable};

use bitflags::Flags;
use ob_rights::{HandleFlags, Rights};
use pin_core::Id;

/// What a handle refers to.
#[derive(Clone, Copy, Debug, PartialEq, Eq)]
pub struct Entry {
    /// The object.
    pub id: Id,
    /// The rights that the handle grants.
    pub rights: Rights,
    /// What may be done with the handle.
    pub flags: HandleFlags,
}

/// The entry of a place, where it has one that a child inherits.
pub(crate) fn inheritable(place: Option<Entry>) -> Option<Entry>
    ensures { result ≡ inheritable place }
{
    match place {
        Some(entry) if entry.flags.contains(HandleFlags::INHERIT) => place,
        _ => None,
    }
}
