ghost use Rattle.std.specs.Prelude.{◌≡◌};
ghost use Rattle.pin_core.specs.Holds.{same_id};

/// The name of an object for its whole life: its slot, and the slot's generation when it was made.
///
/// Two objects never have one Id: a slot that is given again has a higher generation.
#[derive(Clone, Copy, Debug, PartialEq, Eq, Hash, Default)]
pub struct Id {
    /// The slot's number, from 0.
    pub slot: u32,
    /// The generation, from 1.
    pub generation: u32,
}

/// Whether two Ids are one.
#[inline]
pub fn same_id(id: Id, other: Id) -> bool
    ensures { result ≡ same_id id other }
{
    id.slot == other.slot && id.generation == other.generation
}
