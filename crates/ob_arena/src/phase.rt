ghost use Rattle.std.specs.Prelude.{◌≡◌};
ghost use Rattle.ob_arena.specs.Phases.{is_occupied, is_vacant};

/// What a slot is now.
#[derive(Clone, Copy, Debug, PartialEq, Eq)]
pub(crate) enum Phase {
    Vacant,
    Occupied,
    Retired,
}

impl Phase {
    pub(crate) fn is_vacant(self) -> bool
        ensures { result ≡ is_vacant self }
    {
        match self {
            Phase::Vacant => true,
            Phase::Occupied | Phase::Retired => false,
        }
    }

    pub(crate) fn is_occupied(self) -> bool
        ensures { result ≡ is_occupied self }
    {
        match self {
            Phase::Occupied => true,
            Phase::Vacant | Phase::Retired => false,
        }
    }
}
