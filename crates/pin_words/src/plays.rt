ghost use Rattle.pin_words.specs.Shown.{Shown};
ghost use Rattle.pin_words.specs.Views.{view_with_slots};
ghost use Rattle.pin_words.specs.Plays.{looked, pinned, released, noted, stored, published, closed, reclaiming, gave};
ghost use Rattle.pin_words.specs.Plays.{given, keeper_part, reader_part, spent, joined};

use crate::view::{Ground, View};
use atomic_table::{Join, Play, Split, TableRule};

// The words are those of the world that the seats make.
pub(crate) struct PinRule;

impl TableRule<(), View, Ground> for PinRule {
    ghost holds = { λ ground. Shown ground.shape };

    ghost first = { λ ground. view_with_slots ground.shape ground.slots.items };
}

pub(crate) struct Looks;

impl Play<(), View> for Looks {
    ghost then = { looked };
}

pub(crate) struct Pinning;

impl Play<(), View> for Pinning {
    ghost then = { pinned };
}

pub(crate) struct Releasing;

impl Play<(), View> for Releasing {
    ghost then = { released };
}

pub(crate) struct Noting;

impl Play<(), View> for Noting {
    ghost then = { noted };
}

pub(crate) struct Storing;

impl Play<(), View> for Storing {
    ghost then = { stored };
}

pub(crate) struct Publishing;

impl Play<(), View> for Publishing {
    ghost then = { published };
}

pub(crate) struct Closes;

impl Play<(), View> for Closes {
    ghost then = { closed };
}

pub(crate) struct Reclaiming;

impl Play<(), View> for Reclaiming {
    ghost then = { reclaiming };
}

// The keeper makes a reader's seat from its own.
pub(crate) struct Gives;

impl Split<View> for Gives {
    ghost left = { gave };

    ghost right = { given };
}

// A seat makes one that knows nothing.
pub(crate) struct Blank;

impl Split<View> for Blank {
    ghost left = { λ v. v };

    ghost right = { λ _. spent };
}

// The keeper's seat and a reader's in one.
pub(crate) struct Together;

impl Join<View> for Together {
    ghost both = { joined };

    ghost spent = { spent };
}

// That seat in its two parts.
pub(crate) struct Apart;

impl Split<View> for Apart {
    ghost left = { keeper_part };

    ghost right = { reader_part };
}
