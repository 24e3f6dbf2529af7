ghost use Rattle.std.specs.Prelude.{◌≡◌};
ghost use Rattle.ob_store.specs.Objects.{no_label};

use ob_rights::Kind;
use pin_core::Descr;

/// What an object was created as. It never changes, and few calls read it, so it stands apart from the header.
#[derive(Clone, Copy)]
pub struct Label {
    /// Its number, in the order of births, from 0.
    pub birth: u64,
    /// What it is, for its whole life.
    pub descr: Descr,
    /// Whether it was created with a name. The name stands beside the label.
    pub is_named: bool,
}

impl Label {
    /// What stands where no object is.
    pub(crate) fn none() -> Label
        ensures { result ≡ no_label }
    {
        Label {
            birth: 0,
            descr: Descr {
                kind: Kind::Event,
                manual: false,
                max: 0,
            },
            is_named: false,
        }
    }
}
