//! What was published, for proofs alone: it takes no memory, and its functions do nothing at run time.
ghost use Rattle.std.specs.Prelude.{◌≡◌, List, [], ◌∷◌, ◌++◌};
ghost use Rattle.std.specs.Borrow.{ftrue};
ghost use Rattle.pin_core.specs.declared.id.Id.{Id};
ghost use Rattle.pin_core.specs.declared.descr.Descr.{Descr};

use pin_core::{Descr, Id};
use std::marker::Model;

/// What was published, in order. At run time nothing of it is kept.
#[derive(Drop)]
pub(crate) struct Published {
    pub(crate) ghost list: { List (Id × Descr) },
}

impl Model for Published {
    ghost also_owns = { λ _. ftrue };
}

// It owns nothing.
unsafe impl Send for Published {}

unsafe impl Sync for Published {}

impl Published {
    /// Nothing was published.
    pub(crate) fn new() -> Published
        ensures { result.list ≡ [] }
    {
        Published {}
    }

    /// One Id more, with its descriptor.
    #[inline(always)]
    pub(crate) fn and(&self, _id: &Id, _descr: &Descr) -> Published
        ensures { result.list ≡ self.now.list ++ (_id.now, _descr.now) ∷ [] }
    {
        Published {}
    }
}
