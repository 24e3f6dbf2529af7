ghost use Rattle.std.specs.Prelude.{◌≡◌, ◌≤◌, IfOk, length};

use crate::codes::MAXIMUM_WAIT_OBJECTS;
use pin_core::Id;
use smallvec::SmallVec;
use std::alloc::{AllocError, Global};
use std::marker::Model;

/// The objects of one wait, at most [`MAXIMUM_WAIT_OBJECTS`], in the order in which they were listed.
///
/// One takes no memory of its own: most waits are for one.
#[derive(Drop)]
pub struct Ids {
    list: SmallVec<Id, 1>,
}

impl Model for Ids {
    ghost use Rattle.std.specs.Prelude.{List, length, ◌≤◌};
    ghost use Rattle.pin_core.specs.declared.id.Id.{Id};

    ghost Value = { List Id };

    ghost view = { λ s. s.list.items };

    ghost invariant = { λ s. length s.list.items ≤ 64 };
}

impl Ids {
    /// A copy of a list.
    pub(crate) fn new(alloc: Global, ids: &[Id]) -> Result<Ids, AllocError>
        requires { length ids.now ≤ MAXIMUM_WAIT_OBJECTS }
        ensures { IfOk result (λ s. s ≡ ids.now) }
    {
        if let [id] = ids {
            return Ok(Ids {
                list: SmallVec::from_buf(alloc, [*id]),
            });
        }
        Ok(Ids {
            list: SmallVec::from_slice(alloc, ids)?,
        })
    }

    /// The Ids.
    pub(crate) fn as_slice(&self) -> &[Id]
        ensures value { result.now ≡ self.now }
        ensures at_most { length result.now ≤ MAXIMUM_WAIT_OBJECTS }
    {
        self.list.as_slice()
    }
}
