ghost use Rattle.std.specs.Prelude.{◌≡◌, IfSome, None, slice_index_or};
ghost use Rattle.std.specs.Option.{option_map};
ghost use Rattle.ob_store.specs.Objects.{object_of, tag_of};
ghost use Rattle.ob_store.specs.Stored.{MatchesState};

use crate::found::Found;
use crate::objects::Objects;
use crate::store::Store;
use ob_name::{Directory, Rows};
use pin_words::PinKeeper;
use std::marker::Model;

/// What is stored of a manager's objects and their names, to be read.
#[derive(Drop)]
pub struct Stored<'a, K: PinKeeper> {
    objects: &'a Objects<K>,
    names: &'a Directory,
}

impl<'a, K: PinKeeper> Model for Stored<'a, K> {
    ghost use Rattle.ob_store.specs.Stored.{StoredState};

    ghost Value = { StoredState };

    ghost view = { λ stored. record {
      objects = stored.objects.now.objects;
      seen = stored.objects.now.seen;
      rows = stored.names.now.rows;
    } };
}

impl<'a, K: PinKeeper> Stored<'a, K> {
    /// The object in a slot, with its body and its counters.
    pub fn slot(&self, slot: u32) -> Option<Found<'a>>
        ensures object { slice_index_or self.now.objects slot None
            ≡ option_map (λ found. object_of found.header.now (tag_of found.label.now found.name.now)) result }
        ensures body { IfSome result (λ found. slice_index_or self.now.seen.bodies slot None ≡ found.header.now.body) }
        ensures handles { IfSome result (λ found. slice_index_or self.now.seen.handles slot 0
            ≡ found.header.now.handles) }
        ensures blocks { IfSome result (λ found. slice_index_or self.now.seen.blocks slot 0 ≡ found.header.now.blocks) }
    {
        self.objects.look(slot)
    }

    /// The names in the directory with their objects, in the order in which the objects were made.
    pub fn directory(&self) -> Rows<'a>
        ensures { result ≡ self.now.rows }
    {
        self.names.rows()
    }
}

impl<K: PinKeeper> Store<K> {
    /// What is stored, which is what the state and the keeper say whenever no call is under way.
    pub fn stored(&self) -> Stored<'_, K>
        ensures { MatchesState self.now result }
    {
        self.parts.objects.kept();
        Stored {
            objects: &self.parts.objects,
            names: &self.parts.names,
        }
    }
}
