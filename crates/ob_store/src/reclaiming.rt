ghost use Rattle.std.specs.Prelude.{◌≡◌, IsSome, None, slice_index_or};
ghost use Rattle.pin_words.specs.Keepers.{Reclaims};
ghost use Rattle.ob_store.specs.State.{settled};
ghost use Rattle.ob_store.specs.Moves.{after_reclaim};

use crate::store::Store;
use pin_words::{PinKeeper, Reclaim};

impl<K: PinKeeper> Store<K> {
    /// Takes the slot of an ended object back, unless somebody holds it.
    pub fn reclaim(&mut self, slot: u32) -> Reclaim
        requires object { IsSome (slice_index_or self.old.state.objects slot None) }
        requires ended { slice_index_or self.old.state.bodies slot None ≡ None }
        ensures state { self.new.state ≡ settled (after_reclaim self.old.state slot result) }
        ensures kind { Reclaims self.old.keeper slot result self.new.keeper }
        ensures exact { K.reclaims self.old.keeper slot result self.new.keeper }
    {
        self.parts.objects.kept();
        let answer = self.parts.objects.reclaim(slot);
        self.parts.objects.kept();
        answer
    }
}
