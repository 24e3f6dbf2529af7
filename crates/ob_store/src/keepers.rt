ghost use Rattle.std.specs.Prelude.{◌≡◌};
ghost use Rattle.pin_core.specs.Opened.{Opens};
ghost use Rattle.pin_words.specs.Keepers.{IsFreshWith};
ghost use Rattle.ob_store.specs.State.{shape_of};

use crate::objects::Objects;
use crate::parts::Parts;
use crate::store::Store;
use pin_core::Slot;
use pin_words::{LockedPins, PinKeeper};

impl Objects<LockedPins> {
    /// The objects over another keeper, which begins with the slots of this one.
    pub(crate) fn over<K: PinKeeper>(self, keeper: K) -> Objects<K>
        requires { IsFreshWith (K.kept keeper) self.keeper.shape self.keeper.slots }
        ensures { result ≡ record self { keeper = K.kept keeper } }
    {
        let Objects {
            headers,
            births,
            keeper: _,
        } = self;
        Objects {
            headers,
            births,
            keeper,
        }
    }
}

impl Store<LockedPins> {
    /// The slots: another keeper has to begin with these, if the store is to go on over it.
    pub fn slots(&self) -> &[Slot]
        ensures slots { result.now ≡ self.now.keeper.slots }
        ensures opens { Opens (shape_of self.now.state.limits) self.now.keeper.slots }
    {
        self.parts.objects.kept();
        self.parts.objects.keeper.as_slots()
    }

    /// The store over another keeper, which begins with the slots of this one. It takes no memory. The holder's copies
    /// go with the keeper that it had.
    pub fn over<K: PinKeeper>(self, keeper: K) -> Store<K>
        requires { IsFreshWith (K.kept keeper) (shape_of self.state.limits) self.keeper.slots }
        ensures { result ≡ record self { keeper = K.kept keeper } }
    {
        let Store { parts, alloc } = self;
        let Parts {
            limits,
            processes,
            tables,
            objects,
            waits,
            names,
            signaled,
        } = parts;
        let parts = Parts {
            limits,
            processes,
            tables,
            objects: objects.over(keeper),
            waits,
            names,
            signaled,
        };
        Store { parts, alloc }
    }
}
