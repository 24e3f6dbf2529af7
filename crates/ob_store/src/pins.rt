ghost use Rattle.std.specs.Prelude.{◌≡◌, ◌<◌, ◌↔◌, IsTrue, OnOk};
ghost use Rattle.pin_core.specs.Holds.{tally, same_id};
ghost use Rattle.pin_words.specs.Keepers.{TriesLocked, released, with_held};

use crate::store::Store;
use pin_core::Id;
use pin_words::{LockedPins, PinFault};

impl Store<LockedPins> {
    /// Pins the slot of an Id once more, for the one holder.
    pub fn try_pin(&mut self, id: Id) -> Result<(), PinFault>
        ensures tries { TriesLocked self.old.keeper id result self.new.keeper }
        ensures rest { self.new ≡ record self.old { keeper = with_held self.old.keeper self.new.keeper.held } }
        ensures held { OnOk result (0 < tally (same_id id) self.new.keeper.held) }
    {
        self.parts.objects.try_pin(id)
    }

    /// Lets one copy of a held Id go.
    pub fn release(&mut self, id: Id)
        requires { 0 < tally (same_id id) self.old.keeper.held }
        ensures { self.new ≡ record self.old { keeper = released self.old.keeper id } }
    {
        self.parts.objects.release(id);
    }

    /// Whether the holder has a copy of the Id.
    pub fn holds(&self, id: Id) -> bool
        ensures { IsTrue result ↔ (0 < tally (same_id id) self.now.keeper.held) }
    {
        self.parts.objects.holds(id)
    }
}
