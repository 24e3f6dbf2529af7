ghost use Rattle.std.specs.Prelude.{◌≡◌, ◌<◌, ◌↔◌, IsTrue, OnOk};
ghost use Rattle.pin_core.specs.Holds.{tally, same_id};
ghost use Rattle.pin_words.specs.Keepers.{TriesLocked, released, with_held};

use crate::manager::Manager;
use pin_core::Id;
use pin_words::{LockedPins, PinFault};

impl Manager<LockedPins> {
    /// Pins the slot of an Id once more for the one holder under the lock, which may hold 16 copies. It is refused as
    /// [`LockedPins::try_pin`] is, and never as busy.
    pub fn pin_locked(&mut self, id: Id) -> Result<(), PinFault>
        ensures tries { TriesLocked self.old.keeper id result self.new.keeper }
        ensures rest { self.new ≡ record self.old { keeper = with_held self.old.keeper self.new.keeper.held } }
        ensures held { OnOk result (0 < tally (same_id id) self.new.keeper.held) }
    {
        self.store.try_pin(id)
    }

    /// Lets one copy of a held Id go.
    pub fn unpin_locked(&mut self, id: Id)
        requires { 0 < tally (same_id id) self.old.keeper.held }
        ensures { self.new ≡ record self.old { keeper = released self.old.keeper id } }
    {
        self.store.release(id);
    }

    /// Whether the holder has a copy of the Id.
    pub fn holds_locked(&self, id: Id) -> bool
        ensures { IsTrue result ↔ (0 < tally (same_id id) self.now.keeper.held) }
    {
        self.store.holds(id)
    }
}
