ghost use Rattle.std.specs.Prelude.{◌≡◌, ◌<◌, ℕ};
ghost use Rattle.pin_core.specs.declared.word.Phase.TheVariants.{Free, Live, Closing};
ghost use Rattle.pin_core.specs.Descrs.{IsGiven};
ghost use Rattle.pin_core.specs.Worlds.{slot_of};
ghost use Rattle.pin_words.specs.declared.pin_keeper.Reclaim.{Reclaim};
ghost use Rattle.pin_words.specs.Keepers.{KeeperState, stored, published, closed, Reclaims};

use pin_core::{Descr, Phase};

/// What became of a slot that was to be reclaimed.
#[derive(Clone, Copy, Debug, PartialEq, Eq)]
pub enum Reclaim {
    /// It is free at the next generation.
    Freed,
    /// It was at the last generation, and is given up for good.
    Retired,
    /// Somebody holds it, and nothing changed.
    Held {
        /// How many copies of its Id readers hold, from 1 to the limit of the shape.
        pins: u32,
    },
}

/// Who gives slots out and takes them back. Its calls take no memory and never wait.
///
/// To every caller a keeper is what `kept` says of it. Whether a reclaim answers held hangs on what the keeper counts,
/// which a generic caller can't see. `reclaims` is what this kind of keeper answers exactly, so a caller whose contract
/// names it can only pass the keeper's answer on.
pub trait PinKeeper {
    ghost kept: { Self → KeeperState };

    ghost reclaims: { KeeperState → ℕ → Reclaim → KeeperState → Type 0 };

    /// The phase of a slot.
    fn phase(&self, slot: u32) -> Phase
        requires { slot < (kept self.now).shape.slots }
        ensures { result ≡ (slot_of (kept self.now).slots slot).phase };

    /// The generation of a slot, from 1.
    fn generation(&self, slot: u32) -> u32
        requires { slot < (kept self.now).shape.slots }
        ensures { result ≡ (slot_of (kept self.now).slots slot).generation };

    /// Stores the descriptor of a free slot.
    fn store_descr(&mut self, slot: u32, descr: Descr)
        requires slot { slot < (kept self.old).shape.slots }
        requires free { (slot_of (kept self.old).slots slot).phase ≡ Free }
        requires given { IsGiven descr }
        ensures { kept self.new ≡ stored (kept self.old) slot descr };

    /// Publishes a free slot with its descriptor: it is live.
    fn publish(&mut self, slot: u32)
        requires slot { slot < (kept self.old).shape.slots }
        requires free { (slot_of (kept self.old).slots slot).phase ≡ Free }
        ensures { kept self.new ≡ published (kept self.old) slot };

    /// Gives a live slot up: it is closing.
    fn close_slot(&mut self, slot: u32)
        requires slot { slot < (kept self.old).shape.slots }
        requires live { (slot_of (kept self.old).slots slot).phase ≡ Live }
        ensures { kept self.new ≡ closed (kept self.old) slot };

    /// Takes a closing slot back, unless somebody holds it.
    fn reclaim(&mut self, slot: u32) -> Reclaim
        requires slot { slot < (kept self.old).shape.slots }
        requires closing { (slot_of (kept self.old).slots slot).phase ≡ Closing }
        ensures kind { Reclaims (kept self.old) slot result (kept self.new) }
        ensures exact { reclaims (kept self.old) slot result (kept self.new) };
}
