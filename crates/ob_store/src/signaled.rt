ghost use Rattle.std.specs.Prelude.{◌≡◌, ◌++◌, ◌∷◌, [], true, false, IfOk};
ghost use Rattle.ob_store.specs.Signaled.{SignaledState, in_slot, none_signaled};

use pin_core::Id;
use std::alloc::{AllocError, Global};
use std::marker::Model;

/// The slots in which a call may have made something signaled: those of the mutexes that it abandoned, or of the timers
/// that it fired. They are listed as long as there is room; once one isn't, the list is not whole, and the waits settle
/// by a pass over all of them.
#[derive(Drop)]
pub(crate) struct SignaledSlots {
    ids: Vec<Id>,
    is_whole: bool,
}

impl Model for SignaledSlots {
    ghost use Rattle.ob_store.specs.Signaled.{SignaledState};

    ghost Value = { SignaledState };

    ghost view = { λ a. record { ids = a.ids.items; whole = a.is_whole } };
}

impl SignaledSlots {
    /// An empty list with room for each slot, 8 bytes each.
    pub(crate) fn new(alloc: Global, slots: u32) -> Result<SignaledSlots, AllocError>
        ensures { IfOk result (λ signaled. signaled ≡ none_signaled) }
    {
        Ok(SignaledSlots {
            ids: Vec::with_capacity(alloc, slots as usize)?,
            is_whole: true,
        })
    }

    /// Empties the list. Its memory stays.
    pub(crate) fn clear(&mut self)
        ensures { self.new ≡ none_signaled }
    {
        self.ids.clear();
        self.is_whole = true;
    }

    /// Adds a slot. Where there is no room for it the list isn't whole from then on. It takes no memory.
    pub(crate) fn add(&mut self, slot: u32)
        ensures added { self.new.whole ≡ true → self.new.ids ≡ self.old.ids ++ in_slot slot ∷ [] }
        ensures before { self.new.whole ≡ true → self.old.whole ≡ true }
    {
        if self.ids.len() < self.ids.capacity() {
            self.ids.push_reserved(Id {
                slot,
                generation: 0,
            });
        } else {
            self.is_whole = false;
        }
    }

    /// Whether each slot that was added is in the list.
    pub(crate) fn is_whole(&self) -> bool
        ensures { result ≡ self.now.whole }
    {
        self.is_whole
    }

    pub(crate) fn ids(&self) -> &[Id]
        ensures { result.now ≡ self.now.ids }
    {
        &self.ids
    }
}
