ghost use Rattle.std.specs.Prelude.{◌≡◌, ℕ, List, Ok};
ghost use Rattle.ob_codec.specs.Laws.{Takes};
ghost use Rattle.ob_codec.specs.Spelling.{AreBytes};
ghost use Rattle.ob_store.specs.SavedStore.{store_at, store_text};
ghost use Rattle.ob_store.specs.State.{Whole};

/// The bytes from which a store is read are the spelling of its state, so a state has just one spelling.
pub fn law_of_saved_stores()
    ensures takes { (bytes : List ℕ) (w : Whole) (rest : List ℕ) → AreBytes bytes
        → store_at bytes ≡ Ok (w, rest) → Takes bytes (store_text w) rest }
{}
