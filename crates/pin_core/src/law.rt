ghost use Rattle.std.specs.Prelude.{◌≡◌, ℕ, ◌<◌, ◌≤◌, ◌^◌, List, None, Some, replicate};
ghost use Rattle.ob_codec.specs.Laws.{IsCodec};
ghost use Rattle.pin_core.specs.Spelling.{descr_at, descr_text};
ghost use Rattle.pin_core.specs.Words as words;
ghost use Rattle.pin_core.specs.Descrs as descrs;
ghost use Rattle.pin_core.specs.Opened.{Opens, opened_with};
ghost use Rattle.pin_core.specs.Worlds.{WorldState, opening_of, opening_slot, at, pins, times, given_as};
ghost use Rattle.pin_core.specs.Events.{refusal, after};
ghost use Rattle.pin_core.specs.Safety.{IsSafe, AreEvents, StaysGiven, reached, age};
ghost use Rattle.pin_core.specs.declared.word.Word.{Word};
ghost use Rattle.pin_core.specs.declared.id.Id.{Id};
ghost use Rattle.pin_core.specs.declared.descr.Descr.{Descr};
ghost use Rattle.pin_core.specs.declared.shape.Shape.{Shape};
ghost use Rattle.pin_core.specs.declared.world.Slot.{Slot};
ghost use Rattle.pin_core.specs.declared.holders.Hold.{Hold};
ghost use Rattle.pin_core.specs.declared.event.Event.{Event};
ghost use Rattle.pin_core.specs.declared.event.Event.TheVariants.{Publish, ReadDescr};

/// The codes of words and of descriptors are inverse to each other, on all numbers of 64 bits that decode. So a
/// descriptor that a word can have is read again as [`write_descr`](crate::write_descr) spells it.
pub fn law_of_codes()
    ensures words { (n : ℕ) → n < 2 ^ 64 → words.encoded (words.decoded n) ≡ n }
    ensures decoded_words { (w : Word) → w.generation < 2 ^ 32 → w.pins < 2 ^ 30
        → words.decoded (words.encoded w) ≡ w }
    ensures descrs { (n : ℕ) (d : Descr) → descrs.decoded n ≡ Some d
        → (descrs.encoded d ≡ n) × descrs.IsGiven d }
    ensures decoded_descrs { (d : Descr) → descrs.IsGiven d
        → descrs.decoded (descrs.encoded d) ≡ Some d }
    ensures spelled_descrs { IsCodec descr_text descr_at descrs.IsGiven }
{}

/// What holds of each safe world and of each event that is possible there, whatever led to that world. So it holds of
/// the world that a running table shows, of whose events no list is kept.
///
/// The opening world is safe; so is one that begins with given slots, which nobody holds, and it is the opening world
/// where nothing was ever asked of the slots. Each possible event keeps a world safe. While a hold stays in the set,
/// its slot is neither stored to, nor published, nor reclaimed. A slot's generation and phase never go back. A slot is
/// published only where nobody holds it. A descriptor that is read under a pin is the one that was published with the
/// Id.
pub fn law_of_worlds()
    ensures opening { (k : Shape) → 1 ≤ k.max_gen → IsSafe (opening_of k) }
    ensures opened { (k : Shape) (slots : List Slot) → Opens k slots → IsSafe (opened_with k slots) }
    ensures fresh { (k : Shape) → opened_with k (replicate k.slots opening_slot) ≡ opening_of k }
    ensures safe { (w : WorldState) (e : Event) → IsSafe w → refusal w e ≡ None → IsSafe (after w e) }
    ensures kept { (w : WorldState) → IsSafe w → (h : Hold) → 0 < times w h → StaysGiven w h.id.slot }
    ensures onward { (w : WorldState) (e : Event) → IsSafe w → refusal w e ≡ None
        → (s : ℕ) → age (at w s) ≤ age (at (after w e) s) }
    ensures alone { (w : WorldState) → IsSafe w → (s : ℕ) → refusal w (Publish s) ≡ None → pins w s ≡ 0 }
    ensures shown { (w : WorldState) → IsSafe w → (r : ℕ) (id : Id) (d : Descr)
        → refusal w (ReadDescr r id d) ≡ None → given_as w id d ≡ 1 }
{}

/// What holds in each world that possible events lead to from the opening one, whoever made them and however they were
/// interleaved.
///
/// Such a world is safe. While a hold stays in the set, its slot is neither stored to, nor published, nor reclaimed. A
/// slot's generation and phase never go back. A slot is published only where nobody holds it. A descriptor that is read
/// under a pin is the one that was published with the Id.
pub fn law_of_schedules()
    ensures safe { (k : Shape) (es : List Event) → AreEvents k es → IsSafe (reached k es) }
    ensures kept { (k : Shape) (es : List Event) → AreEvents k es → (h : Hold)
        → 0 < times (reached k es) h → StaysGiven (reached k es) h.id.slot }
    ensures onward { (k : Shape) (es : List Event) (e : Event) → AreEvents k es
        → refusal (reached k es) e ≡ None → (s : ℕ)
        → age (at (reached k es) s) ≤ age (at (after (reached k es) e) s) }
    ensures alone { (k : Shape) (es : List Event) (s : ℕ) → AreEvents k es
        → refusal (reached k es) (Publish s) ≡ None → pins (reached k es) s ≡ 0 }
    ensures shown { (k : Shape) (es : List Event) (r : ℕ) (id : Id) (d : Descr) → AreEvents k es
        → refusal (reached k es) (ReadDescr r id d) ≡ None → given_as (reached k es) id d ≡ 1 }
{}
