//! Where the words of a slot lie. Each of the first 16,384 slots has a line of the processor's cache of its own, so that
//! whoever pins a slot doesn't delay those who pin its neighbours. Further slots share these lines: where the least free
//! slot is given first, none does before 16,384 are taken.
ghost use Rattle.std.specs.Prelude.{◌≡◌, ◌<◌, ◌≤◌, ℕ, length};
ghost use Rattle.pin_core.specs.Descrs.{IsGiven};
ghost use Rattle.pin_core.specs.Worlds.{slot_of};
ghost use Rattle.pin_words.specs.Places.{AreLaid, IsPlace, descr_place, pin_word, place_of, words_of};

use pin_core::{Slot, Word};

/// How many lines there are at most.
const LINES: u32 = 16_384;

/// The words of a line of 64 bytes.
const WORDS_A_LINE: usize = 8;

/// The words of a slot. Those of a line that no slot has stay 0.
const WORDS_A_SLOT: usize = 2;

/// How many words so many slots have.
#[tactic(auto, unfolding(crate::specs::Places::words_of))]
pub(crate) fn words_of(slots: u32) -> usize
    ensures { result ≡ words_of slots }
{
    slots.min(LINES) as usize * WORDS_A_LINE
}

/// The pin word of a slot.
#[inline]
#[tactic(auto, unfolding(crate::specs::Places::place_of))]
pub(crate) fn place_of(slot: u32) -> usize
    requires { slot < 65536 }
    ensures { IsPlace place_of result slot }
{
    (slot % LINES) as usize * WORDS_A_LINE + (slot / LINES) as usize * WORDS_A_SLOT
}

/// The descriptor of a slot, beside its pin word.
#[inline]
#[tactic(auto, unfolding(crate::specs::Places::place_of))]
pub(crate) fn descr_place(slot: u32) -> usize
    requires { slot < 65536 }
    ensures { IsPlace descr_place result slot }
{
    place_of(slot) + 1
}

// The pin word of a slot that nobody holds.
fn pin_word(slot: Slot) -> u64
    ensures { result ≡ pin_word slot }
{
    let word = Word {
        generation: slot.generation,
        phase: slot.phase,
        pins: 0,
    };
    word.encode()
}

/// Makes the words of slots that nobody holds.
#[tactic(auto, using(crate::proofs::Apart::within))]
pub(crate) fn lay_all(words: &mut Vec<u64>, slots: &[Slot])
    requires most { length slots.now ≤ 65536 }
    requires wide { length words.old.items ≡ words_of (length slots.now) }
    requires given { (i : ℕ) → i < length slots.now → IsGiven (slot_of slots.now i).descr }
    ensures { AreLaid slots.now (length slots.now) words.new.items }
{
    for i in 0..slots.len() {
        let slot = slots[i];
        words[place_of(i as u32)] = pin_word(slot);
        words[descr_place(i as u32)] = slot.descr.encode();
    }
}
