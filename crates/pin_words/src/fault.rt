ghost use Rattle.std.specs.Prelude.{◌≡◌, ◌≢◌, ◌↔◌, ◌<◌, ◌≤◌, ◌^◌, ℕ, IsTrue};
ghost use Rattle.pin_core.specs.Words.{decoded};
ghost use Rattle.pin_core.specs.declared.word.Phase.TheVariants.{Live};
ghost use Rattle.pin_words.specs.Verdicts.{verdict_of};
ghost use Rattle.pin_words.specs.declared.fault.Verdict.TheVariants.{Go};

use pin_core::{Id, LIVE_BIT, Phase, Word};
use thiserror::Error;

/// Why a pin is refused. No refusal changes what is held. They are tested in the order 1, 6, 2, 3, 5, 4.
#[derive(Clone, Copy, Debug, PartialEq, Eq, Error)]
pub enum PinFault {
    /// 1: there is no such slot.
    #[error("there is no such slot")]
    NoSuchSlot,
    /// 2: the Id isn't published yet.
    #[error("the Id isn't published yet")]
    Unborn,
    /// 3: the Id's object is given up. It stays so.
    #[error("the Id's object is given up")]
    Stale,
    /// 4: the word changed between the look and the exchange.
    #[error("the word changed meanwhile")]
    Busy {
        /// The word that the exchange found.
        seen: Word,
    },
    /// 5: the slot has as many pins as it may have.
    #[error("the slot has all its pins")]
    PinsFull,
    /// 6: the reader holds 16 copies already.
    #[error("the reader holds 16 copies")]
    HeldFull,
}

/// What a word says of an Id that is to be pinned. Contracts speak of it; no call answers it.
#[derive(Clone, Copy, Debug, PartialEq, Eq)]
pub enum Verdict {
    /// The Id isn't published yet.
    Unborn,
    /// The Id's object is given up.
    Stale,
    /// The slot has as many pins as it may have.
    PinsFull,
    /// It may be pinned.
    Go,
}

#[inline(always)]
pub(crate) fn judge(max_pins: u32, id: Id, word: Word) -> Verdict
    ensures { result ≡ verdict_of max_pins id word }
{
    if word.phase != Phase::Live || word.generation != id.generation {
        return refuse(id, word);
    }
    if word.pins == max_pins {
        Verdict::PinsFull
    } else {
        Verdict::Go
    }
}

/// Whether an Id may be pinned by the word that a look found, by one comparison: the least word that lets it be is live,
/// of its generation, with no pins.
#[inline(always)]
#[tactic(auto, using(crate::proofs::Bits::free_pin))]
pub(crate) fn has_pin_free(max_pins: u32, id: Id, found: u64) -> bool
    requires most { max_pins < 2 ^ 30 }
    requires room { (decoded found).pins ≤ max_pins }
    ensures { IsTrue result ↔ (verdict_of max_pins id (decoded found) ≡ Go) }
{
    let least = u64::from(id.generation) * (4 * LIVE_BIT) + LIVE_BIT;
    found.wrapping_sub(least) < u64::from(max_pins)
}

/// The verdict where it may not be pinned.
#[cold]
#[inline(never)]
pub(crate) fn judge_found(max_pins: u32, id: Id, found: u64) -> Verdict
    ensures { result ≡ verdict_of max_pins id (decoded found) }
{
    judge(max_pins, id, Word::decode(found))
}

// Why an Id is refused where the word isn't live at its generation.
#[cold]
#[inline(never)]
fn refuse(id: Id, word: Word) -> Verdict
    requires { word.phase ≡ Live → word.generation ≢ id.generation }
    ensures { (max_pins : ℕ) → result ≡ verdict_of max_pins id word }
{
    let born = word.phase == Phase::Retired || id.generation <= word.generation;
    if !born || (word.phase == Phase::Free && word.generation == id.generation) {
        Verdict::Unborn
    } else {
        Verdict::Stale
    }
}
