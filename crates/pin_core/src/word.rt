ghost use Rattle.std.specs.Prelude.{◌≡◌, ◌<◌, ◌^◌};
ghost use Rattle.pin_core.specs.Words.{encoded, decoded, code_of, phase_of};

/// Where a slot stands in its life. A generation goes from free over live to closing, and then the slot opens again,
/// free, at the next one, or retires where it was the last.
///
/// The variants stand in the order of their codes in a word, which is another.
#[derive(Clone, Copy, Debug, PartialEq, Eq, Hash)]
pub enum Phase {
    /// Nobody has it, and its descriptor may be stored.
    Free,
    /// It is published, and may be pinned.
    Live,
    /// It is given up for good: there is no next generation.
    Retired,
    /// It is given up, and opens again once nobody holds it.
    Closing,
}

/// The word of a slot, in 64 bits: the generation in bits 32 to 63, the phase in bits 30 and 31 (free 00, live 01,
/// retired 10, closing 11), the pins in bits 0 to 29.
#[derive(Clone, Copy, Debug, PartialEq, Eq)]
pub struct Word {
    /// The generation, from 1.
    pub generation: u32,
    /// The phase.
    pub phase: Phase,
    /// How many copies of the slot's Id readers hold, at most 1,073,741,823.
    pub pins: u32,
}

/// Bit 30 of a word, above the 30 bits of the pins. It turns the word of a free slot into that of the live one.
pub const LIVE_BIT: u64 = 1073741824;

/// Bit 31 of a word. It turns the word of a live slot into that of the closing one.
pub const CLOSING_BIT: u64 = 2147483648;

impl Phase {
    fn code(self) -> u64
        ensures { result ≡ code_of self }
    {
        match self {
            Phase::Free => 0,
            Phase::Live => 1,
            Phase::Retired => 2,
            Phase::Closing => 3,
        }
    }

    fn of_code(code: u64) -> Phase
        ensures { result ≡ phase_of code }
    {
        if code == 0 {
            Phase::Free
        } else if code == 1 {
            Phase::Live
        } else if code == 2 {
            Phase::Retired
        } else {
            Phase::Closing
        }
    }
}

impl Word {
    /// The 64 bits of the word.
    pub fn encode(self) -> u64
        requires { self.pins < 2 ^ 30 }
        ensures { result ≡ encoded self }
    {
        (u64::from(self.generation) * 4 + self.phase.code()) * LIVE_BIT + u64::from(self.pins)
    }

    /// The word of 64 bits: each number has one.
    pub fn decode(word: u64) -> Word
        ensures { result ≡ decoded word }
    {
        Word {
            generation: (word / (4 * LIVE_BIT)) as u32,
            phase: Phase::of_code(word / LIVE_BIT % 4),
            pins: (word % LIVE_BIT) as u32,
        }
    }
}
