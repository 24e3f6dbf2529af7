ghost use Rattle.std.specs.Prelude.{◌≡◌, ◌↔◌, IsTrue};
ghost use Rattle.pin_core.specs.Descrs.{encoded, decoded, kind_code, kind_of, fits, IsGiven};

use ob_rights::Kind;

/// What an object was made as. It never changes, so it can be read under a pin, without a lock.
///
/// In 64 bits: the kind in bits 0 and 1 (event 0, mutex 1, semaphore 2, timer 3), the flag of manual reset in bit 2,
/// the maximum in bits 3 to 33, and 0 elsewhere. A host's object has the descriptor of an event, as which waits take it.
#[derive(Clone, Copy, Debug, PartialEq, Eq)]
pub struct Descr {
    /// The kind of the object.
    pub kind: Kind,
    /// Whether it is an event that is reset by hand, or a timer that only setting it resets.
    pub manual: bool,
    /// The maximum of a semaphore, from 1 to 2,147,483,647; else 0.
    pub max: u32,
}

// Bits 3 to 33 have the maximum.
const LAST_MAX: u64 = 2147483647;

fn code_of_kind(kind: Kind) -> u64
    ensures { result ≡ kind_code kind }
{
    match kind {
        Kind::Event => 0,
        Kind::Mutex => 1,
        Kind::Semaphore => 2,
        Kind::Timer => 3,
        Kind::Host(number) => u64::from(number) + 4,
    }
}

fn kind_of_code(code: u64) -> Option<Kind>
    ensures { result ≡ kind_of code }
{
    match code {
        0 => Some(Kind::Event),
        1 => Some(Kind::Mutex),
        2 => Some(Kind::Semaphore),
        3 => Some(Kind::Timer),
        _ => None,
    }
}

fn is_fitting(kind: Kind, manual: bool, max: u64) -> bool
    ensures { result ≡ fits kind manual max }
{
    match kind {
        Kind::Event | Kind::Timer => max == 0,
        Kind::Mutex => !manual && max == 0,
        Kind::Semaphore => !manual && 0 < max,
        Kind::Host(_) => false,
    }
}

impl Descr {
    /// Whether [`decode`](Descr::decode) can give it: the flag on an event or a timer only, and a maximum from 1 to
    /// 2,147,483,647 on a semaphore only.
    pub fn is_given(self) -> bool
        ensures { IsTrue result ↔ IsGiven self }
    {
        u64::from(self.max) <= LAST_MAX && is_fitting(self.kind, self.manual, u64::from(self.max))
    }

    /// The 64 bits of the descriptor.
    pub fn encode(self) -> u64
        requires { IsGiven self }
        ensures { result ≡ encoded self }
    {
        let flag = if self.manual { 4 } else { 0 };
        code_of_kind(self.kind) + flag + 8 * u64::from(self.max)
    }

    /// The descriptor of 64 bits. `None` for the flag on a mutex or a semaphore, a maximum other than 0 on an event, a
    /// mutex or a timer, a semaphore with the maximum 0, and any of bits 34 to 63.
    pub fn decode(word: u64) -> Option<Descr>
        ensures { result ≡ decoded word }
    {
        let manual = word / 4 % 2 == 1;
        let max = word / 8;
        if max > LAST_MAX {
            return None;
        }
        let kind = kind_of_code(word % 4)?;
        if !is_fitting(kind, manual, max) {
            return None;
        }
        Some(Descr {
            kind,
            manual,
            max: max as u32,
        })
    }
}
