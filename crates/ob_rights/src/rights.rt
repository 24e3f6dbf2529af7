ghost use Rattle.std.specs.Prelude.{⊤, ◌≡◌, ◌↔◌, [], ◌∷◌, codes, IsTrue};
ghost use Rattle.ob_rights.specs.Rights.{IsWithin, within, all_access};

use crate::Kind;
use bitflags::{Flag, Flags, bitflag_items};

/// An access mask: a set of access rights, as a caller asks for it or a handle was granted it
/// ([Synchronization Object Security and Access Rights]).
///
/// Any 32 bits are a mask, and bits without a name are kept.
///
/// [Synchronization Object Security and Access Rights]:
/// https://learn.microsoft.com/windows/win32/sync/synchronization-object-security-and-access-rights
#[derive(Clone, Copy, Debug, PartialEq, Eq, Hash)]
pub struct Rights(pub u32);

bitflag_items! {
    impl Rights: u32 {
        /// `EVENT_MODIFY_STATE`, `SEMAPHORE_MODIFY_STATE` and `TIMER_MODIFY_STATE`: set and reset an event, release a
        /// semaphore, set and cancel a timer.
        const MODIFY_STATE = 0x0002;
        /// `DELETE`.
        const DELETE = 0x0001_0000;
        /// `READ_CONTROL`.
        const READ_CONTROL = 0x0002_0000;
        /// `WRITE_DAC`.
        const WRITE_DAC = 0x0004_0000;
        /// `WRITE_OWNER`.
        const WRITE_OWNER = 0x0008_0000;
        /// `SYNCHRONIZE`: wait for the object.
        const SYNCHRONIZE = 0x0010_0000;
        /// `EVENT_ALL_ACCESS`, `SEMAPHORE_ALL_ACCESS` and `TIMER_ALL_ACCESS`.
        const EVENT_ALL_ACCESS = 0x001F_0003;
        /// `MUTEX_ALL_ACCESS`, in which bit 0 is `MUTEX_MODIFY_STATE`, reserved.
        const MUTEX_ALL_ACCESS = 0x001F_0001;
    }
}

impl Flags for Rights {
    type Bits = u32;

    ghost exact = { ⊤ };

    ghost table = { (codes "MODIFY_STATE", 0x0002) ∷ (codes "DELETE", 0x00010000) ∷ (codes "READ_CONTROL", 0x00020000)
        ∷ (codes "WRITE_DAC", 0x00040000) ∷ (codes "WRITE_OWNER", 0x00080000) ∷ (codes "SYNCHRONIZE", 0x00100000)
        ∷ (codes "EVENT_ALL_ACCESS", 0x001F0003) ∷ (codes "MUTEX_ALL_ACCESS", 0x001F0001) ∷ [] };

    ghost set_of = { λ mask. mask.0 };

    fn flags<'a>() -> &'a [Flag<Rights>] {
        Rights::FLAGS
    }

    fn bits(&self) -> u32 {
        self.0
    }

    fn from_bits_retain(bits: u32) -> Rights {
        Rights(bits)
    }
}

/// Whether each right that is asked for is held: inclusion of bits.
pub fn within(asked: Rights, held: Rights) -> bool
    ensures value { result ≡ within asked.0 held.0 }
    ensures included { IsTrue result ↔ IsWithin asked.0 held.0 }
{
    held.contains(asked)
}

/// All rights that an object of a kind has: the kind's `ALL_ACCESS`. Those of a host's object are each standard right
/// and each specific one, as `THREAD_ALL_ACCESS` and `PROCESS_ALL_ACCESS` have them.
pub fn all_access(kind: Kind) -> Rights
    ensures { result ≡ all_access kind }
{
    match kind {
        Kind::Event | Kind::Semaphore | Kind::Timer => Rights::EVENT_ALL_ACCESS,
        Kind::Mutex => Rights::MUTEX_ALL_ACCESS,
        Kind::Host(_) => Rights(0x001F_FFFF),
    }
}
