ghost use Rattle.std.specs.Prelude.{⊤, ◌≡◌, [], ◌∷◌, codes};
ghost use Rattle.ob_rights.specs.Flags.{IsChanged, changed_flags, is_protected};

use bitflags::{Flag, Flags, bitflag_items};

/// The flags of one handle, as [SetHandleInformation] has them.
///
/// [SetHandleInformation]: https://learn.microsoft.com/windows/win32/api/handleapi/nf-handleapi-sethandleinformation
#[derive(Clone, Copy, Debug, PartialEq, Eq, Hash)]
pub struct HandleFlags(pub u32);

bitflag_items! {
    impl HandleFlags: u32 {
        /// `HANDLE_FLAG_INHERIT`: a child that inherits gets the handle.
        const INHERIT = 1;
        /// `HANDLE_FLAG_PROTECT_FROM_CLOSE`: the handle isn't closed by a call that closes it; it is with its process.
        const PROTECT_FROM_CLOSE = 2;
    }
}

impl Flags for HandleFlags {
    type Bits = u32;

    ghost exact = { ⊤ };

    ghost table = { (codes "INHERIT", 1) ∷ (codes "PROTECT_FROM_CLOSE", 2) ∷ [] };

    ghost set_of = { λ flags. flags.0 };

    fn flags<'a>() -> &'a [Flag<HandleFlags>] {
        HandleFlags::FLAGS
    }

    fn bits(&self) -> u32 {
        self.0
    }

    fn from_bits_retain(bits: u32) -> HandleFlags {
        HandleFlags(bits)
    }
}

impl HandleFlags {
    /// Whether the handle is protected from close.
    pub fn is_protected(self) -> bool
        ensures { result ≡ is_protected self }
    {
        self.contains(HandleFlags::PROTECT_FROM_CLOSE)
    }

    /// These flags, where each bit of the mask has the value that it has in `given`. Bits of `given` outside the mask
    /// are ignored.
    pub fn changed(self, mask: u32, given: u32) -> HandleFlags
        ensures value { result ≡ changed_flags self mask given }
        ensures each { IsChanged self.0 mask given result.0 }
    {
        HandleFlags((self.0 & !mask) | (given & mask))
    }
}
