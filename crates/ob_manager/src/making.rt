ghost use Rattle.std.specs.Prelude.{◌≡◌, ◌==◌, [], IfErr, IfOk, IsSome, None};
ghost use Rattle.std.specs.Cmp.Lexicographic.{pointwise};
ghost use Rattle.std.specs.Cmp.Rules.{comparing};
ghost use Rattle.std.specs.Option.{option_eq, option_map};
ghost use Rattle.std.specs.Ordering.{eq_of_both, on};
ghost use Rattle.std.specs.Bool.{beq};
ghost use Rattle.std.proofs.Common.{rules};
ghost use Rattle.ob_manager.specs.Makings.{making_of};
ghost use Rattle.ob_manager.specs.Makings.{Making as Asked};

use ob_rights::Rights;
use std::alloc::{AllocError, Global};
use std::convert::AsSlice;
use std::marker::Model;

/// Bytes that somebody gave as a name. A contract sees them as the list that they are.
#[derive(Drop)]
pub struct Text {
    bytes: Vec<u8>,
}

impl Model for Text {
    ghost use Rattle.std.specs.Prelude.{ℕ, List};

    ghost Value = { List ℕ };

    ghost view = { λ text. text.bytes.items };
}

impl Text {
    /// A text of no bytes, which takes no memory.
    fn empty(alloc: Global) -> Text
        ensures { result ≡ [] }
    {
        Text {
            bytes: Vec::new(alloc),
        }
    }

    /// A copy of some bytes. The refusal is want of memory.
    pub fn new(alloc: Global, bytes: &[u8]) -> Result<Text, AllocError>
        ensures { IfOk result (λ text. text ≡ bytes.now) }
    {
        let mut copy = Vec::new(alloc);
        copy.extend_from_slice(bytes)?;
        Ok(Text { bytes: copy })
    }

    /// The bytes.
    pub fn as_slice(&self) -> &[u8]
        ensures { result.now ≡ self.now }
    {
        self.bytes.as_slice()
    }
}

impl PartialEq for Text {
    ghost eq = { pointwise ◌==◌ };

    ghost laws = { Prim.search (comparing, rules) };

    fn eq(&self, other: &Text) -> bool {
        self.bytes.as_slice() == other.bytes.as_slice()
    }
}

impl AsSlice<u8> for Text {
    ghost items = { λ text. text };

    fn as_slice(&self) -> &[u8] {
        self.bytes.as_slice()
    }
}

/// What a create asks for beside the object's own state, with a borrowed name.
#[derive(Clone, Copy, Debug)]
pub struct Make<'a> {
    /// The name, as the caller gives it ([Object Names]); no name for none.
    ///
    /// [Object Names]: https://learn.microsoft.com/windows/win32/sync/object-names
    pub name: Option<&'a [u8]>,
    /// Whether the handle has the flag INHERIT.
    pub inherit: bool,
    /// The rights that the handle is to have: for none, all rights of the kind.
    pub access: Option<Rights>,
    /// The rights that opens of a new object may get (*profile*): for none, all rights of the kind.
    pub grant: Option<Rights>,
}

impl Make<'_> {
    /// The same with a copy of the name. It is refused for want of memory alone, and takes none where there is no name.
    pub fn owned(self, alloc: Global) -> Result<Making, AllocError>
        ensures making { IfOk result (λ making. making ≡ making_of self.entry) }
        ensures refusal { IfErr result (λ _. IsSome self.entry.name) }
    {
        match self.name {
            Some(name) => Ok(Making {
                text: Text::new(alloc, name)?,
                is_named: true,
                inherit: self.inherit,
                access: self.access,
                grant: self.grant,
            }),
            None => Ok(Making::unnamed(alloc, self.inherit, self.access, self.grant)),
        }
    }
}

/// What a create asks for, with a name of its own. A contract sees its name or none, and what else it asks for.
// A text and a flag are 8 bytes less than a text that may be missing, and an entry of a journal with them.
#[derive(Drop)]
pub struct Making {
    /// The name, where `is_named` says that it has one.
    text: Text,
    is_named: bool,
    inherit: bool,
    access: Option<Rights>,
    grant: Option<Rights>,
}

impl Model for Making {
    ghost use Rattle.ob_manager.specs.Makings as spec;

    ghost Value = { spec.Making };

    ghost view = { λ m. record {
      name = spec.given_name m.is_named m.text;
      inherit = m.inherit;
      access = m.access;
      grant = m.grant;
    } };
}

impl Making {
    /// What asks for no name, for the flag INHERIT or not, for rights of the handle, and for rights that opens of the
    /// new object may get, each as [`Make`] has it.
    pub fn unnamed(
        alloc: Global,
        inherit: bool,
        access: Option<Rights>,
        grant: Option<Rights>,
    ) -> Making
        ensures { result ≡ record { name = None; inherit = inherit; access = access; grant = grant } }
    {
        Making {
            text: Text::empty(alloc),
            is_named: false,
            inherit,
            access,
            grant,
        }
    }

    /// The name, as the caller gives it.
    fn name(&self) -> Option<&[u8]>
        ensures { option_map (λ text. text.now) result ≡ self.now.name }
    {
        if self.is_named {
            Some(self.text.as_slice())
        } else {
            None
        }
    }

    /// The same with the name borrowed.
    pub fn borrowed(&self) -> Make<'_>
        ensures { making_of result ≡ self.now }
    {
        Make {
            name: self.name(),
            inherit: self.inherit,
            access: self.access,
            grant: self.grant,
        }
    }
}

impl PartialEq for Making {
    ghost eq = { eq_of_both (on (λ m. m.name) (option_eq (pointwise ◌==◌)))
        (eq_of_both (on (λ m. m.inherit) beq) (eq_of_both (on (λ m. m.access) (option_eq (on (λ r. r.0) ◌==◌)))
        (on (λ m. m.grant) (option_eq (on (λ r. r.0) ◌==◌))))) };

    ghost laws = { Prim.search (comparing, rules) depth 9 };

    fn eq(&self, other: &Making) -> bool {
        self.name() == other.name()
            && self.inherit == other.inherit
            && self.access == other.access
            && self.grant == other.grant
    }
}

/// What a create asks for, borrowed or with a name of its own.
pub trait AsMake {
    ghost making: { Self → Asked };

    /// The same with the name borrowed.
    fn as_make(&self) -> Make<'_>
        ensures { making_of result ≡ making self.now };
}

impl AsMake for Make<'_> {
    ghost making = { making_of };

    // A copy, so that the call that it is a part of can stay in registers.
    #[inline(always)]
    fn as_make(&self) -> Make<'_> {
        *self
    }
}

impl AsMake for Making {
    ghost making = { λ making. making };

    fn as_make(&self) -> Make<'_> {
        self.borrowed()
    }
}
