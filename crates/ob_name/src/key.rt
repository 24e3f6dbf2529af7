// Names as keys of a hash map. A name is hashed by two writes, and a borrowed one is looked up as it stands.
ghost use Rattle.std.specs.Prelude.{◌≡◌, fold};
ghost use Rattle.std.specs.Cmp.{on_equiv, on_per};
ghost use Rattle.ob_name.specs.Keys.{fed_name};
ghost use Rattle.ob_name.specs.Listing.{same_name};
ghost use Rattle.ob_name.specs.Refs.{name_at};
ghost use Rattle.ob_name.specs.Same.{fed_alike, same_name_equiv, same_name_per};

use crate::bytes::same_bytes;
use crate::name::NameRef;
use crate::owned::Name;
use indexmap::Equivalent;
use std::hash::{Hash, Hasher};

#[inline(always)]
fn same_name(name: &NameRef<'_>, other: &NameRef<'_>) -> bool
    ensures { result ≡ same_name (name_at name.now) (name_at other.now) }
{
    name.space.session() == other.space.session() && same_bytes(name.base, other.base)
}

#[inline(always)]
fn feed<H: Hasher>(name: &NameRef<'_>, state: &mut H)
    ensures { state.new ≡ fold H.write state.old (fed_name (name_at name.now)) }
{
    state.write_u64(name.space.session() as u64);
    state.write(name.base);
}

impl PartialEq for Name {
    ghost eq = { same_name };

    ghost laws = { same_name_per };

    #[inline(always)]
    fn eq(&self, other: &Name) -> bool {
        same_name(&self.borrowed(), &other.borrowed())
    }
}

impl Eq for Name {
    ghost laws = { same_name_equiv };
}

impl Hash for Name {
    ghost hash_input = { fed_name };

    ghost respects_eq = { fed_alike };

    fn hash<H: Hasher>(&self, state: &mut H) {
        feed(&self.borrowed(), state);
    }
}

impl<'a> PartialEq for NameRef<'a> {
    ghost eq = { λ a b. same_name (name_at a) (name_at b) };

    ghost laws = { on_per name_at same_name_per };

    fn eq(&self, other: &NameRef<'a>) -> bool {
        same_name(self, other)
    }
}

impl<'a> Eq for NameRef<'a> {
    ghost laws = { on_equiv name_at same_name_equiv };
}

impl<'a> Hash for NameRef<'a> {
    ghost hash_input = { λ a. fed_name (name_at a) };

    ghost respects_eq = { λ a b. fed_alike (name_at a) (name_at b) };

    #[inline(always)]
    fn hash<H: Hasher>(&self, state: &mut H) {
        feed(self, state);
    }
}

impl<'a> Equivalent<Name> for NameRef<'a> {
    ghost equivalent = { λ q k. same_name (name_at q) k };

    ghost respects_hash = { λ q k. fed_alike (name_at q) k };

    ghost respects_eq = { λ q x y. same_name_equiv.congr (name_at q) x y };

    #[inline(always)]
    fn equivalent(&self, key: &Name) -> bool {
        same_name(self, &key.borrowed())
    }
}
