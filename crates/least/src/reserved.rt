ghost use Rattle.std.specs.Prelude.{◌≡◌, ◌+◌, ◌<◌, length, vec_capacity};
ghost use Rattle.least.specs.Padded.{padded};

/// Writes places until there is one of this number.
#[inline(never)]
#[tactic(auto, using(crate::proofs::PaddedLemmas::padded_laws))]
fn write_to<T: Copy>(items: &mut Vec<T>, place: usize, none: T)
    requires { place < vec_capacity items.old }
    ensures value { items.new.items ≡ padded none (place + 1) items.old.items }
    ensures there { place < length items.new.items }
    ensures capacity { vec_capacity items.new ≡ vec_capacity items.old }
{
    while items.len() <= place {
        items.push_reserved(none);
    }
}

/// Writes the places of a list up to one, where that isn't written yet: each has `none`. There is room for them, so
/// nothing is allocated; but only what is written costs pages of memory.
#[inline(always)]
#[tactic(auto, using(crate::proofs::PaddedLemmas::padded_laws))]
pub fn reach<T: Copy>(items: &mut Vec<T>, place: usize, none: T)
    requires { place < vec_capacity items.old }
    ensures value { items.new.items ≡ padded none (place + 1) items.old.items }
    ensures there { place < length items.new.items }
    ensures capacity { vec_capacity items.new ≡ vec_capacity items.old }
{
    if items.len() <= place {
        write_to(items, place, none);
    }
}
