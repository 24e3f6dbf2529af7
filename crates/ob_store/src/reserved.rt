// Lists with room for more than is written of them.
ghost use Rattle.std.specs.Prelude.{◌≡◌, slice_set, vec_capacity};
ghost use Rattle.least.specs.Padded.{padded};

use least::reach;

/// Writes a place that isn't written yet, and those below it.
#[inline(never)]
#[tactic(auto, using(least::proofs::PaddedLemmas::padded_set, least::proofs::PaddedLemmas::padded_twice))]
fn put_new<T: Copy>(items: &mut Vec<T>, at: usize, item: T, none: T)
    ensures value { padded none (vec_capacity items.old) items.new.items
        ≡ slice_set (padded none (vec_capacity items.old) items.old.items) at item }
    ensures room { vec_capacity items.new ≡ vec_capacity items.old }
{
    if at < items.capacity() {
        reach(items, at, none);
        items[at] = item;
    }
}

/// Writes a place of a list, if there is room for it. The places below that weren't written yet have `none` then.
#[inline(always)]
#[tactic(auto, using(least::proofs::PaddedLemmas::padded_set))]
pub(crate) fn put_at<T: Copy>(items: &mut Vec<T>, place: u32, item: T, none: T)
    ensures value { padded none (vec_capacity items.old) items.new.items
        ≡ slice_set (padded none (vec_capacity items.old) items.old.items) place item }
    ensures room { vec_capacity items.new ≡ vec_capacity items.old }
{
    let at = place as usize;
    if at < items.len() {
        items[at] = item;
    } else {
        put_new(items, at, item, none);
    }
}
