// The tree of least moments.
ghost use Rattle.std.specs.Prelude.{◌≡◌, ◌≢◌, ℕ, ◌-◌, ◌/◌, ◌<◌, ◌≤◌, true, false, length, List, Option, IsSome, OnOk};
ghost use Rattle.std.specs.Prelude.{◌+◌, ◌*◌, None, vec_capacity};
ghost use Rattle.least.specs.Best.{sooner, best_below, IsBest, IsBestBut, IsWhole};
ghost use Rattle.least.specs.Dues.{due_at, since, IsLeastSince};
ghost use Rattle.least.specs.Padded.{padded};

use crate::reserved::reach;
use std::alloc::AllocError;

/// The greatest length of a list: each place has a number of 32 bits.
const PLACES_MAX: usize = 4_294_967_296;

/// The moment at a place, or none past the end.
pub(crate) fn moment_at(moments: &Vec<Option<u64>>, place: usize) -> Option<u64>
    ensures { result ≡ due_at moments.now.items place }
{
    if place < moments.len() {
        moments[place]
    } else {
        None
    }
}

/// The lesser of two moments, or the one that is there.
pub fn sooner(first: Option<u64>, second: Option<u64>) -> Option<u64>
    ensures { result ≡ sooner first second }
{
    match (first, second) {
        (Some(x), Some(y)) => Some(x.min(y)),
        (Some(x), None) => Some(x),
        (None, second) => second,
    }
}

fn is_same(first: Option<u64>, second: Option<u64>) -> bool
    ensures yes { result ≡ true → first ≡ second }
    ensures no { result ≡ false → first ≢ second }
{
    first == second
}

/// A moment that isn't before another.
fn not_before(due: Option<u64>, from: u64) -> Option<u64>
    ensures { result ≡ since from due }
{
    match due {
        Some(moment) if moment >= from => due,
        _ => None,
    }
}

/// The least moment from one on.
#[tactic(auto, using(crate::proofs::BestLemmas::among_more))]
pub(crate) fn least_since(dues: &[Option<u64>], from: u64) -> Option<u64>
    ensures { IsLeastSince from dues.now result }
{
    let mut least = None;
    for due in dues {
        least = sooner(least, not_before(*due, from));
    }
    least
}

fn best_below(dues: &Vec<Option<u64>>, best: &Vec<Option<u64>>, place: usize) -> Option<u64>
    requires { place < PLACES_MAX }
    ensures { result ≡ best_below dues.now.items best.now.items place }
{
    let below = sooner(
        moment_at(best, 2 * place + 1),
        moment_at(best, 2 * place + 2),
    );
    sooner(moment_at(dues, place), below)
}

/// Writes the least moment at or below a place. Whether the place above it has to be written too.
fn renew(dues: &Vec<Option<u64>>, best: &mut Vec<Option<u64>>, place: usize) -> bool
    requires within { place < length best.old.items }
    requires at_most { length best.old.items ≤ PLACES_MAX }
    requires others { IsBestBut place dues.now.items best.old.items }
    ensures done { result ≡ false → IsBest dues.now.items best.new.items }
    ensures more { result ≡ true → (0 < place) × IsBestBut ((place - 1) / 2) dues.now.items best.new.items }
    ensures len { length best.new.items ≡ length best.old.items }
    ensures capacity { vec_capacity best.new ≡ vec_capacity best.old }
{
    let due = best_below(dues, best, place);
    if is_same(best[place], due) {
        return false;
    }
    best[place] = due;
    place > 0
}

/// Writes the least moments at or below a place whose moment has changed, and those above it.
pub(crate) fn raise(dues: &Vec<Option<u64>>, best: &mut Vec<Option<u64>>, place: usize)
    requires within { place < length best.old.items }
    requires at_most { length best.old.items ≤ PLACES_MAX }
    requires others { IsBestBut place dues.now.items best.old.items }
    ensures all { IsBest dues.now.items best.new.items }
    ensures len { length best.new.items ≡ length best.old.items }
    ensures capacity { vec_capacity best.new ≡ vec_capacity best.old }
{
    let mut at = place;
    while renew(dues, best, at) {
        at = (at - 1) / 2;
    }
}

/// Of the two places below one, that which has the least moment.
fn lower(best: &Vec<Option<u64>>, place: usize, least: Option<u64>) -> usize
    requires { place < PLACES_MAX }
    ensures below { place < result }
    ensures least { (dues : List (Option ℕ)) → due_at best.now.items place ≡ least
        → due_at best.now.items place ≡ best_below dues best.now.items place
        → due_at dues place ≢ least → due_at best.now.items result ≡ least }
{
    let left = 2 * place + 1;
    if is_same(moment_at(best, left), least) {
        left
    } else {
        left + 1
    }
}

/// A place whose moment is the least.
pub(crate) fn place_of_least(dues: &Vec<Option<u64>>, best: &Vec<Option<u64>>) -> usize
    requires is_due { IsSome (due_at best.now.items 0) }
    requires at_most { length best.now.items ≤ PLACES_MAX }
    requires all { IsBest dues.now.items best.now.items }
    ensures { due_at dues.now.items result ≡ due_at best.now.items 0 }
{
    let least = moment_at(best, 0);
    let mut at = 0;
    while !is_same(moment_at(dues, at), least) {
        at = lower(best, at, least);
    }
    at
}

/// Makes room for so many places in both. What they have stays.
#[inline(never)]
pub(crate) fn reserve_both(
    dues: &mut Vec<Option<u64>>,
    best: &mut Vec<Option<u64>>,
    len: usize,
) -> Result<(), AllocError>
    requires dues { length dues.old.items ≤ len }
    requires best { length best.old.items ≤ len }
    ensures dues { dues.new.items ≡ dues.old.items }
    ensures best { best.new.items ≡ best.old.items }
    ensures more { vec_capacity dues.old ≤ vec_capacity dues.new }
    ensures more_best { vec_capacity best.old ≤ vec_capacity best.new }
    ensures room { OnOk result (len ≤ vec_capacity dues.new) }
    ensures room_best { OnOk result (len ≤ vec_capacity best.new) }
{
    dues.reserve(len - dues.len())?;
    best.reserve(len - best.len())
}

/// Writes both up to a place, unless they have it.
#[inline(always)]
pub(crate) fn reach_both(dues: &mut Vec<Option<u64>>, best: &mut Vec<Option<u64>>, place: usize)
    requires fits { place < PLACES_MAX }
    requires room { length dues.old.items ≤ place → place < vec_capacity dues.old }
    requires room_best { length dues.old.items ≤ place → place < vec_capacity best.old }
    requires whole { IsWhole dues.old.items best.old.items }
    ensures whole { IsWhole dues.new.items best.new.items }
    ensures value { dues.new.items ≡ padded None (place + 1) dues.old.items }
    ensures there { place < length dues.new.items }
    ensures same { vec_capacity dues.new ≡ vec_capacity dues.old }
    ensures same_best { vec_capacity best.new ≡ vec_capacity best.old }
{
    if dues.len() <= place {
        reach(dues, place, None);
        reach(best, place, None);
    }
}
