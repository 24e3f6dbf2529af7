//! Compares lanes with a journal: many in one pass over it where their numbers follow one another, and otherwise one
//! lane after another.
ghost use Rattle.std.specs.Prelude.{◌≡◌, ◌<◌, ◌≤◌, ℕ, All, IfNone, IfSome, length, slice_index_or, true};
ghost use Rattle.ob_shared.specs.Closing.{FirstDiffers, IsPart};
ghost use Rattle.ob_shared.specs.Comparing.{AreFrom, HaveRead};
ghost use Rattle.ob_shared.specs.Lanes.{LaneState};

use crate::book::Entry;
use crate::lane::Lane;

/// How many lanes are compared in one pass. Meanwhile the stack has a number for each: how much of its list was found.
const AT_ONCE: usize = 256;

/// Whether the lanes have the numbers `first`, `first + 1` and so on.
fn are_from(first: u32, lanes: &[Lane]) -> bool
    ensures { result ≡ true → AreFrom first lanes.now }
{
    for (k, lane) in lanes.iter().enumerate() {
        if lane.number < first || (lane.number - first) as usize != k {
            return false;
        }
    }
    true
}

/// Goes over a journal, and counts how much of each lane's list was found. Answers whether each entry of one of these
/// lanes is the next one of the lane's list.
fn read_on(first: u32, lanes: &[Lane], journal: &[Entry], read: &mut [usize]) -> bool
    requires from { AreFrom first lanes.now }
    requires room { length lanes.now ≤ length read.old }
    requires none { (k : ℕ) → k < length lanes.now → slice_index_or read.old k 0 ≡ 0 }
    ensures { result ≡ true → HaveRead first lanes.now journal.now read.new }
{
    for entry in journal {
        if entry.lane >= first && ((entry.lane - first) as usize) < lanes.len() {
            let k = (entry.lane - first) as usize;
            let Some(next) = lanes[k].next(read[k], entry) else {
                return false;
            };
            read[k] = next;
        }
    }
    true
}

/// Whether each lane's list has as many entries as were found of it.
fn have_ended(lanes: &[Lane], read: &[usize]) -> bool
    requires { length lanes.now ≤ length read.now }
    ensures { result ≡ true → ((k : ℕ) (d : LaneState) → k < length lanes.now
        → length (slice_index_or lanes.now k d).list ≡ slice_index_or read.now k 0) }
{
    for (k, lane) in lanes.iter().enumerate() {
        if lane.receipts().len() != read[k] {
            return false;
        }
    }
    true
}

/// Whether lanes with the numbers from the first one on each have their part of a journal, found in one pass over it.
fn are_parts(first: u32, lanes: &[Lane], journal: &[Entry], read: &mut [usize]) -> bool
    requires room { length lanes.now ≤ length read.old }
    requires none { (k : ℕ) → k < length lanes.now → slice_index_or read.old k 0 ≡ 0 }
    ensures { result ≡ true → All (IsPart journal.now) lanes.now }
{
    are_from(first, lanes) && read_on(first, lanes, journal, read) && have_ended(lanes, read)
}

/// Whether each of some lanes has its part of a journal, whatever their numbers are.
fn are_whole(lanes: &[Lane], journal: &[Entry]) -> bool
    ensures { result ≡ true → All (IsPart journal.now) lanes.now }
{
    match lanes.first() {
        Some(lane) if lanes.len() <= AT_ONCE => {
            are_parts(lane.number(), lanes, journal, &mut [0; AT_ONCE])
        }
        _ => false,
    }
}

/// A place such that each lane from `from` up to it has its part of a journal. It is `from` itself where one pass
/// didn't find that of all that it compared.
fn whole_to(from: usize, lanes: &[Lane], journal: &[Entry]) -> usize
    requires { from < length lanes.now }
    ensures { (k : ℕ) (d : LaneState) → from ≤ k → k < result → k < length lanes.now
        → IsPart journal.now (slice_index_or lanes.now k d) }
{
    let to = from.saturating_add(AT_ONCE).min(lanes.len());
    if are_whole(&lanes[from..to], journal) {
        return to;
    }
    from
}

/// The first lane whose list differs from its part of the journal, and the place.
pub(crate) fn first_difference(lanes: &[Lane], journal: &[Entry]) -> Option<(u32, usize)>
    ensures none { IfNone result (All (IsPart journal.now) lanes.now) }
    ensures found { IfSome result (λ found. FirstDiffers lanes.now journal.now found.0 found.1) }
{
    let mut whole = 0;
    for (k, lane) in lanes.iter().enumerate() {
        if whole <= k {
            whole = whole_to(k, lanes, journal);
        }
        if whole <= k {
            if let Some(place) = lane.difference(journal) {
                return Some((lane.number(), place));
            }
        }
    }
    None
}
