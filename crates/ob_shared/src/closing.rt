ghost use Rattle.std.specs.Prelude.{◌≡◌, ◌||◌, IfNone, IfSome, false, true};
ghost use Rattle.std.specs.List.{list_any, range_with_len};
ghost use Rattle.ob_shared.specs.Closing.{AreWhole, IsCause, has_number, has_twice, is_entry_missing, is_missing};
ghost use Rattle.ob_shared.specs.Closing.{is_stranger, misses};

use crate::book::Entry;
use crate::comparing::first_difference;
use crate::lane::Lane;
use thiserror::Error;

/// Why a [`Shared`](crate::Shared) isn't closed.
#[derive(Clone, Copy, Debug, PartialEq, Eq, Error)]
pub enum CloseCause {
    /// A lane's list differs from its part of the journal.
    #[error("the list of lane {lane} differs from its part of the journal at place {place}")]
    LanesDiffer {
        /// The lane's number.
        lane: u32,
        /// The first place where the two differ.
        place: usize,
    },
    /// A number that was given, or one that the journal has, is no lane's.
    #[error("a number that was given, or one of the journal, is no lane's")]
    LaneMissing,
    /// Two lanes have one number.
    #[error("two lanes have one number")]
    LaneTwice,
    /// A lane has a number that wasn't given.
    #[error("a lane has a number that wasn't given")]
    LaneStranger,
}

/// Whether a lane has a number that wasn't given.
fn has_stranger(given: u32, lanes: &[Lane]) -> bool
    ensures { result ≡ list_any (is_stranger given) lanes.now }
{
    lanes.iter().any(|lane| lane.number >= given)
}

/// Whether there is a lane at a place, and it has the number.
fn is_at(place: usize, lanes: &[Lane], number: u32) -> bool
    ensures { result ≡ true → list_any (has_number number) lanes.now ≡ true }
{
    place < lanes.len() && lanes[place].number() == number
}

/// Whether a lane has the number. A lane stands mostly at the place of its number, so this is looked at first.
fn has(lanes: &[Lane], number: u32) -> bool
    ensures { result ≡ list_any (has_number number) lanes.now }
{
    is_at(number as usize, lanes, number) || lanes.iter().any(|lane| lane.number == number)
}

/// Whether each lane's number is above the one before it.
fn rise(lanes: &[Lane]) -> bool
    ensures { result ≡ true → has_twice lanes.now ≡ false }
{
    let mut least = 0;
    for lane in lanes {
        if u64::from(lane.number) < least {
            return false;
        }
        least = u64::from(lane.number) + 1;
    }
    true
}

/// Whether two lanes have one number. They mostly stand by rising number, and then no two have.
fn has_twice(lanes: &[Lane]) -> bool
    ensures { result ≡ has_twice lanes.now }
{
    if rise(lanes) {
        return false;
    }
    for (i, lane) in lanes.iter().enumerate() {
        if has(&lanes[i + 1..], lane.number) {
            return true;
        }
    }
    false
}

/// Whether a number that was given is no lane's.
fn misses_number(given: u32, lanes: &[Lane]) -> bool
    ensures { result ≡ list_any (is_missing lanes.now) (range_with_len 0 given) }
{
    (0..given).any(|number| !has(lanes, number))
}

/// Whether a number in the journal is no lane's.
fn misses_entry(lanes: &[Lane], journal: &[Entry]) -> bool
    ensures { result ≡ list_any (is_entry_missing lanes.now) journal.now }
{
    journal.iter().any(|entry| !has(lanes, entry.lane))
}

/// Whether a number that was given or that the journal has is no lane's.
fn misses(given: u32, lanes: &[Lane], journal: &[Entry]) -> bool
    ensures { result ≡ misses given lanes.now journal.now }
{
    misses_number(given, lanes) || misses_entry(lanes, journal)
}

/// Why lanes aren't whole beside a journal, where `given` numbers were given. Where each lane stands at the place of
/// its number, each number in the journal is looked up at once, and the lists are compared in one pass over the journal
/// for each 256 lanes. Otherwise it takes a time that grows with the number of lanes times the length of the journal.
pub(crate) fn cause_of(given: u32, lanes: &[Lane], journal: &[Entry]) -> Option<CloseCause>
    ensures whole { IfNone result (AreWhole given lanes.now journal.now) }
    ensures cause { IfSome result (λ cause. IsCause given lanes.now journal.now cause) }
{
    if has_stranger(given, lanes) {
        return Some(CloseCause::LaneStranger);
    }
    if has_twice(lanes) {
        return Some(CloseCause::LaneTwice);
    }
    if misses(given, lanes, journal) {
        return Some(CloseCause::LaneMissing);
    }
    let (lane, place) = first_difference(lanes, journal)?;
    Some(CloseCause::LanesDiffer { lane, place })
}
