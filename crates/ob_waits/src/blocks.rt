ghost use Rattle.std.specs.Prelude.{◌≡◌, ◌≤◌, None, length, slice_index_or, count_by, sum_by};
ghost use Rattle.pin_core.specs.Holds.{same_id};
ghost use Rattle.ob_waits.specs.Waits.{blocks_in};

use crate::codes::MAXIMUM_WAIT_OBJECTS;
use crate::live::Live;
use crate::wait::State;
use pin_core::{Id, same_id};

/// How many of some Ids are this one.
fn places_of(ids: &[Id], id: Id) -> usize
    ensures count { result ≡ count_by (same_id id) ids.now }
    ensures bound { result ≤ length ids.now }
{
    ids.iter().filter(|other| same_id(id, **other)).count()
}

/// How many places of the wait of a number name the object: none unless it is pending.
fn blocks_at(live: &Live, number: u32, id: Id) -> u64
    ensures value { result ≡ blocks_in id (slice_index_or live.now number None) }
    ensures bound { result ≤ MAXIMUM_WAIT_OBJECTS }
{
    match live.get(number) {
        Some(wait) => match &wait.state {
            State::Pending(_, ids) => places_of(ids.as_slice(), id) as u64,
            State::Answered(_) => 0,
        },
        None => 0,
    }
}

/// How many places of the waits of these numbers name the object: none where they are not pending.
pub(crate) fn blocks_of(live: &Live, numbers: &[u32], id: Id) -> u64
    requires { length numbers.now ≤ 4294967297 }
    ensures { result ≡ sum_by (λ n. blocks_in id (slice_index_or live.now n None)) numbers.now }
{
    let mut blocks = 0;
    for number in numbers {
        blocks += blocks_at(live, *number, id);
    }
    blocks
}
