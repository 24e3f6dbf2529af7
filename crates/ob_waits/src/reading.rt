// Waits are built one after another, by rising number: of what was read, or as a copy of others.
ghost use Rattle.std.specs.Prelude.{◌≡◌, ◌≤◌, ◌<◌, ◌∷◌, [], ◌++◌, None, Some, OnOk, map, true, false};
ghost use Rattle.ob_codec.specs.Reading.{Gives, GivesAll, list_at};
ghost use Rattle.ob_waits.specs.Deadlines.{AreAhead};
ghost use Rattle.ob_waits.specs.PendingIndex.{IsTracked};
ghost use Rattle.ob_waits.specs.Rows.{built, come, may_come, rows_within};
ghost use Rattle.ob_waits.specs.Spelling.{are_below, is_within, may_list, may_stand, names_twice};
ghost use Rattle.ob_waits.specs.Spelling.{numbered_parts, row_at};
ghost use Rattle.ob_waits.specs.Waits.{has_slot, is_code, is_full, number_of, renewed};

use crate::codes::{MAXIMUM_WAIT_OBJECTS, WAIT_ABANDONED_0, WAIT_IO_COMPLETION, WAIT_TIMEOUT};
use crate::live::Live;
use crate::numbered_wait::NumberedWait;
use crate::pending_index::PendingIndex;
use crate::wait::{Mode, State, Wait};
use crate::waits::Waits;
use crate::writing::next_number;
use ob_codec::{Cursor, ReadFault, TextFault, read_list};
use pin_core::Id;
use std::alloc::{AllocError, Global};

/// Reads waits with their numbers, at most so many.
pub(crate) fn read_rows(
    alloc: Global,
    from: &mut Cursor<'_>,
    most: u32,
) -> Result<Vec<NumberedWait>, ReadFault>
    ensures { Gives (λ rows. map numbered_parts rows.items) result (list_at most row_at from.old) from.new }
{
    read_list::<NumberedWait>(alloc, from, most)
}

/// Whether the slots of some objects are below one.
fn are_below(ids: &[Id], slots: u32) -> bool
    ensures { result ≡ are_below slots ids.now }
{
    ids.iter().all(|id| id.slot < slots)
}

/// Whether the thread of a wait, and the slots of its objects, are below some.
fn is_within(wait: &Wait, threads: u32, slots: u32) -> bool
    ensures { result ≡ is_within threads slots (Some wait.now) }
{
    match &wait.state {
        State::Pending(_, ids) => wait.thread < threads && are_below(ids.as_slice(), slots),
        State::Answered(_) => wait.thread < threads,
    }
}

/// Whether the thread of each of some waits, and the slots of its objects, are below some.
pub(crate) fn rows_within(rows: &[NumberedWait], threads: u32, slots: u32) -> bool
    ensures { result ≡ rows_within threads slots rows.now }
{
    rows.iter()
        .all(|held| is_within(&held.wait, threads, slots))
}

/// Whether one of some objects is in a slot.
fn has_slot(ids: &[Id], slot: u32) -> bool
    ensures { result ≡ has_slot ids.now slot }
{
    ids.iter().any(|id| id.slot == slot)
}

/// Whether two places of a list name one slot.
fn names_twice(ids: &[Id]) -> bool
    ensures { result ≡ names_twice ids.now }
{
    for (i, id) in ids.iter().enumerate() {
        if has_slot(&ids[i + 1..], id.slot) {
            return true;
        }
    }
    false
}

/// Whether a wait for all is for an object, and for none twice; one for any may be for none, until its time is up.
fn may_list(mode: Mode, ids: &[Id]) -> bool
    ensures { result ≡ may_list mode ids.now }
{
    match mode {
        Mode::Any => true,
        Mode::All => !ids.is_empty() && !names_twice(ids),
    }
}

/// Whether a wait can be answered with a code.
fn is_code(code: u32) -> bool
    ensures { result ≡ is_code code }
{
    let most = MAXIMUM_WAIT_OBJECTS as u32;
    code < most
        || (WAIT_ABANDONED_0 <= code && code < WAIT_ABANDONED_0 + most)
        || code == WAIT_IO_COMPLETION
        || code == WAIT_TIMEOUT
}

/// Whether a wait can be there at a moment.
fn may_stand(wait: &Wait, clock: u64) -> bool
    ensures { result ≡ may_stand clock (Some wait.now) }
{
    match &wait.state {
        State::Pending(mode, ids) => match wait.deadline {
            Some(deadline) if deadline <= clock => false,
            _ => may_list(*mode, ids.as_slice()),
        },
        State::Answered(code) => is_code(*code),
    }
}

/// Whether a wait can come next with its number, up to the last one.
fn may_come(waits: &Waits, held: &NumberedWait, last: u32) -> bool
    ensures value { result ≡ may_come last waits.now held.now }
    ensures above_zero { result ≡ true → 0 < held.now.number }
{
    waits.given() < held.number
        && held.number <= last
        && may_stand(&held.wait, waits.clock())
        && waits.wait_of(held.wait.thread).is_none()
}

/// Gives the next number to a wait, of a thread that has none.
fn put_wait(waits: &mut Waits, wait: &Wait) -> Result<(), AllocError>
    requires stands { may_stand waits.old.clock (Some wait.now) ≡ true }
    requires alone { number_of wait.now.thread waits.old.waits ≡ None }
    requires below_limit { is_full waits.old ≡ false }
    ensures { OnOk result (waits.new ≡ record waits.old { waits = waits.old.waits ++ Some wait.now ∷ [] }) }
{
    match &wait.state {
        State::Pending(mode, ids) => {
            waits.admit(wait.thread, *mode, ids.as_slice(), wait.deadline)?;
        }
        State::Answered(code) => {
            waits.add_answered(wait.thread, wait.deadline, *code)?;
        }
    }
    Ok(())
}

/// Puts a wait in with its number, where it can come next.
fn put_back(waits: &mut Waits, held: &NumberedWait, last: u32) -> Result<(), ReadFault>
    requires { last ≤ waits.old.limit }
    ensures { GivesAll (λ nothing. waits.new) result (come last waits.old held.now) }
{
    if !may_come(waits, held, last) {
        return Err(ReadFault::Text(TextFault::Value));
    }
    waits.skip_to(held.number - 1);
    put_wait(waits, &held.wait)?;
    Ok(())
}

/// Puts all in, and gives the numbers that are left, up to the last one, to nobody.
pub(crate) fn put_all(waits: &mut Waits, rows: &[NumberedWait], last: u32) -> Result<(), ReadFault>
    requires none { waits.old.waits ≡ None ∷ [] }
    requires most { last ≤ waits.old.limit }
    ensures { GivesAll (λ nothing. waits.new) result (built waits.old.limit waits.old.clock last rows.now) }
{
    for held in rows {
        put_back(waits, held, last)?;
    }
    waits.skip_to(last);
    Ok(())
}

/// Gives the numbers from 1 on to copies of the waits that aren't over, in their order.
pub(crate) fn copy_all(
    copy: &mut Waits,
    live: &Live,
    pending_index: &PendingIndex,
) -> Result<(), AllocError>
    requires empty { copy.old.waits ≡ None ∷ [] }
    requires tracked { IsTracked copy.old.limit live.now pending_index.now }
    requires ahead { AreAhead copy.old.clock live.now }
    ensures { OnOk result (copy.new ≡ record copy.old { waits = renewed live.now }) }
{
    let mut last = 0;
    while let Some(number) = next_number(live, pending_index.order(), last) {
        last = number;
        if let Some(wait) = live.get(number) {
            put_wait(copy, wait)?;
        }
    }
    Ok(())
}
