use crate::tests::{holds, same};
use ob_codec::{Cursor, ReadFault, TextFault};
use ob_rights::Fault;
use ob_waits::{Answer, Mode, WAIT_TIMEOUT, Waits};
use pin_core::Id;
use std::alloc::{AllocError, Global};
use std::process::Abort;
use std::test::Fail;

const D: Id = Id {
    slot: 3,
    generation: 1,
};

/// In a slot that lies far behind.
const FAR: Id = Id {
    slot: 70,
    generation: 1,
};

/// Adds the wait of a thread that has none, for two objects. Where memory fails nothing has changed, and the call is
/// made again.
fn adds(waits: &mut Waits, thread: u32) -> Result<(), Fault> {
    if waits.wait_of(thread).is_none() && waits.add(thread, Mode::Any, &[D, FAR], None).is_err() {
        waits.add(thread, Mode::Any, &[D, FAR], None)?;
    }
    Ok(())
}

#[test]
fn waits_of_many_threads_are_added_though_memory_fails(rt: HostRuntime) -> Result<(), Fail> {
    add_all(&rt, &mut Waits::new(rt.alloc(), 200), 131)?;
    Ok(())
}

fn add_all(rt: &impl Abort, waits: &mut Waits, most: u32) -> Result<(), Fault> {
    for thread in 1..most {
        adds(waits, thread)?;
    }
    same(rt, waits.blocks_of(D), 130);
    Ok(())
}

/// Adds the wait of a thread that has none, with the numbers begun anew. Where memory fails nothing has changed, and the
/// call is made again.
fn adds_anew(rt: &impl Abort, waits: &mut Waits, thread: u32) -> Result<u32, Fault> {
    holds(rt, waits.wait_of(thread).is_none());
    match waits.add_renewed(thread, Mode::Any, &[D, FAR], None) {
        Err(Fault::Memory) => waits.add_renewed(thread, Mode::Any, &[D, FAR], None),
        added => added,
    }
}

#[test]
fn waits_keep_their_order_where_numbers_begin_anew(rt: HostRuntime) -> Result<(), Fail> {
    begin_anew(&rt, &mut Waits::new(rt.alloc(), 4))?;
    Ok(())
}

fn begin_anew(rt: &impl Abort, waits: &mut Waits) -> Result<(), Fault> {
    for thread in 1..5 {
        adds(waits, thread)?;
    }
    waits.drop_thread(1);
    if waits.pending(3).is_some() {
        waits.end(3, WAIT_TIMEOUT);
    }
    same(rt, adds_anew(rt, waits, 5)?, 4);
    for thread in 2..6 {
        same(rt, waits.wait_of(thread), Some(thread - 1));
    }
    let answer = Answer {
        wait: 2,
        thread: 3,
        code: WAIT_TIMEOUT,
    };
    same(rt, waits.next_answered(0), Some(answer));
    same(rt, waits.next_answered(2), None);
    same(rt, waits.blocks_of(D), 3);
    // All numbers are of waits that aren't over.
    same(rt, adds_anew(rt, waits, 6), Err(Fault::Limit));
    same(rt, waits.wait_of(5), Some(4));
    Ok(())
}

/// The last number that was given, how many waits aren't over, and of each its number, its thread, its deadline, and
/// where it stands: pending for any (0) or for all (1) of so many objects, or answered (2) with a code.
#[rattlefmt::skip]
const TEXT: [u8; 90] = [
    4, 0, 0, 0, 3, 0, 0, 0,
    1, 0, 0, 0, 5, 0, 0, 0, 0, 0, 2, 0, 0, 0, 3, 0, 0, 0, 1, 0, 0, 0, 70, 0, 0, 0, 1, 0, 0, 0,
    3, 0, 0, 0, 2, 0, 0, 0, 1, 100, 0, 0, 0, 0, 0, 0, 0, 2, 2, 1, 0, 0,
    4, 0, 0, 0, 6, 0, 0, 0, 1, 50, 0, 0, 0, 0, 0, 0, 0, 1, 1, 0, 0, 0, 3, 0, 0, 0, 1, 0, 0, 0,
];

/// Whether what is read of a text is written as the same text: at most four numbers may be given, the moment is 10,
/// and threads are below 7 and slots below 71.
fn goes_round(alloc: Global, text: &[u8]) -> Result<bool, ReadFault> {
    let mut from = Cursor::new(text);
    let waits = Waits::read(alloc, 4, 10, 7, 71, &mut from)?;
    let is_same = is_written(alloc, &waits, text);
    drop(waits);
    from.end()?;
    Ok(is_same?)
}

fn is_written(alloc: Global, waits: &Waits, text: &[u8]) -> Result<bool, AllocError> {
    let mut out = Vec::new(alloc);
    waits.write(&mut out)?;
    Ok(out.as_slice() == text)
}

/// Bytes that are changed, each by its place, and what is wrong then, if something is.
type Change = (&'static [(usize, u8)], Option<TextFault>);

#[rattlefmt::skip]
const CHANGES: &[Change] = &[
    (&[], None),
    (&[(0, 3)], Some(TextFault::Value)), // the last number is below that of a wait
    (&[(0, 5)], Some(TextFault::Value)), // the last number is above the limit
    (&[(60, 5)], Some(TextFault::Value)), // a number is above the last
    (&[(60, 3)], Some(TextFault::Value)), // a number doesn't rise
    (&[(8, 0)], Some(TextFault::Value)), // 0 is nobody's
    (&[(64, 5)], Some(TextFault::Value)), // a thread has two waits
    (&[(64, 7)], Some(TextFault::Value)), // there is no such thread
    (&[(33, 1)], Some(TextFault::Value)), // there is no such slot
    (&[(69, 10)], Some(TextFault::Value)), // a deadline has passed
    (&[(47, 5)], None), // that of a wait that is answered may have
    (&[(16, 2)], Some(TextFault::Tag)), // a deadline is neither there nor not
    (&[(55, 3)], Some(TextFault::Tag)), // a wait stands nowhere
    (&[(30, 3)], None), // a wait for any lists an object twice
    (&[(17, 1)], None), // a wait for all lists two objects
    (&[(17, 1), (30, 3)], Some(TextFault::Value)), // a wait for all lists an object twice
];

/// What is read of the text, changed so.
fn changed(alloc: Global, bytes: &[(usize, u8)]) -> Result<bool, ReadFault> {
    let mut text = TEXT;
    for (place, byte) in bytes {
        if let Some(at) = text.get_mut(*place) {
            *at = *byte;
        }
    }
    goes_round(alloc, &text)
}

#[test]
fn a_text_of_waits_that_cant_be_is_refused(rt: HostRuntime) {
    for (bytes, fault) in CHANGES {
        let due = match *fault {
            None => Ok(true),
            Some(fault) => Err(ReadFault::Text(fault)),
        };
        same(&rt, changed(rt.alloc(), bytes), due);
    }
}

#[test]
fn a_text_of_waits_is_refused_where_it_is_cut(rt: HostRuntime) {
    let short = Err(ReadFault::Text(TextFault::Short));
    for len in 0..TEXT.len() {
        same(&rt, goes_round(rt.alloc(), &TEXT[..len]), short);
    }
}

#[test]
fn a_text_of_waits_with_a_bit_turned_is_refused_or_that_of_other_waits(rt: HostRuntime) {
    for at in 0..TEXT.len() {
        let turned = changed(rt.alloc(), &[(at, TEXT[at] ^ 1)]);
        holds(&rt, turned != Ok(false));
    }
}
