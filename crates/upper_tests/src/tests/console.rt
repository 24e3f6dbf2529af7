//! Scripts over devices that give pieces, are interrupted, fail and are full.
use crate::tests::{Failing, Interrupted, Page, Pieces, repeated, same};
use ob_console::{RunFault, run, run_bounded};
use ob_manager::Limits;
use ob_script::{Source, Wired};
use std::alloc::Global;
use std::process::Abort;
use std::test::Fail;

/// An event by two handles, which is set once and waited for.
const SCRIPT: &[u8] =
    b"spawn 1\nevent t1 auto clear name A\nevent t1 manual set name A\nwait t1 any 0 h8\n\
     set t1 h4\nwait t1 any 0 h8\nwait t1 any 0 h4\ncount s0.1\n";

const ANSWERS: &[u8] =
    b"p1 t1\nh4 new s0.1\nh8 exists s0.1\ncode 258\ndone\ncode 0\ncode 258\nhandles 2 waits 0 hold 0\n";

/// Runs what a source gives, with so many reads and writes at most: the run ends so, and writes this.
fn ends_within<R: Abort, I: Source>(
    rt: &R,
    alloc: Global,
    bounds: (u64, u64),
    source: &mut I,
    ended: Result<(), RunFault>,
    due: &[u8],
) {
    let mut written = Vec::new(alloc);
    let found = run_bounded(
        alloc,
        false,
        Limits::default(),
        bounds.0,
        bounds.1,
        source,
        &mut Wired::new(&mut written),
    );
    same(rt, found, ended);
    same(rt, written.as_slice(), due);
    drop(written);
}

/// More reads and writes than any script here takes.
const AMPLE: (u64, u64) = (1_000_000, 1_000_000);

#[test]
fn pieces_and_interruptions_change_no_answer(rt: HostRuntime) {
    for piece in 1..9 {
        let mut source = Wired::new(Pieces::new(SCRIPT, piece));
        ends_within(&rt, rt.alloc(), AMPLE, &mut source, Ok(()), ANSWERS);
    }
}

#[test]
fn a_read_fault_leaves_the_complete_lines_answered(rt: HostRuntime) {
    let mut source = Wired::new(Failing {
        text: &SCRIPT[..40],
    });
    let fault = Err(RunFault::Read);
    let due = b"p1 t1\nh4 new s0.1\n";
    ends_within(&rt, rt.alloc(), AMPLE, &mut source, fault, due);
}

#[test]
fn a_reader_that_is_always_interrupted_reaches_the_bound(rt: HostRuntime) {
    let mut source = Wired::new(Interrupted);
    let fault = Err(RunFault::Read);
    ends_within(&rt, rt.alloc(), (10, 1), &mut source, fault, b"");
}

/// How many reads and writes the script may take, how it ends then, and what is written.
type Bound = ((u64, u64), Result<(), RunFault>, &'static [u8]);

/// As many as are needed, and one less.
const BOUNDS: &[Bound] = &[
    ((2, 1), Ok(()), ANSWERS),
    ((1, 1), Err(RunFault::Read), ANSWERS),
    ((2, 0), Err(RunFault::Write), b""),
];

#[test]
fn one_call_more_than_the_bound_is_a_fault(rt: HostRuntime) {
    for (bounds, ended, due) in BOUNDS {
        let mut source = Wired::new(SCRIPT);
        ends_within(&rt, rt.alloc(), *bounds, &mut source, *ended, due);
    }
}

/// Runs the script over a page of so many bytes, which fails or takes nothing once it is full: the run ends so, and
/// leaves this on the page.
fn fills<R: Abort>(
    rt: &R,
    alloc: Global,
    page: &mut [u8],
    is_failing: bool,
    ended: Result<(), RunFault>,
    due: &[u8],
) {
    let found = run(
        alloc,
        false,
        Limits::default(),
        &mut Wired::new(SCRIPT),
        &mut Wired::new(Page::new(page, is_failing)),
    );
    same(rt, found, ended);
    same(rt, &page[..], due);
}

#[test]
fn a_writer_that_is_full_is_a_write_fault(rt: HostRuntime) {
    let alloc = rt.alloc();
    let fault = Err(RunFault::Write);
    let due = b"p1 t1\nh4 new s0.1\nh8";
    fills(&rt, alloc, &mut [0; 20], true, fault, due);
    fills(&rt, alloc, &mut [0; 20], false, fault, due);
}

#[test]
fn a_writer_that_is_interrupted_is_asked_again(rt: HostRuntime) {
    fills(&rt, rt.alloc(), &mut [0; 88], true, Ok(()), ANSWERS);
}

#[test]
fn a_pin_that_nothing_races_is_never_busy(rt: HostRuntime) -> Result<(), Fail> {
    let alloc = rt.alloc();
    let script = repeated(
        alloc,
        b"spawn 1\nsemaphore t1 0 5 grant 0x2\n",
        b"pin s0.1\ncard s0.1\nunpin s0.1\n",
        20,
    )?;
    let due = repeated(
        alloc,
        b"p1 t1\nh4 new s0.1\n",
        b"pinned s0.1 semaphore 5\ncard s0.1 semaphore 5 grant 0x2\nunpinned s0.1\n",
        20,
    )?;
    ends_within(
        &rt,
        alloc,
        AMPLE,
        &mut Wired::new(script.as_slice()),
        Ok(()),
        due.as_slice(),
    );
    Ok(())
}
