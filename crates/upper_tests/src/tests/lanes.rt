//! Scripts with lanes.
use crate::tests::{Failing, Page, Pieces, add, repeated, same};
use ob_console::{LanesFault, run_lanes};
use ob_manager::Limits;
use ob_script::{Sink, Source, Wired};
use std::alloc::{AllocError, Global};
use std::process::Abort;
use std::sync::Wait;
use std::test::Fail;
use std::thread::Threads;

/// Runs what a source gives with so many lanes, 1 to 64, and with the lines that `--more` adds.
fn run_with<R: Abort + Wait + Threads + Sync, I: Source, O: Sink>(
    rt: &R,
    alloc: Global,
    lanes: u32,
    source: &mut I,
    sink: &mut O,
) -> Result<(), LanesFault> {
    assert!(rt; lanes >= 1 && lanes <= 64);
    run_lanes(rt, alloc, true, Limits::default(), lanes, source, sink)
}

/// Runs what a source gives with so many lanes: the run ends so, and writes this.
fn ends<R: Abort + Wait + Threads + Sync, I: Source>(
    rt: &R,
    alloc: Global,
    lanes: u32,
    source: &mut I,
    ended: Result<(), LanesFault>,
    due: &[u8],
) {
    let mut written = Vec::new(alloc);
    let found = run_with(rt, alloc, lanes, source, &mut Wired::new(&mut written));
    same(rt, found, ended);
    same(rt, written.as_slice(), due);
    drop(written);
}

/// So many lanes, a script, and what is answered to it.
type Row = (u32, &'static [u8], &'static [u8]);

const ROWS: &[Row] = &[
    // behind a line of a lane the others are empty or comments
    (
        2,
        b"\n# x\nspawn 1\n\r\n@2 thread p1\n\n# x\n\r\nspawn 1\ndir\nblock\n@1 close t1 h4\nx",
        b"bad line 9\nbad line 10\nbad line 11\nbad line 13\nlane 0\np1 t1\nlane 1\nerror 6\nlane 2\nt2\nclosed 3\n",
    ),
    // one carriage return at the end is dropped
    (
        2,
        b"spawn 1\r\nspawn 1\r\r\n@1 thread p1\r\n@1 block\r\n@1 block\r\r\n@1 close t1 h4\r\r\n@2 close t1 h4\r",
        b"bad line 2\nbad line 5\nbad line 6\nlane 0\np1 t1\nlane 1\nt2\nnone\nlane 2\nerror 6\nclosed 3\n",
    ),
    // what the prologue has pinned is held by no lane
    (
        2,
        b"spawn 1\nevent t1 auto clear\npin s0.1\nclose t1 h4\n@1 unpin s0.1\n@1 card s0.1\n@1 reap s0\n",
        b"lane 0\np1 t1\nh4 new s0.1\npinned s0.1 event auto\nclosed\nlane 1\nnot held\nnot held\n\
          s0.1 held 1\nlane 2\nclosed 4\n",
    ),
    // a block takes the last pending wait of its lane
    (
        1,
        b"spawn 1\nthread p1\nthread p1\nevent t1 manual clear\nwait t3 any inf h4\n@1 block\n\
          @1 wait t2 any inf h4\n@1 result w1\n@1 set t1 h4\n@1 set t1 h4\n@1 block\n@1 block\n\
          @1 result w1\n",
        b"lane 0\np1 t1\nt2\nt3\nh4 new s0.1\npending w1\nlane 1\nnone\npending w2\npending w1\n\
          done\ndone\ncode 0\nnone\ncode 0\nclosed 11\n",
    ),
    // names are shared by all lanes
    (
        2,
        b"spawn 1\nevent t1 manual set name A b\nthread p1\nmutex t1 owned grant 0x100000 name M\n\
          semaphore t1 1 2 inherit access 0x1f0003 name S\n@1 open t1 event 0x100000 name A b\n\
          @2 open t2 mutex 0x100001 name M\n",
        b"lane 0\np1 t1\nh4 new s0.1\nt2\nh8 new s1.1\nh12 new s2.1\nlane 1\nh16 opened s0.1\n\
          lane 2\nerror 5\nclosed 7\n",
    ),
    // a lane makes objects of the host's own, and signals them
    (
        1,
        b"spawn 1\nhost t1 k7 auto clear\n@1 signal s0.1 set\n@1 wait t1 any 0 h4\n",
        b"lane 0\np1 t1\nh4 new s0.1\nlane 1\ndone\ncode 0\nclosed 4\n",
    ),
];

#[test]
fn scripts_are_answered_lane_by_lane(rt: HostRuntime) {
    for (lanes, script, due) in ROWS {
        ends(
            &rt,
            rt.alloc(),
            *lanes,
            &mut Wired::new(*script),
            Ok(()),
            due,
        );
    }
}

/// A script with a line that is longer than what is read at once, and with a bad one behind the prologue.
fn add_long_lines(script: &mut Vec<u8>) -> Result<(), AllocError> {
    script.extend_from_slice(b"#")?;
    add(script, b"x", 70_000)?;
    script.extend_from_slice(b"\r\nspawn 1\n@1 count s0.1\n@1 event t1 auto clear name ")?;
    add(script, b"x", 4_068)?;
    script.extend_from_slice(b"\r\nspawn 1\n@2 result w1")?;
    Ok(())
}

#[test]
fn pieces_and_interruptions_change_no_line(rt: HostRuntime) -> Result<(), Fail> {
    let mut script = Vec::new(rt.alloc());
    add_long_lines(&mut script)?;
    let due =
        b"bad line 1\nbad line 5\nlane 0\np1 t1\nlane 1\nerror 6\nerror 206\nlane 2\nerror 87\nclosed 4\n";
    for piece in [1, 2, 3, 7, 4095, 4096, 4097, 4098, 65_536] {
        let mut source = Wired::new(Pieces::new(script.as_slice(), piece));
        ends(&rt, rt.alloc(), 2, &mut source, Ok(()), due);
    }
    Ok(())
}

#[test]
fn a_read_fault_leaves_bad_lines_printed_and_makes_no_call(rt: HostRuntime) {
    let mut source = Wired::new(Failing {
        text: b"spawn 1\nx\n@1 spawn 1\ny\nz",
    });
    let fault = Err(LanesFault::Read);
    let due = b"bad line 2\nbad line 4\n";
    ends(&rt, rt.alloc(), 1, &mut source, fault, due);
}

/// Runs a script with so many lanes, 1 to 64, over a page that is too small: the run ends by that, and leaves this on
/// the page.
fn fills<R: Abort + Wait + Threads + Sync>(
    rt: &R,
    alloc: Global,
    lanes: u32,
    script: &[u8],
    page: &mut [u8],
    due: &[u8],
) {
    let ended = run_with(
        rt,
        alloc,
        lanes,
        &mut Wired::new(script),
        &mut Wired::new(Page::new(page, false)),
    );
    same(rt, ended, Err(LanesFault::Write));
    same(rt, &page[..], due);
}

#[test]
fn a_full_sink_is_a_write_fault(rt: HostRuntime) {
    let alloc = rt.alloc();
    let due = b"lane 0\np1 t1\nlane 1\n";
    fills(&rt, alloc, 1, b"spawn 1\n@1 spawn 2\n", &mut [0; 20], due);
    fills(&rt, alloc, 64, b"x\nspawn 1\n", &mut [0; 4], b"bad ");
}

/// What each of 64 threads asks in a lane of its own, behind a prologue that starts a process for each.
fn add_crowd(script: &mut Vec<u8>, alloc: Global) -> Result<(), AllocError> {
    add(script, b"spawn 1\n", 64)?;
    for number in 1..65u32 {
        let acts = format!(in alloc;
            "@{number} close t{number} h4\n@{number} result w1\n@{number} block\n"
        )?;
        script.extend_from_slice(acts.as_bytes())?;
    }
    Ok(())
}

/// What is answered to it.
fn add_answers(due: &mut Vec<u8>, alloc: Global) -> Result<(), AllocError> {
    due.extend_from_slice(b"lane 0\n")?;
    for number in 1..65u32 {
        due.extend_from_slice(format!(in alloc; "p{number} t{number}\n")?.as_bytes())?;
    }
    for number in 1..65u32 {
        let answers = format!(in alloc; "lane {number}\nerror 6\nerror 87\nnone\n")?;
        due.extend_from_slice(answers.as_bytes())?;
    }
    due.extend_from_slice(b"closed 192\n")?;
    Ok(())
}

#[test]
fn sixty_four_lanes_run_at_once(rt: HostRuntime) -> Result<(), Fail> {
    let mut script = Vec::new(rt.alloc());
    add_crowd(&mut script, rt.alloc())?;
    let mut due = Vec::new(rt.alloc());
    add_answers(&mut due, rt.alloc())?;
    ends(
        &rt,
        rt.alloc(),
        64,
        &mut Wired::new(script.as_slice()),
        Ok(()),
        due.as_slice(),
    );
    Ok(())
}
