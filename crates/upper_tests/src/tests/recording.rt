//! Calls with their answers, as lines of a script.
use crate::tests::holds_at;
use ob_manager::CallOf::{MakeEvent, Reap, Spawn, Tick, WaitFor};
use ob_manager::{Ask, Make, Mode, Reply, Timeout};
use ob_rights::Fault;
use ob_script::{Record, Recorder};
use pin_core::Id;
use pin_words::Reclaim;
use std::alloc::{AllocError, Global};
use std::test::Fail;

const NAMED: Make<'static> = Make {
    name: Some(b"a\nb"),
    inherit: false,
    access: None,
    grant: None,
};

const OBJECT: Id = Id {
    slot: 0,
    generation: 1,
};

/// Each a call, its answer, and the lines of both.
#[rattlefmt::skip]
const ROWS: &[(Ask<'static>, Reply, &[u8])] = &[
    (Spawn { session: 7 }, Reply::Spawned { process: 1, thread: 1 }, b"spawn 7\n# p1 t1\n"),
    (Spawn { session: 7 }, Reply::Refused(Fault::Limit), b"spawn 7\n# error 1450\n"),
    (Spawn { session: 7 }, Reply::Refused(Fault::Memory), b"# spawn 7\n# error 8\n"),
    (Reap { slot: 0 }, Reply::Reaped { id: OBJECT, outcome: Reclaim::Freed }, b"reap s0\n# s0.1 freed\n"),
    (Reap { slot: 0 }, Reply::Reaped { id: OBJECT, outcome: Reclaim::Retired }, b"reap s0\n# s0.1 retired\n"),
    (Reap { slot: 0 }, Reply::Reaped { id: OBJECT, outcome: Reclaim::Held { pins: 2 } }, b"# reap s0\n# s0.1 held 2\n"),
    (Reap { slot: 9 }, Reply::Refused(Fault::Handle), b"reap s9\n# error 6\n"),
    (MakeEvent { thread: 1, make: NAMED, manual: true, set: false }, Reply::Refused(Fault::Parameter),
        b"# a call that no line asks for\n# error 87\n"),
    (Tick { now: 9_223_372_036_854_775_808 }, Reply::Refused(Fault::Parameter),
        b"# a call that no line asks for\n# error 87\n"),
    (WaitFor { thread: 1, mode: Mode::Any, timeout: Timeout::Zero, handles: &[4] }, Reply::Code { code: 258 },
        b"wait t1 any 0 h4\n# code 258\n"),
];

/// Adds a call with its answer; once more where memory was wanting.
fn add(record: &mut Record, call: &Ask<'_>, reply: &Reply) -> Result<(), AllocError> {
    if record.add(call, reply).is_ok() {
        return Ok(());
    }
    record.add(call, reply)
}

/// Whether a record tells these lines alone of a call and its answer.
fn is_told(alloc: Global, call: &Ask<'_>, reply: &Reply, lines: &[u8]) -> Result<bool, AllocError> {
    let mut record = Record::new(alloc)?;
    add(&mut record, call, reply)?;
    Ok(record.as_slice() == lines)
}

#[test]
fn each_entry_has_its_lines(rt: HostRuntime) -> Result<(), Fail> {
    let alloc = rt.alloc();
    for (place, row) in ROWS.iter().enumerate() {
        holds_at(&rt, is_told(alloc, &row.0, &row.1, row.2)?, place);
    }
    Ok(())
}

/// The last byte of the first line that is told where memory was wanting for a wait for so many handles, and how long
/// the line is.
fn first_line(alloc: Global, handles: &mut Vec<u32>, count: usize) -> Result<usize, AllocError> {
    handles.resize(count, 4)?;
    let call: Ask<'_> = WaitFor {
        thread: 1,
        mode: Mode::Any,
        timeout: Timeout::Infinite,
        handles: handles.as_slice(),
    };
    let mut record = Record::new(alloc)?;
    record.add(&call, &Reply::Refused(Fault::Memory))?;
    Ok(
        record
            .as_slice()
            .iter()
            .position(|byte| *byte == b'\n')
            .unwrap_or(0),
    )
}

#[test]
fn a_comment_has_4096_bytes_at_most(rt: HostRuntime) -> Result<(), Fail> {
    let alloc = rt.alloc();
    let mut handles = Vec::new(alloc);
    holds_at(&rt, first_line(alloc, &mut handles, 1_359)? == 4_094, 0);
    holds_at(&rt, first_line(alloc, &mut handles, 1_360)? == 4_096, 1);
    Ok(())
}

/// Whether these are the lines that are taken of a recorder where there is room for so many bytes.
fn gives(recorder: &mut Recorder, room: &mut [u8], lines: &[u8]) -> bool {
    let count = recorder.take(room);
    count <= room.len() && &room[..count] == lines
}

/// Notes the call of the first row.
fn note(recorder: &mut Recorder) {
    recorder.note(&ROWS[0].0, &ROWS[0].1);
}

/// Calls are recorded from now on; once more where memory was wanting.
fn start(recorder: &mut Recorder) -> Result<(), AllocError> {
    if recorder.start().is_ok() {
        return Ok(());
    }
    recorder.start()
}

/// How many calls have lines of more than a megabyte.
const MANY: usize = 70_000;

/// How many bytes these have, with those of a long call.
const BYTES: usize = 16 * MANY + 3_027;

/// Notes many calls, and one with a long line.
fn note_many(recorder: &mut Recorder) {
    for _ in 0..MANY {
        note(recorder);
    }
    let call: Ask<'_> = WaitFor {
        thread: 1,
        mode: Mode::Any,
        timeout: Timeout::Infinite,
        handles: &[4; 1_000],
    };
    recorder.note(&call, &Reply::Code { code: 258 });
}

#[test]
fn a_recorder_goes_on_where_memory_is_there(rt: HostRuntime) -> Result<(), Fail> {
    let alloc = rt.alloc();
    let mut room = vec![in alloc; 0u8; BYTES + 1]?;
    let mut recorder = Recorder::new(alloc);
    start(&mut recorder)?;
    note_many(&mut recorder);
    holds_at(&rt, recorder.is_on(), 0);
    holds_at(&rt, recorder.start().is_ok(), 1);
    recorder.stop();
    start(&mut recorder)?;
    holds_at(&rt, recorder.take(&mut room) == BYTES, 2);
    holds_at(&rt, recorder.is_empty(), 3);
    Ok(())
}

#[test]
fn a_recorder_is_taken_by_whole_lines(rt: HostRuntime) -> Result<(), Fail> {
    let mut recorder = Recorder::new(rt.alloc());
    let (mut few, mut some, mut room) = ([0u8; 7], [0u8; 15], [0u8; 16]);
    note(&mut recorder);
    holds_at(&rt, gives(&mut recorder, &mut room, b""), 0);
    start(&mut recorder)?;
    note(&mut recorder);
    holds_at(&rt, gives(&mut recorder, &mut few, b""), 1);
    holds_at(&rt, gives(&mut recorder, &mut some, b"spawn 7\n"), 2);
    recorder.stop();
    note(&mut recorder);
    holds_at(&rt, gives(&mut recorder, &mut room, b"# p1 t1\n"), 3);
    holds_at(&rt, gives(&mut recorder, &mut room, b""), 4);
    Ok(())
}
