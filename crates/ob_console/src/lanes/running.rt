ghost use Rattle.std.specs.Prelude.{◌≡◌, ◌+◌, ◌<◌, ◌≤◌, IsErrOf, OnOk, vec_len};
ghost use Rattle.ob_script.specs.Devices.{FailedOrSpent, calls_most};
ghost use Rattle.ob_script.specs.Pending.{Spends};
ghost use Rattle.ob_console.specs.Faults.{WriteHasCause};

use crate::lanes::fault::LanesFault;
use crate::lanes::members::{drive_all, lanes_of, members_of, room_for, started};
use crate::lanes::printing::print_members;
use crate::lanes::reading::LaneReader;
use crate::lanes::scripts::LaneScript;
use ob_manager::Limits;
use ob_script::{Answer, CALLS_MOST, Output, READ_MOST, Sink, Source, zeros};
use ob_shared::{Lane, Shared};
use pin_words::{Pins, Reader};
use std::alloc::Global;
use std::sync::Wait;
use std::thread::Threads;

/// Runs a script with so many lanes over a new manager behind its lock: reads the script to its end and prints
/// meanwhile which lines are bad; makes the calls of the prologue, which is lane 0, and then those of the other lanes
/// at once; prints the answers lane by lane; and closes the lanes. It never returns where a lane waits forever.
///
/// With `more` it reads the lines that the option `--more` adds, too; without it these are bad. At most 1,000,000,000
/// reads and as many writes are made. The answers are those of members: [`drive`](ob_shared::drive).
pub fn run_lanes<R: Threads + Wait + Sync, I: Source, O: Sink>(
    rt: &R,
    alloc: Global,
    more: bool,
    limits: Limits,
    lanes: u32,
    reader: &mut I,
    writer: &mut O,
) -> Result<(), LanesFault>
    requires above_zero { 1 ≤ lanes }
    requires at_most { lanes ≤ 64 }
    ensures ended { OnOk result (I.HasEnded reader.new) }
    ensures read { IsErrOf result LanesFault.Read → FailedOrSpent I.faults I.calls reader.old reader.new calls_most }
    ensures write { IsErrOf result LanesFault.Write → FailedOrSpent O.faults O.calls writer.old writer.new calls_most }
    ensures reads { I.calls reader.new ≤ I.calls reader.old + calls_most }
    ensures writes { O.calls writer.new ≤ O.calls writer.old + calls_most }
{
    let mut reading = LaneReader::new(alloc, more, lanes, CALLS_MOST)?;
    let mut block = zeros(alloc, READ_MOST)?;
    reading.read_all(&mut block, CALLS_MOST, reader, writer)?;
    drop(block);
    let (scripts, mut output) = reading.into_parts();
    run_scripts(
        rt,
        alloc,
        limits,
        scripts.into_scripts(),
        &mut output,
        writer,
    )
}

/// Makes the calls of scripts, of which the first is the prologue's, prints the answers, and closes the lanes. Want of
/// memory is answered before anything is written.
fn run_scripts<R: Threads + Wait + Sync, O: Sink>(
    rt: &R,
    alloc: Global,
    limits: Limits,
    scripts: Vec<LaneScript>,
    output: &mut Output,
    writer: &mut O,
) -> Result<(), LanesFault>
    requires two_at_least { 2 ≤ vec_len scripts }
    requires at_most { vec_len scripts ≤ 65 }
    ensures memory { IsErrOf result LanesFault.Memory → O.calls writer.new ≡ O.calls writer.old }
    ensures read { IsErrOf result LanesFault.Read → ⊥ }
    ensures write { WriteHasCause result O.faults writer.old writer.new output.new.writes_left }
    ensures calls { O.calls writer.new + output.new.writes_left ≡ O.calls writer.old + output.old.writes_left }
{
    let Ok((pins, opening)) = Pins::new(alloc, limits.shape()) else {
        return Err(LanesFault::Memory);
    };
    let Some((mut shared, readers)) = started(alloc, limits, &pins, opening, scripts.len()) else {
        return Err(LanesFault::Memory);
    };
    match answer_scripts(rt, alloc, &mut shared, readers, scripts, output, writer) {
        Ok(lanes) => close(shared, lanes, output, writer),
        Err(fault) => {
            drop(shared);
            Err(fault)
        }
    }
}

/// Makes the calls of scripts over a manager behind its lock, by a member for each, prints the answers, and hands out
/// the members' lanes. Room for these is made before the first call is.
fn answer_scripts<R: Threads + Wait + Sync, O: Sink>(
    rt: &R,
    alloc: Global,
    shared: &mut Shared,
    readers: Vec<Reader>,
    scripts: Vec<LaneScript>,
    output: &mut Output,
    writer: &mut O,
) -> Result<Vec<Lane>, LanesFault>
    requires fresh { shared.old ≡ 0 }
    requires readers { vec_len readers ≡ vec_len scripts }
    requires two_at_least { 2 ≤ vec_len scripts }
    requires at_most { vec_len scripts ≤ 65 }
    ensures memory { IsErrOf result LanesFault.Memory → O.calls writer.new ≡ O.calls writer.old }
    ensures read { IsErrOf result LanesFault.Read → ⊥ }
    ensures write { WriteHasCause result O.faults writer.old writer.new output.new.writes_left }
    ensures spends { Spends O.calls O.faults writer.old writer.new output.old output.new }
{
    let mut members = members_of(alloc, shared, readers, scripts)?;
    let lanes = room_for(alloc, members.len())?;
    drive_all(rt, shared, members.as_mut_slice())?;
    print_members(output, writer, members.as_slice())?;
    Ok(lanes_of(members, lanes))
}

/// Closes the lanes, and prints how many calls were made.
fn close<O: Sink>(
    shared: Shared,
    lanes: Vec<Lane>,
    output: &mut Output,
    writer: &mut O,
) -> Result<(), LanesFault>
    ensures memory { IsErrOf result LanesFault.Memory → ⊥ }
    ensures read { IsErrOf result LanesFault.Read → ⊥ }
    ensures write { WriteHasCause result O.faults writer.old writer.new output.new.writes_left }
    ensures spends { Spends O.calls O.faults writer.old writer.new output.old output.new }
{
    let Some(count) = calls_of(shared, lanes) else {
        output.flush(writer)?;
        return Err(LanesFault::Differ);
    };
    output.put(writer, &Answer::Journaled(count))?;
    output.flush(writer)?;
    Ok(())
}

/// How many calls were made, where the lanes are whole. What was closed is dropped here, so that no path that prints
/// has to drop it.
fn calls_of(shared: Shared, lanes: Vec<Lane>) -> Option<usize> {
    match shared.close(lanes) {
        Ok(closed) => {
            let count = closed.journal.len();
            drop(closed);
            Some(count)
        }
        Err(refused) => {
            drop(refused);
            None
        }
    }
}
