ghost use Rattle.std.specs.Prelude.{◌≡◌, ◌+◌, ◌<◌, ◌≤◌, ◌++◌, List, ℕ, IfErr, IfOk, IfSome, OnOk, IsErrOf};
ghost use Rattle.std.specs.Prelude.{Some, length};
ghost use Rattle.ob_store.specs.State.{shape_of};
ghost use Rattle.ob_script.specs.Devices.{FailedOrSpent, calls_most};
ghost use Rattle.ob_script.specs.Pending.{FailedOrLast};
ghost use Rattle.ob_console.specs.Runs.{GoesOn, IsCut, IsEnded, IsOpening, IsWholeEnded, Reopens};
ghost use Rattle.ob_console.specs.Sessions.{Ends, IsReady};

use crate::console::Console;
use ob_manager::{Limits, Manager};
use ob_script::{CALLS_MOST, DeviceError, Output, READ_MOST, Sink, Source, zeros};
use pin_words::{Keeper, LockedPins, Opening, Pins};
use std::alloc::Global;
use thiserror::Error;

/// Why a run ended before the whole input was answered.
#[derive(Clone, Copy, Debug, PartialEq, Eq, Error)]
pub enum RunFault {
    /// Memory was wanting at the start; nothing was read or written.
    #[error("no memory")]
    Memory,
    /// The source failed, or one read more than may be made was needed.
    #[error("read fault")]
    Read,
    /// The sink failed, took no byte, or needed one write more than may be made.
    #[error("write fault")]
    Write,
}

/// Runs a script over a new manager and one reader of its pins: reads blocks to the end of the input, answers each
/// line, and writes all answers to a block before it reads on. Takes memory only at its start, but for the manager's
/// calls.
///
/// With `more` it reads the lines that the option `--more` adds, too; without it these are bad.
pub fn run<R: Source, W: Sink>(
    alloc: Global,
    more: bool,
    limits: Limits,
    reader: &mut R,
    writer: &mut W,
) -> Result<(), RunFault>
    ensures answers { (input output : List ℕ) × (R.given reader.new ≡ R.given reader.old ++ input)
        × (W.taken writer.new ≡ W.taken writer.old ++ output)
        × IsEnded result more limits input output }
    ensures ended { OnOk result (R.HasEnded reader.new) }
    ensures memory { IsErrOf result RunFault.Memory → (R.calls reader.new ≡ R.calls reader.old)
        × (W.calls writer.new ≡ W.calls writer.old) }
    ensures read { IsErrOf result RunFault.Read → FailedOrSpent R.faults R.calls reader.old reader.new calls_most }
    ensures write { IsErrOf result RunFault.Write → FailedOrSpent W.faults W.calls writer.old writer.new calls_most }
    ensures reads { R.calls reader.new ≤ R.calls reader.old + calls_most }
    ensures writes { W.calls writer.new ≤ W.calls writer.old + calls_most }
{
    run_bounded(alloc, more, limits, CALLS_MOST, CALLS_MOST, reader, writer)
}

/// [`run`], with at most so many reads and so many writes.
pub fn run_bounded<R: Source, W: Sink>(
    alloc: Global,
    more: bool,
    limits: Limits,
    reads: u64,
    writes: u64,
    reader: &mut R,
    writer: &mut W,
) -> Result<(), RunFault>
    ensures answers { (input output : List ℕ) × (R.given reader.new ≡ R.given reader.old ++ input)
        × (W.taken writer.new ≡ W.taken writer.old ++ output)
        × IsEnded result more limits input output }
    ensures ended { OnOk result (R.HasEnded reader.new) }
    ensures memory { IsErrOf result RunFault.Memory → (R.calls reader.new ≡ R.calls reader.old)
        × (W.calls writer.new ≡ W.calls writer.old) }
    ensures read { IsErrOf result RunFault.Read → FailedOrSpent R.faults R.calls reader.old reader.new reads }
    ensures write { IsErrOf result RunFault.Write → FailedOrSpent W.faults W.calls writer.old writer.new writes }
    ensures reads { R.calls reader.new ≤ R.calls reader.old + reads }
    ensures writes { W.calls writer.new ≤ W.calls writer.old + writes }
{
    // What owns little comes first, so that no more than one path lets the console go.
    let Ok(mut block) = zeros(alloc, READ_MOST) else {
        return Err(RunFault::Memory);
    };
    let Ok((pins, opening)) = Pins::new(alloc, limits.shape()) else {
        return Err(RunFault::Memory);
    };
    let Some(mut console) = opened(alloc, more, limits, &pins, opening, writes) else {
        return Err(RunFault::Memory);
    };
    let answered = answer_all(&mut console, &mut block, reads, reader, writer);
    drop(console);
    answered
}

/// Runs a script that is in memory as a whole, as [`run`] does: answers each line, and writes the answers. It reads
/// nothing, so it never ends with [`RunFault::Read`].
pub fn run_whole<W: Sink>(
    alloc: Global,
    more: bool,
    limits: Limits,
    script: &[u8],
    writer: &mut W,
) -> Result<(), RunFault>
    ensures answers { (output : List ℕ) × (W.taken writer.new ≡ W.taken writer.old ++ output)
        × IsWholeEnded result more limits script.now output }
    ensures memory { IsErrOf result RunFault.Memory → W.calls writer.new ≡ W.calls writer.old }
    ensures write { IsErrOf result RunFault.Write → FailedOrSpent W.faults W.calls writer.old writer.new calls_most }
    ensures writes { W.calls writer.new ≤ W.calls writer.old + calls_most }
{
    let Ok((pins, opening)) = Pins::new(alloc, limits.shape()) else {
        return Err(RunFault::Memory);
    };
    let Some(mut console) = opened(alloc, more, limits, &pins, opening, CALLS_MOST) else {
        return Err(RunFault::Memory);
    };
    let answered = answer_whole(&mut console, script, writer);
    drop(console);
    answered
}

/// Runs a script as [`run`] does, over a manager that was loaded or made before, and gives it back as the script left
/// it: over words of its own now, where what the script's reader holds at the end is held for good. A savestate
/// ([`Manager::save`](ob_manager::Manager::save)) has none of that.
pub fn run_over<R: Source, W: Sink>(
    alloc: Global,
    more: bool,
    manager: Manager<LockedPins>,
    reader: &mut R,
    writer: &mut W,
) -> Result<Manager<Keeper>, RunFault>
    ensures ok { IfOk result (λ after. (input output : List ℕ) × (R.given reader.new ≡ R.given reader.old ++ input)
        × (W.taken writer.new ≡ W.taken writer.old ++ output)
        × GoesOn more manager input output after) }
    ensures err { IfErr result (λ fault. (input output : List ℕ) × (R.given reader.new ≡ R.given reader.old ++ input)
        × (W.taken writer.new ≡ W.taken writer.old ++ output)
        × IsCut fault (Reopens more manager) input output) }
    ensures ended { OnOk result (R.HasEnded reader.new) }
    ensures memory { IsErrOf result RunFault.Memory → (R.calls reader.new ≡ R.calls reader.old)
        × (W.calls writer.new ≡ W.calls writer.old) }
    ensures read { IsErrOf result RunFault.Read → FailedOrSpent R.faults R.calls reader.old reader.new calls_most }
    ensures write { IsErrOf result RunFault.Write → FailedOrSpent W.faults W.calls writer.old writer.new calls_most }
    ensures reads { R.calls reader.new ≤ R.calls reader.old + calls_most }
    ensures writes { W.calls writer.new ≤ W.calls writer.old + calls_most }
{
    // What owns much is dropped by a call, since a scope that ends with it lets it go on each way out.
    let Ok(mut block) = zeros(alloc, READ_MOST) else {
        drop(manager);
        return Err(RunFault::Memory);
    };
    let Some(mut console) = reopened(alloc, more, manager, CALLS_MOST) else {
        return Err(RunFault::Memory);
    };
    match answer_all(&mut console, &mut block, CALLS_MOST, reader, writer) {
        Ok(()) => Ok(console.into_manager()),
        Err(fault) => {
            drop(console);
            Err(fault)
        }
    }
}

/// Answers a script as one block, from a console of which no line has come.
fn answer_whole<W: Sink>(
    console: &mut Console,
    script: &[u8],
    writer: &mut W,
) -> Result<(), RunFault>
    requires ready { IsReady console.old }
    ensures answers { (output : List ℕ) × (W.taken writer.new ≡ W.taken writer.old ++ output)
        × Ends result console.old.point script.now output console.new.point }
    ensures read { IsErrOf result RunFault.Read → ⊥ }
    ensures memory { IsErrOf result RunFault.Memory → ⊥ }
    ensures write { IsErrOf result RunFault.Write
        → FailedOrLast W.faults writer.old writer.new console.new.pending.writes_left }
    ensures writes { W.calls writer.new + console.new.pending.writes_left
        ≡ W.calls writer.old + console.old.pending.writes_left }
{
    let _length = script.len();
    match console.take(writer, script) {
        Ok(()) => {}
        Err(_) => return Err(RunFault::Write),
    }
    match console.finish(writer) {
        Ok(()) => Ok(()),
        Err(_) => Err(RunFault::Write),
    }
}

/// A console of which no line has come, over a new manager and a reader that holds nothing; none where memory is
/// wanting.
fn opened(
    alloc: Global,
    more: bool,
    limits: Limits,
    pins: &Pins,
    opening: Opening,
    writes: u64,
) -> Option<Console>
    requires same { opening ≡ pins.now }
    requires shape { opening.shape ≡ shape_of limits }
    ensures opens { IfSome result (λ console. IsOpening more limits console.point) }
    ensures ready { IfSome result (λ console. IsReady console) }
    ensures writes { IfSome result (λ console. console.pending.writes_left ≡ writes) }
{
    let Ok(output) = Output::new(alloc, writes) else {
        return None;
    };
    let Ok((keeper, reader)) = opening.start(pins) else {
        return None;
    };
    match Manager::new(alloc, limits, keeper) {
        Ok(manager) => Some(Console::new(more, manager, reader, output)),
        Err(_) => None,
    }
}

/// A console of which no line has come, over a manager that goes on over words, and a reader of these that holds
/// nothing; none where memory is wanting.
fn reopened(alloc: Global, more: bool, manager: Manager<LockedPins>, writes: u64) -> Option<Console>
    ensures reopens { IfSome result (λ console. Reopens more manager console.point) }
    ensures ready { IfSome result (λ console. IsReady console) }
    ensures writes { IfSome result (λ console. console.pending.writes_left ≡ writes) }
{
    // (dropped by a call, as in `run_over`)
    let Ok(output) = Output::new(alloc, writes) else {
        drop(manager);
        return None;
    };
    let Ok((keeper, reader)) = manager.words(alloc) else {
        drop(manager);
        return None;
    };
    Some(Console::new(more, manager.over(keeper), reader, output))
}

/// Answers a script block by block, from a console of which no line has come, with at most so many reads.
#[tactic(auto, using(crate::proofs::Reading::reading_begins))]
fn answer_all<R: Source, W: Sink>(
    console: &mut Console,
    block: &mut [u8],
    reads: u64,
    reader: &mut R,
    writer: &mut W,
) -> Result<(), RunFault>
    requires ready { IsReady console.old }
    requires block { length block.old ≡ READ_MOST }
    ensures answers { (input output : List ℕ) × (R.given reader.new ≡ R.given reader.old ++ input)
        × (W.taken writer.new ≡ W.taken writer.old ++ output)
        × Ends result console.old.point input output console.new.point }
    ensures ended { OnOk result (R.HasEnded reader.new) }
    ensures memory { IsErrOf result RunFault.Memory → ⊥ }
    ensures read { IsErrOf result RunFault.Read → FailedOrSpent R.faults R.calls reader.old reader.new reads }
    ensures write { IsErrOf result RunFault.Write
        → FailedOrLast W.faults writer.old writer.new console.new.pending.writes_left }
    ensures reads { R.calls reader.new ≤ R.calls reader.old + reads }
    ensures writes { W.calls writer.new + console.new.pending.writes_left
        ≡ W.calls writer.old + console.old.pending.writes_left }
{
    for i in 0..reads {
        let _turn = i;
        match reader.read(block) {
            Ok(0) => match console.finish(writer) {
                Ok(()) => return Ok(()),
                Err(_) => return Err(RunFault::Write),
            },
            Ok(count) => match console.take(writer, &block[..count]) {
                Ok(()) => {}
                Err(_) => return Err(RunFault::Write),
            },
            Err(DeviceError::Interrupted) => {}
            Err(DeviceError::Failed) => return Err(RunFault::Read),
        }
    }
    Err(RunFault::Read)
}
