ghost use Rattle.std.specs.Prelude.{◌≡◌, ◌+◌, ◌<◌, ◌≤◌, ◌^◌, IfOk, IsErrOf, OnOk, length};
ghost use Rattle.ob_script.specs.Devices.{FailedOrSpent};
ghost use Rattle.ob_script.specs.Pending.{Spends};
ghost use Rattle.ob_console.specs.Faults.{WriteHasCause};

use crate::lanes::fault::LanesFault;
use crate::lanes::line::is_marked;
use crate::lanes::scripts::LaneScripts;
use ob_script::{Answer, DeviceError, Output, PartialLine, READ_MOST, Sink, Source, cut_far};
use std::alloc::{AllocError, Global};

/// The beginning of a line whose end has not come. A line that is too long for any command is not kept, but whether it
/// begins with an @.
#[derive(Drop)]
struct PartialLaneLine {
    held: PartialLine,
    is_marked: bool,
}

impl PartialLaneLine {
    fn new() -> PartialLaneLine {
        PartialLaneLine {
            held: PartialLine::new(),
            is_marked: false,
        }
    }

    /// More of the line has come.
    fn extend(&mut self, part: &[u8]) {
        if self.held.is_empty() {
            self.is_marked = is_marked(part);
        }
        self.held.extend(part);
    }
}

/// What is read of a script with lanes, and what was printed meanwhile.
#[derive(Drop)]
struct Intake {
    scripts: LaneScripts,
    output: Output,
    lines: u128,
}

impl Intake {
    /// A line comes; one that is bad is printed.
    fn take<W: Sink>(&mut self, sink: &mut W, line: &[u8]) -> Result<(), LanesFault>
        requires { self.old.lines < 2 ^ 127 }
        ensures lanes { self.new.scripts.lanes ≡ self.old.scripts.lanes }
        ensures lines { self.new.lines ≡ self.old.lines + 1 }
        ensures spends { Spends W.calls W.faults sink.old sink.new self.old.output self.new.output }
        ensures read { IsErrOf result LanesFault.Read → ⊥ }
        ensures write { WriteHasCause result W.faults sink.old sink.new self.new.output.writes_left }
    {
        self.lines += 1;
        if self.scripts.take(line)? {
            return Ok(());
        }
        self.print_bad(sink)
    }

    /// A line comes that is too long.
    fn take_too_long<W: Sink>(&mut self, sink: &mut W, is_marked: bool) -> Result<(), LanesFault>
        requires { self.old.lines < 2 ^ 127 }
        ensures lanes { self.new.scripts.lanes ≡ self.old.scripts.lanes }
        ensures lines { self.new.lines ≡ self.old.lines + 1 }
        ensures spends { Spends W.calls W.faults sink.old sink.new self.old.output self.new.output }
        ensures read { IsErrOf result LanesFault.Read → ⊥ }
        ensures write { WriteHasCause result W.faults sink.old sink.new self.new.output.writes_left }
    {
        self.lines += 1;
        if is_marked {
            self.scripts.end_prologue();
        }
        self.print_bad(sink)
    }

    /// Prints that the last line is bad.
    fn print_bad<W: Sink>(&mut self, sink: &mut W) -> Result<(), LanesFault>
        ensures scripts { self.new.scripts ≡ self.old.scripts }
        ensures lines { self.new.lines ≡ self.old.lines }
        ensures spends { Spends W.calls W.faults sink.old sink.new self.old.output self.new.output }
        ensures read { IsErrOf result LanesFault.Read → ⊥ }
        ensures write { WriteHasCause result W.faults sink.old sink.new self.new.output.writes_left }
    {
        self.output.put(sink, &Answer::BadLine(self.lines))?;
        Ok(())
    }
}

/// A script with lanes that is read block by block.
#[derive(Drop)]
pub struct LaneReader {
    intake: Intake,
    partial: PartialLaneLine,
}

impl LaneReader {
    /// A script with so many lanes beside the prologue, of which nothing has been read. With `more` it may have lines
    /// that the option `--more` adds.
    pub fn new(alloc: Global, more: bool, lanes: u32, writes: u64) -> Result<LaneReader, AllocError>
        ensures lanes { IfOk result (λ reading. reading.intake.scripts.lanes ≡ lanes) }
        ensures lines { IfOk result (λ reading. reading.intake.lines ≡ 0) }
        ensures writes { IfOk result (λ reading. reading.intake.output.writes_left ≡ writes) }
    {
        Ok(LaneReader {
            intake: Intake {
                scripts: LaneScripts::new(alloc, more, lanes)?,
                output: Output::new(alloc, writes)?,
                lines: 0,
            },
            partial: PartialLaneLine::new(),
        })
    }

    /// The line of which a beginning is kept ends: takes it.
    fn end_line<W: Sink>(&mut self, sink: &mut W) -> Result<(), LanesFault>
        requires { self.old.intake.lines < 2 ^ 127 }
        ensures lanes { self.new.intake.scripts.lanes ≡ self.old.intake.scripts.lanes }
        ensures lines { self.new.intake.lines ≡ self.old.intake.lines + 1 }
        ensures spends { Spends W.calls W.faults sink.old sink.new self.old.intake.output self.new.intake.output }
        ensures read { IsErrOf result LanesFault.Read → ⊥ }
        ensures write { WriteHasCause result W.faults sink.old sink.new self.new.intake.output.writes_left }
    {
        let taken = match self.partial.held.line() {
            Some(line) => self.intake.take(sink, line),
            None => self.intake.take_too_long(sink, self.partial.is_marked),
        };
        self.partial.held.clear();
        taken
    }

    /// The line of which a beginning is kept, if one is, ends with these bytes: takes it. They stand before its line
    /// feed.
    fn line<W: Sink>(&mut self, sink: &mut W, end: &[u8]) -> Result<(), LanesFault>
        requires { self.old.intake.lines < 2 ^ 127 }
        ensures lanes { self.new.intake.scripts.lanes ≡ self.old.intake.scripts.lanes }
        ensures lines { self.new.intake.lines ≡ self.old.intake.lines + 1 }
        ensures spends { Spends W.calls W.faults sink.old sink.new self.old.intake.output self.new.intake.output }
        ensures read { IsErrOf result LanesFault.Read → ⊥ }
        ensures write { WriteHasCause result W.faults sink.old sink.new self.new.intake.output.writes_left }
    {
        if self.partial.held.is_empty() {
            return self.intake.take(sink, end);
        }
        self.partial.extend(end);
        self.end_line(sink)
    }

    /// A block of the script comes: takes each line that ends in it, and keeps what comes behind the last.
    fn feed<W: Sink>(&mut self, sink: &mut W, block: &[u8]) -> Result<(), LanesFault>
        requires { self.old.intake.lines + length block.now < 2 ^ 127 }
        ensures lanes { self.new.intake.scripts.lanes ≡ self.old.intake.scripts.lanes }
        ensures lines { self.new.intake.lines ≤ self.old.intake.lines + length block.now }
        ensures spends { Spends W.calls W.faults sink.old sink.new self.old.intake.output self.new.intake.output }
        ensures read { IsErrOf result LanesFault.Read → ⊥ }
        ensures write { WriteHasCause result W.faults sink.old sink.new self.new.intake.output.writes_left }
    {
        let mut rest = block;
        while let Some((end, behind)) = cut_far(b'\n', rest) {
            match self.line(sink, end) {
                Ok(()) => rest = behind,
                Err(fault) => return Err(fault),
            }
        }
        self.partial.extend(rest);
        Ok(())
    }

    /// A block of the script comes: takes each line that ends in it, and writes which of them are bad.
    fn take<W: Sink>(&mut self, sink: &mut W, block: &[u8]) -> Result<(), LanesFault>
        requires { self.old.intake.lines + length block.now < 2 ^ 127 }
        ensures lanes { self.new.intake.scripts.lanes ≡ self.old.intake.scripts.lanes }
        ensures lines { self.new.intake.lines ≤ self.old.intake.lines + length block.now }
        ensures spends { Spends W.calls W.faults sink.old sink.new self.old.intake.output self.new.intake.output }
        ensures read { IsErrOf result LanesFault.Read → ⊥ }
        ensures write { WriteHasCause result W.faults sink.old sink.new self.new.intake.output.writes_left }
    {
        self.feed(sink, block)?;
        self.intake.output.flush(sink)?;
        Ok(())
    }

    /// The script ends: takes a last line without a line feed, and writes whether it is bad.
    fn finish<W: Sink>(&mut self, sink: &mut W) -> Result<(), LanesFault>
        requires { self.old.intake.lines < 2 ^ 127 }
        ensures lanes { self.new.intake.scripts.lanes ≡ self.old.intake.scripts.lanes }
        ensures spends { Spends W.calls W.faults sink.old sink.new self.old.intake.output self.new.intake.output }
        ensures read { IsErrOf result LanesFault.Read → ⊥ }
        ensures write { WriteHasCause result W.faults sink.old sink.new self.new.intake.output.writes_left }
    {
        if !self.partial.held.is_empty() {
            self.end_line(sink)?;
        }
        self.intake.output.flush(sink)?;
        Ok(())
    }

    /// Reads a script to its end, with at most so many reads. What is bad in a block is written before the next is
    /// read.
    pub fn read_all<R: Source, W: Sink>(
        &mut self,
        block: &mut [u8],
        reads: u64,
        reader: &mut R,
        writer: &mut W,
    ) -> Result<(), LanesFault>
        requires lines { self.old.intake.lines ≡ 0 }
        requires block { length block.old ≡ READ_MOST }
        ensures lanes { self.new.intake.scripts.lanes ≡ self.old.intake.scripts.lanes }
        ensures ended { OnOk result (R.HasEnded reader.new) }
        ensures read { IsErrOf result LanesFault.Read → FailedOrSpent R.faults R.calls reader.old reader.new reads }
        ensures write { WriteHasCause result W.faults writer.old writer.new self.new.intake.output.writes_left }
        ensures reads { R.calls reader.new ≤ R.calls reader.old + reads }
        ensures spends { Spends W.calls W.faults writer.old writer.new self.old.intake.output self.new.intake.output }
    {
        for i in 0..reads {
            let _turn = i;
            match reader.read(block) {
                Ok(0) => return self.finish(writer),
                Ok(count) => match self.take(writer, &block[..count]) {
                    Ok(()) => {}
                    Err(fault) => return Err(fault),
                },
                Err(DeviceError::Interrupted) => {}
                Err(DeviceError::Failed) => return Err(LanesFault::Read),
            }
        }
        Err(LanesFault::Read)
    }

    /// What the members are to do, and where answers are printed.
    pub fn into_parts(self) -> (LaneScripts, Output)
        ensures scripts { result.0 ≡ self.intake.scripts }
        ensures output { result.1 ≡ self.intake.output }
    {
        (self.intake.scripts, self.intake.output)
    }
}
