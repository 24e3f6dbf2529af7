ghost use Rattle.std.specs.Prelude.{◌≡◌, ◌+◌, ◌<◌, ◌≤◌, ◌^◌, ◌++◌, [], Some, List, ℕ, OnOk, OnErr};
ghost use Rattle.std.specs.Prelude.{length};
ghost use Rattle.ob_console.specs.Runs.{IsWithin, point};
ghost use Rattle.ob_script.specs.Pending.{IsWritten, UsesSink};
ghost use Rattle.ob_script.specs.Printed.{line_end};
ghost use Rattle.ob_console.specs.Sessions.{Advances, Finishes, IsFed, IsCutShort};

use crate::evaluator::Evaluator;
use ob_manager::Manager;
use ob_script::{Handles, NotWritten, Output, PartialLine, ScriptLine, Sink};
use pin_words::{Keeper, Reader};
use std::marker::Model;

/// Answers a script that comes in blocks, over a manager and a reader of the same pins. It keeps the beginning of a
/// line whose end has not come.
#[derive(Drop)]
pub struct Console {
    evaluator: Evaluator,
    held: PartialLine,
    handles: Handles,
}

impl Model for Console {
    ghost use Rattle.ob_console.specs.Sessions.{ConsoleState};

    ghost Value = { ConsoleState };

    ghost view = { λ console. record {
      point = console.evaluator.point;
      pending = console.evaluator.pending;
      held = console.held;
      lines = console.evaluator.lines;
    } };
}

impl Console {
    /// A console to which no line has come. With `more` it reads the lines that the option `--more` adds, too.
    pub fn new(more: bool, manager: Manager<Keeper>, reader: Reader, output: Output) -> Console
        requires { manager.keeper.table ≡ Some reader.table }
        ensures { result ≡ record {
          point = point more manager reader.view;
          pending = output;
          held = Some [];
          lines = 0;
        } }
    {
        Console {
            evaluator: Evaluator::new(more, manager, reader, output),
            held: PartialLine::new(),
            handles: Handles::new(),
        }
    }

    /// The line of which a beginning is kept, if one is, ends with these bytes: answers it. They stand before its line
    /// feed.
    fn line<W: Sink>(&mut self, sink: &mut W, end: &ScriptLine<'_>) -> Result<(), NotWritten>
        requires at_most { self.old.lines < 2 ^ 127 }
        requires within { IsWithin end.now }
        ensures advances { (printed : List ℕ) × Advances self.old (end.now ++ line_end) printed self.new
            × IsWritten result (W.taken sink.old) (W.taken sink.new) (self.old.pending.bytes
            ++ printed) self.new.pending.bytes }
        ensures lines { self.new.lines ≡ self.old.lines + 1 }
        ensures sink { UsesSink W.calls W.faults result sink.old sink.new self.old.pending self.new.pending }
    {
        if self.held.is_empty() {
            return self.evaluator.answer(sink, end, &mut self.handles);
        }
        self.held.extend(end.bytes());
        let answered = self
            .evaluator
            .answer_held(sink, &self.held, &mut self.handles);
        self.held.clear();
        answered
    }

    /// A block of the input comes: answers each line that ends in it, and keeps what comes behind the last.
    #[tactic(auto, using(crate::proofs::Feeding::fed_nothing, crate::proofs::Feeding::before_within))]
    fn feed<W: Sink>(&mut self, sink: &mut W, block: &[u8]) -> Result<(), NotWritten>
        requires { self.old.lines + length block.now < 2 ^ 127 }
        ensures ok { OnOk result (IsFed self.old self.new block.now [] (W.taken sink.old) (W.taken sink.new)) }
        ensures err { OnErr result (IsCutShort self.old self.new block.now (W.taken sink.old) (W.taken sink.new)) }
        ensures lines { self.new.lines ≤ self.old.lines + length block.now }
        ensures sink { UsesSink W.calls W.faults result sink.old sink.new self.old.pending self.new.pending }
    {
        let mut rest = block;
        while let Some((end, behind)) = ScriptLine::first_of(rest) {
            match self.line(sink, &end) {
                Ok(()) => rest = behind,
                Err(fault) => return Err(fault),
            }
        }
        self.held.extend(rest);
        Ok(())
    }

    /// A block of the input comes: answers each line that ends in it, and writes the answers.
    pub fn take<W: Sink>(&mut self, sink: &mut W, block: &[u8]) -> Result<(), NotWritten>
        requires { self.old.lines + length block.now < 2 ^ 127 }
        ensures ok { OnOk result (IsFed self.old self.new block.now [] (W.taken sink.old) (W.taken sink.new)) }
        ensures written { OnOk result (self.new.pending.bytes ≡ []) }
        ensures err { OnErr result (IsCutShort self.old self.new block.now (W.taken sink.old) (W.taken sink.new)) }
        ensures lines { self.new.lines ≤ self.old.lines + length block.now }
        ensures sink { UsesSink W.calls W.faults result sink.old sink.new self.old.pending self.new.pending }
    {
        match self.feed(sink, block) {
            Ok(()) => self.evaluator.flush(sink),
            Err(fault) => Err(fault),
        }
    }

    /// Answers a last line without a line feed.
    fn last_line<W: Sink>(&mut self, sink: &mut W) -> Result<(), NotWritten>
        requires { self.old.lines < 2 ^ 127 }
        ensures finishes { (printed : List ℕ) × Finishes self.old printed self.new.point
            × IsWritten result (W.taken sink.old) (W.taken sink.new) (self.old.pending.bytes
            ++ printed) self.new.pending.bytes }
        ensures sink { UsesSink W.calls W.faults result sink.old sink.new self.old.pending self.new.pending }
    {
        if self.held.is_empty() {
            return Ok(());
        }
        self.evaluator
            .answer_held(sink, &self.held, &mut self.handles)
    }

    /// The input ends: answers a last line without a line feed, and writes what is printed.
    pub fn finish<W: Sink>(&mut self, sink: &mut W) -> Result<(), NotWritten>
        requires { self.old.lines < 2 ^ 127 }
        ensures finishes { (printed : List ℕ) × Finishes self.old printed self.new.point
            × IsWritten result (W.taken sink.old) (W.taken sink.new) (self.old.pending.bytes ++ printed) [] }
        ensures sink { UsesSink W.calls W.faults result sink.old sink.new self.old.pending self.new.pending }
    {
        match self.last_line(sink) {
            Ok(()) => self.evaluator.flush(sink),
            Err(fault) => Err(fault),
        }
    }

    /// The manager, as the script left it. What the reader still holds stays pinned.
    pub fn into_manager(self) -> Manager<Keeper>
        ensures { result ≡ self.point.whole }
    {
        self.evaluator.into_manager()
    }
}
