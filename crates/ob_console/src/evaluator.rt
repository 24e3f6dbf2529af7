ghost use Rattle.std.specs.Prelude.{◌≡◌, ◌+◌, ◌<◌, ◌^◌, ◌++◌, OnErr, OnOk, Some, []};
ghost use Rattle.ob_store.specs.Directory.{directory_of};
ghost use Rattle.ob_script.specs.Commands.{Bad, Pin, Unpin, ShowCard, command_in};
ghost use Rattle.ob_script.specs.Grammar.{command_of};
ghost use Rattle.ob_script.specs.PartialLines.{command_of_partial_line};
ghost use Rattle.ob_script.specs.Printed.{printed_names};
ghost use Rattle.ob_console.specs.Runs.{point};
ghost use Rattle.ob_console.specs.Sessions.{Enacts};
ghost use Rattle.ob_script.specs.Pending.{IsWritten, UsesSink};
ghost use Rattle.ob_script.specs.Devices.{Begins};

use crate::asking::reply_to;
use crate::pinning::{card, pin, unpin};
use ob_manager::Manager;
use ob_script::{
    Answer, Command, Handles, NotWritten, Output, PartialLine, ScriptLine, Sink, command_of,
};
use pin_core::Id;
use pin_words::{Keeper, Reader};
use std::marker::Model;

/// Does what lines ask, over a manager and a reader of the same pins, and prints the answers.
#[derive(Drop)]
pub struct Evaluator {
    more: bool,
    manager: Manager<Keeper>,
    reader: Reader,
    output: Output,
    lines: u128,
}

impl Model for Evaluator {
    ghost use Rattle.std.specs.Prelude.{◌≡◌, Some};
    ghost use Rattle.ob_console.specs.Runs.{point};
    ghost use Rattle.ob_console.specs.Sessions.{Evaluation};

    ghost Value = { Evaluation };

    ghost view = { λ evaluator. record {
      point = point evaluator.more evaluator.manager evaluator.reader.view;
      pending = evaluator.output;
      lines = evaluator.lines;
    } };

    ghost invariant = { λ evaluator. evaluator.manager.keeper.table ≡ Some evaluator.reader.table };
}

impl Evaluator {
    /// An evaluator to which no line has come. With `more` it reads the lines that the option `--more` adds, too.
    pub fn new(more: bool, manager: Manager<Keeper>, reader: Reader, output: Output) -> Evaluator
        requires { manager.keeper.table ≡ Some reader.table }
        ensures { result ≡ record { point = point more manager reader.view; pending = output; lines = 0 } }
    {
        Evaluator {
            more,
            manager,
            reader,
            output,
            lines: 0,
        }
    }

    /// Does what a line asks, and prints its answer. The handles of a wait are read into `handles`, in place of those
    /// that stood there.
    pub fn answer<W: Sink>(
        &mut self,
        sink: &mut W,
        line: &ScriptLine<'_>,
        handles: &mut Handles,
    ) -> Result<(), NotWritten>
        requires { self.old.lines < 2 ^ 127 }
        ensures prints { Enacts self.old (self.old.lines + 1) (command_of self.old.point.more line.now) result
            (W.taken sink.old) (W.taken sink.new) self.new }
        ensures lines { self.new.lines ≡ self.old.lines + 1 }
        ensures sink { UsesSink W.calls W.faults result sink.old sink.new self.old.pending self.new.pending }
    {
        self.lines += 1;
        let act = command_of(self.more, line, handles);
        self.enact(sink, &act, handles.as_slice())
    }

    /// Does what a partial line asks, as [`Evaluator::answer`] does; one that is too long is bad.
    pub fn answer_held<W: Sink>(
        &mut self,
        sink: &mut W,
        held: &PartialLine,
        handles: &mut Handles,
    ) -> Result<(), NotWritten>
        requires { self.old.lines < 2 ^ 127 }
        ensures prints { Enacts self.old (self.old.lines + 1) (command_of_partial_line self.old.point.more held.now)
            result (W.taken sink.old) (W.taken sink.new) self.new }
        ensures lines { self.new.lines ≡ self.old.lines + 1 }
        ensures sink { UsesSink W.calls W.faults result sink.old sink.new self.old.pending self.new.pending }
    {
        match held.line() {
            Some(line) => self.answer(sink, &ScriptLine::of(line), handles),
            None => {
                self.lines += 1;
                self.refuse(sink)
            }
        }
    }

    /// Does the act of the last line, where `handles` are those of a wait, and prints its answer.
    //
    // It is called in one place, so it stands there when it runs, and the command is nowhere else. What seldom comes
    // has functions of its own that don't: room for what they print would be made on each line.
    fn enact<W: Sink>(
        &mut self,
        sink: &mut W,
        act: &Command<'_>,
        handles: &[u32],
    ) -> Result<(), NotWritten>
        ensures prints { Enacts self.old self.old.lines (command_in handles.now act.now) result (W.taken sink.old)
            (W.taken sink.new) self.new }
        ensures lines { self.new.lines ≡ self.old.lines }
        ensures sink { UsesSink W.calls W.faults result sink.old sink.new self.old.pending self.new.pending }
    {
        match act {
            Command::Nothing => Ok(()),
            Command::Ask(ask) => self.output.put_reply(
                sink,
                &reply_to(&mut self.manager, &mut self.reader, handles, ask),
            ),
            Command::Bad => self.refuse(sink),
            Command::ListNames => list(&self.manager, &mut self.output, sink),
            Command::Pin(id) => self.pin(sink, *id),
            Command::Unpin(id) => self.unpin(sink, *id),
            Command::ShowCard(id) => self.show_card(sink, *id),
        }
    }

    /// Says that the last line is bad.
    #[inline(never)]
    #[tactic(auto, using(ob_script::proofs::Written::put_written))]
    fn refuse<W: Sink>(&mut self, sink: &mut W) -> Result<(), NotWritten>
        ensures prints { Enacts self.old self.old.lines Bad result (W.taken sink.old) (W.taken sink.new) self.new }
        ensures lines { self.new.lines ≡ self.old.lines }
        ensures sink { UsesSink W.calls W.faults result sink.old sink.new self.old.pending self.new.pending }
    {
        self.output.put(sink, &Answer::BadLine(self.lines))
    }

    /// Has the reader hold one copy more, and prints whether it does.
    #[inline(never)]
    #[tactic(auto, using(ob_script::proofs::Written::put_written))]
    fn pin<W: Sink>(&mut self, sink: &mut W, id: Id) -> Result<(), NotWritten>
        ensures prints { Enacts self.old self.old.lines (Pin id) result (W.taken sink.old) (W.taken sink.new) self.new }
        ensures lines { self.new.lines ≡ self.old.lines }
        ensures sink { UsesSink W.calls W.faults result sink.old sink.new self.old.pending self.new.pending }
    {
        let answer = pin(&mut self.manager, &mut self.reader, id);
        self.output.put(sink, &Answer::Pinned(id, answer))
    }

    /// Lets one copy that the reader holds go, and prints whether there was one.
    #[inline(never)]
    #[tactic(auto, using(ob_script::proofs::Written::put_written))]
    fn unpin<W: Sink>(&mut self, sink: &mut W, id: Id) -> Result<(), NotWritten>
        ensures prints { Enacts self.old self.old.lines (Unpin id) result (W.taken sink.old)
            (W.taken sink.new) self.new }
        ensures lines { self.new.lines ≡ self.old.lines }
        ensures sink { UsesSink W.calls W.faults result sink.old sink.new self.old.pending self.new.pending }
    {
        let done = unpin(&mut self.reader, id);
        self.output.put(sink, &Answer::Unpinned(id, done))
    }

    /// Prints what the object of an Id that the reader holds was created as.
    #[inline(never)]
    #[tactic(auto, using(ob_script::proofs::Written::put_written))]
    fn show_card<W: Sink>(&mut self, sink: &mut W, id: Id) -> Result<(), NotWritten>
        ensures prints { Enacts self.old self.old.lines (ShowCard id) result (W.taken sink.old)
            (W.taken sink.new) self.new }
        ensures lines { self.new.lines ≡ self.old.lines }
        ensures sink { UsesSink W.calls W.faults result sink.old sink.new self.old.pending self.new.pending }
    {
        let shown = card(&mut self.manager, &mut self.reader, id);
        self.output.put(sink, &Answer::Shown(shown))
    }

    /// Writes all that is printed.
    pub fn flush<W: Sink>(&mut self, sink: &mut W) -> Result<(), NotWritten>
        ensures point { self.new.point ≡ self.old.point }
        ensures lines { self.new.lines ≡ self.old.lines }
        ensures ok { OnOk result (W.taken sink.new ≡ W.taken sink.old ++ self.old.pending.bytes) }
        ensures empty { OnOk result (self.new.pending.bytes ≡ []) }
        ensures err { OnErr result (Begins (W.taken sink.old) (W.taken sink.new) self.old.pending.bytes) }
        ensures sink { UsesSink W.calls W.faults result sink.old sink.new self.old.pending self.new.pending }
    {
        self.output.flush(sink)
    }

    /// Hands the manager out; the reader is dropped.
    pub fn into_manager(self) -> Manager<Keeper>
        ensures { result ≡ self.point.whole }
    {
        self.manager
    }
}

/// Prints the names of objects.
fn list<W: Sink>(
    manager: &Manager<Keeper>,
    output: &mut Output,
    sink: &mut W,
) -> Result<(), NotWritten>
    ensures written { IsWritten result (W.taken sink.old) (W.taken sink.new)
        (output.old.bytes ++ printed_names (directory_of manager.now.state)) output.new.bytes }
    ensures sink { UsesSink W.calls W.faults result sink.old sink.new output.old output.new }
{
    match output.put(sink, &Answer::NameCount(manager.directory_len())) {
        Ok(()) => {}
        Err(fault) => return Err(fault),
    }
    for (name, id) in manager.directory() {
        match output.put(sink, &Answer::Named(name, id)) {
            Ok(()) => {}
            Err(fault) => return Err(fault),
        }
    }
    Ok(())
}
