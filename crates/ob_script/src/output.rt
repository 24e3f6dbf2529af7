ghost use Rattle.std.specs.Prelude.{◌≡◌, ◌+◌, ◌<◌, ◌≤◌, ◌++◌, ◌⊎◌, [], IfOk, OnOk, OnErr};
ghost use Rattle.ob_script.specs.Devices.{Begins, Writes};
ghost use Rattle.ob_script.specs.Pending.{UsesSink};
ghost use Rattle.ob_script.specs.Printed.{printed, printed_answer};

use crate::answer::Answer;
use crate::block::Block;
use crate::device::{DeviceError, Sink};
use ob_manager::Reply;
use std::alloc::{AllocError, Global};
use std::marker::Model;

/// The sink failed, took no byte, or needed one write more than may be made.
#[derive(Clone, Copy, Debug, PartialEq, Eq)]
pub struct NotWritten;

/// Answers that are printed and not yet written, in a block of fixed size.
#[derive(Drop)]
pub struct Output {
    block: Box<Block>,
    writes_left: u64,
}

impl Model for Output {
    ghost use Rattle.ob_script.specs.Pending.{Pending};

    ghost Value = { Pending };

    ghost view = { λ output. record { bytes = output.block.value; writes_left = output.writes_left } };
}

impl Output {
    /// An output with nothing printed, which makes at most so many writes. Takes all the memory that it will need.
    pub fn new(alloc: Global, writes: u64) -> Result<Output, AllocError>
        ensures { IfOk result (λ output. output ≡ record { bytes = []; writes_left = writes }) }
    {
        let block = Box::new(alloc, Block::new())?;
        Ok(Output {
            block,
            writes_left: writes,
        })
    }

    /// Adds an answer; writes first where the block has no room for it.
    #[tactic(auto, using(crate::proofs::Written::put_laws))]
    pub fn put<W: Sink>(&mut self, sink: &mut W, answer: &Answer<'_>) -> Result<(), NotWritten>
        ensures ok { OnOk result (Writes (W.taken sink.old) (W.taken sink.new)
            (self.old.bytes ++ printed_answer answer.now) self.new.bytes) }
        ensures err { OnErr result (Begins (W.taken sink.old) (W.taken sink.new)
            (self.old.bytes ++ printed_answer answer.now)) }
        ensures sink { UsesSink W.calls W.faults result sink.old sink.new self.old self.new }
    {
        if !self.block.has_room() {
            self.flush(sink)?;
        }
        self.block.add(answer);
        Ok(())
    }

    /// Adds the reply to a call, as [`Output::put`] does an answer.
    #[inline(always)]
    #[tactic(auto, using(crate::proofs::Written::put_laws))]
    pub fn put_reply<W: Sink>(&mut self, sink: &mut W, reply: &Reply) -> Result<(), NotWritten>
        ensures ok { OnOk result (Writes (W.taken sink.old) (W.taken sink.new)
            (self.old.bytes ++ printed reply.now) self.new.bytes) }
        ensures err { OnErr result (Begins (W.taken sink.old) (W.taken sink.new)
            (self.old.bytes ++ printed reply.now)) }
        ensures sink { UsesSink W.calls W.faults result sink.old sink.new self.old self.new }
    {
        if !self.block.has_room() {
            self.flush(sink)?;
        }
        self.block.add_reply(reply);
        Ok(())
    }

    /// Writes all that is printed.
    pub fn flush<W: Sink>(&mut self, sink: &mut W) -> Result<(), NotWritten>
        ensures ok { OnOk result (W.taken sink.new ≡ W.taken sink.old ++ self.old.bytes) }
        ensures empty { OnOk result (self.new.bytes ≡ []) }
        ensures err { OnErr result (Begins (W.taken sink.old) (W.taken sink.new) self.old.bytes) }
        ensures sink { UsesSink W.calls W.faults result sink.old sink.new self.old self.new }
    {
        write_all(sink, self.block.as_slice(), &mut self.writes_left)?;
        self.block.clear();
        Ok(())
    }
}

/// Writes all of some bytes, with at most so many writes.
#[tactic(auto, using(crate::proofs::Written::write_laws))]
fn write_all<W: Sink>(sink: &mut W, bytes: &[u8], writes_left: &mut u64) -> Result<(), NotWritten>
    ensures ok { OnOk result (W.taken sink.new ≡ W.taken sink.old ++ bytes.now) }
    ensures err { OnErr result (Begins (W.taken sink.old) (W.taken sink.new) bytes.now) }
    ensures calls { W.calls sink.new + writes_left.new ≡ W.calls sink.old + writes_left.old }
    ensures faults { W.faults sink.old ≤ W.faults sink.new }
    ensures cause { OnErr result ((W.faults sink.old < W.faults sink.new) ⊎ (writes_left.new ≡ 0)) }
{
    let mut rest = bytes;
    while !rest.is_empty() {
        if *writes_left == 0 {
            return Err(NotWritten);
        }
        *writes_left -= 1;
        match sink.write(rest) {
            Ok(0) => return Err(NotWritten),
            Ok(count) => rest = &rest[count..],
            Err(DeviceError::Interrupted) => {}
            Err(DeviceError::Failed) => return Err(NotWritten),
        }
    }
    Ok(())
}
