ghost use Rattle.std.specs.Prelude.{◌≡◌, ◌++◌, [], ℕ, List, IfOk, OnErr, OnOk, take};
ghost use Rattle.std.specs.Prelude.{vec_items};
ghost use Rattle.std.specs.Option.{option_map};
ghost use Rattle.ob_manager.specs.Calls.{with_parts};
ghost use Rattle.ob_manager.specs.Makings.{Making};
ghost use Rattle.ob_manager.specs.Steps.{reclaim_in};
ghost use Rattle.ob_script.specs.Printed.{line_end, printed, printed_reply};
ghost use Rattle.ob_script.specs.Fitting.{Fits};
ghost use Rattle.ob_script.specs.Telling.{asking, comment, is_held, is_held_slot, is_repeatable, text_for};

use crate::block::Block;
use crate::writing::line_of;
use ob_manager::{AsMake, CallOf, Reply};
use ob_rights::Fault;
use pin_words::Reclaim;
use std::alloc::{AllocError, Global};
use std::convert::AsSlice;
use std::marker::Model;

/// The most bytes of a comment's text: with its `# ` it is a line of 4,096 bytes.
const TEXT_MOST: usize = 4094;

/// Calls with their answers, as lines of a script. A contract sees the text.
///
/// A call is the line that asks for it, so that the script makes it again. It is a comment where memory was wanting,
/// where a slot that was to be taken back is held, since the pins aren't in the script, and where no line asks for the
/// call. Behind each stands what it was answered, as a comment.
#[derive(Drop)]
pub struct Record {
    text: Vec<u8>,
    block: Box<Block>,
    alloc: Global,
}

impl Model for Record {
    ghost use Rattle.std.specs.Prelude.{ℕ, List};

    ghost Value = { List ℕ };

    ghost view = { λ r. r.text.items };
}

impl Record {
    /// A record of no call.
    pub fn new(alloc: Global) -> Result<Record, AllocError>
        ensures { IfOk result (λ r. r ≡ []) }
    {
        let block = Box::new(alloc, Block::new())?;
        Ok(Record {
            text: Vec::new(alloc),
            block,
            alloc,
        })
    }

    /// Adds a call with its answer. The refusal is want of memory, and leaves the record.
    pub fn add<M: AsMake, T: AsSlice<u8>, H: AsSlice<u32>>(
        &mut self,
        call: &CallOf<M, T, H>,
        reply: &Reply,
    ) -> Result<(), AllocError>
        ensures ok { OnOk result (self.new
            ≡ self.old ++ text_for (with_parts M.making T.items H.items call.now) reply.now) }
        ensures memory { OnErr result (self.new ≡ self.old) }
        ensures fits { Fits (with_parts M.making T.items H.items call.now) }
    {
        let text = text_of(self.alloc, &mut self.block, call, reply)?;
        self.text.extend_from_slice(text.as_slice())
    }

    /// The text: whole lines, each with its line feed.
    pub fn as_slice(&self) -> &[u8]
        ensures { result.now ≡ self.now }
    {
        self.text.as_slice()
    }

    /// The text, handed out.
    pub fn into_text(self) -> Vec<u8>
        ensures { result.items ≡ self }
    {
        self.text
    }
}

/// The lines of a call with its answer, which is printed in a block.
pub(crate) fn text_of<M: AsMake, T: AsSlice<u8>, H: AsSlice<u32>>(
    alloc: Global,
    block: &mut Block,
    call: &CallOf<M, T, H>,
    reply: &Reply,
) -> Result<Vec<u8>, AllocError>
    ensures text { IfOk result (λ text. text.items
        ≡ text_for (with_parts M.making T.items H.items call.now) reply.now) }
    ensures fits { Fits (with_parts M.making T.items H.items call.now) }
{
    let line = line_of(alloc, call)?;
    let mut text = Vec::new(alloc);
    add_asking(&mut text, is_repeatable(call, reply), line)?;
    add_answer(&mut text, block, reply)?;
    Ok(text)
}

/// Whether the answer says that a slot is held.
fn is_held_slot(reply: &Reply) -> bool
    ensures { result ≡ is_held_slot (reclaim_in reply.now) }
{
    match reply {
        Reply::Reaped { outcome, .. } => matches!(outcome, Reclaim::Held { .. }),
        _ => false,
    }
}

/// Whether a slot that was to be taken back is held.
fn is_held<M, T, H>(call: &CallOf<M, T, H>, reply: &Reply) -> bool
    ensures { (m : M → Making) (t : T → List ℕ) (h : H → List ℕ)
        → result ≡ is_held (with_parts m t h call.now) reply.now }
{
    match call {
        CallOf::Reap { .. } => is_held_slot(reply),
        _ => false,
    }
}

/// Whether a call can be made again for this answer.
fn is_repeatable<M, T, H>(call: &CallOf<M, T, H>, reply: &Reply) -> bool
    ensures { (m : M → Making) (t : T → List ℕ) (h : H → List ℕ)
        → result ≡ is_repeatable (with_parts m t h call.now) reply.now }
{
    !(matches!(reply, Reply::Refused(Fault::Memory)) || is_held(call, reply))
}

/// Adds the line that asks for a call, or a comment in its place.
fn add_asking(text: &mut Vec<u8>, again: bool, line: Option<Vec<u8>>) -> Result<(), AllocError>
    ensures { OnOk result (text.new.items
        ≡ text.old.items ++ (asking again (option_map vec_items line) ++ line_end)) }
{
    let Some(line) = line else {
        return add_comment(text, b"a call that no line asks for");
    };
    if again {
        add_line(text, line.as_slice())
    } else {
        add_comment(text, line.as_slice())
    }
}

/// Adds an answer, as a comment.
#[tactic(auto, using(crate::proofs::Answers::without_end))]
fn add_answer(text: &mut Vec<u8>, block: &mut Block, reply: &Reply) -> Result<(), AllocError>
    ensures { OnOk result (text.new.items ≡ text.old.items ++ (comment (printed_reply reply.now) ++ line_end)) }
{
    block.clear();
    block.add_reply(reply);
    let printed = block.as_slice();
    add_comment(text, &printed[..printed.len() - 1])
}

/// Adds a comment, of which the text is cut where it is too long for a line.
fn add_comment(text: &mut Vec<u8>, words: &[u8]) -> Result<(), AllocError>
    ensures { OnOk result (text.new.items ≡ text.old.items ++ (comment words.now ++ line_end)) }
{
    text.extend_from_slice(b"# ")?;
    add_line(text, cut(words))
}

/// The text of a comment, as far as it fits in a line.
fn cut(text: &[u8]) -> &[u8]
    ensures { result.now ≡ take TEXT_MOST text.now }
{
    if text.len() > TEXT_MOST {
        &text[..TEXT_MOST]
    } else {
        text
    }
}

fn add_line(text: &mut Vec<u8>, line: &[u8]) -> Result<(), AllocError>
    ensures { OnOk result (text.new.items ≡ text.old.items ++ (line.now ++ line_end)) }
{
    text.extend_from_slice(line)?;
    text.extend_from_slice(b"\n")
}
