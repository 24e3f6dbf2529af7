ghost use Rattle.std.specs.Prelude.{◌≡◌, ◌≢◌, ◌↔◌, ◌-◌, ◌<◌, ◌≤◌, ◌++◌, ℕ, [], false, length, slice_index_or, true};
ghost use Rattle.std.specs.Prelude.{IsTrue, OnErr, OnOk};
ghost use Rattle.ob_manager.specs.Calls.{with_parts};
ghost use Rattle.ob_script.specs.Recording.{Adds, Notes, TakesLines, last_line, recording};
ghost use Rattle.ob_script.specs.Telling.{text_for};

use crate::block::Block;
use crate::record::text_of;
use ob_manager::{AsMake, CallOf, Reply};
use std::alloc::{AllocError, Global};
use std::convert::AsSlice;
use std::marker::Model;

/// The line behind which nothing is recorded, since memory was wanting.
const LAST_LINE: &[u8] = b"# recording stopped: no memory\n";

/// A record that is turned on and off, and taken piece by piece. It refuses no call: where memory is wanting it stops,
/// and says so.
#[derive(Drop)]
pub struct Recorder {
    text: Vec<u8>,
    /// Where an answer is printed, as long as calls are recorded.
    block: Option<Box<Block>>,
    alloc: Global,
}

impl Model for Recorder {
    ghost use Rattle.std.specs.Prelude.{◌≡◌, ◌+◌, ◌≤◌, true, is_some, vec_len, vec_capacity};
    ghost use Rattle.ob_script.specs.Recording.{Recording};

    ghost Value = { Recording };

    ghost view = { λ r. record { text = r.text.items; is_on = is_some r.block } };

    // room to say that it stops
    ghost invariant = { λ r. is_some r.block ≡ true → vec_len r.text + 31 ≤ vec_capacity r.text };
}

impl Recorder {
    /// A recorder that is off and has no text. It takes no memory.
    pub fn new(alloc: Global) -> Recorder
        ensures { result ≡ recording [] false }
    {
        Recorder {
            text: Vec::new(alloc),
            block: None,
            alloc,
        }
    }

    /// Whether calls are recorded.
    #[inline(always)]
    pub fn is_on(&self) -> bool
        ensures { result ≡ self.now.is_on }
    {
        self.block.is_some()
    }

    /// Whether all that was recorded has been taken.
    pub fn is_empty(&self) -> bool
        ensures { IsTrue result ↔ (self.now.text ≡ []) }
    {
        self.text.is_empty()
    }

    /// Calls are recorded from now on. The refusal is want of memory, and never comes where they were before.
    pub fn start(&mut self) -> Result<(), AllocError>
        ensures ok { OnOk result (self.new ≡ recording self.old.text true) }
        ensures memory { OnErr result ((self.new ≡ self.old) × (self.old.is_on ≡ false)) }
    {
        if self.block.is_some() {
            return Ok(());
        }
        let block = Box::new(self.alloc, Block::new())?;
        self.text.reserve(LAST_LINE.len())?;
        self.block = Some(block);
        Ok(())
    }

    /// Calls are recorded no more. What was recorded stays until it is taken.
    pub fn stop(&mut self)
        ensures { self.new ≡ recording self.old.text false }
    {
        self.block = None;
    }

    /// Records a call with its answer, where calls are recorded.
    pub fn note<M: AsMake, T: AsSlice<u8>, H: AsSlice<u32>>(
        &mut self,
        call: &CallOf<M, T, H>,
        reply: &Reply,
    )
        ensures { Notes self.old (text_for (with_parts M.making T.items H.items call.now) reply.now) self.new }
    {
        let told = match &mut self.block {
            None => return,
            Some(block) => text_of(self.alloc, block, call, reply),
        };
        match told {
            Ok(lines) => self.keep(lines.as_slice()),
            Err(_) => self.end(),
        }
    }

    /// Adds lines, or stops.
    fn keep(&mut self, lines: &[u8])
        requires { self.old.is_on ≡ true }
        ensures { Adds self.old lines.now self.new }
    {
        if self
            .text
            .reserve(lines.len().saturating_add(LAST_LINE.len()))
            .is_err()
        {
            return self.end();
        }
        let _ = self.text.extend_from_slice(lines);
    }

    /// Stops, and says so.
    fn end(&mut self)
        requires { self.old.is_on ≡ true }
        ensures { self.new ≡ recording (self.old.text ++ last_line) false }
    {
        let _ = self.text.extend_from_slice(LAST_LINE);
        self.block = None;
    }

    /// Takes as many whole lines out of the record as there is room for, puts them at the room's front, and says how
    /// many bytes they have. A line with its line feed has at most 4,098.
    pub fn take(&mut self, room: &mut [u8]) -> usize
        ensures lines { TakesLines self.old.text room.old result self.new.text room.new }
        ensures same { self.new.is_on ≡ self.old.is_on }
    {
        let count = lines_within(self.text.as_slice(), room.len());
        room[..count].copy_from_slice(&self.text[..count]);
        let left = self.text.len() - count;
        self.text.as_mut_slice().rotate_left(count);
        self.text.truncate(left);
        count
    }
}

/// How many bytes the whole lines have that begin a text and fit into so many.
fn lines_within(text: &[u8], room: usize) -> usize
    ensures fits { result ≤ room }
    ensures within { result ≤ length text.now }
    ensures ends { 0 < result → slice_index_or text.now (result - 1) 0 ≡ 10 }
    ensures most { (n : ℕ) → result < n → n ≤ room → n ≤ length text.now → slice_index_or text.now (n - 1) 0 ≢ 10 }
{
    let mut count = room.min(text.len());
    while count > 0 && text[count - 1] != b'\n' {
        count -= 1;
    }
    count
}
