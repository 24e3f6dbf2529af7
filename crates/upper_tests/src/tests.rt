ghost use Rattle.std.specs.Prelude.{◌≡◌, true};

mod all_lanes;
mod closing;
mod console;
mod crowd;
mod holding;
mod lanes;
mod members;
mod opening;
mod options;
mod playing;
mod recording;
mod replaying;
mod turns;
mod wanting;
mod writing;

use pin_core::Id;
use std::alloc::{AllocError, Global};
use std::fmt::Debug;
use std::io::{self, Error, ErrorKind, Read, Write};
use std::process::Abort;

/// The first object of the first slot, and of the second.
const FIRST: Id = Id {
    slot: 0,
    generation: 1,
};

const SECOND: Id = Id {
    slot: 1,
    generation: 1,
};

/// Asserts that what is found is what is due.
// In place of `assert_eq!`, which each function that has it pays for in its proof.
fn same<T: Copy + PartialEq + Debug>(rt: &impl Abort, found: T, due: T) {
    assert_eq!(rt; found, due);
}

/// Asserts a condition, which is known from there on.
fn holds(rt: &impl Abort, condition: bool)
    ensures { condition ≡ true }
{
    assert!(rt; condition);
}

/// Asserts a condition at a place of a table.
fn holds_at(rt: &impl Abort, condition: bool, place: usize) {
    assert!(rt; condition, "at place {place} of the table");
}

/// A text in pieces of at most so many bytes, with an interruption before each.
#[derive(Drop)]
struct Pieces<'a> {
    text: &'a [u8],
    piece: usize,
    is_interrupted: bool,
}

impl<'a> Pieces<'a> {
    fn new(text: &'a [u8], piece: usize) -> Pieces<'a> {
        Pieces {
            text,
            piece,
            is_interrupted: false,
        }
    }
}

impl Read for Pieces<'_> {
    fn read(&mut self, buf: &mut [u8]) -> io::Result<usize> {
        self.is_interrupted = !self.is_interrupted;
        if self.is_interrupted {
            return Err(Error::from(ErrorKind::Interrupted));
        }
        let most = self.piece.min(buf.len());
        self.text.read(&mut buf[..most])
    }
}

/// A text, and then a failure in place of its end.
#[derive(Drop)]
struct Failing<'a> {
    text: &'a [u8],
}

impl Read for Failing<'_> {
    fn read(&mut self, buf: &mut [u8]) -> io::Result<usize> {
        if self.text.is_empty() {
            return Err(Error::from(ErrorKind::Other));
        }
        self.text.read(buf)
    }
}

/// A reader that is interrupted whenever it is asked.
#[derive(Drop)]
struct Interrupted;

impl Read for Interrupted {
    fn read(&mut self, _buf: &mut [u8]) -> io::Result<usize> {
        Err(Error::from(ErrorKind::Interrupted))
    }
}

/// A page to write on, with an interruption before each write. Once it is full it fails, or takes nothing.
#[derive(Drop)]
struct Page<'a> {
    left: &'a mut [u8],
    is_failing: bool,
    is_interrupted: bool,
}

impl<'a> Page<'a> {
    fn new(page: &'a mut [u8], is_failing: bool) -> Page<'a> {
        Page {
            left: page,
            is_failing,
            is_interrupted: false,
        }
    }
}

impl Write for Page<'_> {
    fn write(&mut self, bytes: &[u8]) -> io::Result<usize> {
        self.is_interrupted = !self.is_interrupted;
        if self.is_interrupted {
            return Err(Error::from(ErrorKind::Interrupted));
        }
        if self.left.is_empty() && self.is_failing {
            return Err(Error::from(ErrorKind::Other));
        }
        self.left.write(bytes)
    }

    fn flush(&mut self) -> io::Result<()> {
        Ok(())
    }
}

/// Adds a text so many times.
fn add(whole: &mut Vec<u8>, text: &[u8], times: usize) -> Result<(), AllocError> {
    for _ in 0..times {
        whole.extend_from_slice(text)?;
    }
    Ok(())
}

/// A text, and behind it another so many times.
fn repeated(
    alloc: Global,
    first: &[u8],
    again: &[u8],
    times: usize,
) -> Result<Vec<u8>, AllocError> {
    let mut whole = Vec::new(alloc);
    whole.extend_from_slice(first)?;
    add(&mut whole, again, times)?;
    Ok(whole)
}
