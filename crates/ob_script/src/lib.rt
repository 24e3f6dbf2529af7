//! The text of scripts: what each line asks for, by a grammar (`specs/Grammar.antt`), how answers are printed and
//! written, and how calls that were made are told as a script.
//!
//! A line takes no memory: names stay as they stand in it, and the handles of a wait are read into a list that is lent.
//!
//! ```rust
//! # use ob_script::{Command, Handles, LineCall, ScriptLine, command_of};
//! # use pin_core::Id;
//! let mut handles = Handles::new();
//! let (line, rest) = ScriptLine::first_of(b"close t1 h4\npin s0.1\n").unwrap();
//! command_of(false, &line, &mut handles);                 // Command::Ask(LineCall::CloseHandle { thread: 1, handle: 4 })
//! command_of(false, &ScriptLine::of(b"pin s0.1"), &mut handles); // Command::Pin(Id { slot: 0, generation: 1 })
//! command_of(false, &ScriptLine::of(b"wait t1 all 5 h8 h4"), &mut handles);
//! handles.len();                                      // 2
//! command_of(false, &ScriptLine::of(b"close t1"), &mut handles); // Command::Bad
//! command_of(false, &ScriptLine::of(b"signal s0.1 set"), &mut handles); // Command::Bad
//! command_of(true, &ScriptLine::of(b"signal s0.1 set"), &mut handles);  // Command::Ask(LineCall::SignalHost { .. })
//! # assert!(rt; rest == b"pin s0.1\n".as_slice() && handles.as_slice() == [8, 4].as_slice());
//! ```
//!
//! A [`Source`] gives bytes and a [`Sink`] takes them, and a contract names these bytes; [`Wired`] makes a reader or a
//! writer of std one. An [`Output`] prints each [`Answer`] as one line into a block of fixed size, and writes the
//! block.
//!
//! ```rust
//! # use ob_manager::Reply;
//! # use ob_script::{Answer, Output, Wired};
//! # let reply = Reply::Spawned { process: 1, thread: 1 };
//! let mut sink = Wired::new(rt.stdout());
//! let mut output = Output::new(rt.alloc(), 1000)?;      // at most so many writes
//! output.put(&mut sink, &Answer::Replied(reply))?;
//! output.flush(&mut sink)?;
//! ```
//!
//! A [`Record`] has each call as the line that asks for it, and behind it what it was answered, as a comment.
//!
//! ```rust
//! # use ob_manager::{Call, Limits};
//! # use ob_script::Record;
//! # let mut manager = call_tables::locked_manager(alloc, Limits::default())?;
//! let mut record = Record::new(alloc)?;
//! record.add(&Call::Spawn { session: 1 }, &manager.apply(&Call::Spawn { session: 1 }))?;
//! record.as_slice();                                  // b"spawn 1\n# p1 t1\n"
//! ```
#![tactic(auto)]

mod answer;
mod block;
mod collected;
mod command;
mod device;
mod dumping;
mod ends;
mod fitting;
mod grammar;
mod io_trace;
mod law;
mod line;
mod naming;
mod numbers;
mod output;
mod partial_line;
mod record;
mod recorder;
mod rights;
mod wired;
mod words;
mod writing;

pub use answer::Answer;
pub use block::Block;
pub use collected::Collected;
pub use command::{Command, Handles, LineCall};
pub use device::{CALLS_MOST, DeviceError, READ_MOST, Sink, Source, zeros};
pub use dumping::dump;
pub use grammar::{command_of, is_too_long, text_of};
pub use io_trace::IoTrace;
pub use law::law_of_lines;
pub use line::ScriptLine;
pub use numbers::labelled;
pub use output::{NotWritten, Output};
pub use partial_line::PartialLine;
pub use record::Record;
pub use recorder::Recorder;
pub use wired::Wired;
pub use words::cut_far;
pub use writing::line_of;
