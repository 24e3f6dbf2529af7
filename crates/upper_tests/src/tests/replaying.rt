//! A journal as a script: a run of it prints what the journal has.
use super::holds;
use ob_console::{run_whole, script_of};
use ob_manager::Limits;
use ob_script::{Collected, cut_far};
use ob_shared::Entry;
use std::alloc::Global;
use std::process::Abort;

/// What is left of some answers behind that to a line, which the comment behind it tells; none where it is another. A
/// comment in place of a line has no answer.
fn behind<'a>(line: &[u8], comment: &[u8], answers: &'a [u8]) -> Option<&'a [u8]> {
    if line.starts_with(b"#") {
        return Some(answers);
    }
    let (answer, rest) = cut_far(b'\n', answers)?;
    if comment.len() < 2 || &comment[2..] != answer {
        return None;
    }
    Some(rest)
}

/// A script, and answers, behind its first entry.
fn behind_one<'a, 'b>(script: &'a [u8], answers: &'b [u8]) -> Option<(&'a [u8], &'b [u8])> {
    let (line, rest) = cut_far(b'\n', script)?;
    let (comment, rest) = cut_far(b'\n', rest)?;
    let left = behind(line, comment, answers)?;
    Some((rest, left))
}

/// Whether these are the answers that a script tells of so many entries.
fn are_told(mut script: &[u8], mut answers: &[u8], entries: usize) -> bool {
    for _ in 0..entries {
        let Some((rest, left)) = behind_one(script, answers) else {
            return false;
        };
        script = rest;
        answers = left;
    }
    script.is_empty() && answers.is_empty()
}

/// Whether a run of a journal's script prints what the journal has.
fn is_replayed(alloc: Global, limits: Limits, journal: &[Entry]) -> bool {
    let Ok(script) = script_of(alloc, journal) else {
        return false;
    };
    let mut sink = Collected::new(alloc, usize::MAX);
    let is_run = run_whole(alloc, true, limits, script.as_slice(), &mut sink).is_ok();
    is_run
        && sink.whole().is_some_and(|printed| are_told(script.as_slice(), printed, journal.len()))
}

/// A journal is replayed; once more where memory was wanting.
pub(super) fn replays(rt: &impl Abort, alloc: Global, limits: Limits, journal: &[Entry]) {
    holds(
        rt,
        is_replayed(alloc, limits, journal) || is_replayed(alloc, limits, journal),
    );
}
