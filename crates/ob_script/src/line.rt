ghost use Rattle.std.specs.Prelude.{◌≡◌, ◌∷◌, [], ◌<◌, IfSome, IfNone, MatchOption, length, take};
ghost use Rattle.std.specs.List.{after_first, before_first, position_or_len};
ghost use Rattle.memchr.specs.Find.{is_byte};
ghost use Rattle.ob_script.specs.Grammar.{text_of};
ghost use Rattle.ob_script.specs.Words.{words_of};

use crate::ends::near_ends;
use crate::grammar::text_of;
use crate::words::{Words, place_of};
use memchr::memchr;
use std::marker::Model;

/// A line of a script, without its line feed, and how long its first word is. A clause sees it as its bytes.
#[derive(Drop)]
pub struct ScriptLine<'a> {
    bytes: &'a [u8],
    word: usize,
}

impl<'a> Model for ScriptLine<'a> {
    ghost use Rattle.std.specs.Prelude.{◌≡◌, ℕ, List};
    ghost use Rattle.std.specs.List.{position_or_len};
    ghost use Rattle.memchr.specs.Find.{is_byte};

    ghost Value = { List ℕ };

    ghost view = { λ line. line.bytes.now };

    ghost invariant = { λ line. position_or_len (is_byte 32) line.bytes.now ≡ line.word };
}

impl<'a> ScriptLine<'a> {
    /// A line.
    pub fn of(bytes: &'a [u8]) -> ScriptLine<'a>
        ensures { result ≡ bytes.now }
    {
        let word = word_of(bytes);
        ScriptLine { bytes, word }
    }

    /// The first line of a text, and what stands behind its line feed; none where there is no line feed.
    #[inline(always)]
    pub fn first_of(text: &'a [u8]) -> Option<(ScriptLine<'a>, &'a [u8])>
        ensures within { IfSome result (λ _. position_or_len (is_byte 10) text.now < length text.now) }
        ensures before { IfSome result (λ parts. parts.0 ≡ before_first (is_byte 10) text.now) }
        ensures behind { IfSome result (λ parts. parts.1.now ≡ after_first (is_byte 10) text.now) }
        ensures none { IfNone result (position_or_len (is_byte 10) text.now ≡ length text.now) }
    {
        let (end, word) = ends_of(text)?;
        let line = ScriptLine {
            bytes: &text[..end],
            word,
        };
        Some((line, &text[end + 1..]))
    }

    /// Its bytes.
    pub fn bytes(&self) -> &'a [u8]
        ensures { result.now ≡ self.now }
    {
        self.bytes
    }

    /// The first word of its text, and the words behind it; none where it is the only one.
    #[inline(always)]
    #[tactic(auto, using(crate::proofs::FirstWords::first_word, crate::proofs::FirstWords::only_word))]
    pub(crate) fn parted(&self) -> Option<(&'a [u8], Words<'a>)>
        ensures { MatchOption result (words_of (text_of self.now) ≡ text_of self.now ∷ [])
            (λ parts. words_of (text_of self.now) ≡ parts.0.now ∷ parts.1) }
    {
        let text = text_of(self.bytes);
        if self.word >= text.len() {
            return None;
        }
        Some((&text[..self.word], Words::of(&text[self.word + 1..])))
    }
}

/// Where the first line of a text ends, and how long its first word is. Most lines end in the first 32 bytes, which are
/// looked at all at once.
#[inline(always)]
fn ends_of(text: &[u8]) -> Option<(usize, usize)>
    ensures within { IfSome result (λ ends. ends.0 < length text.now) }
    ensures line { IfSome result (λ ends. position_or_len (is_byte 10) text.now ≡ ends.0) }
    ensures word { IfSome result (λ ends. position_or_len (is_byte 32) (take ends.0 text.now) ≡ ends.1) }
    ensures none { IfNone result (position_or_len (is_byte 10) text.now ≡ length text.now) }
{
    if text.len() >= 32 {
        if let Some(ends) = near_ends(text) {
            return Some(ends);
        }
    }
    let end = far_end(text)?;
    Some((end, word_of(&text[..end])))
}

/// Where the first line of a text ends, which may be far.
#[cold]
#[inline(never)]
#[tactic(auto, using(crate::proofs::Cuts::first_place, crate::proofs::Cuts::no_place))]
fn far_end(text: &[u8]) -> Option<usize>
    ensures within { IfSome result (λ end. end < length text.now) }
    ensures line { IfSome result (λ end. position_or_len (is_byte 10) text.now ≡ end) }
    ensures none { IfNone result (position_or_len (is_byte 10) text.now ≡ length text.now) }
{
    memchr(b'\n', text)
}

/// How long the first word of a line is.
#[inline(never)]
#[tactic(auto, using(crate::proofs::Cuts::first_place, crate::proofs::Cuts::no_place))]
fn word_of(line: &[u8]) -> usize
    ensures { position_or_len (is_byte 32) line.now ≡ result }
{
    match place_of(b' ', line) {
        Some(at) => at,
        None => line.len(),
    }
}
