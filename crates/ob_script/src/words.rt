ghost use Rattle.std.specs.Prelude.{◌≡◌, ◌≢◌, ◌<◌, ℕ, List, [], ◌∷◌, length, IfSome, IfNone, IsSome, IsTrue, ◌↔◌};
ghost use Rattle.std.specs.Prelude.{MatchOption};
ghost use Rattle.std.specs.Str.{bytes_eq};
ghost use Rattle.std.specs.List.{after_first, before_first, position_or_len};
ghost use Rattle.memchr.specs.Find.{IsFirstByte, is_byte};
ghost use Rattle.ob_script.specs.Words.{begins_with, behind, id_of, joined, labelled, words_of};
ghost use Rattle.ob_script.specs.WordsLeft.{words_left};

use crate::numbers::{leading_id, leading_labelled};
use memchr::memchr;
use pin_core::Id;
use std::marker::Model;

/// Reads the next word by a function that gives what it is with what stands behind it, or nothing: `None` where no
/// word is left, and `Some(None)` where the function gives nothing.
macro_rules! next_read {
    ($words:ident, $rest:ident, $leading:expr) => {{
        let $rest = $words.rest?;
        match $leading {
            Some((value, behind)) => {
                $words.rest = behind;
                Some(Some(value))
            }
            None => {
                let _ = $words.take($rest, seldom_place_of(b' ', $rest));
                Some(None)
            }
        }
    }};
}

/// The words of a text that are left: what stands between single spaces. A clause sees them as a list.
#[derive(Drop)]
pub struct Words<'a> {
    rest: Option<&'a [u8]>,
}

impl<'a> Model for Words<'a> {
    ghost use Rattle.std.specs.Prelude.{ℕ, List};
    ghost use Rattle.ob_script.specs.WordsLeft.{words_left};

    ghost Value = { List (List ℕ) };

    ghost view = { λ words. words_left words.rest };
}

impl<'a> Words<'a> {
    /// The words of a text.
    pub fn of(text: &'a [u8]) -> Words<'a>
        ensures { result ≡ words_of text.now }
    {
        Words { rest: Some(text) }
    }

    /// The next word.
    pub fn next(&mut self) -> Option<&'a [u8]>
        ensures { MatchOption result (self.old ≡ []) (λ word. self.old ≡ word.now ∷ self.new) }
    {
        let rest = self.rest?;
        Some(self.take(rest, place_of(b' ', rest)))
    }

    /// Takes the word that ends at the first blank of what is left, or where there is none all that is left.
    #[inline(always)]
    #[tactic(auto, using(crate::proofs::Cuts::first_word, crate::proofs::Cuts::last_word))]
    fn take(&mut self, rest: &'a [u8], blank: Option<usize>) -> &'a [u8]
        requires { IsFirstByte (is_byte 32) rest.now blank }
        ensures { words_of rest.now ≡ result.now ∷ self.new }
    {
        match blank {
            Some(at) => {
                self.rest = Some(&rest[at + 1..]);
                &rest[..at]
            }
            None => {
                self.rest = None;
                rest
            }
        }
    }

    /// The next word, as a number behind a letter: `None` where no word is left, and `Some(None)` where the word isn't
    /// one. Its digits are read while its end is looked for.
    #[inline(always)]
    pub fn labelled(&mut self, letter: u8) -> Option<Option<u32>>
        requires { letter ≢ 32 }
        ensures { MatchOption result (self.old ≡ []) (λ number. (word : List ℕ) × (self.old ≡ word ∷ self.new)
            × (number ≡ labelled letter word)) }
    {
        next_read!(self, rest, leading_labelled(letter, rest))
    }

    /// The next word, as an object: `None` where no word is left, and `Some(None)` where the word isn't one.
    #[inline(always)]
    pub fn object(&mut self) -> Option<Option<Id>>
        ensures { MatchOption result (self.old ≡ []) (λ object. (word : List ℕ) × (self.old ≡ word ∷ self.new)
            × (object ≡ id_of word)) }
    {
        next_read!(self, rest, leading_id(rest))
    }

    /// Whether a keyword comes next. If it does, it is passed.
    pub fn skip(&mut self, keyword: &[u8]) -> bool
        ensures skips { result ≡ begins_with keyword.now self.old }
        ensures rest { self.new ≡ behind keyword.now self.old }
    {
        let mut later = Words { rest: self.rest };
        let Some(word) = later.next() else {
            return false;
        };
        if !is(word, keyword) {
            return false;
        }
        self.rest = later.rest;
        true
    }

    /// The text that is left, its spaces as they stand; none where no word is left.
    pub fn text(self) -> Option<&'a [u8]>
        ensures { MatchOption result (self.entry ≡ []) (λ text. (text.now ≡ joined self.entry) × (self.entry ≢ [])) }
    {
        self.rest
    }

    /// Whether no word is left.
    #[tactic(auto, using(crate::proofs::Cuts::words_some))]
    pub fn is_empty(&self) -> bool
        ensures { IsTrue result ↔ (self.now ≡ []) }
    {
        match self.rest {
            Some(_) => false,
            None => true,
        }
    }

    /// `Some` where no word is left, so that `?` refuses a line with more words.
    #[tactic(auto, using(crate::proofs::Cuts::words_some))]
    pub fn end(self) -> Option<()>
        ensures { IsSome result ↔ (self.entry ≡ []) }
    {
        match self.rest {
            Some(_) => None,
            None => Some(()),
        }
    }
}

/// Whether a word is this keyword. A keyword that the compiler knows is tested byte by byte in place, where `==` would
/// be a call.
#[inline(always)]
pub fn is(word: &[u8], keyword: &[u8]) -> bool
    ensures { result ≡ bytes_eq word.now keyword.now }
{
    if word.len() != keyword.len() {
        return false;
    }
    for (i, byte) in keyword.iter().enumerate() {
        if word[i] != *byte {
            return false;
        }
    }
    true
}

/// Where this byte is first in a text, found by a look at one byte after another, since words are short.
pub fn place_of(byte: u8, text: &[u8]) -> Option<usize>
    ensures { IsFirstByte (is_byte byte) text.now result }
{
    text.iter().position(|b| *b == byte)
}

/// [`place_of`] as a function that isn't inlined, for callers that seldom ask: its loop isn't copied to each of them.
#[cold]
#[inline(never)]
fn seldom_place_of(byte: u8, text: &[u8]) -> Option<usize>
    ensures { IsFirstByte (is_byte byte) text.now result }
{
    place_of(byte, text)
}

/// What stands before and behind the first such byte of a text, found by [`memchr`], since it may be far.
#[inline(always)]
#[tactic(auto, using(crate::proofs::Cuts::first_place, crate::proofs::Cuts::no_place))]
pub fn cut_far(byte: u8, text: &[u8]) -> Option<(&[u8], &[u8])>
    ensures within { IfSome result (λ _. position_or_len (is_byte byte) text.now < length text.now) }
    ensures before { IfSome result (λ parts. parts.0.now ≡ before_first (is_byte byte) text.now) }
    ensures behind { IfSome result (λ parts. parts.1.now ≡ after_first (is_byte byte) text.now) }
    ensures none { IfNone result (position_or_len (is_byte byte) text.now ≡ length text.now) }
{
    let at = memchr(byte, text)?;
    let (before, rest) = text.split_at(at);
    Some((before, &rest[1..]))
}
