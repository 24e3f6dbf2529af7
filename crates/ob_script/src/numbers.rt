ghost use Rattle.std.specs.Prelude.{◌≡◌, ◌≢◌, ◌<◌, ◌≤◌, ◌∷◌, ℕ, List, IfNone, IfSome, None, Some, codes, false, length};
ghost use Rattle.std.specs.Prelude.{slice_index, take, true};
ghost use Rattle.std.specs.List.{list_all};
ghost use Rattle.std.specs.Char.{is_ascii_digit};
ghost use Rattle.ob_script.specs.Words.{down_to, due_of, either_of, id_of, labelled, long_of, moment_of, number_of};
ghost use Rattle.ob_script.specs.Words.{signed_of, up_to, value_of, words_of};
ghost use Rattle.ob_script.specs.WordsLeft.{words_left};

use crate::words::is;
use pin_core::Id;

/// A number: 1 to 10 decimal digits, leading zeros allowed, at most 4,294,967,295.
pub fn number_of(word: &[u8]) -> Option<u32>
    ensures { result ≡ number_of word.now }
{
    if word.len() > 10 {
        return None;
    }
    let value = long_of(word)?;
    if value > 4_294_967_295 {
        return None;
    }
    Some(value as u32)
}

/// A signed number: the digits of a number, behind a minus if it is negative, from -2,147,483,648 to 2,147,483,647.
pub fn signed_of(word: &[u8]) -> Option<i32>
    ensures { result ≡ signed_of word.now }
{
    match word {
        [b'-', digits @ ..] => negated_i32(number_of(digits)?),
        _ => to_i32(number_of(word)?),
    }
}

/// The negative of a number, from -2,147,483,648 on.
fn negated_i32(number: u32) -> Option<i32>
    ensures { result ≡ down_to 2147483648 number }
{
    if number > 2_147_483_648 {
        return None;
    }
    Some((-i64::from(number)) as i32)
}

/// A number, up to 2,147,483,647.
fn to_i32(number: u32) -> Option<i32>
    ensures { result ≡ up_to 2147483647 number }
{
    if number > 2_147_483_647 {
        return None;
    }
    Some(number as i32)
}

/// The value of the digits with which a text begins, and how many they are. No more than eleven are read.
#[inline(never)]
fn leading_digits(text: &[u8]) -> (u64, usize)
    ensures within { result.1 ≤ length text.now }
    ensures stop { result.1 ≤ 10 → result.1 < length text.now
        → is_ascii_digit (slice_index text.now result.1) ≡ false }
    ensures digits { list_all is_ascii_digit (take result.1 text.now) ≡ true }
    ensures value { value_of (take result.1 text.now) ≡ result.0 }
{
    let mut value: u64 = 0;
    for (count, byte) in text.iter().enumerate() {
        if !byte.is_ascii_digit() || count > 10 {
            return (value, count);
        }
        value = value * 10 + u64::from(*byte - b'0');
    }
    (value, text.len())
}

/// The number that the first word of a text is, and what stands behind that word; none where it isn't one.
#[inline(always)]
#[tactic(auto, using(crate::proofs::Leading::number_laws))]
fn leading_number(text: &[u8]) -> Option<(u32, Option<&[u8]>)>
    ensures some { IfSome result (λ found. (word : List ℕ) × (number_of word ≡ Some found.0)
        × (words_of text.now ≡ word ∷ words_left found.1)) }
    ensures none { IfNone result ((word : List ℕ) (more : List (List ℕ)) → words_of text.now ≡ word ∷ more
        → number_of word ≡ None) }
{
    let (value, count) = leading_digits(text);
    if count == 0 || count > 10 || value > 4_294_967_295 {
        return None;
    }
    if count == text.len() {
        return Some((value as u32, None));
    }
    if text[count] != b' ' {
        return None;
    }
    Some((value as u32, Some(&text[count + 1..])))
}

/// The number behind a letter that the first word of a text is, as [`leading_number`] reads it.
#[inline(always)]
pub fn leading_labelled(letter: u8, text: &[u8]) -> Option<(u32, Option<&[u8]>)>
    requires { letter ≢ 32 }
    ensures some { IfSome result (λ found. (word : List ℕ) × (labelled letter word ≡ Some found.0)
        × (words_of text.now ≡ word ∷ words_left found.1)) }
    ensures none { IfNone result ((word : List ℕ) (more : List (List ℕ)) → words_of text.now ≡ word ∷ more
        → labelled letter word ≡ None) }
{
    match text {
        [first, digits @ ..] if *first == letter => leading_number(digits),
        _ => None,
    }
}

/// The object that the first word of a text is (`s`, its slot, a full stop, its generation), and what stands behind
/// that word; none where it isn't one.
#[inline(always)]
#[tactic(auto, using(crate::proofs::Objects::object_laws))]
pub fn leading_id(text: &[u8]) -> Option<(Id, Option<&[u8]>)>
    ensures some { IfSome result (λ found. (word : List ℕ) × (id_of word ≡ Some found.0)
        × (words_of text.now ≡ word ∷ words_left found.1)) }
    ensures none { IfNone result ((word : List ℕ) (more : List (List ℕ)) → words_of text.now ≡ word ∷ more
        → id_of word ≡ None) }
{
    let [b's', rest @ ..] = text else {
        return None;
    };
    let (slot, count) = leading_digits(rest);
    if count == 0 || count > 10 || slot > 4_294_967_295 {
        return None;
    }
    if count == rest.len() || rest[count] != b'.' {
        return None;
    }
    let Some((generation, behind)) = leading_number(&rest[count + 1..]) else {
        return None;
    };
    let slot = slot as u32;
    Some((Id { slot, generation }, behind))
}

/// A number of 1 to 19 decimal digits, leading zeros allowed.
#[tactic(auto, using(crate::proofs::Digits::one_more_digit))]
fn long_of(word: &[u8]) -> Option<u64>
    ensures { result ≡ long_of word.now }
{
    if word.is_empty() || word.len() > 19 {
        return None;
    }
    let mut value: u64 = 0;
    for byte in word {
        if !byte.is_ascii_digit() {
            return None;
        }
        value = value * 10 + u64::from(*byte - b'0');
    }
    Some(value)
}

/// A moment: 1 to 19 digits, at most 9,223,372,036,854,775,807.
pub fn moment_of(word: &[u8]) -> Option<u64>
    ensures { result ≡ moment_of word.now }
{
    let moment = long_of(word)?;
    if moment > 9_223_372_036_854_775_807 {
        return None;
    }
    Some(moment)
}

/// When a timer is due: a moment, or behind a minus so many units from now, from -9,223,372,036,854,775,808 to
/// 9,223,372,036,854,775,807.
pub fn due_of(word: &[u8]) -> Option<i64>
    ensures { result ≡ due_of word.now }
{
    match word {
        [b'-', digits @ ..] => negated_i64(long_of(digits)?),
        _ => to_i64(long_of(word)?),
    }
}

/// The negative of a number, from -9,223,372,036,854,775,808 on.
fn negated_i64(number: u64) -> Option<i64>
    ensures { result ≡ down_to 9223372036854775808 number }
{
    if number > 9_223_372_036_854_775_808 {
        return None;
    }
    if number == 9_223_372_036_854_775_808 {
        return Some(i64::MIN);
    }
    Some(-(number as i64))
}

/// A number, up to 9,223,372,036,854,775,807.
fn to_i64(number: u64) -> Option<i64>
    ensures { result ≡ up_to 9223372036854775807 number }
{
    if number > 9_223_372_036_854_775_807 {
        return None;
    }
    Some(number as i64)
}

/// A number behind a letter.
pub fn labelled(letter: u8, word: &[u8]) -> Option<u32>
    ensures { result ≡ labelled letter word.now }
{
    match word {
        [first, digits @ ..] if *first == letter => number_of(digits),
        _ => None,
    }
}

/// One of two keywords: `false` for the first, `true` for the second.
pub fn either_of(first: &[u8], second: &[u8], word: &[u8]) -> Option<bool>
    ensures { result ≡ either_of first.now second.now word.now }
{
    if is(word, first) {
        Some(false)
    } else if is(word, second) {
        Some(true)
    } else {
        None
    }
}
