ghost use Rattle.std.specs.Prelude.{◌≡◌, ◌<◌, IfSome, codes, is_some};
ghost use Rattle.std.specs.Char.{digit_value, is_ascii_hexdigit};
ghost use Rattle.ob_script.specs.Words.{hex_of, kind_of, mask_of, type_of};

use crate::numbers::labelled;
use crate::words::is;
use ob_rights::{Kind, Rights};

/// A type of a host's objects: a number up to 255 behind the letter k.
pub fn type_of(word: &[u8]) -> Option<u8>
    ensures { result ≡ type_of word.now }
{
    let number = labelled(b'k', word)?;
    if number > 255 {
        return None;
    }
    Some(number as u8)
}

/// One of the kinds of objects; a type of a host's objects is one where the lines that `--more` adds are read.
pub fn kind_of(more: bool, word: &[u8]) -> Option<Kind>
    ensures { result ≡ kind_of more word.now }
{
    if is(word, b"event") {
        Some(Kind::Event)
    } else if is(word, b"mutex") {
        Some(Kind::Mutex)
    } else if is(word, b"semaphore") {
        Some(Kind::Semaphore)
    } else if is(word, b"timer") {
        Some(Kind::Timer)
    } else if more {
        let object_type = type_of(word)?;
        Some(Kind::Host(object_type))
    } else {
        None
    }
}

/// A mask: `0x`, and 1 to 8 hexadecimal digits of either case.
pub fn mask_of(word: &[u8]) -> Option<Rights>
    ensures { result ≡ mask_of word.now }
{
    match word {
        [b'0', b'x', digits @ ..] => hex_of(digits),
        _ => None,
    }
}

#[tactic(auto, using(crate::proofs::Hex::one_more_fits))]
fn hex_of(digits: &[u8]) -> Option<Rights>
    ensures { result ≡ hex_of digits.now }
{
    if digits.is_empty() || digits.len() > 8 {
        return None;
    }
    let mut value: u64 = 0;
    for byte in digits {
        let digit = hex_digit(*byte)?;
        value = value * 16 + digit;
    }
    Some(Rights(value as u32))
}

/// The value of a hexadecimal digit, in either case.
fn hex_digit(byte: u8) -> Option<u64>
    ensures found { is_some result ≡ is_ascii_hexdigit byte }
    ensures value { IfSome result (λ digit. (digit ≡ digit_value byte) × (digit < 16)) }
{
    match byte {
        b'0'..=b'9' => Some(u64::from(byte - b'0')),
        b'a'..=b'f' => Some(u64::from(byte - b'a') + 10),
        b'A'..=b'F' => Some(u64::from(byte - b'A') + 10),
        _ => None,
    }
}
