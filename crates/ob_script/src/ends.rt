ghost use Rattle.std.specs.Prelude.{◌≡◌, ◌<◌, ◌≤◌, IfSome, length, take};
ghost use Rattle.std.specs.List.{position_or_len};
ghost use Rattle.memchr.specs.Find.{is_byte};
ghost use Rattle.ob_script.specs.Marks.{Marks};

use std::simd::prelude::*;

/// A mask with a bit for each of 32 bytes, which is set where they are equal to `byte`.
#[inline(always)]
fn marks_of(byte: u8, bytes: u8x32) -> u64
    ensures { Marks (is_byte byte) bytes 32 result }
{
    bytes.simd_eq(u8x32::splat(byte)).to_bitmask()
}

/// Where the first line feed of a text is, and where the first blank before it, or else the line feed again; none where
/// no line feed is one of the first 32 bytes.
#[inline(always)]
#[tactic(auto, using(crate::proofs::Marked::near_laws))]
pub fn near_ends(text: &[u8]) -> Option<(usize, usize)>
    requires { 32 ≤ length text.now }
    ensures within { IfSome result (λ ends. ends.0 < length text.now) }
    ensures line { IfSome result (λ ends. position_or_len (is_byte 10) text.now ≡ ends.0) }
    ensures word { IfSome result (λ ends. position_or_len (is_byte 32) (take ends.0 text.now) ≡ ends.1) }
{
    let front = u8x32::from_slice(text);
    let feeds = marks_of(b'\n', front);
    if feeds == 0 {
        return None;
    }
    let ends = marks_of(b' ', front) | feeds;
    Some((
        feeds.trailing_zeros() as usize,
        ends.trailing_zeros() as usize,
    ))
}
