// Texts with the same bytes. The test of std calls a function for any text but the shortest; this one is inlined where
// names are looked up, and the eight tests of eight bytes become one of a word.
ghost use Rattle.std.specs.Prelude.{◌≡◌, ◌+◌, ◌*◌, ◌/◌, ◌≤◌, ◌&&◌, drop, length};
ghost use Rattle.std.specs.Str.{bytes_eq};

/// Whether two texts have the same bytes. The last four or eight are compared as they stand, though some of them may have
/// been.
#[inline(always)]
#[tactic(auto, using(crate::proofs::Overlapped::last_decides))]
pub(crate) fn same_bytes(text: &[u8], other: &[u8]) -> bool
    ensures { result ≡ bytes_eq text.now other.now }
{
    let len = text.len();
    if len != other.len() {
        return false;
    }
    if len < 4 {
        return same_from(text, other, 0);
    }
    if len < 8 {
        return same_four(text, other, 0) && same_four(text, other, len - 4);
    }
    same_eights(text, other, (len - 1) / 8) && same_eight(text, other, len - 8)
}

/// Whether two texts have the same first `count` times eight bytes.
#[inline(always)]
fn same_eights(text: &[u8], other: &[u8], count: usize) -> bool
    requires text { count * 8 ≤ length text.now }
    requires other { count * 8 ≤ length other.now }
    ensures { bytes_eq text.now other.now ≡ result && bytes_eq (drop (count * 8) text.now)
        (drop (count * 8) other.now) }
{
    for number in 0..count {
        if !same_eight(text, other, number * 8) {
            return false;
        }
    }
    true
}

/// Whether two texts have the same four bytes from a place on.
#[inline(always)]
fn same_four(text: &[u8], other: &[u8], at: usize) -> bool
    requires text { at + 4 ≤ length text.now }
    requires other { at + 4 ≤ length other.now }
    ensures { bytes_eq (drop at text.now) (drop at other.now) ≡ result
        && bytes_eq (drop (at + 4) text.now) (drop (at + 4) other.now) }
{
    (text[at] == other[at])
        & (text[at + 1] == other[at + 1])
        & (text[at + 2] == other[at + 2])
        & (text[at + 3] == other[at + 3])
}

/// Whether two texts have the same eight bytes from a place on.
#[inline(always)]
fn same_eight(text: &[u8], other: &[u8], at: usize) -> bool
    requires text { at + 8 ≤ length text.now }
    requires other { at + 8 ≤ length other.now }
    ensures { bytes_eq (drop at text.now) (drop at other.now) ≡ result
        && bytes_eq (drop (at + 8) text.now) (drop (at + 8) other.now) }
{
    (text[at] == other[at])
        & (text[at + 1] == other[at + 1])
        & (text[at + 2] == other[at + 2])
        & (text[at + 3] == other[at + 3])
        & (text[at + 4] == other[at + 4])
        & (text[at + 5] == other[at + 5])
        & (text[at + 6] == other[at + 6])
        & (text[at + 7] == other[at + 7])
}

/// Whether two texts of one length have the same bytes from a place on.
#[inline(always)]
fn same_from(text: &[u8], other: &[u8], from: usize) -> bool
    requires { length text.now ≡ length other.now }
    ensures { result ≡ bytes_eq (drop from text.now) (drop from other.now) }
{
    for place in from..text.len() {
        if text[place] != other[place] {
            return false;
        }
    }
    true
}
