// Bits of one word, and of a level.
ghost use Rattle.std.specs.Prelude.{◌≡◌, ◌≢◌, ℕ, ◌+◌, ◌*◌, ◌/◌, ◌%◌, ◌<◌, ◌≤◌, ◌==◌, ◌&&◌, nat_lt, length, slice_index};
ghost use Rattle.std.specs.Prelude.{true, false, [], ◌∷◌, ◌++◌, OnOk, OnErr, IfOk, IfSome};
ghost use Rattle.std.specs.Int.{bit_at};
ghost use Rattle.least.specs.Bits.{bit};
ghost use Rattle.least.specs.From.{IsAtMost, IsLeastFrom};

use std::alloc::{AllocError, Global};

pub(crate) fn lowest(word: u64) -> usize
    requires { 0 < word }
    ensures within { result < 64 }
    ensures set { bit_at word result ≡ 1 }
    ensures least { (i : ℕ) → i < result → bit_at word i ≡ 0 }
{
    word.trailing_zeros() as usize
}

/// The lowest bit of a word from bit `k` on.
pub(crate) fn lowest_from(word: u64, k: usize) -> Option<usize>
    ensures least { IsLeastFrom k (λ i. bit_at word i == 1) result }
    ensures within { IfSome result (λ i. i < 64) }
{
    if k >= 64 {
        return None;
    }
    let rest = word >> k;
    if rest == 0 {
        return None;
    }
    Some(k + lowest(rest))
}

pub(crate) fn with_bit(word: u64, k: usize) -> u64
    requires { k < 64 }
    ensures bit_is { bit_at result k ≡ 1 }
    ensures others { (i : ℕ) → i ≢ k → bit_at result i ≡ bit_at word i }
{
    word | 1 << k
}

pub(crate) fn without_bit(word: u64, k: usize) -> u64
    requires { k < 64 }
    ensures bit_is { bit_at result k ≡ 0 }
    ensures others { (i : ℕ) → i ≢ k → bit_at result i ≡ bit_at word i }
{
    word & !(1 << k)
}

/// A word of which the lowest `k` bits are set.
#[tactic(auto, using(crate::proofs::LevelLemmas::some_bit))]
pub(crate) fn low_bits(k: usize) -> u64
    requires { k ≤ 64 }
    ensures set { (i : ℕ) → i < k → bit_at result i ≡ 1 }
    ensures clear { (i : ℕ) → k ≤ i → bit_at result i ≡ 0 }
    ensures not_zero { 0 < k → 0 < result }
{
    if k == 0 { 0 } else { u64::MAX >> (64 - k) }
}

/// A level whose first `n` bits are set, in no more words than these have.
#[tactic(auto, using(crate::proofs::LevelLemmas::full_word, crate::proofs::LevelLemmas::full_words))]
pub(crate) fn filled(alloc: Global, n: usize) -> Result<Vec<u64>, AllocError>
    requires { n ≤ 65536 }
    ensures set { IfOk result (λ words. (k : ℕ) → k < n → bit words.items k ≡ 1) }
    ensures clear { IfOk result (λ words. (k : ℕ) → n ≤ k → bit words.items k ≡ 0) }
    ensures len { IfOk result (λ words. length words.items ≡ (n + 63) / 64) }
    ensures not_zero { IfOk result (λ words. (w : ℕ) → w < length words.items → 0 < slice_index words.items w) }
{
    let mut words = Vec::from_elem(alloc, u64::MAX, n / 64)?;
    if !n.is_multiple_of(64) {
        words.push(low_bits(n % 64))?;
    }
    Ok(words)
}

/// The lowest bit of word `w`, by its place in the level.
pub(crate) fn lowest_in(words: &Vec<u64>, w: usize) -> usize
    requires w_in_range { w < length words.now.items }
    requires fits { length words.now.items ≤ 1024 }
    requires not_zero { 0 < slice_index words.now.items w }
    ensures within { result / 64 ≡ w }
    ensures set { bit words.now.items result ≡ 1 }
    ensures least { (k : ℕ) → 64 * w ≤ k → k < result → bit words.now.items k ≡ 0 }
{
    64 * w + lowest(words[w])
}

/// The lowest bit, by its place in the level, from `from` on in the word where that stands.
pub(crate) fn rest_of_word(words: &Vec<u64>, from: usize) -> Option<usize>
    requires { length words.now.items ≤ 1024 }
    ensures set { IfSome result (λ n. bit words.now.items n ≡ 1) }
    ensures above { IfSome result (λ n. from ≤ n) }
    ensures within { IfSome result (λ n. n < 64 * (from / 64 + 1)) }
    ensures least { (k : ℕ) → from ≤ k → k < 64 * (from / 64 + 1) → bit words.now.items k ≡ 1 → IsAtMost result k }
{
    let w = from / 64;
    if words.len() <= w {
        return None;
    }
    let k = lowest_from(words[w], from % 64)?;
    Some(64 * w + k)
}

/// The lowest bit of a word that is clear, from bit `k` on.
fn lowest_clear(word: u64, k: usize) -> Option<usize>
    ensures clear { IfSome result (λ i. bit_at word i ≡ 0) }
    ensures above { IfSome result (λ i. k ≤ i) }
    ensures within { IfSome result (λ i. i < 64) }
    ensures least { (i : ℕ) → k ≤ i → i < 64 → bit_at word i ≡ 0 → IsAtMost result i }
{
    lowest_from(!word, k)
}

/// The least number whose bit is clear, by its place in the level, from `from` on in the word where that stands.
fn rest_clear(words: &Vec<u64>, from: usize) -> Option<usize>
    requires within { from / 64 < length words.now.items }
    requires at_most { length words.now.items ≤ 1024 }
    ensures clear { IfSome result (λ n. bit words.now.items n ≡ 0) }
    ensures above { IfSome result (λ n. from ≤ n) }
    ensures within { IfSome result (λ n. n < 64 * (from / 64 + 1)) }
    ensures least { (k : ℕ) → from ≤ k → k < 64 * (from / 64 + 1) → bit words.now.items k ≡ 0 → IsAtMost result k }
{
    let w = from / 64;
    let k = lowest_clear(words[w], from % 64)?;
    Some(64 * w + k)
}

/// The least number below `len` whose bit is clear, from one on. It looks at one word after another.
pub(crate) fn next_clear(words: &Vec<u64>, from: u32, len: usize) -> Option<u32>
    requires room { len ≤ 64 * length words.now.items }
    requires at_most { length words.now.items ≤ 1024 }
    ensures least { IsLeastFrom from (λ k. nat_lt k len && bit words.now.items k == 0) result }
    ensures within { IfSome result (λ n. n < len) }
{
    let mut n = from as usize;
    while n < len {
        if let Some(at) = rest_clear(words, n) {
            return if at < len { Some(at as u32) } else { None };
        }
        n = 64 * (n / 64 + 1);
    }
    None
}

/// Sets bit `n` of the level, and tells whether its word had no bit before.
pub(crate) fn set(words: &mut Vec<u64>, n: usize) -> bool
    requires { n / 64 < length words.old.items }
    ensures bit_is { bit words.new.items n ≡ 1 }
    ensures others { (k : ℕ) → k ≢ n → bit words.new.items k ≡ bit words.old.items k }
    ensures len { length words.new.items ≡ length words.old.items }
    ensures words { (w : ℕ) → w ≢ n / 64 → slice_index words.new.items w ≡ slice_index words.old.items w }
    ensures not_zero { 0 < slice_index words.new.items (n / 64) }
    ensures had { result ≡ false → 0 < slice_index words.old.items (n / 64) }
{
    let word = words[n / 64];
    words[n / 64] = with_bit(word, n % 64);
    word == 0
}

/// Clears bit `n` of the level, and tells whether its word has no bit then.
pub(crate) fn clear(words: &mut Vec<u64>, n: usize) -> bool
    requires { n / 64 < length words.old.items }
    ensures bit_is { bit words.new.items n ≡ 0 }
    ensures others { (k : ℕ) → k ≢ n → bit words.new.items k ≡ bit words.old.items k }
    ensures len { length words.new.items ≡ length words.old.items }
    ensures words { (w : ℕ) → w ≢ n / 64 → slice_index words.new.items w ≡ slice_index words.old.items w }
    ensures empty { result ≡ true → slice_index words.new.items (n / 64) ≡ 0 }
    ensures not_zero { result ≡ false → 0 < slice_index words.new.items (n / 64) }
{
    let word = without_bit(words[n / 64], n % 64);
    words[n / 64] = word;
    word == 0
}

#[tactic(auto, using(crate::proofs::LevelLemmas::pushed_none))]
/// Adds an empty word to a level, and where the level above has no bit for it, a word there too.
pub(crate) fn add_word(upper: &mut Vec<u64>, lower: &mut Vec<u64>) -> Result<(), AllocError>
    requires upper_fits { length upper.old.items ≤ 16 }
    requires lower_fits { length lower.old.items < 1024 }
    requires room { length lower.old.items ≤ 64 * length upper.old.items }
    ensures ok { OnOk result (lower.new.items ≡ lower.old.items ++ 0 ∷ []) }
    ensures err { OnErr result (lower.new.items ≡ lower.old.items) }
    ensures upper_words { (w : ℕ) → slice_index upper.new.items w ≡ slice_index upper.old.items w }
    ensures upper_few { length upper.new.items ≤ 16 }
    ensures room { length lower.new.items ≤ 64 * length upper.new.items }
{
    if lower.len() < 64 * upper.len() {
        lower.push(0)?;
        return Ok(());
    }
    upper.push(0)?;
    lower.push(0)?;
    Ok(())
}
