//! Sets of numbers as the bits of words: bit `k` is in word `k / 64`, at place `k % 64` from the
//! lowest.
ghost use Rattle.std.specs.Prelude.{◌≡◌, ◌≢◌, ℕ, ◌+◌, ◌*◌, ◌^◌, ◌<◌, ◌≤◌, ◌↔◌, ◌||◌, ◌&&◌, not};
ghost use Rattle.std.specs.Prelude.{length, nat_eq, IsTrue, slice_index, filter, fold};
ghost use Rattle.std.specs.List.{range_with_len};
ghost use Rattle.mre_base.specs.Before.{is_earlier_list};
ghost use Rattle.std.specs.Hash as fed;
ghost use Rattle.mre_base.specs.Words.{has_bit, AreWords};

use smallvec::SmallVec;
use std::hash::{Hash, Hasher};

/// Whether bit `i` is set.
pub fn has(words: &[u64], i: u32) -> bool
    requires { i < 64 * length words.now }
    ensures { result ≡ has_bit words.now i }
{
    words[(i / 64) as usize] >> (i % 64) & 1 == 1
}

/// Sets bit `i`.
pub fn put(words: &mut [u64], i: u32)
    requires { i < 64 * length words.old }
    ensures { (k : ℕ) → has_bit words.new k ≡ (nat_eq k i || has_bit words.old k) }
{
    let word = (i / 64) as usize;
    words[word] = words[word] | 1 << (i % 64);
}

/// Clears bit `i`.
pub fn take_out(words: &mut [u64], i: u32)
    requires { i < 64 * length words.old }
    ensures { (k : ℕ) → has_bit words.new k ≡ (not (nat_eq k i) && has_bit words.old k) }
{
    let word = (i / 64) as usize;
    words[word] = words[word] & !(1 << (i % 64));
}

/// As `put`, for the words of a `SmallVec`.
pub fn put_in(words: &mut SmallVec<u64, 2>, i: u32)
    requires { i < 64 * length words.old.items }
    ensures bits { (k : ℕ) → has_bit words.new.items k ≡ (nat_eq k i || has_bit words.old.items k) }
    ensures long { length words.new.items ≡ length words.old.items }
{
    put(words.as_mut_slice(), i);
}

/// As `take_out`, for the words of a `SmallVec`.
pub fn take_out_of(words: &mut SmallVec<u64, 2>, i: u32)
    requires { i < 64 * length words.old.items }
    ensures bits { (k : ℕ) → has_bit words.new.items k
        ≡ (not (nat_eq k i) && has_bit words.old.items k) }
    ensures long { length words.new.items ≡ length words.old.items }
{
    take_out(words.as_mut_slice(), i);
}

/// Sets the words to those of another set of the same width.
pub fn copy(words: &mut SmallVec<u64, 2>, from: &[u64])
    requires { length words.old.items ≡ length from.now }
    ensures { words.new.items ≡ from.now }
{
    words.as_mut_slice().copy_from_slice(from);
}

/// Whether the words are equal.
pub fn is_same(one: &[u64], two: &[u64]) -> bool
    ensures same { IsTrue result ↔ (one.now ≡ two.now) }
    ensures one { AreWords one.now }
    ensures two { AreWords two.now }
{
    one == two
}

pub fn hash<H: Hasher>(words: &[u64], state: &mut H)
    ensures writes { state.new ≡ fold H.write state.old (fed.slice fed.u64 words.now) }
    ensures words { AreWords words.now }
{
    words.hash(state);
}

/// Whether each bit that is set in `one` is set in `two`.
pub fn is_subset(one: &[u64], two: &[u64]) -> bool
    requires { length one.now ≡ length two.now }
    ensures { IsTrue result ↔ ((k : ℕ) → IsTrue (has_bit one.now k) → IsTrue (has_bit two.now k)) }
{
    for (i, &word) in one.iter().enumerate() {
        if word & !two[i] != 0 {
            return false;
        }
    }
    true
}

/// The number of bits that are set.
pub fn count(words: &[u64]) -> u32
    requires { 64 * length words.now < 2 ^ 32 }
    ensures { result ≡ length (filter (has_bit words.now)
        (range_with_len 0 (64 * length words.now))) }
{
    let mut set = 0;
    for &word in words {
        set += word.count_ones();
    }
    set
}

/// Whether some bit is set from bit `k` of word `i` on.
pub fn any_from(words: &[u64], i: usize, k: u32) -> bool
    requires word { i < length words.now }
    requires bit { k < 64 }
    ensures { IsTrue result ↔ ((j : ℕ) × (64 * i + k ≤ j) × (j < 64 * length words.now)
        × IsTrue (has_bit words.now j)) }
{
    words[i] >> k != 0 || any_word_from(words, i + 1)
}

/// Whether some word from word `i` on isn't 0.
fn any_word_from(words: &[u64], i: usize) -> bool
    ensures { IsTrue result ↔ ((j : ℕ) × (i ≤ j) × (j < length words.now)
        × (slice_index words.now j ≢ 0)) }
{
    for j in i..words.len() {
        if words[j] != 0 {
            return true;
        }
    }
    false
}

/// Whether the ascending list of the numbers of `one` is before that of `two`, place by place, a
/// proper prefix first.
pub fn is_list_before(one: &[u64], two: &[u64]) -> bool
    requires { length one.now ≡ length two.now }
    ensures { result ≡ is_earlier_list (filter (has_bit one.now)
        (range_with_len 0 (64 * length one.now)))
        (filter (has_bit two.now) (range_with_len 0 (64 * length one.now))) }
{
    for (i, &word) in one.iter().enumerate() {
        if word != two[i] {
            return is_list_before_at(one, two, i);
        }
    }
    false
}

/// As `is_list_before`, where word `i` is the first that differs. The lists agree up to its lowest
/// bit that differs, and the list with that number is the earlier one unless the other ends there.
fn is_list_before_at(one: &[u64], two: &[u64], i: usize) -> bool
    requires long { length one.now ≡ length two.now }
    requires within { i < length one.now }
    requires below { (j : ℕ) → j < i → slice_index one.now j ≡ slice_index two.now j }
    requires differs { slice_index one.now i ≢ slice_index two.now i }
    ensures { result ≡ is_earlier_list (filter (has_bit one.now)
        (range_with_len 0 (64 * length one.now)))
        (filter (has_bit two.now) (range_with_len 0 (64 * length one.now))) }
{
    let k = (one[i] ^ two[i]).trailing_zeros();
    if one[i] >> k & 1 == 1 {
        any_from(two, i, k)
    } else {
        !any_from(one, i, k)
    }
}
