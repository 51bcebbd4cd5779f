//! Bits on a trail of words.

ghost use Rattle.std.specs.Prelude.{◌≡◌, ◌<◌, ◌≤◌, ◌+◌, ◌*◌, ◌%◌, ◌^◌, ◌==◌, ℕ, ◌↔◌, IsTrue, true, cond, length, nat_lt};
ghost use Rattle.std.specs.Int.{bit_at};
ghost use Rattle.xdg_store.specs.Change.{IsTaken};
ghost use Rattle.xdg_store.specs.Layout.{is_set};
ghost use Rattle.xdg_store.specs.Rows.{Clears, HasLeft, HasLeftInWord, HasOther, HasOtherInWord, Takes, TakesAll};
ghost use Rattle.xdg_store.specs.Singles.{IsAlone};

use crate::change::Change;
use xdg_trail::Trail;

/// Whether a bit is set.
pub(crate) fn is_set(trail: &Trail, bit: usize) -> bool
    requires { bit < 64 * length trail.now.words }
    ensures { result ≡ is_set trail.now.words bit }
{
    (trail.word(bit / 64) >> (bit % 64)) & 1 == 1
}

/// Clears a bit that is set.
fn clear(trail: &mut Trail, bit: usize)
    requires within { bit < 64 * length trail.old.words }
    requires set { is_set trail.old.words bit ≡ true }
    requires room { 1 ≤ trail.old.spare }
    ensures { Clears trail.old trail.new bit }
{
    let word = trail.word(bit / 64);
    trail.set(bit / 64, word & !(1 << (bit % 64)));
}

/// A word with so many of its lowest bits set, or with all of them.
fn low_bits(count: usize) -> u64
    ensures { (i : ℕ) → i < 64 → bit_at result i ≡ cond (nat_lt i count) 1 0 }
{
    if count < 64 {
        return (1u64 << count) - 1;
    }
    u64::MAX
}

/// A word with the bit of a value set, where its lowest bit is that of the value `first`; 0 where it has no such bit.
fn bit_of(value: usize, first: usize) -> u64
    ensures { (i : ℕ) → i < 64 → bit_at result i ≡ cond (first + i == value) 1 0 }
{
    if value < first || value - first >= 64 {
        return 0;
    }
    1u64 << (value - first)
}

/// Whether a word of a row has a bit that is set beside that of a value. Its lowest bit is that of the value `first`.
fn has_other_in_word(word: u64, first: usize, size: usize, value: usize) -> bool
    requires { first < size }
    ensures { IsTrue result ↔ HasOtherInWord word first size value }
{
    let others = word & low_bits(size - first) & !bit_of(value, first);
    others != 0
}

/// Whether a row has another bit that is set beside that of a value. The row starts with the first bit of a word.
fn has_other(trail: &Trail, start: usize, size: usize, value: usize) -> bool
    requires first { start % 64 ≡ 0 }
    requires within { start + size ≤ 64 * length trail.now.words }
    requires small { start + size < 2 ^ 32 }
    ensures { IsTrue result ↔ HasOther trail.now.words start size value }
{
    for place in 0..(size + 63) / 64 {
        let word = trail.word(start / 64 + place);
        if has_other_in_word(word, place * 64, size, value) {
            return true;
        }
    }
    false
}

/// Takes a value from a row of bits, unless it is the last. The row starts with the first bit of a word.
pub(crate) fn take_of_row(trail: &mut Trail, start: usize, size: usize, value: usize) -> Change
    requires first { start % 64 ≡ 0 }
    requires within { start + size ≤ 64 * length trail.old.words }
    requires small { start + size < 2 ^ 32 }
    requires value { value < size }
    requires room { is_set trail.old.words (start + value) ≡ true → HasOther trail.old.words start size value → 1 ≤ trail.old.spare }
    ensures { Takes result trail.old trail.new (start + value) (HasOther trail.old.words start size value) }
{
    if !is_set(trail, start + value) {
        return Change::Same;
    }
    if !has_other(trail, start, size, value) {
        return Change::Emptied;
    }
    clear(trail, start + value);
    Change::Changed
}

/// Takes a bit, unless it is the last of two.
pub(crate) fn take_of_pair(trail: &mut Trail, bit: usize, other: usize) -> Change
    requires bit_within { bit < 64 * length trail.old.words }
    requires other_within { other < 64 * length trail.old.words }
    requires room { is_set trail.old.words bit ≡ true → is_set trail.old.words other ≡ true → 1 ≤ trail.old.spare }
    ensures { Takes result trail.old trail.new bit (is_set trail.old.words other ≡ true) }
{
    if !is_set(trail, bit) {
        return Change::Same;
    }
    if !is_set(trail, other) {
        return Change::Emptied;
    }
    clear(trail, bit);
    Change::Changed
}

/// Of the bits of a block of 64 that are taken those in the word at a place of the row.
fn taken_in(block: usize, taken: u64, place: usize) -> u64
    ensures { (i : ℕ) → i < 64 → (bit_at result i ≡ 1) ↔ IsTaken block taken (place * 64 + i) }
{
    if place == block {
        return taken;
    }
    0
}

/// Whether a word of a row has a bit that is set and isn't taken. Its lowest bit is that of the value `first`.
fn has_left_in_word(word: u64, first: usize, size: usize, taken: u64) -> bool
    requires { first < size }
    ensures { IsTrue result ↔ HasLeftInWord word first size taken }
{
    let left = word & low_bits(size - first) & !taken;
    left != 0
}

/// Whether a row has a bit that is set beside those taken of a block of 64. The row starts with the first bit of a word.
fn has_left(trail: &Trail, start: usize, size: usize, block: usize, taken: u64) -> bool
    requires first { start % 64 ≡ 0 }
    requires within { start + size ≤ 64 * length trail.now.words }
    requires small { start + size < 2 ^ 32 }
    ensures { IsTrue result ↔ HasLeft trail.now.words start size block taken }
{
    for place in 0..(size + 63) / 64 {
        let word = trail.word(start / 64 + place);
        let here = taken_in(block, taken, place);
        if has_left_in_word(word, place * 64, size, here) {
            return true;
        }
    }
    false
}

/// Takes several values from a row of bits at once, unless no other is left: those of a block of 64 whose bits are set in `taken`.
/// The row starts with the first bit of a word.
pub(crate) fn take_of_block(
    trail: &mut Trail,
    start: usize,
    size: usize,
    block: usize,
    taken: u64,
) -> Change
    requires first { start % 64 ≡ 0 }
    requires within { start + size ≤ 64 * length trail.old.words }
    requires small { start + size < 2 ^ 32 }
    requires block { block * 64 < size }
    requires room { (v : ℕ) → v < size → is_set trail.old.words (start + v) ≡ true → HasOther trail.old.words start size v → 1 ≤ trail.old.spare }
    ensures { TakesAll result trail.old trail.new start size block taken }
{
    let word = trail.word(start / 64 + block);
    let gone = word & low_bits(size - block * 64) & taken;
    if gone == 0 {
        return Change::Same;
    }
    if !has_left(trail, start, size, block, taken) {
        return Change::Emptied;
    }
    trail.set(start / 64 + block, word & !gone);
    Change::Changed
}

/// Whether no two bits of a row are set. The row starts with the first bit of a word.
pub(crate) fn is_alone(trail: &Trail, start: usize, size: usize) -> bool
    requires first { start % 64 ≡ 0 }
    requires within { start + size ≤ 64 * length trail.now.words }
    requires small { start + size < 2 ^ 32 }
    ensures { IsTrue result ↔ IsAlone trail.now.words start size }
{
    for value in 0..size {
        if is_set(trail, start + value) {
            return !has_other(trail, start, size, value);
        }
    }
    true
}
