//! Which propagators are awake.

ghost use Rattle.std.specs.Prelude.{◌≡◌, ℕ, ◌<◌, true, false, length, slice_index, slice_set, IfOk, IfSome, IfNone, IsTrue};
ghost use Rattle.xdg_propcore.specs.Flags.{IsOn};

use std::alloc::Global;
use std::marker::Model;
use xdg_base::OutOfMemory;

/// A flag for each of some propagators: whether it is awake. Flags are bits of words.
#[derive(Debug, Drop)]
pub(crate) struct Awake {
    words: Vec<u64>,
    count: usize,
}

impl Model for Awake {
    ghost use Rattle.std.specs.Prelude.{Bool, List};
    ghost use Rattle.xdg_propcore.specs.Flags.{HoldsFlags, flags_of};

    ghost Value = { List Bool };

    ghost view = { λ a. flags_of a.words.items a.count };

    ghost invariant = { λ a. HoldsFlags a.words.items a.count };
}

/// Clears all bits of words.
fn clear(words: &mut Vec<u64>)
    ensures length { length words.new.items ≡ length words.old.items }
    ensures zero { (place : ℕ) → slice_index words.new.items place ≡ 0 }
{
    for place in 0..words.len() {
        words[place] = 0;
    }
}

impl Awake {
    /// So many propagators, all asleep.
    pub(crate) fn start(alloc: Global, count: usize) -> Result<Awake, OutOfMemory>
        ensures { IfOk result (λ awake. length awake ≡ count) }
    {
        let words = vec![in alloc; 0; count / 64 + 1]?;
        Ok(Awake { words, count })
    }

    /// The first that is awake.
    pub(crate) fn first(&self) -> Option<usize>
        ensures some { IfSome result (λ at. IsOn self.now at) }
        ensures none { IfNone result ((at : ℕ) → IsOn self.now at → ⊥) }
    {
        for (place, word) in self.words.iter().enumerate() {
            if *word != 0 {
                return Some(place * 64 + word.trailing_zeros() as usize);
            }
        }
        None
    }

    /// Whether the one at a place is awake.
    fn is_awake(&self, at: usize) -> bool
        ensures { IsTrue result → IsOn self.now at }
    {
        if at >= self.count {
            return false;
        }
        (self.words[at / 64] >> (at % 64)) & 1 == 1
    }

    /// The one at a place, if it is awake, or else the first that is.
    pub(crate) fn next(&self, asked: usize) -> Option<usize>
        ensures some { IfSome result (λ at. IsOn self.now at) }
        ensures none { IfNone result ((at : ℕ) → IsOn self.now at → ⊥) }
    {
        if self.is_awake(asked) {
            return Some(asked);
        }
        self.first()
    }

    /// Wakes one.
    pub(crate) fn wake(&mut self, at: usize)
        requires { at < length self.old }
        ensures { self.new ≡ slice_set self.old at true }
    {
        self.words[at / 64] |= 1 << (at % 64);
    }

    /// Lets one sleep.
    pub(crate) fn sleep(&mut self, at: usize)
        requires { at < length self.old }
        ensures { self.new ≡ slice_set self.old at false }
    {
        self.words[at / 64] &= !(1 << (at % 64));
    }

    /// Lets all sleep.
    pub(crate) fn sleep_all(&mut self)
        ensures none { (at : ℕ) → IsOn self.new at → ⊥ }
        ensures length { length self.new ≡ length self.old }
    {
        clear(&mut self.words);
    }

    /// Wakes all.
    pub(crate) fn wake_all(&mut self)
        ensures all { (at : ℕ) → at < length self.old → IsOn self.new at }
        ensures length { length self.new ≡ length self.old }
    {
        for at in 0..self.count {
            self.wake(at);
        }
    }
}
