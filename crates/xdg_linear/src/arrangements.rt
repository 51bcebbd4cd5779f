//! The arrangements of words, one after another.

ghost use Rattle.std.specs.Prelude.{◌≡◌, ◌≤◌, ◌<◌, [], Some, None, IfOk, IsSome, length, slice_get};
ghost use Rattle.xdg_linear.specs.Arranged.{Advances, arranged};
ghost use Rattle.xdg_linear.specs.Listed.{ArePassed};
ghost use Rattle.xdg_linear.specs.Ranks.{ranks_of};

use crate::advancing::advance;
use crate::ranking::ranks;
use std::alloc::Global;
use std::marker::Model;
use xdg_base::{List, OutOfMemory};
use xdg_problem::SentenceWord;

/// The arrangements of words, of which at most one is present. All memory is taken at the start.
#[derive(Debug, Drop)]
pub struct Arrangements<'a> {
    words: &'a List<SentenceWord>,
    // Before the first call of `advance` the least arrangement, which that call shows; then the present one.
    numbers: Vec<u8>,
    begun: bool,
}

impl<'a> Model for Arrangements<'a> {
    ghost use Rattle.xdg_linear.specs.Arranged.{Arranged, IsHeld, shown};

    ghost Value = { Arranged };

    ghost view = { λ a. record { words = a.words.now; present = shown a.begun a.numbers.items } };

    ghost invariant = { λ a. IsHeld a.words.now a.begun a.numbers.items };
}

impl<'a> Arrangements<'a> {
    /// The arrangements of at most eight words, of which none is present yet. Where there is no word, there is one
    /// arrangement, the empty one.
    ///
    /// # Errors
    ///
    /// Fails where memory runs out.
    pub fn of(alloc: Global, words: &'a List<SentenceWord>) -> Result<Arrangements<'a>, OutOfMemory>
        requires { length words.now ≤ 8 }
        ensures seen { IfOk result (λ made. (made.words ≡ words.entry.now) × (made.present ≡ None)) }
        ensures passed { IfOk result (λ made. ArePassed (ranks_of made.words) made.present []) }
    {
        let mut numbers = ranks(alloc, words.as_slice())?;
        numbers.sort()?;
        Ok(Arrangements {
            words,
            numbers,
            begun: false,
        })
    }

    /// Goes on to the next arrangement, at first to the least, and answers whether there is one. Where there is none
    /// the last stays present, and each further call answers the same.
    pub fn advance(&mut self) -> bool
        ensures { Advances self.old result self.new }
    {
        if self.begun {
            return advance(self.numbers.as_mut_slice());
        }
        self.begun = true;
        true
    }

    /// The ranks of the present arrangement.
    pub fn view(&self) -> &[u8]
        requires { IsSome self.now.present }
        ensures { self.now.present ≡ Some result.now }
    {
        self.numbers.as_slice()
    }

    /// The word at a place of the present arrangement, lent from the input. Of equal words it is each time the one that
    /// stands there first.
    pub fn word(&self, place: usize) -> &'a SentenceWord
        requires begun { IsSome self.now.present }
        requires within { place < length self.now.words }
        ensures { slice_get (arranged self.now) place ≡ Some result.now }
    {
        &self.words.as_slice()[usize::from(self.numbers.as_slice()[place])]
    }
}
