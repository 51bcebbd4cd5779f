//! Words that can be set back to how they stood.
#![tactic(auto)]

ghost use Rattle.std.specs.Prelude.{◌≡◌, ◌≢◌, ℕ, ◌<◌, ◌≤◌, ◌+◌, ◌-◌, [], ◌∷◌, length, drop, IfOk, slice_index, slice_set};
ghost use Rattle.xdg_trail.specs.Trailed.{past, stood, earliest};

use std::alloc::Global;
use std::marker::Model;
use xdg_base::OutOfMemory;

/// Words, and a record of each that was overwritten: its place, and the word that stood there. A
/// search sets words on its way down and undoes them on its way back, and never copies them all.
/// The idea is the trail of the abstract machine for Prolog (Warren 1983).
#[derive(Debug, Drop)]
pub struct Trail {
    words: Vec<u64>,
    // The newest record comes last. Each place is one of the words'.
    records: Vec<(usize, u64)>,
}

impl Model for Trail {
    ghost use Rattle.std.specs.Prelude.{◌<◌, ◌-◌, length, reverse, All, vec_len, vec_capacity};
    ghost use Rattle.xdg_trail.specs.Trailed.{Trailed};

    ghost Value = { Trailed };

    ghost view = { λ t. record { words = t.words.items; records = reverse t.records.items; spare = vec_capacity t.records - vec_len t.records } };

    ghost invariant = { λ t. All (λ r. r.0 < length t.words.items) t.records.items };
}

/// A time in the life of a [`Trail`]: how many records it had.
#[derive(Clone, Debug, PartialEq, Eq)]
pub struct Mark {
    records: usize,
}

impl Model for Mark {
    ghost use Rattle.std.specs.Prelude.{ℕ};

    ghost Value = { ℕ };

    ghost view = { λ mark. mark.records };

    ghost inverse = { λ count. record { records = count } };
}

impl Copy for Mark {}

impl Mark {
    /// How many records there were.
    pub fn records(&self) -> usize
        ensures { result ≡ self.now }
    {
        self.records
    }
}

impl Trail {
    /// The words, with room for `cap` records. On want of memory the words are dropped.
    pub fn start(alloc: Global, words: Vec<u64>, cap: usize) -> Result<Trail, OutOfMemory>
        ensures words { IfOk result (λ trail. trail.words ≡ words.items) }
        ensures records { IfOk result (λ trail. trail.records ≡ []) }
        ensures spare { IfOk result (λ trail. cap ≤ trail.spare) }
    {
        let records = Vec::with_capacity(alloc, cap)?;
        Ok(Trail { words, records })
    }

    /// The word at a place, which counts from 0.
    pub fn word(&self, place: usize) -> u64
        requires { place < length self.now.words }
        ensures { result ≡ slice_index self.now.words place }
    {
        self.words[place]
    }

    /// Writes a word. Where it differs from the old one, the old one is recorded.
    pub fn set(&mut self, place: usize, value: u64)
        requires place { place < length self.old.words }
        requires spare { 1 ≤ self.old.spare }
        ensures words { self.new.words ≡ slice_set self.old.words place value }
        ensures same { slice_index self.old.words place ≡ value → self.new ≡ self.old }
        ensures records { slice_index self.old.words place ≢ value → self.new.records ≡ (place, slice_index self.old.words place) ∷ self.old.records }
        ensures past { slice_index self.old.words place ≢ value → past self.new ≡ slice_set self.old.words place value ∷ past self.old }
        ensures stood { (count : ℕ) → count ≤ length self.old.records → stood self.new count ≡ stood self.old count }
        ensures room { self.new.spare + length self.new.records ≡ self.old.spare + length self.old.records }
    {
        let old = self.words[place];
        if old != value {
            self.records.push_reserved((place, old));
            self.words[place] = value;
        }
    }

    /// The present time, to which [`Trail::undo`] can go back.
    pub fn mark(&self) -> Mark
        ensures value { result ≡ length self.now.records }
        ensures words { stood self.now result ≡ self.now.words }
    {
        Mark {
            records: self.records.len(),
        }
    }

    /// Sets the words back to how they stood when there were as many records as the mark says.
    pub fn undo(&mut self, mark: Mark)
        requires { mark ≤ length self.old.records }
        ensures words { self.new.words ≡ stood self.old mark }
        ensures records { self.new.records ≡ earliest mark self.old.records }
        ensures past { past self.new ≡ drop (length self.old.records - mark) (past self.old) }
        ensures stood { (count : ℕ) → count ≤ mark → stood self.new count ≡ stood self.old count }
        ensures len { length self.new.words ≡ length self.old.words }
        ensures room { self.new.spare + length self.new.records ≡ self.old.spare + length self.old.records }
    {
        let count = mark.records;
        while self.records.len() > count {
            if let Some((place, old)) = self.records.pop() {
                self.words[place] = old;
            }
        }
    }
}
