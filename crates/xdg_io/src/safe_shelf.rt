//! A shelf in memory that never fails.

ghost use Rattle.std.specs.Prelude.{◌≡◌, ◌≢◌, ◌<◌, ◌≤◌, ◌+◌, ℕ, Some, List, length, IfOk, IfErr, MatchResult};
ghost use Rattle.xdg_io.specs.Files.{HasFile, HasLongFile};
ghost use Rattle.xdg_io.specs.Memory.{safe_file};
ghost use Rattle.xdg_io.specs.Rose.{Rose};

use crate::memory_shelf::copy_within;
use crate::{LoadStop, Shelf};
use std::alloc::Global;
use std::marker::Model;
use xdg_base::{Bytes, OutOfMemory};

/// A shelf of two texts that never fails: it has one for the name `a`, and the other for every other name.
#[derive(Debug, Drop)]
pub struct SafeShelf {
    grammar: Bytes,
    analysis: Bytes,
}

impl Model for SafeShelf {
    ghost use Rattle.xdg_io.specs.Memory.{SafeFiles};

    ghost Value = { SafeFiles };

    ghost view = { λ shelf. record { grammar = shelf.grammar; analysis = shelf.analysis } };
}

impl SafeShelf {
    /// A shelf that has `analysis` for the name `a`, and `grammar` for every other name.
    pub fn new(alloc: Global, grammar: &[u8], analysis: &[u8]) -> Result<SafeShelf, OutOfMemory>
        ensures { IfOk result (λ shelf. shelf ≡ record { grammar = grammar.now; analysis = analysis.now }) }
    {
        let grammar = Bytes::from_slice(alloc, grammar)?;
        let analysis = Bytes::from_slice(alloc, analysis)?;
        Ok(SafeShelf { grammar, analysis })
    }

    /// The text that the shelf has for a name.
    fn text(&self, name: &str) -> &[u8]
        ensures { Some result.now ≡ safe_file self.now name.now }
    {
        if name == "a" {
            self.analysis.as_slice()
        } else {
            self.grammar.as_slice()
        }
    }
}

impl Shelf for SafeShelf {
    ghost files = { λ shelf. Some (safe_file shelf) };

    ghost faults = { λ _ _. 0 };

    fn load(&mut self, alloc: Global, name: &str, limit: u64) -> Result<Vec<u8>, LoadStop>
        requires { limit < 18446744073709551615 }
        ensures within { IfOk result (λ bytes. length bytes.items ≤ limit) }
        ensures file { IfOk result (λ bytes. HasFile (Some (safe_file self.old)) name.now bytes.items) }
        ensures reached { IfErr result (λ stop. (reached : ℕ) → stop ≡ LoadStop.TooLong reached →
            (reached ≡ limit + 1) × HasLongFile (Some (safe_file self.old)) name.now limit) }
        ensures cause { IfErr result (λ stop. stop ≡ LoadStop.Failed → Rose 0 0) }
        ensures kept { self.new ≡ self.old }
        ensures lasting { (other : List ℕ) → 0 ≤ 0 }
        ensures quiet { (other : List ℕ) → MatchResult result (λ _. ◌≡◌ {A = ℕ} 0 0) (λ stop. stop ≢ LoadStop.Failed → ◌≡◌ {A = ℕ} 0 0) }
        ensures able { IfErr result (λ stop. stop ≢ LoadStop.Failed) }
    {
        copy_within(alloc, self.text(name), limit)
    }
}
