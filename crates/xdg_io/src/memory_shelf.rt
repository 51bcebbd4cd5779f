//! A shelf in memory.

ghost use Rattle.std.specs.Prelude.{◌≡◌, ◌≢◌, ◌<◌, ◌≤◌, ◌+◌, ◌⊎◌, ◌↔◌, ℕ, Some, None, List, length, string_bytes};
ghost use Rattle.std.specs.Prelude.{AllPairs, IfOk, IfErr, OnOk, IsErrOf, MatchResult};
ghost use Rattle.std.specs.Option.{option_copied};
ghost use Rattle.xdg_io.specs.Files.{HasFile, HasLongFile};
ghost use Rattle.xdg_io.specs.Memory.{IsListed, counted, stopped, file_of, listed_files};
ghost use Rattle.xdg_io.specs.Rose.{Rose};

use crate::calls::Calls;
use crate::{Failed, LoadStop, Shelf};
use std::alloc::Global;
use std::marker::Model;
use xdg_base::{Bytes, List, OutOfMemory, Text};

/// A shelf of given files, which fails at given calls.
#[derive(Debug, Drop)]
pub struct MemShelf {
    files: List<(Text, Bytes)>,
    calls: Calls,
}

impl Model for MemShelf {
    ghost use Rattle.xdg_io.specs.Memory.{ShelfState};

    ghost Value = { ShelfState };

    ghost view = { λ shelf. record { files = shelf.files; calls = shelf.calls } };
}

impl MemShelf {
    /// A shelf of these names and bytes, which fails at the calls whose numbers, from 1, stand in `fails`.
    pub fn new(
        alloc: Global,
        files: &[(String, Vec<u8>)],
        fails: &[u64],
    ) -> Result<MemShelf, OutOfMemory>
        requires { AllPairs (λ one other. string_bytes one.0 ≢ string_bytes other.0) files.now }
        ensures { IfOk result (λ shelf. shelf ≡ record {
          files = listed_files files.now;
          calls = record { fails = fails.now; count = 0; faults = 0 };
        }) }
    {
        let files = copies(alloc, files)?;
        let calls = Calls::new(alloc, fails)?;
        Ok(MemShelf { files, calls })
    }
}

impl Shelf for MemShelf {
    ghost files = { λ shelf. Some (file_of shelf.files) };

    ghost faults = { λ shelf _. shelf.calls.faults };

    fn load(&mut self, alloc: Global, name: &str, limit: u64) -> Result<Vec<u8>, LoadStop>
        requires { limit < 18446744073709551615 }
        ensures within { IfOk result (λ bytes. length bytes.items ≤ limit) }
        ensures file { IfOk result (λ bytes. HasFile (Some (file_of self.old.files)) name.now bytes.items) }
        ensures reached { IfErr result (λ stop. (reached : ℕ) → stop ≡ LoadStop.TooLong reached →
            (reached ≡ limit + 1) × HasLongFile (Some (file_of self.old.files)) name.now limit) }
        ensures cause { IfErr result (λ stop. stop ≡ LoadStop.Failed → Rose self.old.calls.faults self.new.calls.faults) }
        ensures kept { self.new.files ≡ self.old.files }
        ensures lasting { (other : List ℕ) → self.old.calls.faults ≤ self.new.calls.faults }
        ensures quiet { (other : List ℕ) → MatchResult result (λ _. self.new.calls.faults ≡ self.old.calls.faults) (λ stop.
            stop ≢ LoadStop.Failed → self.new.calls.faults ≡ self.old.calls.faults) }
        ensures fails { IsErrOf result LoadStop.Failed ↔ (IsListed self.old.calls ⊎ (file_of self.old.files name.now ≡ None)) }
        ensures ok { OnOk result (self.new ≡ record self.old { calls = counted self.old.calls }) }
        ensures err { IfErr result (λ stop. self.new ≡ record self.old { calls = stopped stop self.old.calls }) }
    {
        let found = find(self.files.as_slice(), name);
        if self.calls.begin(found.is_some()).is_err() {
            return Err(LoadStop::Failed);
        }
        let Some(bytes) = found else {
            return Err(LoadStop::Failed);
        };
        copy_within(alloc, bytes, limit)
    }
}

/// A copy of the bytes, where they are at most `limit`.
pub(crate) fn copy_within(alloc: Global, bytes: &[u8], limit: u64) -> Result<Vec<u8>, LoadStop>
    requires { limit < 18446744073709551615 }
    ensures copy { IfOk result (λ copy. copy.items ≡ bytes.now) }
    ensures within { IfOk result (λ copy. length copy.items ≤ limit) }
    ensures reached { IfErr result (λ stop. (reached : ℕ) → stop ≡ LoadStop.TooLong reached →
        (reached ≡ limit + 1) × (limit < length bytes.now)) }
    ensures able { IfErr result (λ stop. stop ≢ LoadStop.Failed) }
{
    if bytes.len() as u64 > limit {
        return Err(LoadStop::TooLong { reached: limit + 1 });
    }
    Ok(Vec::from_slice(alloc, bytes)?)
}

/// The bytes of the first file of a name.
#[tactic(auto, using(crate::proofs::Shelves::file_found, crate::proofs::Shelves::file_behind))]
fn find<'a>(files: &'a [(Text, Bytes)], name: &str) -> Option<&'a [u8]>
    ensures { option_copied result ≡ file_of files.now name.now }
{
    for file in files {
        if file.0.as_str() == name {
            return Some(file.1.as_slice());
        }
    }
    None
}

/// Copies of names and bytes.
fn copies(alloc: Global, files: &[(String, Vec<u8>)]) -> Result<List<(Text, Bytes)>, OutOfMemory>
    ensures { IfOk result (λ copies. copies ≡ listed_files files.now) }
{
    let mut copies = List::new(alloc);
    for (name, bytes) in files {
        let name = Text::from_str(alloc, name.as_str())?;
        let bytes = Bytes::from_slice(alloc, bytes.as_slice())?;
        copies.push((name, bytes))?;
    }
    Ok(copies)
}
