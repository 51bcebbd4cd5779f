//! Records that are compiled already.

ghost use Rattle.std.specs.Prelude.{IfOk};
ghost use Rattle.xdg_build.specs.Grammars.{grammar_of};
ghost use Rattle.xdg_build.specs.Known.{AreRecords};
ghost use Rattle.xdg_packed.specs.Lexicon.{Lexicon};

use indexmap::IndexMap;
use std::alloc::Global;
use xdg_base::{List, OutOfMemory};
use xdg_check::Checked;
use xdg_problem::Feat;

/// The features of the records of a grammar that are compiled already, for each of its principle uses.
#[derive(Debug, Drop)]
pub struct Records {
    // For each use those of the records that came before, each under the number of the first entry with that record.
    pub(crate) kept: Vec<IndexMap<u32, List<Feat>>>,
}

impl Records {
    /// None yet, for the principle uses of a grammar.
    pub fn new(alloc: Global, checked: &Checked) -> Result<Records, OutOfMemory>
        ensures { IfOk result (λ made. (lexicon : Lexicon) → AreRecords (grammar_of checked.now lexicon) made) }
    {
        let uses = checked.principles();
        let mut kept = Vec::new(alloc);
        for _ in 0..uses.len() {
            kept.push(IndexMap::new(alloc))?;
        }
        Ok(Records { kept })
    }
}
