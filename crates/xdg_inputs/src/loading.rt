//! Grammar files.

ghost use Rattle.std.specs.Prelude.{◌≡◌, ◌≢◌, ◌≤◌, ℕ, List, Option, Some, length, IfErr, IfOk, MatchResult};
ghost use Rattle.xdg_io.specs.Rose.{Rose};
ghost use Rattle.xdg_inputs.specs.Loaded.{read_of};
ghost use Rattle.xdg_inputs.specs.Refusals.{Stops};
ghost use Rattle.xdg_inputs.specs.Stages.{Accepts};
ghost use Rattle.xdg_inputs.specs.GrammarFiles.{HasBadText, HasTree, ReadText};

use crate::reading::read_tree;
use crate::refusals::{Refusal, stopped_in, too_long};
use std::alloc::Global;
use xdg_ast::Grammar;
use xdg_io::{LoadStop, Shelf};

/// How many bytes a grammar text may have.
const GRAMMAR_LIMIT: u64 = 4_194_304;

/// A grammar text with its tree.
#[derive(Debug, Drop)]
pub struct Loaded {
    pub text: Vec<u8>,
    pub tree: Grammar,
}

/// The grammar text of a file.
pub fn load_tree<H: Shelf>(alloc: Global, shelf: &mut H, name: &str) -> Result<Loaded, Refusal>
    ensures found { IfOk result
        (λ loaded. (files : List ℕ → Option (List ℕ)) → H.files shelf.old ≡ Some files
        → Accepts ReadText (HasBadText files name.now) (HasTree files name.now) (read_of loaded)) }
    ensures short { IfOk result (λ loaded. length loaded.text.items ≤ 4194304) }
    ensures refused { IfErr result
        (λ refusal. (files : List ℕ → Option (List ℕ))
        → Stops (H.files shelf.old ≡ Some files) (H.faults shelf.old name.now) (H.faults shelf.new name.now) ReadText (HasBadText files name.now)
        (HasTree files name.now) refusal) }
    ensures failed { IfErr result (λ refusal. refusal ≡ Refusal.Read → Rose (H.faults shelf.old name.now) (H.faults shelf.new name.now)) }
    ensures kept { H.files shelf.new ≡ H.files shelf.old }
    ensures lasting { (other : List ℕ) → H.faults shelf.old other ≤ H.faults shelf.new other }
    ensures quiet { (other : List ℕ) → MatchResult result (λ _. H.faults shelf.new other ≡ H.faults shelf.old other) (λ refusal.
        refusal ≢ Refusal.Read → H.faults shelf.new other ≡ H.faults shelf.old other) }
{
    let text = match shelf.load(alloc, name, GRAMMAR_LIMIT) {
        Ok(text) => text,
        Err(LoadStop::Failed) => return Err(Refusal::Read),
        Err(LoadStop::OutOfMemory) => return Err(Refusal::Memory),
        Err(LoadStop::TooLong { reached }) => return Err(too_long(reached)),
    };
    match read_tree(alloc, &text) {
        Ok(tree) => Ok(Loaded { text, tree }),
        Err(stop) => Err(stopped_in(&text, stop)),
    }
}
