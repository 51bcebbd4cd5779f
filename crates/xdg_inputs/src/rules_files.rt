//! Rules files.

ghost use Rattle.std.specs.Prelude.{◌≡◌, ◌≢◌, ◌≤◌, ℕ, List, Option, Some, IfErr, IfOk, MatchResult};
ghost use Rattle.xdg_formula.specs.declared.tree.Rules as trees;
ghost use Rattle.xdg_io.specs.Rose.{Rose};
ghost use Rattle.xdg_inputs.specs.Refusals.{Stops};
ghost use Rattle.xdg_inputs.specs.Stages.{Accepts};
ghost use Rattle.xdg_inputs.specs.Files.{AreRight, HasBadFile, HasBadRules, HasFile, HasRules, RoseFor, count_for};

use crate::expanding::Expanded;
use crate::refusals::{Refusal, stopped_in, too_long};
use crate::rules_texts::rules_in;
use std::alloc::Global;
use xdg_base::{List, Text};
use xdg_formula::Rules;
use xdg_io::{LoadStop, Shelf};
use xdg_types::TypeTable;

/// How many bytes a rules file may have.
const RULES_LIMIT: u64 = 65_536;

/// The rules of a file.
fn load_named<H: Shelf>(
    alloc: Global,
    types: &TypeTable,
    name: &str,
    shelf: &mut H,
) -> Result<Rules, Refusal>
    ensures found { IfOk result
        (λ rules. (files : List ℕ → Option (List ℕ)) → H.files shelf.old ≡ Some files
        → Accepts trees.Rules (HasBadFile files name.now types.now) (HasFile files name.now types.now) rules) }
    ensures right { IfOk result (AreRight types.now) }
    ensures refused { IfErr result
        (λ refusal. (files : List ℕ → Option (List ℕ))
        → Stops (H.files shelf.old ≡ Some files) (H.faults shelf.old name.now) (H.faults shelf.new name.now) trees.Rules
        (HasBadFile files name.now types.now) (HasFile files name.now types.now) refusal) }
    ensures failed { IfErr result (λ refusal. refusal ≡ Refusal.Read → Rose (H.faults shelf.old name.now) (H.faults shelf.new name.now)) }
    ensures kept { H.files shelf.new ≡ H.files shelf.old }
    ensures lasting { (other : List ℕ) → H.faults shelf.old other ≤ H.faults shelf.new other }
    ensures quiet { (other : List ℕ) → MatchResult result (λ _. H.faults shelf.new other ≡ H.faults shelf.old other) (λ refusal.
        refusal ≢ Refusal.Read → H.faults shelf.new other ≡ H.faults shelf.old other) }
{
    let bytes = match shelf.load(alloc, name, RULES_LIMIT) {
        Ok(bytes) => bytes,
        Err(LoadStop::Failed) => return Err(Refusal::Read),
        Err(LoadStop::OutOfMemory) => return Err(Refusal::Memory),
        Err(LoadStop::TooLong { reached }) => return Err(too_long(reached)),
    };
    match rules_in(alloc, types, &bytes) {
        Ok(rules) => Ok(rules),
        Err(stop) => Err(stopped_in(&bytes, stop)),
    }
}

/// The rules of the file of that name, or none where no name is given. Nothing is wrong with them in the grammar.
pub fn load_rules<H: Shelf>(
    alloc: Global,
    expanded: &Expanded,
    name: &Option<Text>,
    shelf: &mut H,
) -> Result<Rules, Refusal>
    ensures found { IfOk result
        (λ rules. (files : List ℕ → Option (List ℕ)) → H.files shelf.old ≡ Some files
        → Accepts trees.Rules (HasBadRules files name.now expanded.now.checked.types) (HasRules files name.now expanded.now.checked.types) rules) }
    ensures right { IfOk result (AreRight expanded.now.checked.types) }
    ensures refused { IfErr result
        (λ refusal. (files : List ℕ → Option (List ℕ))
        → Stops (H.files shelf.old ≡ Some files) (count_for name.now (H.faults shelf.old)) (count_for name.now (H.faults shelf.new)) trees.Rules
        (HasBadRules files name.now expanded.now.checked.types) (HasRules files name.now expanded.now.checked.types) refusal) }
    ensures failed { IfErr result (λ refusal. refusal ≡ Refusal.Read → RoseFor name.now (H.faults shelf.old) (H.faults shelf.new)) }
    ensures kept { H.files shelf.new ≡ H.files shelf.old }
    ensures lasting { (other : List ℕ) → H.faults shelf.old other ≤ H.faults shelf.new other }
    ensures quiet { (other : List ℕ) → MatchResult result (λ _. H.faults shelf.new other ≡ H.faults shelf.old other) (λ refusal.
        refusal ≢ Refusal.Read → H.faults shelf.new other ≡ H.faults shelf.old other) }
{
    match name {
        None => Ok(Rules {
            rules: List::new(alloc),
        }),
        Some(name) => load_named(alloc, expanded.checked.types(), name.as_str(), shelf),
    }
}
