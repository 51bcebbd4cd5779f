//! Costs files.

ghost use Rattle.std.specs.Prelude.{◌≡◌, ◌≢◌, ◌≤◌, ℕ, List, Option, Some, length, IfErr, IfOk, MatchResult};
ghost use Rattle.xdg_best.specs.Costed.{HasBadCosts, HasCosts};
ghost use Rattle.xdg_io.specs.Rose.{Rose};
ghost use Rattle.xdg_inputs.specs.Refusals.{Stops};
ghost use Rattle.xdg_inputs.specs.Stages.{Accepts};
ghost use Rattle.xdg_problem.specs.Costs.{CostLists};

use crate::texts::costs;
use std::alloc::Global;
use xdg_inputs::{Refusal, stopped_in, too_long};
use xdg_io::{LoadStop, Shelf};
use xdg_problem::Costs;
use xdg_types::TypeTable;

/// How many bytes a costs file may have.
const COSTS_LIMIT: u64 = 4_194_304;

/// The costs of a file, for the used dimensions and so many entries.
pub(crate) fn load_costs<H: Shelf>(
    alloc: Global,
    types: &TypeTable,
    entries: u32,
    shelf: &mut H,
    name: &str,
) -> Result<Costs, Refusal>
    ensures found { IfOk result
        (λ costs. (files : List ℕ → Option (List ℕ)) → H.files shelf.old ≡ Some files
        → Accepts CostLists (HasBadCosts files name.now types.now entries) (HasCosts files name.now types.now entries) costs) }
    ensures refused { IfErr result
        (λ refusal. (files : List ℕ → Option (List ℕ))
        → Stops (H.files shelf.old ≡ Some files) (H.faults shelf.old name.now) (H.faults shelf.new name.now) CostLists
        (HasBadCosts files name.now types.now entries) (HasCosts files name.now types.now entries) refusal) }
    ensures failed { IfErr result (λ refusal. refusal ≡ Refusal.Read → Rose (H.faults shelf.old name.now) (H.faults shelf.new name.now)) }
    ensures kept { H.files shelf.new ≡ H.files shelf.old }
    ensures lasting { (other : List ℕ) → H.faults shelf.old other ≤ H.faults shelf.new other }
    ensures quiet { (other : List ℕ) → MatchResult result (λ _. H.faults shelf.new other ≡ H.faults shelf.old other) (λ refusal.
        refusal ≢ Refusal.Read → H.faults shelf.new other ≡ H.faults shelf.old other) }
{
    let bytes = match shelf.load(alloc, name, COSTS_LIMIT) {
        Ok(bytes) => bytes,
        Err(LoadStop::Failed) => return Err(Refusal::Read),
        Err(LoadStop::OutOfMemory) => return Err(Refusal::Memory),
        Err(LoadStop::TooLong { reached }) => return Err(too_long(reached)),
    };
    match costs(alloc, &bytes, types, entries) {
        Ok(costs) => Ok(costs),
        Err(stop) => Err(stopped_in(&bytes, stop)),
    }
}
