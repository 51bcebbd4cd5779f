//! The command `best`.

ghost use Rattle.std.specs.Prelude.{◌≡◌, ◌≢◌, ◌≤◌, ◌⊎◌, ℕ, List, [], Option, Some, length};
ghost use Rattle.xdg_best.specs.Outcomes.{BestOf, CostedThen, CostsThen, Searched};
ghost use Rattle.xdg_best.specs.Runs.{BestEnds};
ghost use Rattle.xdg_inputs.specs.Answers.{meaning_of};
ghost use Rattle.xdg_inputs.specs.RightLexicons.{HasRightLexicon};
ghost use Rattle.xdg_io.specs.Rose.{Rose};
ghost use Rattle.xdg_inputs.specs.Loaded.{read_of};
ghost use Rattle.xdg_inputs.specs.Outcomes.{MeaningThen};
ghost use Rattle.xdg_inputs.specs.Runs.{Leaves, Wrote};

use crate::costing::load_costs;
use crate::rounds::best;
use crate::writing::write_answer;
use std::alloc::Global;
use xdg_base::OutOfMemory;
use xdg_command::BestOptions;
use xdg_engine::props;
use xdg_inputs::{
    Expanded, Loaded, Status, expand_tree, load_tree, read_problem, refuse, stopped_in,
};
use xdg_io::{Shelf, Sink, Source};
use xdg_problem::{Costs, Problem};

/// Searches for the cheapest analysis of a problem, and prints it with its cost.
fn search<K: Sink>(
    alloc: Global,
    problem: &Problem,
    costs: &Costs,
    budget: u64,
    out: &mut K,
) -> Status
    requires { 1 ≤ budget }
    ensures leaves { Leaves (Searched budget costs.now problem.now) result (K.held out.old) (K.held out.new) }
    ensures write_fault { result ≡ Status.WriteFault → Rose (K.faults out.old) (K.faults out.new) }
    ensures out_lasting { K.faults out.old ≤ K.faults out.new }
    ensures out_quiet { result ≢ Status.WriteFault → K.faults out.new ≡ K.faults out.old }
    ensures ends { (result ≡ Status.Done) ⊎ ((result ≡ Status.Spent) ⊎ ((result ≡ Status.WriteFault) ⊎ (result ≡ Status.OutOfMemory))) }
{
    let _parts = problem.parts();
    let Ok(answer) = best(alloc, problem, costs, budget, |one: &Problem| {
        props(alloc, one)
    }) else {
        return Status::OutOfMemory;
    };
    let written = write_answer(problem, &answer, out);
    if written.is_err() {
        return Status::WriteFault;
    }
    if answer.spent {
        return Status::Spent;
    }
    Status::Done
}

/// Reads a sentence of a grammar and prints its cheapest analysis, or the fault line of what is refused.
fn best_costed<S: Source, K: Sink>(
    alloc: Global,
    options: &BestOptions,
    expanded: &Expanded,
    costs: &Costs,
    input: &mut S,
    out: &mut K,
) -> Status
    requires lexicon { HasRightLexicon expanded.now }
    requires some { 1 ≤ options.now.budget }
    ensures leaves { (content : List ℕ) → S.left input.old ≡ Some content
        → Leaves (CostedThen options.now content (meaning_of expanded.now) costs.now) result (K.held out.old) (K.held out.new) }
    ensures read_fault { result ≡ Status.ReadFault → Rose (S.faults input.old) (S.faults input.new) }
    ensures write_fault { result ≡ Status.WriteFault → Rose (K.faults out.old) (K.faults out.new) }
    ensures input_lasting { S.faults input.old ≤ S.faults input.new }
    ensures input_quiet { result ≢ Status.ReadFault → S.faults input.new ≡ S.faults input.old }
    ensures out_lasting { K.faults out.old ≤ K.faults out.new }
    ensures wrote { Wrote BestEnds result (K.faults out.old) (K.faults out.new) (K.held out.old) (K.held out.new) }
    ensures all_read { (content : List ℕ) → (result ≡ Status.Done) ⊎ (result ≡ Status.Spent) → S.left input.old ≡ Some content → S.left input.new ≡ Some [] }
    ensures command { (result ≡ Status.Usage → ⊥) × ((result ≡ Status.BadText → ⊥) × ((result ≡ Status.BadGrammar → ⊥) × (result ≡ Status.BadCosts → ⊥))) }
{
    match read_problem(alloc, expanded, options.segment, input) {
        Ok(problem) => search(alloc, &problem, costs, options.budget, out),
        Err(refusal) => refuse(refusal, Status::BadSentence, out),
    }
}

/// The same, with the costs of a file.
fn best_expanded<H: Shelf, S: Source, K: Sink>(
    alloc: Global,
    options: &BestOptions,
    expanded: &Expanded,
    shelf: &mut H,
    input: &mut S,
    out: &mut K,
) -> Status
    requires lexicon { HasRightLexicon expanded.now }
    requires some { 1 ≤ options.now.budget }
    ensures leaves { (files : List ℕ → Option (List ℕ)) (content : List ℕ) → H.files shelf.old ≡ Some files → S.left input.old ≡ Some content
        → Leaves (CostsThen options.now files content (meaning_of expanded.now)) result (K.held out.old) (K.held out.new) }
    ensures read_fault { result ≡ Status.ReadFault
        → Rose (H.faults shelf.old options.now.costs) (H.faults shelf.new options.now.costs) ⊎ Rose (S.faults input.old) (S.faults input.new) }
    ensures write_fault { result ≡ Status.WriteFault → Rose (K.faults out.old) (K.faults out.new) }
    ensures files { H.files shelf.new ≡ H.files shelf.old }
    ensures shelf_lasting { (other : List ℕ) → H.faults shelf.old other ≤ H.faults shelf.new other }
    ensures shelf_quiet { (other : List ℕ) → result ≢ Status.ReadFault → H.faults shelf.new other ≡ H.faults shelf.old other }
    ensures input_lasting { S.faults input.old ≤ S.faults input.new }
    ensures input_quiet { result ≢ Status.ReadFault → S.faults input.new ≡ S.faults input.old }
    ensures out_lasting { K.faults out.old ≤ K.faults out.new }
    ensures wrote { Wrote BestEnds result (K.faults out.old) (K.faults out.new) (K.held out.old) (K.held out.new) }
    ensures unread { (result ≡ Status.BadText) ⊎ ((result ≡ Status.BadGrammar) ⊎ (result ≡ Status.BadCosts)) → S.left input.new ≡ S.left input.old }
    ensures all_read { (content : List ℕ) → (result ≡ Status.Done) ⊎ (result ≡ Status.Spent) → S.left input.old ≡ Some content → S.left input.new ≡ Some [] }
    ensures command { result ≡ Status.Usage → ⊥ }
{
    let entries = expanded.lexicon.len() as u32;
    match load_costs(
        alloc,
        expanded.checked.types(),
        entries,
        shelf,
        options.costs.as_str(),
    ) {
        Ok(costs) => best_costed(alloc, options, expanded, &costs, input, out),
        Err(refusal) => refuse(refusal, Status::BadCosts, out),
    }
}

/// The same, for the grammar of a text.
fn best_loaded<H: Shelf, S: Source, K: Sink>(
    alloc: Global,
    options: &BestOptions,
    loaded: Loaded,
    shelf: &mut H,
    input: &mut S,
    out: &mut K,
) -> Status
    requires short { length loaded.text.items ≤ 4194304 }
    requires some { 1 ≤ options.now.budget }
    ensures leaves { (files : List ℕ → Option (List ℕ)) (content : List ℕ) → H.files shelf.old ≡ Some files → S.left input.old ≡ Some content
        → Leaves (MeaningThen (read_of loaded) (CostsThen options.now files content)) result (K.held out.old) (K.held out.new) }
    ensures read_fault { result ≡ Status.ReadFault
        → Rose (H.faults shelf.old options.now.costs) (H.faults shelf.new options.now.costs) ⊎ Rose (S.faults input.old) (S.faults input.new) }
    ensures write_fault { result ≡ Status.WriteFault → Rose (K.faults out.old) (K.faults out.new) }
    ensures files { H.files shelf.new ≡ H.files shelf.old }
    ensures shelf_lasting { (other : List ℕ) → H.faults shelf.old other ≤ H.faults shelf.new other }
    ensures shelf_quiet { (other : List ℕ) → result ≢ Status.ReadFault → H.faults shelf.new other ≡ H.faults shelf.old other }
    ensures input_lasting { S.faults input.old ≤ S.faults input.new }
    ensures input_quiet { result ≢ Status.ReadFault → S.faults input.new ≡ S.faults input.old }
    ensures out_lasting { K.faults out.old ≤ K.faults out.new }
    ensures wrote { Wrote BestEnds result (K.faults out.old) (K.faults out.new) (K.held out.old) (K.held out.new) }
    ensures unread { (result ≡ Status.BadText) ⊎ ((result ≡ Status.BadGrammar) ⊎ (result ≡ Status.BadCosts)) → S.left input.new ≡ S.left input.old }
    ensures all_read { (content : List ℕ) → (result ≡ Status.Done) ⊎ (result ≡ Status.Spent) → S.left input.old ≡ Some content → S.left input.new ≡ Some [] }
    ensures command { result ≡ Status.Usage → ⊥ }
{
    let Loaded { text, tree } = loaded;
    match expand_tree(alloc, tree) {
        Ok(expanded) => best_expanded(alloc, options, &expanded, shelf, input, out),
        Err(stop) => refuse(stopped_in(&text, stop), Status::BadGrammar, out),
    }
}

/// Loads a grammar and costs, reads a sentence, and prints the first of its analyses that cost least, with its cost, or the fault line
/// of what is refused. The rounds of the search are charged a budget of boxed prefixes at most, all together.
pub fn best_sentence<H: Shelf, S: Source, K: Sink>(
    alloc: Global,
    options: &BestOptions,
    shelf: &mut H,
    input: &mut S,
    out: &mut K,
) -> Status
    requires { 1 ≤ options.now.budget }
    ensures leaves { (files : List ℕ → Option (List ℕ)) (content : List ℕ) → H.files shelf.old ≡ Some files → S.left input.old ≡ Some content
        → Leaves (BestOf options.now files content) result (K.held out.old) (K.held out.new) }
    ensures read_fault { result ≡ Status.ReadFault
        → Rose (H.faults shelf.old options.now.grammar) (H.faults shelf.new options.now.grammar)
        ⊎ (Rose (H.faults shelf.old options.now.costs) (H.faults shelf.new options.now.costs) ⊎ Rose (S.faults input.old) (S.faults input.new)) }
    ensures write_fault { result ≡ Status.WriteFault → Rose (K.faults out.old) (K.faults out.new) }
    ensures files { H.files shelf.new ≡ H.files shelf.old }
    ensures shelf_lasting { (other : List ℕ) → H.faults shelf.old other ≤ H.faults shelf.new other }
    ensures shelf_quiet { (other : List ℕ) → result ≢ Status.ReadFault → H.faults shelf.new other ≡ H.faults shelf.old other }
    ensures input_lasting { S.faults input.old ≤ S.faults input.new }
    ensures input_quiet { result ≢ Status.ReadFault → S.faults input.new ≡ S.faults input.old }
    ensures out_lasting { K.faults out.old ≤ K.faults out.new }
    ensures wrote { Wrote BestEnds result (K.faults out.old) (K.faults out.new) (K.held out.old) (K.held out.new) }
    ensures unread { (result ≡ Status.BadText) ⊎ ((result ≡ Status.BadGrammar) ⊎ (result ≡ Status.BadCosts)) → S.left input.new ≡ S.left input.old }
    ensures all_read { (content : List ℕ) → (result ≡ Status.Done) ⊎ (result ≡ Status.Spent) → S.left input.old ≡ Some content → S.left input.new ≡ Some [] }
    ensures command { result ≡ Status.Usage → ⊥ }
{
    match load_tree(alloc, shelf, options.grammar.as_str()) {
        Ok(loaded) => best_loaded(alloc, options, loaded, shelf, input, out),
        Err(refusal) => refuse(refusal, Status::BadText, out),
    }
}
