//! The command `arrange`.

ghost use Rattle.std.specs.Prelude.{◌≡◌, ◌≢◌, ◌≤◌, ◌⊎◌, ℕ, List, [], Option, Some, length};
ghost use Rattle.xdg_arrange.specs.Outcomes.{ArrangeEnds, ArrangeOf, ListThen};
ghost use Rattle.xdg_inputs.specs.Answers.{meaning_of};
ghost use Rattle.xdg_inputs.specs.RightLexicons.{HasRightLexicon};
ghost use Rattle.xdg_io.specs.Rose.{Rose};
ghost use Rattle.xdg_inputs.specs.Loaded.{read_of};
ghost use Rattle.xdg_inputs.specs.Outcomes.{MeaningThen};
ghost use Rattle.xdg_inputs.specs.Runs.{LeavesFront};

use crate::lists::read_list;
use crate::printing::print_arrangements;
use std::alloc::Global;
use xdg_command::ArrangeOptions;
use xdg_inputs::{Expanded, Loaded, Status, expand_tree, load_tree, refuse, stopped_in};
use xdg_io::{Shelf, Sink, Source};

/// Reads the words of the input and prints their arrangements, or the fault line of what is refused.
fn arrange_expanded<S: Source, K: Sink>(
    alloc: Global,
    options: &ArrangeOptions,
    expanded: &Expanded,
    input: &mut S,
    out: &mut K,
) -> Status
    requires lexicon { HasRightLexicon expanded.now }
    ensures leaves { (content : List ℕ) → S.left input.old ≡ Some content →
        LeavesFront (ListThen options.now content (meaning_of expanded.now)) result (K.held out.old) (K.held out.new) }
    ensures unwritten { result ≡ Status.ReadFault → K.held out.new ≡ K.held out.old }
    ensures read_fault { result ≡ Status.ReadFault → Rose (S.faults input.old) (S.faults input.new) }
    ensures write_fault { result ≡ Status.WriteFault → Rose (K.faults out.old) (K.faults out.new) }
    ensures input_lasting { S.faults input.old ≤ S.faults input.new }
    ensures input_quiet { result ≢ Status.ReadFault → S.faults input.new ≡ S.faults input.old }
    ensures out_lasting { K.faults out.old ≤ K.faults out.new }
    ensures out_quiet { result ≢ Status.WriteFault → K.faults out.new ≡ K.faults out.old }
    ensures ends { ArrangeEnds result }
    ensures all_read { (content : List ℕ) → (result ≡ Status.Done) ⊎ (result ≡ Status.Spent) → S.left input.old ≡ Some content → S.left input.new ≡ Some [] }
    ensures accepted { (result ≡ Status.BadText → ⊥) × (result ≡ Status.BadGrammar → ⊥) }
{
    match read_list(alloc, expanded, options.segment, input) {
        Ok(words) => print_arrangements(alloc, options.budget, expanded, &words, out),
        Err(refusal) => refuse(refusal, Status::BadSentence, out),
    }
}

/// Arranges the words of the input by the grammar of a text, or prints the fault line of what is refused.
fn arrange_loaded<S: Source, K: Sink>(
    alloc: Global,
    options: &ArrangeOptions,
    loaded: Loaded,
    input: &mut S,
    out: &mut K,
) -> Status
    requires short { length loaded.text.items ≤ 4194304 }
    ensures leaves { (content : List ℕ) → S.left input.old ≡ Some content →
        LeavesFront (MeaningThen (read_of loaded) (ListThen options.now content)) result (K.held out.old) (K.held out.new) }
    ensures unwritten { result ≡ Status.ReadFault → K.held out.new ≡ K.held out.old }
    ensures read_fault { result ≡ Status.ReadFault → Rose (S.faults input.old) (S.faults input.new) }
    ensures write_fault { result ≡ Status.WriteFault → Rose (K.faults out.old) (K.faults out.new) }
    ensures input_lasting { S.faults input.old ≤ S.faults input.new }
    ensures input_quiet { result ≢ Status.ReadFault → S.faults input.new ≡ S.faults input.old }
    ensures out_lasting { K.faults out.old ≤ K.faults out.new }
    ensures out_quiet { result ≢ Status.WriteFault → K.faults out.new ≡ K.faults out.old }
    ensures ends { ArrangeEnds result }
    ensures unread { (result ≡ Status.BadText) ⊎ (result ≡ Status.BadGrammar) → S.left input.new ≡ S.left input.old }
    ensures all_read { (content : List ℕ) → (result ≡ Status.Done) ⊎ (result ≡ Status.Spent) → S.left input.old ≡ Some content → S.left input.new ≡ Some [] }
{
    let Loaded { text, tree } = loaded;
    match expand_tree(alloc, tree) {
        Ok(expanded) => arrange_expanded(alloc, options, &expanded, input, out),
        Err(stop) => refuse(stopped_in(&text, stop), Status::BadGrammar, out),
    }
}

/// Loads a grammar, and prints the arrangements of the words that the input gives, those that have an analysis, each with its analyses;
/// or prints the fault line of a grammar or an input that is refused. The search of each arrangement is charged a budget of its own.
pub fn arrange<H: Shelf, S: Source, K: Sink>(
    alloc: Global,
    options: &ArrangeOptions,
    shelf: &mut H,
    input: &mut S,
    out: &mut K,
) -> Status
    ensures leaves { (files : List ℕ → Option (List ℕ)) (content : List ℕ) → H.files shelf.old ≡ Some files → S.left input.old ≡ Some content →
        LeavesFront (ArrangeOf options.now files content) result (K.held out.old) (K.held out.new) }
    ensures unwritten { result ≡ Status.ReadFault → K.held out.new ≡ K.held out.old }
    ensures read_fault { result ≡ Status.ReadFault →
        Rose (H.faults shelf.old options.now.grammar) (H.faults shelf.new options.now.grammar) ⊎ Rose (S.faults input.old) (S.faults input.new) }
    ensures write_fault { result ≡ Status.WriteFault → Rose (K.faults out.old) (K.faults out.new) }
    ensures files { H.files shelf.new ≡ H.files shelf.old }
    ensures shelf_lasting { (other : List ℕ) → H.faults shelf.old other ≤ H.faults shelf.new other }
    ensures shelf_quiet { (other : List ℕ) → result ≢ Status.ReadFault → H.faults shelf.new other ≡ H.faults shelf.old other }
    ensures input_lasting { S.faults input.old ≤ S.faults input.new }
    ensures input_quiet { result ≢ Status.ReadFault → S.faults input.new ≡ S.faults input.old }
    ensures out_lasting { K.faults out.old ≤ K.faults out.new }
    ensures out_quiet { result ≢ Status.WriteFault → K.faults out.new ≡ K.faults out.old }
    ensures ends { ArrangeEnds result }
    ensures unread { (result ≡ Status.BadText) ⊎ (result ≡ Status.BadGrammar) → S.left input.new ≡ S.left input.old }
    ensures all_read { (content : List ℕ) → (result ≡ Status.Done) ⊎ (result ≡ Status.Spent) → S.left input.old ≡ Some content → S.left input.new ≡ Some [] }
{
    match load_tree(alloc, shelf, options.grammar.as_str()) {
        Ok(loaded) => arrange_loaded(alloc, options, loaded, input, out),
        Err(refusal) => refuse(refusal, Status::BadText, out),
    }
}
