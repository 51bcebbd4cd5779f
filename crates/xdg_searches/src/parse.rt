//! The command `parse`.

ghost use Rattle.std.specs.Prelude.{◌≡◌, ◌≢◌, ◌≤◌, ◌⊎◌, ℕ, List, [], Option, Some, length};
ghost use Rattle.xdg_searches.specs.Branched.{CanBranch};
ghost use Rattle.xdg_inputs.specs.Answers.{grammar_in, meaning_of};
ghost use Rattle.xdg_inputs.specs.RightLexicons.{HasRightLexicon};
ghost use Rattle.xdg_inputs.specs.Made.{IsMade};
ghost use Rattle.xdg_io.specs.Rose.{Rose};
ghost use Rattle.xdg_inputs.specs.Loaded.{read_of};
ghost use Rattle.xdg_inputs.specs.Outcomes.{MeaningThen};
ghost use Rattle.xdg_inputs.specs.Runs.{Leaves, Wrote};
ghost use Rattle.xdg_inputs.specs.Files.{AreRight, RoseFor};
ghost use Rattle.xdg_inputs.specs.RuledSteps.{RulesThen, WithRules};
ghost use Rattle.xdg_searches.specs.Outcomes.{ParseOf, Parsed, SentenceThen};
ghost use Rattle.xdg_searches.specs.Runs.{ParseEnds};

use crate::printing::search_asked;
use std::alloc::Global;
use std::thread::Threads;
use xdg_base::OutOfMemory;
use xdg_command::ParseOptions;
use xdg_formula::Rules;
use xdg_inputs::{
    Expanded, Loaded, Status, add_rules, expand_tree, load_rules, load_tree, read_problem, refuse,
    stopped_in,
};
use xdg_io::{Shelf, Sink, Source};
use xdg_problem::Problem;

/// Prints the analyses of a sentence in which rules are true.
fn parse_problem<R: Threads + Sync, K: Sink>(
    rt: &R,
    alloc: Global,
    options: &ParseOptions,
    expanded: &Expanded,
    rules: &Rules,
    problem: Problem,
    out: &mut K,
) -> Status
    requires lexicon { HasRightLexicon expanded.now }
    requires right { AreRight expanded.now.checked.types rules.now }
    requires made { IsMade (grammar_in expanded.now) problem }
    requires range { CanBranch options.now.budget options.now.first }
    ensures leaves { Leaves (WithRules (meaning_of expanded.now) rules.now.rules problem (Parsed options.now)) result (K.held out.old) (K.held out.new) }
    ensures write_fault { result ≡ Status.WriteFault → Rose (K.faults out.old) (K.faults out.new) }
    ensures out_lasting { K.faults out.old ≤ K.faults out.new }
    ensures out_quiet { result ≢ Status.WriteFault → K.faults out.new ≡ K.faults out.old }
    ensures ends { (result ≡ Status.Done) ⊎ ((result ≡ Status.Spent) ⊎ ((result ≡ Status.WriteFault) ⊎ (result ≡ Status.OutOfMemory))) }
{
    match add_rules(alloc, expanded, rules, problem) {
        Ok(ruled) => search_asked(rt, alloc, options, &ruled, out),
        Err(OutOfMemory) => Status::OutOfMemory,
    }
}

/// Reads a sentence of a grammar and prints its analyses in which rules are true, or the fault line of what is refused.
fn parse_ruled<R: Threads + Sync, S: Source, K: Sink>(
    rt: &R,
    alloc: Global,
    options: &ParseOptions,
    expanded: &Expanded,
    rules: &Rules,
    input: &mut S,
    out: &mut K,
) -> Status
    requires lexicon { HasRightLexicon expanded.now }
    requires right { AreRight expanded.now.checked.types rules.now }
    requires range { CanBranch options.now.budget options.now.first }
    ensures leaves { (content : List ℕ) → S.left input.old ≡ Some content
        → Leaves (SentenceThen options.now content rules.now (meaning_of expanded.now)) result (K.held out.old) (K.held out.new) }
    ensures read_fault { result ≡ Status.ReadFault → Rose (S.faults input.old) (S.faults input.new) }
    ensures write_fault { result ≡ Status.WriteFault → Rose (K.faults out.old) (K.faults out.new) }
    ensures input_lasting { S.faults input.old ≤ S.faults input.new }
    ensures input_quiet { result ≢ Status.ReadFault → S.faults input.new ≡ S.faults input.old }
    ensures out_lasting { K.faults out.old ≤ K.faults out.new }
    ensures wrote { Wrote ParseEnds result (K.faults out.old) (K.faults out.new) (K.held out.old) (K.held out.new) }
    ensures all_read { (content : List ℕ) → (result ≡ Status.Done) ⊎ (result ≡ Status.Spent) → S.left input.old ≡ Some content → S.left input.new ≡ Some [] }
    ensures command { (result ≡ Status.Usage → ⊥) × ((result ≡ Status.BadText → ⊥) × ((result ≡ Status.BadGrammar → ⊥) × (result ≡ Status.BadRules → ⊥))) }
{
    match read_problem(alloc, expanded, options.segment, input) {
        Ok(problem) => parse_problem(rt, alloc, options, expanded, rules, problem, out),
        Err(refusal) => refuse(refusal, Status::BadSentence, out),
    }
}

/// The same, with the rules of the file that is given.
fn parse_expanded<R: Threads + Sync, H: Shelf, S: Source, K: Sink>(
    rt: &R,
    alloc: Global,
    options: &ParseOptions,
    expanded: &Expanded,
    shelf: &mut H,
    input: &mut S,
    out: &mut K,
) -> Status
    requires lexicon { HasRightLexicon expanded.now }
    requires range { CanBranch options.now.budget options.now.first }
    ensures leaves { (files : List ℕ → Option (List ℕ)) (content : List ℕ) → H.files shelf.old ≡ Some files → S.left input.old ≡ Some content
        → Leaves (RulesThen files options.now.rules (SentenceThen options.now content) (meaning_of expanded.now)) result (K.held out.old) (K.held out.new) }
    ensures read_fault { result ≡ Status.ReadFault
        → RoseFor options.now.rules (H.faults shelf.old) (H.faults shelf.new) ⊎ Rose (S.faults input.old) (S.faults input.new) }
    ensures write_fault { result ≡ Status.WriteFault → Rose (K.faults out.old) (K.faults out.new) }
    ensures files { H.files shelf.new ≡ H.files shelf.old }
    ensures shelf_lasting { (other : List ℕ) → H.faults shelf.old other ≤ H.faults shelf.new other }
    ensures shelf_quiet { (other : List ℕ) → result ≢ Status.ReadFault → H.faults shelf.new other ≡ H.faults shelf.old other }
    ensures input_lasting { S.faults input.old ≤ S.faults input.new }
    ensures input_quiet { result ≢ Status.ReadFault → S.faults input.new ≡ S.faults input.old }
    ensures out_lasting { K.faults out.old ≤ K.faults out.new }
    ensures wrote { Wrote ParseEnds result (K.faults out.old) (K.faults out.new) (K.held out.old) (K.held out.new) }
    ensures unread { result ≡ Status.BadRules → S.left input.new ≡ S.left input.old }
    ensures all_read { (content : List ℕ) → (result ≡ Status.Done) ⊎ (result ≡ Status.Spent) → S.left input.old ≡ Some content → S.left input.new ≡ Some [] }
    ensures command { (result ≡ Status.Usage → ⊥) × ((result ≡ Status.BadText → ⊥) × (result ≡ Status.BadGrammar → ⊥)) }
{
    match load_rules(alloc, expanded, &options.rules, shelf) {
        Ok(rules) => parse_ruled(rt, alloc, options, expanded, &rules, input, out),
        Err(refusal) => refuse(refusal, Status::BadRules, out),
    }
}

/// The same, for the grammar of a text.
fn parse_loaded<R: Threads + Sync, H: Shelf, S: Source, K: Sink>(
    rt: &R,
    alloc: Global,
    options: &ParseOptions,
    loaded: Loaded,
    shelf: &mut H,
    input: &mut S,
    out: &mut K,
) -> Status
    requires short { length loaded.text.items ≤ 4194304 }
    requires range { CanBranch options.now.budget options.now.first }
    ensures leaves { (files : List ℕ → Option (List ℕ)) (content : List ℕ) → H.files shelf.old ≡ Some files → S.left input.old ≡ Some content
        → Leaves (MeaningThen (read_of loaded) (RulesThen files options.now.rules (SentenceThen options.now content))) result (K.held out.old)
        (K.held out.new) }
    ensures read_fault { result ≡ Status.ReadFault
        → RoseFor options.now.rules (H.faults shelf.old) (H.faults shelf.new) ⊎ Rose (S.faults input.old) (S.faults input.new) }
    ensures write_fault { result ≡ Status.WriteFault → Rose (K.faults out.old) (K.faults out.new) }
    ensures files { H.files shelf.new ≡ H.files shelf.old }
    ensures shelf_lasting { (other : List ℕ) → H.faults shelf.old other ≤ H.faults shelf.new other }
    ensures shelf_quiet { (other : List ℕ) → result ≢ Status.ReadFault → H.faults shelf.new other ≡ H.faults shelf.old other }
    ensures input_lasting { S.faults input.old ≤ S.faults input.new }
    ensures input_quiet { result ≢ Status.ReadFault → S.faults input.new ≡ S.faults input.old }
    ensures out_lasting { K.faults out.old ≤ K.faults out.new }
    ensures wrote { Wrote ParseEnds result (K.faults out.old) (K.faults out.new) (K.held out.old) (K.held out.new) }
    ensures unread { (result ≡ Status.BadGrammar) ⊎ (result ≡ Status.BadRules) → S.left input.new ≡ S.left input.old }
    ensures all_read { (content : List ℕ) → (result ≡ Status.Done) ⊎ (result ≡ Status.Spent) → S.left input.old ≡ Some content → S.left input.new ≡ Some [] }
    ensures command { (result ≡ Status.Usage → ⊥) × (result ≡ Status.BadText → ⊥) }
{
    let Loaded { text, tree } = loaded;
    match expand_tree(alloc, tree) {
        Ok(expanded) => parse_expanded(rt, alloc, options, &expanded, shelf, input, out),
        Err(stop) => refuse(stopped_in(&text, stop), Status::BadGrammar, out),
    }
}

/// Loads a grammar, reads a sentence, and prints its analyses, or the fault line of what is refused. A search is charged a budget
/// of boxed prefixes at most; where the sentence is searched by branches, each branch has the whole budget. With a file of rules the analyses
/// are those in which each rule is true.
pub fn parse_sentence<R: Threads + Sync, H: Shelf, S: Source, K: Sink>(
    rt: &R,
    alloc: Global,
    options: &ParseOptions,
    shelf: &mut H,
    input: &mut S,
    out: &mut K,
) -> Status
    requires { CanBranch options.now.budget options.now.first }
    ensures leaves { (files : List ℕ → Option (List ℕ)) (content : List ℕ) → H.files shelf.old ≡ Some files → S.left input.old ≡ Some content
        → Leaves (ParseOf options.now files content) result (K.held out.old) (K.held out.new) }
    ensures read_fault { result ≡ Status.ReadFault
        → Rose (H.faults shelf.old options.now.grammar) (H.faults shelf.new options.now.grammar)
        ⊎ (RoseFor options.now.rules (H.faults shelf.old) (H.faults shelf.new) ⊎ Rose (S.faults input.old) (S.faults input.new)) }
    ensures write_fault { result ≡ Status.WriteFault → Rose (K.faults out.old) (K.faults out.new) }
    ensures files { H.files shelf.new ≡ H.files shelf.old }
    ensures shelf_lasting { (other : List ℕ) → H.faults shelf.old other ≤ H.faults shelf.new other }
    ensures shelf_quiet { (other : List ℕ) → result ≢ Status.ReadFault → H.faults shelf.new other ≡ H.faults shelf.old other }
    ensures input_lasting { S.faults input.old ≤ S.faults input.new }
    ensures input_quiet { result ≢ Status.ReadFault → S.faults input.new ≡ S.faults input.old }
    ensures out_lasting { K.faults out.old ≤ K.faults out.new }
    ensures wrote { Wrote ParseEnds result (K.faults out.old) (K.faults out.new) (K.held out.old) (K.held out.new) }
    ensures unread { (result ≡ Status.BadText) ⊎ ((result ≡ Status.BadGrammar) ⊎ (result ≡ Status.BadRules)) → S.left input.new ≡ S.left input.old }
    ensures all_read { (content : List ℕ) → (result ≡ Status.Done) ⊎ (result ≡ Status.Spent) → S.left input.old ≡ Some content → S.left input.new ≡ Some [] }
    ensures command { result ≡ Status.Usage → ⊥ }
{
    match load_tree(alloc, shelf, options.grammar.as_str()) {
        Ok(loaded) => parse_loaded(rt, alloc, options, loaded, shelf, input, out),
        Err(refusal) => refuse(refusal, Status::BadText, out),
    }
}
