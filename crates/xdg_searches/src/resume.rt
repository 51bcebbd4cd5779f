//! The command `resume`.

ghost use Rattle.std.specs.Prelude.{◌≡◌, ◌≢◌, ◌≤◌, ◌⊎◌, ℕ, List, Option, Some, length};
ghost use Rattle.xdg_split.specs.Written.{IsSome};
ghost use Rattle.xdg_inputs.specs.Answers.{grammar_in, meaning_of};
ghost use Rattle.xdg_inputs.specs.RightLexicons.{HasRightLexicon};
ghost use Rattle.xdg_inputs.specs.Judging.{analysed_of};
ghost use Rattle.xdg_inputs.specs.Made.{IsMade};
ghost use Rattle.xdg_io.specs.Rose.{Rose};
ghost use Rattle.xdg_inputs.specs.Loaded.{read_of};
ghost use Rattle.xdg_inputs.specs.Outcomes.{MeaningThen};
ghost use Rattle.xdg_inputs.specs.Runs.{Leaves, Wrote};
ghost use Rattle.xdg_problem.specs.Analyses.{IsAnalysis};
ghost use Rattle.xdg_inputs.specs.Files.{AreRight, RoseFor};
ghost use Rattle.xdg_inputs.specs.RuledSteps.{RulesThen};
ghost use Rattle.xdg_searches.specs.Outcomes.{ResumeOf, ResumeThen, Resumed};
ghost use Rattle.xdg_searches.specs.Runs.{ResumeEnds};

use crate::printing::search;
use std::alloc::Global;
use xdg_base::OutOfMemory;
use xdg_command::ResumeOptions;
use xdg_formula::Rules;
use xdg_inputs::{
    Expanded, Judgeable, Loaded, Status, expand_tree, load_analysis, load_rules, load_tree, refuse,
    rule_analysis, stopped_in,
};
use xdg_io::{Shelf, Sink};

/// Prints the analyses behind one of a problem, those in which rules are true.
fn resume_found<K: Sink>(
    alloc: Global,
    options: &ResumeOptions,
    expanded: &Expanded,
    rules: &Rules,
    found: Judgeable,
    out: &mut K,
) -> Status
    requires lexicon { HasRightLexicon expanded.now }
    requires right { AreRight expanded.now.checked.types rules.now }
    requires made { IsMade (grammar_in expanded.now) found.problem }
    requires fits { IsAnalysis found.problem found.analysis }
    requires some { IsSome options.now.first }
    ensures leaves { Leaves (Resumed options.now rules.now (meaning_of expanded.now) (analysed_of found)) result (K.held out.old) (K.held out.new) }
    ensures write_fault { result ≡ Status.WriteFault → Rose (K.faults out.old) (K.faults out.new) }
    ensures out_lasting { K.faults out.old ≤ K.faults out.new }
    ensures out_quiet { result ≢ Status.WriteFault → K.faults out.new ≡ K.faults out.old }
    ensures ends { (result ≡ Status.Done) ⊎ ((result ≡ Status.Spent) ⊎ ((result ≡ Status.WriteFault) ⊎ (result ≡ Status.OutOfMemory))) }
{
    match rule_analysis(alloc, expanded, rules, found) {
        Ok(ruled) => search(
            alloc,
            &ruled.problem,
            Some(&ruled.analysis),
            options.budget,
            options.first,
            options.text,
            out,
        ),
        Err(OutOfMemory) => Status::OutOfMemory,
    }
}

/// Loads an analysis of a grammar and prints the analyses behind it in which rules are true, or the fault line of what is refused.
fn resume_ruled<H: Shelf, K: Sink>(
    alloc: Global,
    options: &ResumeOptions,
    expanded: &Expanded,
    rules: &Rules,
    shelf: &mut H,
    out: &mut K,
) -> Status
    requires lexicon { HasRightLexicon expanded.now }
    requires right { AreRight expanded.now.checked.types rules.now }
    requires some { IsSome options.now.first }
    ensures leaves { (files : List ℕ → Option (List ℕ)) → H.files shelf.old ≡ Some files
        → Leaves (ResumeThen options.now files rules.now (meaning_of expanded.now)) result (K.held out.old) (K.held out.new) }
    ensures read_fault { result ≡ Status.ReadFault → Rose (H.faults shelf.old options.now.analysis) (H.faults shelf.new options.now.analysis) }
    ensures write_fault { result ≡ Status.WriteFault → Rose (K.faults out.old) (K.faults out.new) }
    ensures files { H.files shelf.new ≡ H.files shelf.old }
    ensures shelf_lasting { (other : List ℕ) → H.faults shelf.old other ≤ H.faults shelf.new other }
    ensures shelf_quiet { (other : List ℕ) → result ≢ Status.ReadFault → H.faults shelf.new other ≡ H.faults shelf.old other }
    ensures out_lasting { K.faults out.old ≤ K.faults out.new }
    ensures wrote { Wrote ResumeEnds result (K.faults out.old) (K.faults out.new) (K.held out.old) (K.held out.new) }
    ensures command { result ≡ Status.Usage → ⊥ }
{
    match load_analysis(alloc, expanded, shelf, options.analysis.as_str()) {
        Ok(found) => resume_found(alloc, options, expanded, rules, found, out),
        Err(refusal) => refuse(refusal, Status::BadAnalysis, out),
    }
}

/// The same, with the rules of the file that is given.
fn resume_expanded<H: Shelf, K: Sink>(
    alloc: Global,
    options: &ResumeOptions,
    expanded: &Expanded,
    shelf: &mut H,
    out: &mut K,
) -> Status
    requires lexicon { HasRightLexicon expanded.now }
    requires some { IsSome options.now.first }
    ensures leaves { (files : List ℕ → Option (List ℕ)) → H.files shelf.old ≡ Some files
        → Leaves (RulesThen files options.now.rules (ResumeThen options.now files) (meaning_of expanded.now)) result (K.held out.old) (K.held out.new) }
    ensures read_fault { result ≡ Status.ReadFault
        → RoseFor options.now.rules (H.faults shelf.old) (H.faults shelf.new)
        ⊎ Rose (H.faults shelf.old options.now.analysis) (H.faults shelf.new options.now.analysis) }
    ensures write_fault { result ≡ Status.WriteFault → Rose (K.faults out.old) (K.faults out.new) }
    ensures files { H.files shelf.new ≡ H.files shelf.old }
    ensures shelf_lasting { (other : List ℕ) → H.faults shelf.old other ≤ H.faults shelf.new other }
    ensures shelf_quiet { (other : List ℕ) → result ≢ Status.ReadFault → H.faults shelf.new other ≡ H.faults shelf.old other }
    ensures out_lasting { K.faults out.old ≤ K.faults out.new }
    ensures wrote { Wrote ResumeEnds result (K.faults out.old) (K.faults out.new) (K.held out.old) (K.held out.new) }
    ensures command { result ≡ Status.Usage → ⊥ }
{
    match load_rules(alloc, expanded, &options.rules, shelf) {
        Ok(rules) => resume_ruled(alloc, options, expanded, &rules, shelf, out),
        Err(refusal) => refuse(refusal, Status::BadRules, out),
    }
}

/// The same, for the grammar of a text.
fn resume_loaded<H: Shelf, K: Sink>(
    alloc: Global,
    options: &ResumeOptions,
    loaded: Loaded,
    shelf: &mut H,
    out: &mut K,
) -> Status
    requires short { length loaded.text.items ≤ 4194304 }
    requires some { IsSome options.now.first }
    ensures leaves { (files : List ℕ → Option (List ℕ)) → H.files shelf.old ≡ Some files
        → Leaves (MeaningThen (read_of loaded) (RulesThen files options.now.rules (ResumeThen options.now files))) result (K.held out.old)
        (K.held out.new) }
    ensures read_fault { result ≡ Status.ReadFault
        → RoseFor options.now.rules (H.faults shelf.old) (H.faults shelf.new)
        ⊎ Rose (H.faults shelf.old options.now.analysis) (H.faults shelf.new options.now.analysis) }
    ensures write_fault { result ≡ Status.WriteFault → Rose (K.faults out.old) (K.faults out.new) }
    ensures files { H.files shelf.new ≡ H.files shelf.old }
    ensures shelf_lasting { (other : List ℕ) → H.faults shelf.old other ≤ H.faults shelf.new other }
    ensures shelf_quiet { (other : List ℕ) → result ≢ Status.ReadFault → H.faults shelf.new other ≡ H.faults shelf.old other }
    ensures out_lasting { K.faults out.old ≤ K.faults out.new }
    ensures wrote { Wrote ResumeEnds result (K.faults out.old) (K.faults out.new) (K.held out.old) (K.held out.new) }
    ensures command { result ≡ Status.Usage → ⊥ }
{
    let Loaded { text, tree } = loaded;
    match expand_tree(alloc, tree) {
        Ok(expanded) => resume_expanded(alloc, options, &expanded, shelf, out),
        Err(stop) => refuse(stopped_in(&text, stop), Status::BadGrammar, out),
    }
}

/// Loads a grammar and an analysis, and prints the analyses of its words that come after it, or the fault line of what is refused.
/// The analysis need not be a solution. What comes before it is searched no more, and the budget counts the boxed prefixes after it. With a
/// file of rules the analyses that are printed are those in which each rule is true.
pub fn resume_analysis<H: Shelf, K: Sink>(
    alloc: Global,
    options: &ResumeOptions,
    shelf: &mut H,
    out: &mut K,
) -> Status
    requires { IsSome options.now.first }
    ensures leaves { (files : List ℕ → Option (List ℕ)) → H.files shelf.old ≡ Some files
        → Leaves (ResumeOf options.now files) result (K.held out.old) (K.held out.new) }
    ensures read_fault { result ≡ Status.ReadFault
        → Rose (H.faults shelf.old options.now.grammar) (H.faults shelf.new options.now.grammar)
        ⊎ (RoseFor options.now.rules (H.faults shelf.old) (H.faults shelf.new)
        ⊎ Rose (H.faults shelf.old options.now.analysis) (H.faults shelf.new options.now.analysis)) }
    ensures write_fault { result ≡ Status.WriteFault → Rose (K.faults out.old) (K.faults out.new) }
    ensures files { H.files shelf.new ≡ H.files shelf.old }
    ensures shelf_lasting { (other : List ℕ) → H.faults shelf.old other ≤ H.faults shelf.new other }
    ensures shelf_quiet { (other : List ℕ) → result ≢ Status.ReadFault → H.faults shelf.new other ≡ H.faults shelf.old other }
    ensures out_lasting { K.faults out.old ≤ K.faults out.new }
    ensures wrote { Wrote ResumeEnds result (K.faults out.old) (K.faults out.new) (K.held out.old) (K.held out.new) }
    ensures command { result ≡ Status.Usage → ⊥ }
{
    match load_tree(alloc, shelf, options.grammar.as_str()) {
        Ok(loaded) => resume_loaded(alloc, options, loaded, shelf, out),
        Err(refusal) => refuse(refusal, Status::BadText, out),
    }
}
