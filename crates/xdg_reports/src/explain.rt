//! The command `explain`.

ghost use Rattle.std.specs.Prelude.{◌≡◌, ◌≢◌, ◌≤◌, ◌⊎◌, ℕ, List, Option, Some, length};
ghost use Rattle.xdg_inputs.specs.Answers.{grammar_in, meaning_of};
ghost use Rattle.xdg_inputs.specs.RightLexicons.{HasRightLexicon};
ghost use Rattle.xdg_inputs.specs.Judging.{analysed_of};
ghost use Rattle.xdg_inputs.specs.Made.{IsMade};
ghost use Rattle.xdg_io.specs.Rose.{Rose};
ghost use Rattle.xdg_inputs.specs.Loaded.{read_of};
ghost use Rattle.xdg_inputs.specs.Outcomes.{MeaningThen};
ghost use Rattle.xdg_inputs.specs.Runs.{Leaves, Wrote};
ghost use Rattle.xdg_problem.specs.Analyses.{IsAnalysis};
ghost use Rattle.xdg_reports.specs.Outcomes.{ExplainOf, ExplainThen, Explained, Judged};
ghost use Rattle.xdg_reports.specs.Runs.{ExplainEnds};
ghost use Rattle.xdg_inputs.specs.Files.{AreRight, RoseFor};
ghost use Rattle.xdg_inputs.specs.RuledSteps.{RulesThen};

use crate::verdicts::write_verdicts;
use std::alloc::Global;
use xdg_base::OutOfMemory;
use xdg_command::ExplainOptions;
use xdg_formula::Rules;
use xdg_inputs::{
    Expanded, Judgeable, Loaded, Status, expand_tree, load_analysis, load_rules, load_tree, refuse,
    rule_analysis, stopped_in,
};
use xdg_io::{Failed, Shelf, Sink};
use xdg_judge::explain;

/// Prints the verdicts on an analysis of a problem with rules.
fn judge<K: Sink>(alloc: Global, rules: &Rules, ruled: &Judgeable, out: &mut K) -> Status
    requires fits { IsAnalysis ruled.now.problem ruled.now.analysis }
    requires few { length rules.now.rules ≤ length ruled.now.problem.groups }
    ensures leaves { Leaves (Judged rules.now ruled.now.analysis ruled.now.problem) result (K.held out.old) (K.held out.new) }
    ensures write_fault { result ≡ Status.WriteFault → Rose (K.faults out.old) (K.faults out.new) }
    ensures out_lasting { K.faults out.old ≤ K.faults out.new }
    ensures out_quiet { result ≢ Status.WriteFault → K.faults out.new ≡ K.faults out.old }
    ensures ends { (result ≡ Status.Done) ⊎ ((result ≡ Status.WriteFault) ⊎ (result ≡ Status.OutOfMemory)) }
{
    let verdicts = match explain(alloc, &ruled.problem, &ruled.analysis) {
        Ok(verdicts) => verdicts,
        Err(_) => return Status::OutOfMemory,
    };
    match write_verdicts(&ruled.problem, &rules.rules, verdicts.as_slice(), out) {
        Ok(()) => Status::Done,
        Err(Failed) => Status::WriteFault,
    }
}

/// Prints the verdicts on an analysis of a problem, and those of rules on it.
fn explain_found<K: Sink>(
    alloc: Global,
    expanded: &Expanded,
    rules: &Rules,
    found: Judgeable,
    out: &mut K,
) -> Status
    requires lexicon { HasRightLexicon expanded.now }
    requires right { AreRight expanded.now.checked.types rules.now }
    requires made { IsMade (grammar_in expanded.now) found.problem }
    requires fits { IsAnalysis found.problem found.analysis }
    ensures leaves { Leaves (Explained rules.now (meaning_of expanded.now) (analysed_of found)) result (K.held out.old) (K.held out.new) }
    ensures write_fault { result ≡ Status.WriteFault → Rose (K.faults out.old) (K.faults out.new) }
    ensures out_lasting { K.faults out.old ≤ K.faults out.new }
    ensures out_quiet { result ≢ Status.WriteFault → K.faults out.new ≡ K.faults out.old }
    ensures ends { (result ≡ Status.Done) ⊎ ((result ≡ Status.WriteFault) ⊎ (result ≡ Status.OutOfMemory)) }
{
    match rule_analysis(alloc, expanded, rules, found) {
        Ok(ruled) => judge(alloc, rules, &ruled, out),
        Err(OutOfMemory) => Status::OutOfMemory,
    }
}

/// Loads an analysis of a grammar and prints the verdicts on it, and those of rules, or the fault line of what is refused.
fn explain_ruled<H: Shelf, K: Sink>(
    alloc: Global,
    options: &ExplainOptions,
    expanded: &Expanded,
    rules: &Rules,
    shelf: &mut H,
    out: &mut K,
) -> Status
    requires lexicon { HasRightLexicon expanded.now }
    requires right { AreRight expanded.now.checked.types rules.now }
    ensures leaves { (files : List ℕ → Option (List ℕ)) → H.files shelf.old ≡ Some files
        → Leaves (ExplainThen options.now files rules.now (meaning_of expanded.now)) result (K.held out.old) (K.held out.new) }
    ensures read_fault { result ≡ Status.ReadFault → Rose (H.faults shelf.old options.now.analysis) (H.faults shelf.new options.now.analysis) }
    ensures write_fault { result ≡ Status.WriteFault → Rose (K.faults out.old) (K.faults out.new) }
    ensures files { H.files shelf.new ≡ H.files shelf.old }
    ensures shelf_lasting { (other : List ℕ) → H.faults shelf.old other ≤ H.faults shelf.new other }
    ensures shelf_quiet { (other : List ℕ) → result ≢ Status.ReadFault → H.faults shelf.new other ≡ H.faults shelf.old other }
    ensures out_lasting { K.faults out.old ≤ K.faults out.new }
    ensures wrote { Wrote ExplainEnds result (K.faults out.old) (K.faults out.new) (K.held out.old) (K.held out.new) }
    ensures command { result ≡ Status.Usage → ⊥ }
{
    match load_analysis(alloc, expanded, shelf, options.analysis.as_str()) {
        Ok(found) => explain_found(alloc, expanded, rules, found, out),
        Err(refusal) => refuse(refusal, Status::BadAnalysis, out),
    }
}

/// The same, with the rules of the file that is given.
fn explain_expanded<H: Shelf, K: Sink>(
    alloc: Global,
    options: &ExplainOptions,
    expanded: &Expanded,
    shelf: &mut H,
    out: &mut K,
) -> Status
    requires { HasRightLexicon expanded.now }
    ensures leaves { (files : List ℕ → Option (List ℕ)) → H.files shelf.old ≡ Some files
        → Leaves (RulesThen files options.now.rules (ExplainThen options.now files) (meaning_of expanded.now)) result (K.held out.old) (K.held out.new) }
    ensures read_fault { result ≡ Status.ReadFault
        → RoseFor options.now.rules (H.faults shelf.old) (H.faults shelf.new)
        ⊎ Rose (H.faults shelf.old options.now.analysis) (H.faults shelf.new options.now.analysis) }
    ensures write_fault { result ≡ Status.WriteFault → Rose (K.faults out.old) (K.faults out.new) }
    ensures files { H.files shelf.new ≡ H.files shelf.old }
    ensures shelf_lasting { (other : List ℕ) → H.faults shelf.old other ≤ H.faults shelf.new other }
    ensures shelf_quiet { (other : List ℕ) → result ≢ Status.ReadFault → H.faults shelf.new other ≡ H.faults shelf.old other }
    ensures out_lasting { K.faults out.old ≤ K.faults out.new }
    ensures wrote { Wrote ExplainEnds result (K.faults out.old) (K.faults out.new) (K.held out.old) (K.held out.new) }
    ensures command { result ≡ Status.Usage → ⊥ }
{
    match load_rules(alloc, expanded, &options.rules, shelf) {
        Ok(rules) => explain_ruled(alloc, options, expanded, &rules, shelf, out),
        Err(refusal) => refuse(refusal, Status::BadRules, out),
    }
}

/// The same, for the grammar of a text.
fn explain_loaded<H: Shelf, K: Sink>(
    alloc: Global,
    options: &ExplainOptions,
    loaded: Loaded,
    shelf: &mut H,
    out: &mut K,
) -> Status
    requires { length loaded.text.items ≤ 4194304 }
    ensures leaves { (files : List ℕ → Option (List ℕ)) → H.files shelf.old ≡ Some files
        → Leaves (MeaningThen (read_of loaded) (RulesThen files options.now.rules (ExplainThen options.now files))) result (K.held out.old)
        (K.held out.new) }
    ensures read_fault { result ≡ Status.ReadFault
        → RoseFor options.now.rules (H.faults shelf.old) (H.faults shelf.new)
        ⊎ Rose (H.faults shelf.old options.now.analysis) (H.faults shelf.new options.now.analysis) }
    ensures write_fault { result ≡ Status.WriteFault → Rose (K.faults out.old) (K.faults out.new) }
    ensures files { H.files shelf.new ≡ H.files shelf.old }
    ensures shelf_lasting { (other : List ℕ) → H.faults shelf.old other ≤ H.faults shelf.new other }
    ensures shelf_quiet { (other : List ℕ) → result ≢ Status.ReadFault → H.faults shelf.new other ≡ H.faults shelf.old other }
    ensures out_lasting { K.faults out.old ≤ K.faults out.new }
    ensures wrote { Wrote ExplainEnds result (K.faults out.old) (K.faults out.new) (K.held out.old) (K.held out.new) }
    ensures command { result ≡ Status.Usage → ⊥ }
{
    let Loaded { text, tree } = loaded;
    match expand_tree(alloc, tree) {
        Ok(expanded) => explain_expanded(alloc, options, &expanded, shelf, out),
        Err(stop) => refuse(stopped_in(&text, stop), Status::BadGrammar, out),
    }
}

/// Loads a grammar and an analysis, and prints of each use of a principle, and of each rule of the file that is given, whether the analysis
/// keeps it, or the fault line of what is refused.
pub fn explain_analysis<H: Shelf, K: Sink>(
    alloc: Global,
    options: &ExplainOptions,
    shelf: &mut H,
    out: &mut K,
) -> Status
    ensures leaves { (files : List ℕ → Option (List ℕ)) → H.files shelf.old ≡ Some files
        → Leaves (ExplainOf options.now files) result (K.held out.old) (K.held out.new) }
    ensures read_fault { result ≡ Status.ReadFault
        → Rose (H.faults shelf.old options.now.grammar) (H.faults shelf.new options.now.grammar)
        ⊎ (RoseFor options.now.rules (H.faults shelf.old) (H.faults shelf.new)
        ⊎ Rose (H.faults shelf.old options.now.analysis) (H.faults shelf.new options.now.analysis)) }
    ensures write_fault { result ≡ Status.WriteFault → Rose (K.faults out.old) (K.faults out.new) }
    ensures files { H.files shelf.new ≡ H.files shelf.old }
    ensures shelf_lasting { (other : List ℕ) → H.faults shelf.old other ≤ H.faults shelf.new other }
    ensures shelf_quiet { (other : List ℕ) → result ≢ Status.ReadFault → H.faults shelf.new other ≡ H.faults shelf.old other }
    ensures out_lasting { K.faults out.old ≤ K.faults out.new }
    ensures wrote { Wrote ExplainEnds result (K.faults out.old) (K.faults out.new) (K.held out.old) (K.held out.new) }
    ensures command { result ≡ Status.Usage → ⊥ }
{
    match load_tree(alloc, shelf, options.grammar.as_str()) {
        Ok(loaded) => explain_loaded(alloc, options, loaded, shelf, out),
        Err(refusal) => refuse(refusal, Status::BadText, out),
    }
}
