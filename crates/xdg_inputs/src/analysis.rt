//! Analysis files.

ghost use Rattle.std.specs.Prelude.{◌≡◌, ◌≢◌, ◌≤◌, ℕ, List, Option, Some, length, IfErr, IfOk, MatchResult};
ghost use Rattle.xdg_inputs.specs.Answers.{grammar_in, meaning_of};
ghost use Rattle.xdg_inputs.specs.RightLexicons.{HasRightLexicon};
ghost use Rattle.xdg_inputs.specs.Analyses.{Analysed, HasAnalysis, HasBadAnalysis};
ghost use Rattle.xdg_inputs.specs.Judging.{IsJudged, IsNotJudged, analysed_of, of_words};
ghost use Rattle.xdg_inputs.specs.Made.{IsMade};
ghost use Rattle.xdg_io.specs.Rose.{Rose};
ghost use Rattle.xdg_inputs.specs.Refusals.{Stops};
ghost use Rattle.xdg_inputs.specs.Stages.{Accepts};
ghost use Rattle.xdg_problem.specs.Analyses.{IsAnalysis};

use crate::expanding::Expanded;
use crate::refusals::{Refusal, stopped_in, too_long};
use std::alloc::Global;
use xdg_base::{Cause, Fault, Stop};
use xdg_build::build;
use xdg_io::{LoadStop, Shelf};
use xdg_problem::{Analysis, Problem, copy_words};
use xdg_reading::{AnalysisText, fit, read};

/// How many bytes the file of an analysis may have.
const ANALYSIS_LIMIT: u64 = 4_294_967_295;

/// An analysis with the problem of its words, of which it is one.
#[derive(Debug, Drop)]
pub struct Judgeable {
    pub problem: Problem,
    pub analysis: Analysis,
}

/// What is wrong with an analysis text where its words are refused.
fn unknown_word(stop: Stop) -> Stop
    ensures { result ≡ of_words stop }
{
    match stop {
        Stop::Fault(fault) => Stop::Fault(Fault::at(Cause::NotAnalysis, fault.at)),
        Stop::OutOfMemory => Stop::OutOfMemory,
    }
}

/// The analysis that a text shows, with the problem of its words.
fn make_judgeable(
    alloc: Global,
    expanded: &Expanded,
    text: &AnalysisText,
) -> Result<Judgeable, Stop>
    requires lexicon { HasRightLexicon expanded.now }
    requires entries { length text.now.entries ≡ length text.now.words }
    ensures judged { IfOk result (IsJudged (grammar_in expanded.now) text.now) }
    ensures refused { IfErr result (IsNotJudged (grammar_in expanded.now) text.now) }
{
    let words = copy_words(alloc, text.words.as_slice())?;
    let problem = match build(alloc, &expanded.checked, &expanded.lexicon, words) {
        Ok(problem) => problem,
        Err(stop) => return Err(unknown_word(stop)),
    };
    match fit(alloc, &problem, text) {
        Ok(analysis) => Ok(Judgeable { problem, analysis }),
        Err(stop) => Err(stop),
    }
}

/// The analysis of a file, of some words of the grammar.
pub fn load_analysis<H: Shelf>(
    alloc: Global,
    expanded: &Expanded,
    shelf: &mut H,
    name: &str,
) -> Result<Judgeable, Refusal>
    requires lexicon { HasRightLexicon expanded.now }
    ensures found { IfOk result
        (λ judgeable. (files : List ℕ → Option (List ℕ)) → H.files shelf.old ≡ Some files
        → Accepts Analysed (HasBadAnalysis files name.now (meaning_of expanded.now)) (HasAnalysis files name.now (meaning_of expanded.now))
        (analysed_of judgeable)) }
    ensures fits { IfOk result (λ judgeable. IsAnalysis judgeable.problem judgeable.analysis) }
    ensures made { IfOk result (λ judgeable. IsMade (grammar_in expanded.now) judgeable.problem) }
    ensures refused { IfErr result
        (λ refusal. (files : List ℕ → Option (List ℕ))
        → Stops (H.files shelf.old ≡ Some files) (H.faults shelf.old name.now) (H.faults shelf.new name.now) Analysed
        (HasBadAnalysis files name.now (meaning_of expanded.now)) (HasAnalysis files name.now (meaning_of expanded.now)) refusal) }
    ensures failed { IfErr result (λ refusal. refusal ≡ Refusal.Read → Rose (H.faults shelf.old name.now) (H.faults shelf.new name.now)) }
    ensures kept { H.files shelf.new ≡ H.files shelf.old }
    ensures lasting { (other : List ℕ) → H.faults shelf.old other ≤ H.faults shelf.new other }
    ensures quiet { (other : List ℕ) → MatchResult result (λ _. H.faults shelf.new other ≡ H.faults shelf.old other) (λ refusal.
        refusal ≢ Refusal.Read → H.faults shelf.new other ≡ H.faults shelf.old other) }
{
    let bytes = match shelf.load(alloc, name, ANALYSIS_LIMIT) {
        Ok(bytes) => bytes,
        Err(LoadStop::Failed) => return Err(Refusal::Read),
        Err(LoadStop::OutOfMemory) => return Err(Refusal::Memory),
        Err(LoadStop::TooLong { reached }) => return Err(too_long(reached)),
    };
    let text = match read(alloc, &bytes) {
        Ok(text) => text,
        Err(stop) => return Err(stopped_in(&bytes, stop)),
    };
    match make_judgeable(alloc, expanded, &text) {
        Ok(judgeable) => Ok(judgeable),
        Err(stop) => Err(stopped_in(&bytes, stop)),
    }
}
