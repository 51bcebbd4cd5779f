//! The sentence that the input gives.

ghost use Rattle.std.specs.Prelude.{◌≡◌, ◌≢◌, ◌≤◌, ℕ, List, [], Some, length, IfErr, IfOk, MatchResult};
ghost use Rattle.xdg_inputs.specs.Answers.{grammar_in, meaning_of};
ghost use Rattle.xdg_inputs.specs.RightLexicons.{HasRightLexicon};
ghost use Rattle.xdg_inputs.specs.Made.{IsMade};
ghost use Rattle.xdg_inputs.specs.Sentences.{HasProblem, IsBadSentence};
ghost use Rattle.xdg_io.specs.Rose.{Rose};
ghost use Rattle.xdg_inputs.specs.Refusals.{Stops};
ghost use Rattle.xdg_inputs.specs.Stages.{Accepts};
ghost use Rattle.xdg_problem.specs.declared.parts.Parts as declared;

use crate::expanding::Expanded;
use crate::refusals::{Refusal, no_text, stopped_in, too_long};
use crate::words::problem_of;
use std::alloc::Global;
use std::str;
use xdg_io::{ReadStop, Source, read_all};
use xdg_problem::Problem;

/// How many bytes a sentence may have.
const SENTENCE_LIMIT: u64 = 65_536;

/// The problem of a sentence, whose words are cut by the Unicode rules of word boundaries where that is asked for.
pub fn problem_in(
    alloc: Global,
    expanded: &Expanded,
    segment: bool,
    input: &[u8],
) -> Result<Problem, Refusal>
    requires within { length input.now ≤ 65536 }
    requires lexicon { HasRightLexicon expanded.now }
    ensures found { IfOk result
        (Accepts declared.Parts (IsBadSentence (meaning_of expanded.now) segment input.now) (HasProblem (meaning_of expanded.now) segment input.now)) }
    ensures refused { IfErr result
        (Stops (Unit {0}) 0 0 declared.Parts (IsBadSentence (meaning_of expanded.now) segment input.now)
        (HasProblem (meaning_of expanded.now) segment input.now)) }
    ensures made { IfOk result (IsMade (grammar_in expanded.now)) }
{
    let text = match str::from_utf8(input) {
        Ok(text) => text,
        Err(error) => return Err(no_text(input, error.valid_up_to())),
    };
    match problem_of(alloc, expanded, segment, text) {
        Ok(problem) => Ok(problem),
        Err(stop) => Err(stopped_in(input, stop)),
    }
}

/// The problem of the sentence that a source gives.
pub fn read_problem<S: Source>(
    alloc: Global,
    expanded: &Expanded,
    segment: bool,
    source: &mut S,
) -> Result<Problem, Refusal>
    requires lexicon { HasRightLexicon expanded.now }
    ensures found { IfOk result
        (λ problem. (input : List ℕ) → S.left source.old ≡ Some input
        → Accepts declared.Parts (IsBadSentence (meaning_of expanded.now) segment input) (HasProblem (meaning_of expanded.now) segment input) problem) }
    ensures refused { IfErr result
        (λ refusal. (input : List ℕ)
        → Stops (S.left source.old ≡ Some input) (S.faults source.old) (S.faults source.new) declared.Parts
        (IsBadSentence (meaning_of expanded.now) segment input) (HasProblem (meaning_of expanded.now) segment input) refusal) }
    ensures made { IfOk result (IsMade (grammar_in expanded.now)) }
    ensures failed { IfErr result (λ refusal. refusal ≡ Refusal.Read → Rose (S.faults source.old) (S.faults source.new)) }
    ensures all { IfOk result (λ problem. (input : List ℕ) → S.left source.old ≡ Some input → S.left source.new ≡ Some []) }
    ensures lasting { S.faults source.old ≤ S.faults source.new }
    ensures quiet { MatchResult result (λ _. S.faults source.new ≡ S.faults source.old) (λ refusal.
        refusal ≢ Refusal.Read → S.faults source.new ≡ S.faults source.old) }
{
    let input = match read_all(alloc, source, SENTENCE_LIMIT) {
        Ok(input) => input,
        Err(ReadStop::ReadFault) => return Err(Refusal::Read),
        Err(ReadStop::OutOfMemory) => return Err(Refusal::Memory),
        Err(ReadStop::TooLong { reached }) => return Err(too_long(reached)),
    };
    problem_in(alloc, expanded, segment, &input)
}
