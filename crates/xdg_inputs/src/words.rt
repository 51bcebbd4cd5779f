//! The problem of the words of a text.

ghost use Rattle.std.specs.Prelude.{◌≡◌, ◌<◌, ◌^◌, length, IfErr, IfOk, MatchResult};
ghost use Rattle.xdg_base.specs.declared.faults.Fault.{Fault};
ghost use Rattle.xdg_base.specs.declared.faults.Stop.TheVariants as stops;
ghost use Rattle.xdg_build.specs.Stocks.{IsStock};
ghost use Rattle.xdg_inputs.specs.Answers.{grammar_in, meaning_of};
ghost use Rattle.xdg_inputs.specs.RightLexicons.{HasRightLexicon};
ghost use Rattle.xdg_inputs.specs.Made.{IsMade};
ghost use Rattle.xdg_inputs.specs.Sentences.{AcceptsWords, StopsWords};

use crate::expanding::Expanded;
use std::alloc::Global;
use xdg_base::Stop;
use xdg_build::{Stock, build};
use xdg_linear::words_of;
use xdg_problem::Problem;

/// The problem of the words of a text, which are cut by the Unicode rules of word boundaries where that is asked for. The fault of a
/// text that is refused, and its place there, are those of its words; want of memory is the other error.
pub fn problem_of(
    alloc: Global,
    expanded: &Expanded,
    segment: bool,
    text: &str,
) -> Result<Problem, Stop>
    requires small { length text.now < 2 ^ 32 }
    requires lexicon { HasRightLexicon expanded.now }
    ensures found { IfOk result (AcceptsWords (meaning_of expanded.now) segment text.now) }
    ensures refused { IfErr result (StopsWords (meaning_of expanded.now) segment text.now) }
    ensures made { IfOk result (IsMade (grammar_in expanded.now)) }
{
    let Ok(words) = words_of(alloc, text, segment) else {
        return Err(Stop::OutOfMemory);
    };
    build(alloc, &expanded.checked, &expanded.lexicon, words)
}

/// The same, with what the problems of a grammar share: that is taken from a stock of the grammar, which is kept for the next text.
/// After want of memory nothing more is to be taken from it.
pub fn problem_from(
    alloc: Global,
    expanded: &Expanded,
    stock: &mut Stock,
    segment: bool,
    text: &str,
) -> Result<Problem, Stop>
    requires small { length text.now < 2 ^ 32 }
    requires lexicon { HasRightLexicon expanded.now }
    requires stock { IsStock (grammar_in expanded.now) stock.old }
    ensures found { IfOk result (AcceptsWords (meaning_of expanded.now) segment text.now) }
    ensures refused { IfErr result (StopsWords (meaning_of expanded.now) segment text.now) }
    ensures stock { MatchResult result (λ _. IsStock (grammar_in expanded.now) stock.new) (λ stop.
        (fault : Fault) → stop ≡ stops.Fault fault → IsStock (grammar_in expanded.now) stock.new) }
{
    let Ok(words) = words_of(alloc, text, segment) else {
        return Err(Stop::OutOfMemory);
    };
    stock.build(alloc, &expanded.checked, &expanded.lexicon, words)
}
