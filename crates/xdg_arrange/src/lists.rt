//! The words that the input gives.

ghost use Rattle.std.specs.Prelude.{◌≡◌, ◌≢◌, ◌≤◌, ◌<◌, ◌^◌, ℕ, List, [], None, Some, length, IfErr, IfOk, MatchResult};
ghost use Rattle.xdg_arrange.specs.Lists.{HasList, IsBadList, IsRefused, Listed, word_limit};
ghost use Rattle.xdg_arrange.specs.Lists as spec;
ghost use Rattle.xdg_inputs.specs.Answers.{grammar_in, meaning_of};
ghost use Rattle.xdg_inputs.specs.RightLexicons.{HasRightLexicon};
ghost use Rattle.xdg_io.specs.Rose.{Rose};
ghost use Rattle.xdg_inputs.specs.Refusals.{Stops};
ghost use Rattle.xdg_inputs.specs.Stages.{Accepts};
ghost use Rattle.xdg_linear.specs.Segments.{words_in};

use std::alloc::Global;
use std::str;
use xdg_base::{Cause, Fault, List, Stop};
use xdg_build::refusal_within;
use xdg_inputs::{Expanded, Refusal, no_text, stopped_in, too_long};
use xdg_io::{ReadStop, Source, read_all};
use xdg_linear::words_of;
use xdg_packed::Packed;
use xdg_problem::SentenceWord;

/// How many bytes the input may have.
const LIST_LIMIT: u64 = 65_536;

/// How many words are arranged at most.
const WORDS: usize = 8;

/// Why words are not arranged: there is none, or too many, or one has no entry.
fn refusal(lexicon: &Packed, words: &[SentenceWord]) -> Option<Fault>
    ensures { result ≡ spec.refusal lexicon.now words.now }
{
    refusal_within(WORDS, Cause::ArrangeLimit, lexicon, words)
}

/// The words of a text, cut by the Unicode rules of word boundaries where that is asked for.
fn words_within(
    alloc: Global,
    lexicon: &Packed,
    segment: bool,
    text: &str,
) -> Result<List<SentenceWord>, Stop>
    requires { length text.now < 2 ^ 32 }
    ensures words { IfOk result (λ words. words ≡ words_in segment text.now) }
    ensures known { IfOk result (λ words. spec.refusal lexicon.now words ≡ None) }
    ensures few { IfOk result (λ words. length words ≤ word_limit) }
    ensures refused { IfErr result (IsRefused lexicon.now (words_in segment text.now)) }
{
    let Ok(words) = words_of(alloc, text, segment) else {
        return Err(Stop::OutOfMemory);
    };
    match refusal(lexicon, words.as_slice()) {
        Some(fault) => Err(Stop::Fault(fault)),
        None => Ok(words),
    }
}

/// The words of an input.
fn list_in(
    alloc: Global,
    expanded: &Expanded,
    segment: bool,
    input: &[u8],
) -> Result<List<SentenceWord>, Refusal>
    requires within { length input.now ≤ 65536 }
    requires lexicon { HasRightLexicon expanded.now }
    ensures few { IfOk result (λ words. length words ≤ word_limit) }
    ensures found { IfOk result (λ words.
        Accepts Listed (IsBadList (meaning_of expanded.now) segment input.now) (HasList (meaning_of expanded.now) segment input.now)
        (record { grammar = grammar_in expanded.now; words = words })) }
    ensures refused { IfErr result (Stops (Unit {0}) 0 0 Listed
        (IsBadList (meaning_of expanded.now) segment input.now) (HasList (meaning_of expanded.now) segment input.now)) }
{
    let text = match str::from_utf8(input) {
        Ok(text) => text,
        Err(error) => return Err(no_text(input, error.valid_up_to())),
    };
    match words_within(alloc, &expanded.lexicon, segment, text) {
        Ok(words) => Ok(words),
        Err(stop) => Err(stopped_in(input, stop)),
    }
}

/// The words that a source gives, 1 to 8 of them, each with an entry.
pub(crate) fn read_list<S: Source>(
    alloc: Global,
    expanded: &Expanded,
    segment: bool,
    source: &mut S,
) -> Result<List<SentenceWord>, Refusal>
    requires lexicon { HasRightLexicon expanded.now }
    ensures found { IfOk result (λ words. (input : List ℕ) → S.left source.old ≡ Some input →
        Accepts Listed (IsBadList (meaning_of expanded.now) segment input) (HasList (meaning_of expanded.now) segment input)
        (record { grammar = grammar_in expanded.now; words = words })) }
    ensures few { IfOk result (λ words. length words ≤ word_limit) }
    ensures refused { IfErr result (λ refusal. (input : List ℕ) →
        Stops (S.left source.old ≡ Some input) (S.faults source.old) (S.faults source.new) Listed
        (IsBadList (meaning_of expanded.now) segment input) (HasList (meaning_of expanded.now) segment input) refusal) }
    ensures failed { IfErr result (λ refusal. refusal ≡ Refusal.Read → Rose (S.faults source.old) (S.faults source.new)) }
    ensures all { IfOk result (λ words. (input : List ℕ) → S.left source.old ≡ Some input → S.left source.new ≡ Some []) }
    ensures lasting { S.faults source.old ≤ S.faults source.new }
    ensures quiet { MatchResult result (λ _. S.faults source.new ≡ S.faults source.old) (λ refusal.
        refusal ≢ Refusal.Read → S.faults source.new ≡ S.faults source.old) }
{
    let input = match read_all(alloc, source, LIST_LIMIT) {
        Ok(input) => input,
        Err(ReadStop::ReadFault) => return Err(Refusal::Read),
        Err(ReadStop::OutOfMemory) => return Err(Refusal::Memory),
        Err(ReadStop::TooLong { reached }) => return Err(too_long(reached)),
    };
    list_in(alloc, expanded, segment, &input)
}
