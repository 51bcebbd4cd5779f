//! The text that the input gives.

ghost use Rattle.std.specs.Prelude.{◌≡◌, ◌≢◌, ◌≤◌, ℕ, List, Some, length, IfErr, IfOk, MatchResult};
ghost use Rattle.xdg_corpus.specs.Inputs.{HasText, IsBadCorpus};
ghost use Rattle.xdg_io.specs.Left.{TakesAll};
ghost use Rattle.xdg_io.specs.Rose.{Rose};
ghost use Rattle.xdg_inputs.specs.Refusals.{Stops};
ghost use Rattle.xdg_inputs.specs.Stages.{Accepts};

use std::alloc::Global;
use std::str;
use xdg_inputs::{Refusal, no_text, too_long};
use xdg_io::{ReadStop, Source, read_all};

/// How many bytes the input of a corpus may have.
const CORPUS_LIMIT: u64 = 4_194_304;

/// The text of bytes, or their refusal where they are not UTF-8.
pub(crate) fn text_of(input: &[u8]) -> Result<&str, Refusal>
    requires { length input.now ≤ 4194304 }
    ensures found { IfOk result (λ text. Accepts (List ℕ) (IsBadCorpus input.now) (HasText input.now) text.now) }
    ensures refused { IfErr result (Stops (Unit {0}) 0 0 (List ℕ) (IsBadCorpus input.now) (HasText input.now)) }
    ensures told { IfErr result (λ refusal. refusal ≢ Refusal.Read) }
{
    match str::from_utf8(input) {
        Ok(text) => Ok(text),
        Err(error) => Err(no_text(input, error.valid_up_to())),
    }
}

/// All bytes that a source gives, which are no more than a corpus may have.
pub(crate) fn read_input<S: Source>(alloc: Global, source: &mut S) -> Result<Vec<u8>, Refusal>
    ensures within { IfOk result (λ input. length input.items ≤ 4194304) }
    ensures all { IfOk result (λ input. TakesAll (S.left source.old) (S.left source.new) input.items) }
    ensures refused { IfErr result
        (λ refusal. (input : List ℕ)
        → Stops (S.left source.old ≡ Some input) (S.faults source.old) (S.faults source.new) (List ℕ) (IsBadCorpus input) (HasText input) refusal) }
    ensures failed { IfErr result (λ refusal. refusal ≡ Refusal.Read → Rose (S.faults source.old) (S.faults source.new)) }
    ensures lasting { S.faults source.old ≤ S.faults source.new }
    ensures quiet { MatchResult result (λ _. S.faults source.new ≡ S.faults source.old) (λ refusal.
        refusal ≢ Refusal.Read → S.faults source.new ≡ S.faults source.old) }
{
    match read_all(alloc, source, CORPUS_LIMIT) {
        Ok(input) => Ok(input),
        Err(ReadStop::ReadFault) => Err(Refusal::Read),
        Err(ReadStop::OutOfMemory) => Err(Refusal::Memory),
        Err(ReadStop::TooLong { reached }) => Err(too_long(reached)),
    }
}
