//! The words of a sentence.

ghost use Rattle.std.specs.Prelude.{◌≡◌, ◌<◌, ◌^◌, false, length, IfOk, All};
ghost use Rattle.xdg_linear.specs.Words.{IsWord, StandApart, StandsIn};
ghost use Rattle.xdg_linear.specs.Segments.{words_in};

use crate::runs::runs_of;
use crate::segments::segments_of;
use std::alloc::Global;
use xdg_base::{List, OutOfMemory};
use xdg_problem::SentenceWord;

/// The words of a sentence, each with the byte place where it begins, from 0: the maximal runs of characters that are not white
/// space, as [`char::is_whitespace`] has it. With `segment` they are the segments between the word boundaries of Unicode that have
/// a character which is not white space, so that a full stop is a word of its own. The error is want of memory.
pub fn words_of(alloc: Global, text: &str, segment: bool) -> Result<List<SentenceWord>, OutOfMemory>
    requires { length text.now < 2 ^ 32 }
    ensures words { IfOk result (λ list. list ≡ words_in segment text.now) }
    ensures each { segment ≡ false → IfOk result (λ list. All IsWord list) }
    ensures within { segment ≡ false → IfOk result (λ list. All (StandsIn text.now) list) }
    ensures apart { segment ≡ false → IfOk result StandApart }
{
    if segment {
        segments_of(alloc, text)
    } else {
        runs_of(alloc, text)
    }
}
