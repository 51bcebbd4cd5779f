//! Which sentences are refused.

ghost use Rattle.std.specs.Prelude.{◌≡◌, ◌≤◌};
ghost use Rattle.xdg_base.specs.declared.faults.Cause.TheVariants as causes;
ghost use Rattle.xdg_build.specs.Refusals as spec;

use xdg_base::{Cause, Fault};
use xdg_packed::Packed;
use xdg_problem::SentenceWord;

/// The most words that a sentence may have.
const WORDS: usize = 128;

/// The first word that has no entry.
fn first_unknown(packed: &Packed, words: &[SentenceWord]) -> Option<Fault>
    ensures { result ≡ spec.first_unknown packed.now words.now }
{
    for word in words {
        if packed.of_word(word.text.as_str()).is_empty() {
            return Some(Fault::at(Cause::UnknownWord, word.at));
        }
    }
    None
}

/// Why words are refused where that many may stand: there is none, or too many, or one has no entry. The cause is that of too many.
pub fn refusal_within(
    most: usize,
    too_many: Cause,
    packed: &Packed,
    words: &[SentenceWord],
) -> Option<Fault>
    requires { most ≤ spec.most_words }
    ensures { result ≡ spec.refusal_within most too_many packed.now words.now }
{
    if words.is_empty() {
        return Some(Fault::at(Cause::EmptySentence, 0));
    }
    match words.get(most) {
        Some(word) => Some(Fault {
            cause: too_many,
            at: word.at,
            reached: most as u64 + 1,
        }),
        None => first_unknown(packed, words),
    }
}

/// Why a sentence is refused.
pub(crate) fn refusal(packed: &Packed, words: &[SentenceWord]) -> Option<Fault>
    ensures { result ≡ spec.refusal_within spec.most_words causes.TooManyWords packed.now words.now }
{
    refusal_within(WORDS, Cause::TooManyWords, packed, words)
}
