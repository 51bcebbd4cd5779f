//! The entries of words.

ghost use Rattle.std.specs.Prelude.{◌≡◌, length};
ghost use Rattle.xdg_reading.specs.Fitted.{has_entry, words_fault};

use xdg_base::{EntryNo, List};
use xdg_problem::{SentenceWord, SharedList};

/// Whether an entry is one of the candidates.
fn has_entry(candidates: &[EntryNo], entry: EntryNo) -> bool
    ensures { result ≡ has_entry candidates.now entry }
{
    candidates.iter().any(|candidate| candidate.0 == entry.0)
}

/// The place of the first line of a word that has an entry of another word.
pub(crate) fn words_fault(
    candidates: &[SharedList<EntryNo>],
    words: &[SentenceWord],
    entries: &[EntryNo],
) -> Option<u32>
    requires each { length candidates.now ≡ length words.now }
    requires entries { length entries.now ≡ length words.now }
    ensures { result ≡ words_fault candidates.now words.now entries.now }
{
    for (k, word) in words.iter().enumerate() {
        if !has_entry(candidates[k].as_slice(), entries[k]) {
            return Some(word.at);
        }
    }
    None
}
