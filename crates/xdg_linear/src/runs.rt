//! Words between white space.

ghost use Rattle.std.specs.Prelude.{◌≡◌, ◌<◌, ◌+◌, ◌++◌, ◌^◌, length, IfOk, OnOk, All};
ghost use Rattle.xdg_linear.specs.Words.{words, alone, IsWord, StandsIn, StandApart};

use std::alloc::Global;
use xdg_base::{List, OutOfMemory, Text};
use xdg_problem::SentenceWord;

/// Adds a text that stands at a byte place to the words, unless it is empty.
fn add_word(
    alloc: Global,
    words: &mut List<SentenceWord>,
    at: u32,
    text: &str,
) -> Result<(), OutOfMemory>
    ensures { OnOk result (words.new ≡ words.old ++ alone at text.now) }
{
    if text.is_empty() {
        return Ok(());
    }
    let text = Text::from_str(alloc, text)?;
    words.push(SentenceWord { text, at })
}

/// The words of a sentence: the maximal runs of characters that are not white space, as
/// [`char::is_whitespace`] has it. Each word has the byte place where it begins, from 0.
pub(crate) fn runs_of(alloc: Global, text: &str) -> Result<List<SentenceWord>, OutOfMemory>
    requires { length text.now < 2 ^ 32 }
    ensures words { IfOk result (λ list. list ≡ words text.now) }
    ensures each { IfOk result (λ list. All IsWord list) }
    ensures within { IfOk result (λ list. All (StandsIn text.now) list) }
    ensures apart { IfOk result StandApart }
{
    let mut words = List::new(alloc);
    let mut piece = String::new(alloc);
    let mut at: u32 = 0;
    for c in text.chars() {
        if c.is_whitespace() {
            add_word(alloc, &mut words, at, piece.as_str())?;
            at += (piece.len() + c.len_utf8()) as u32;
            piece.clear();
        } else {
            piece.push(c)?;
        }
    }
    add_word(alloc, &mut words, at, piece.as_str())?;
    Ok(words)
}
