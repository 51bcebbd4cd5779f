//! Words by the Unicode rules of word boundaries (Unicode Standard Annex 29).

ghost use Rattle.std.specs.Prelude.{◌≡◌, ◌++◌, IfOk, OnOk};
ghost use Rattle.xdg_linear.specs.Segments.{dark, is_white, segments};

use std::alloc::Global;
use unicode_segmentation::UnicodeSegmentation;
use xdg_base::{List, OutOfMemory, Text};
use xdg_problem::SentenceWord;

/// Whether a text has no character but white space.
fn is_white(text: &str) -> bool
    ensures { result ≡ is_white text.now }
{
    text.chars().all(|c| c.is_whitespace())
}

/// Adds a piece of the text that begins at a byte place to the words, unless it is white space.
fn add_piece(
    alloc: Global,
    words: &mut List<SentenceWord>,
    at: usize,
    piece: &str,
) -> Result<(), OutOfMemory>
    ensures { OnOk result (words.new ≡ words.old ++ dark at piece.now) }
{
    if is_white(piece) {
        return Ok(());
    }
    let Ok(at) = u32::try_from(at) else {
        return Err(OutOfMemory);
    };
    let text = Text::from_str(alloc, piece)?;
    words.push(SentenceWord { text, at })
}

/// The segments of a text between the boundaries of words that have a character which is not white space.
pub(crate) fn segments_of(alloc: Global, text: &str) -> Result<List<SentenceWord>, OutOfMemory>
    ensures { IfOk result (λ list. list ≡ segments text.now) }
{
    let mut words = List::new(alloc);
    for (at, piece) in text.split_word_bound_indices() {
        add_piece(alloc, &mut words, at, piece)?;
    }
    Ok(words)
}
