//! The words of a sentence, and the arrangements of a list of words: the different lists that have each word as often as it has.
//!
//! A word's rank is the number of words that stand before the first of its text. An arrangement is seen as the list of its ranks, and the
//! arrangements come in the order of these.
#![tactic(auto)]

mod advancing;
mod arrangements;
mod laws;
mod ranking;
mod runs;
mod segments;
mod words;

pub use arrangements::Arrangements;
pub use laws::{arrangements_listed, texts_arranged};
pub use words::words_of;
