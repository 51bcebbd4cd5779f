//! Expanded entries: what they are, where they say their words, and what a feature holds once all defaults are filled in; and the
//! expanded lexicon, packed, in which each different record of a dimension is kept once, and the entries of a word are looked up by an
//! index of the words.
#![tactic(auto)]

mod entry_set;
mod filling;
mod packed;
mod packing;
mod spelling;
mod table;
mod tables;
mod word;
mod words;

pub use filling::{fill, taken};
pub use packed::{EntryView, Packed, pack};
pub use packing::{Added, Packing};
pub use word::word_place;
pub use words::text_at;
