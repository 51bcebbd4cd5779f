//! The canonical text of grammars, and the expanded lexicon of a grammar as a text.
#![tactic(auto)]

mod cards;
mod defaults;
mod expressions;
mod listing;
mod members;
mod printer;
mod statements;
mod terms;
mod types;
mod values;
mod words;

pub use listing::lexicon_text;
pub use printer::Printer;
pub use statements::print;
