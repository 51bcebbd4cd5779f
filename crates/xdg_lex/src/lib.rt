//! The tokens of a grammar text.
#![tactic(auto)]

mod contents;
mod pieces;
mod reading;

pub use contents::{content, value};
pub use reading::tokens;
