//! The commands that search: `parse`, `resume` and `drill`.
//!
//! A sentence is also searched by the branches of its first word: a search for each of the word's entries, side by side. What they find, one
//! branch behind the other, is what the search of the whole sentence finds. `drill` makes a grammar and a sentence from a number, and counts
//! and judges what is found.
#![tactic(auto)]

mod branch_printing;
mod branched;
mod counting;
mod drilling;
mod generator;
mod jobs;
mod judging;
mod parse;
mod printing;
mod resume;
mod searching;

pub use branch_printing::print_branches;
pub use counting::{Counts, count_judged};
pub use drilling::drill;
pub use generator::{grammar_text, sentence_text};
pub use parse::parse_sentence;
pub use resume::resume_analysis;
