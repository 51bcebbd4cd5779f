//! The command `arrange`: the arrangements of the words that the input gives, each searched as a sentence, and those that have an analysis printed.
#![tactic(auto)]

mod command;
mod lists;
mod printing;
mod searching;

pub use command::arrange;
