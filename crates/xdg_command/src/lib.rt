//! The words of the command line.
#![tactic(auto)]

mod commands;
mod matching;
mod reading;
mod syntax;
mod values;

pub use commands::{
    ArrangeOptions, BestOptions, Command, CorpusOptions, ExplainOptions, ParseOptions,
    ResumeOptions,
};
pub use reading::command;
pub use values::BUDGET;
