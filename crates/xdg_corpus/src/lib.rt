//! The command `corpus`: a sentence on each line of the input, searched by one grammar, in groups whose lines are searched side by side.
#![tactic(auto)]

mod ahead;
mod command;
mod group;
mod input;
mod lines;
mod printing;
mod sizes;
mod writing;

pub use command::corpus;
