//! The uses of principles in a grammar.
#![tactic(auto)]

mod arguments;
mod building;
mod fitting;
mod keys;
mod lookup;
mod names;
mod settings;
mod using;

pub use arguments::check_arguments;
pub use building::{Arg, PrincipleUse, uses};
pub use names::check_names;
pub use using::{Uses, principle_uses};
