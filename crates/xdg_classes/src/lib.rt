//! The lexical classes and the entries of a grammar (Debusmann 2006, in the profile of this project): what their bodies hold, what is
//! wrong with the names in them, an order in which each class comes after those that it uses, and what is wrong with the values in them.
#![tactic(auto)]

mod bodies;
mod checking;
mod collecting;
mod definitions;
mod feature_repeats;
mod features;
mod graph;
mod lookup;
mod names;
mod ordering;
mod params;
mod repeats;
mod same;
mod uses;
mod wanted;

pub use bodies::{Call, Record, args_of, calls, records};
pub use checking::check_values;
pub use definitions::ClassDef;
pub use lookup::Classes;
pub use names::check_names;
pub use ordering::classes;
