//! Boxes of values, and what the rules of the principles take from them: definitions and their laws alone.
#![tactic(auto)]

mod laws;

pub use laws::{boxed_laws, name_laws, rule_laws, worth_laws};
