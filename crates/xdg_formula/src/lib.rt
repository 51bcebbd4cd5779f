//! Rules texts, which are users' principles as formulas: from the bytes of a text to its tree, or the first fault, and what is wrong with
//! the rules where a table of types is given.
//!
//! The time of each call is linear in the length of the text, and the depth of calls is bounded by that of the brackets: a run of `!`
//! is read by a loop, and is one node of the tree.
#![tactic(auto)]

mod atom_names;
mod atoms;
mod checking;
mod formula_checking;
mod names;
mod reading;
mod rules;
mod scopes;
mod tables;
mod terms;
mod tree;
mod words;

pub use checking::check_rules;
pub use reading::formulas;
pub use scopes::bind;
pub use tree::{Rule, RuleKind, RuleTerm, Rules};
