//! Compiling: a grammar with its lexicon and the words of a sentence make a problem, or a refusal. The uses of principles become groups of
//! numbers, and the rules of a rules text formulas of the problem.
#![tactic(auto)]

mod arguments;
mod atoms;
mod building;
mod candidates;
mod compiling;
mod feats;
mod formulas;
mod groups;
mod lookups;
mod nodes;
mod places;
mod plans;
mod records;
mod refusals;
mod rows;
mod shown;
mod stock;
mod values;

pub use building::build;
pub use compiling::compile;
pub use groups::compile_uses;
pub use nodes::{NodePlan, over_nodes, plan_node};
pub use records::Records;
pub use refusals::refusal_within;
pub use stock::Stock;
