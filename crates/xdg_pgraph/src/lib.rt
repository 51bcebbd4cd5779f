//! Propagators of the principles that look at the edges of one dimension: graph, entries, tree, dag and valency.
#![tactic(auto)]

mod allowances;
mod bounds;
mod bundle;
mod entered;
mod finding;
mod found;
mod graph_prop;
mod incoming;
mod label;
mod lasting;
mod plane;
mod reach;
mod taking;
mod tree;
mod valency;

pub use graph_prop::{Graph, GraphProp};
