//! Sets of nodes. Contracts see a set as the rising list of its nodes.
#![tactic(auto)]

mod meeting;
mod set;
mod walk;

pub use meeting::{extended, overlap};
pub use set::NodeSet;
pub use walk::NodeIter;
