//! What a propagator reads from a box. Of a principle use: the dimensions, attributes and truth values that it names, the attributes of
//! nodes, the rows of its features, and what the remaining entries of a node say. Of edges: for each node its daughters and its mothers,
//! and the nodes below it and above it, by the edges that may be present or by those that must be.
#![tactic(auto)]

mod entries;
mod features;
mod labels;
mod paths;
mod sentence;
mod slot;
mod tables;
mod upward;
mod which;

pub use entries::{each_entry_has, each_entry_has_some, entry_count};
pub use features::{feature_row, is_member, row_of};
pub use labels::{edge_labels, labels_of, node_count};
pub use paths::{above, ancestors, note_above};
pub use sentence::{every_node, up_to};
pub use slot::{Slot, slot_of};
pub use tables::{daughters, daughters_by, daughters_of, set_at};
pub use upward::{mothers, mothers_by, mothers_of};
pub use which::Which;
