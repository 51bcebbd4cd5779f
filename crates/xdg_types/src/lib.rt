//! What the types of a grammar are: what types mean, what is wrong with them, and the table of its dimensions.
#![tactic(auto)]

mod labels;
mod names;
mod table;

pub use labels::label_number;
pub use names::{add_use, index_dims, keys_again, keys_seen, names_again, repeated, unknown};
pub use table::{DimType, TypeTable};
