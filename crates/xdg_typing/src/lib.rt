//! The types of a grammar: the passes over its tree one after the other, over names, over what names lead to, and over kinds and sizes,
//! and then the table.
#![tactic(auto)]

mod attributes;
mod contents;
mod definitions;
mod dimensions;
mod following;
mod graph;
mod kinds;
mod leading;
mod making;
mod names;
mod repeats;
mod resolving;
mod shared;
mod singles;
mod sizes;
mod typing;
mod uses;
mod walk;
mod wanted;
mod weights;

pub use definitions::Definitions;
pub use following::resolved;
pub use kinds::check_kinds;
pub use names::{check_names, defined};
pub use typing::types;
