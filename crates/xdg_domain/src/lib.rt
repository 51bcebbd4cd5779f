//! Types without names and their values: which values a type has, what two of them say together, what holds where nothing
//! is said, and how tuples are numbered. Contracts see collections as rising lists.
#![tactic(auto)]

mod cards;
mod comparing;
mod copying;
mod defaults;
mod joining;
mod sets;
mod tuples;
mod types;
mod valencies;
mod values;

pub use cards::CardSet;
pub use comparing::same_fields;
pub use defaults::{default_of, has_few_parts};
pub use joining::{join, join_laws};
pub use sets::SetOf;
pub use tuples::{Tuple, count, tuple_index, tuple_laws, tuple_of};
pub use types::Ty;
pub use valencies::CardMap;
pub use values::{Entry, Fields, Value, ValueMap};
