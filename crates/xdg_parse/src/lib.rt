//! Reading of grammar texts: the tree that tokens stand for, or the first fault.
//!
//! Names, cardinalities, generators, terms and types are read by a cursor over tokens. A function that reads goes past the tokens of the
//! longest such thing that stands before the cursor, and answers the tree that they stand for. Its error says why reading stops ([`Why`]),
//! with the cursor before the token at which it does. By `within` the caller says how many brackets may still be opened, one in another.
//! The time is linear in the number of tokens that are read.
#![tactic(auto)]

mod cards;
mod cursor;
mod dimensions;
mod expressions;
mod generators;
mod names;
mod parsing;
mod statements;
mod terms;
mod types;

pub use cursor::{Cursor, Why};
pub use names::{name, name_from};
pub use parsing::{MOST_BRACKETS, parse, too_deep, unexpected};
pub use terms::{braced_terms, term};
pub use types::type_term;
