//! The expanded lexicon of a checked grammar: what its bodies denote, which are partial entries that say records of dimensions, and the
//! entries that these make.
#![tactic(auto)]

mod closing;
mod conjunction;
mod denoting;
mod entries;
mod expanding;
mod filling;
mod frames;
mod growing;
mod limits;
mod lists;
mod moving;
mod records;
mod taking;
mod using;

pub use denoting::members;
pub use entries::Partial;
pub use expanding::{expand, lexicon};
pub use xdg_check::{combos_of as count, uses_of as uses};
