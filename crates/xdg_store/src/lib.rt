//! The values that a search has left: for each decision on a sentence, which of its values remain, and all that it was
//! before, on one trail of words.
//!
//! Below this crate are words and bits, above it only boxes: for each decision the values that remain.
#![tactic(auto)]

mod across;
mod change;
mod decision;
mod labels;
mod layout;
mod masks;
mod naming;
mod rows;
mod single;
mod start;
mod store;

pub use across::Mothers;
pub use change::Change;
pub use decision::Decision;
pub use labels::{Labels, LabelsInto};
pub use store::Store;
pub use xdg_trail::Mark;
