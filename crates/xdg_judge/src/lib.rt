//! The judge: which principle uses an analysis satisfies, and of each that it doesn't the first condition that is broken
//! and the least tuple that breaks it. The relations are those of `xdg_problem`.
#![tactic(auto)]

mod asking;
mod atoms;
mod counts;
mod judge;
mod links;
mod paths;
mod reads;
mod search;
mod skips;
mod truths;
mod verdict;
mod view;
mod whole;

pub use judge::{explain, holds};
pub use verdict::{Tuple4, Verdict};
