//! A resumable search through the boxed prefixes of a sentence: each solution after any start, in order, every boxed prefix on the way
//! charged once. It is a search, in rising order, through the counted prefixes of a finite problem, over a front that keeps a box.
#![tactic(auto)]

mod decision;
mod edge_runs;
mod forced;
mod front;
mod held;
mod narrowing;
mod row;
mod run;
mod search;
mod starting;
mod stream;

pub use front::BoxFront;
pub use run::{Outcome, collect, numbers_of, solve};
pub use search::{Front, Search, Step};
pub use stream::Stream;
