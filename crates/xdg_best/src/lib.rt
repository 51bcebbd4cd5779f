//! The cheapest analysis of a sentence: the text that says what entries cost, and edges by their labels, the search for an analysis that
//! costs least, and the command `best`.
#![tactic(auto)]

mod building;
mod cheapest;
mod costing;
mod naming;
mod reading;
mod rounds;
mod searching;
mod statements;
mod texts;
mod writing;

pub use cheapest::best_sentence;
pub use rounds::{BestAnswer, best};
pub use texts::costs;
