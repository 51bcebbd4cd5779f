//! The propagators of a sentence: one for each of its principle uses, of the family to which its principle belongs, and one of a bound on
//! costs.
//!
//! Each family has a crate of its own. [`AnyProp`] is a propagator of any of them, so that a search takes one list of all. [`CostProp`]
//! takes from a box all, where what an analysis costs at the least reaches the bound, and each edge with which it would.
#![tactic(auto)]

mod any_prop;
mod cost_prop;
mod cost_rows;
mod least;
mod uses;

pub use any_prop::AnyProp;
pub use cost_prop::CostProp;
pub use uses::props;
