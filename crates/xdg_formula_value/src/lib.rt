//! What a formula is worth in a box, found for all nodes at once where one name is left, and the propagator of a rule.
#![tactic(auto)]

mod about;
mod along;
mod atoms;
mod kept;
mod kinds;
mod local;
mod lost;
mod names;
mod pair;
mod paths;
mod possible;
mod quantified;
mod reach;
mod rows;
mod rule_prop;
mod since;
mod value;
mod way;

pub use pair::Pair;
pub use paths::{Filled, Paths};
pub use rule_prop::RuleProp;
pub use value::is_false;
pub use way::Way;
