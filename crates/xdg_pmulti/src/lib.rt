//! What climbing and barriers take from a box: edges of one dimension whose ends no path of another can join, and edges that
//! a node blocks which can't reach their daughters.
#![tactic(auto)]

mod barriers;
mod blocking;
mod climbing;
mod multi_prop;
mod reads;
mod taking;

pub use multi_prop::{Multi, MultiProp};
pub use taking::forbid_beyond;
