//! What the linking principles take from a box: edges of one dimension that no edge of another can link, and edges that would join what
//! has to stay apart.
#![tactic(auto)]

mod asking;
mod cutting;
mod entries;
mod link_prop;
mod near;
mod neighbours;
mod parting;
mod reach;
mod taking;
mod way;

pub use link_prop::{Link, LinkProp};
