//! Names and places: the first of several faults, texts by number, and definitions that use one another.
//!
//! Of several faults the first is the one with the least place ([`earlier`]). Different texts have their places among them as their
//! numbers ([`Index`]). Of definitions that use one another it is told which uses close a cycle ([`closing`]), and an order in which each
//! definition comes after those that it uses ([`components`]).
#![tactic(auto)]

mod graph;
mod index;
mod listed;
mod meeting;
mod numbering;
mod order;
mod walk;

pub use graph::{Components, Use};
pub use index::Index;
pub use listed::{has_text, place_of};
pub use meeting::closing;
pub use numbering::components;
pub use order::{earlier, is_before};
