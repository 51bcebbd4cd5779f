//! Comparing trees up to their places.

mod expressions;
mod grammar;
mod names;
mod terms;
mod types;

pub use grammar::same;
