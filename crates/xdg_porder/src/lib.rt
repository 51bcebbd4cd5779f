//! What order and projectivity take from a box: daughters on the wrong side of one another or of their mother, own labels
//! under which a node stands on the wrong side of a daughter, and edges across nodes that can't be below their mothers.
#![tactic(auto)]

mod across;
mod failing;
mod items;
mod lasting;
mod order_prop;
mod reads;
mod sets;
mod sides;
mod sweep;
mod taking;
mod yields;

pub use order_prop::{Order, OrderProp};
