//! What agr, agreement and government take from a box: values of attributes that no entry allows or that the other end of an
//! edge lacks, entries that allow no value that remains, and edges whose ends can't agree.
#![tactic(auto)]

mod agree_prop;
mod asking;
mod mothers;
mod nodes;
mod places;
mod reads;
mod taking;
mod touched;

pub use agree_prop::{Agree, AgreeProp};
