//! What terms mean where a type is wanted.
#![tactic(auto)]

mod building;
mod cardinalities;
mod cards;
mod checking;
mod closing;
mod copying;
mod forms;
mod generators;
mod keys;
mod members;
mod parts;
mod plain;
mod set_values;
mod sets;
mod stray;
mod tuples;
mod values;
mod wants;

pub use checking::{check, check_open};
pub use closing::close;
pub use copying::{copy_name, copy_term};
pub use forms::Bindings;
pub use members::check_constant;
pub use parts::{constant, names};
pub use stray::check_stray;
pub use values::value;
pub use wants::{Wanted, params_in};
