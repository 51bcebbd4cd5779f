//! The one call that the program makes: from its words, the files and the input to what it prints.
#![tactic(auto)]

mod running;
mod safe;

pub use running::run;
pub use safe::run_safely;
pub use xdg_inputs::Status;
pub use xdg_linear::words_of;
