//! The printed texts: the blocks of analyses, the lines of faults, and those that end a run.
#![tactic(auto)]

mod blocks;
mod constants;
mod faults;
mod form;
mod kept;
mod lines;
mod pushing;
mod values;

pub use blocks::{write, write_analysis, write_parts, write2};
pub use constants::write_constant;
pub use faults::{fault_line, write_complete, write_first, write_spent, write_usage};
pub use form::Form;
pub use kept::Kept;
pub use lines::{Word, write_line};
pub use pushing::push;
pub use xdg_base::is_name;
