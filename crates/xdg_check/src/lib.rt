//! Checked grammars.
#![tactic(auto)]

mod checked;
mod completing;
mod copying;
mod counting;
mod counts;
mod filling;
mod lex;
mod making;
mod passes;
mod weighing;

pub use checked::{Checked, Class, EntryDef};
pub use counts::{combos_of, uses_of};
pub use passes::check;
pub use xdg_principles::{Arg, PrincipleUse};
