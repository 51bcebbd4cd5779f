//! The commands that report on a grammar or on an analysis of it: `check`, `lexicon`, `print` and `explain`; and the verdicts on the
//! principle uses of an analysis as a text.
#![tactic(auto)]

mod conditions;
mod explain;
mod reports;
mod verdicts;
mod words;

pub use explain::explain_analysis;
pub use reports::{Report, print_report};
pub use verdicts::write_verdicts;
