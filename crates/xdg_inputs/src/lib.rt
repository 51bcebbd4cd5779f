//! What a run reads, and what it leaves: grammar texts from their bytes to what they mean, the problem of a sentence, the analysis of a file,
//! the rules of a rules file and problems with them; and the status and the text of a run as steps, one behind the other.
#![tactic(auto)]

mod adding;
mod analysis;
mod expanding;
mod loading;
mod reading;
mod refusals;
mod rules_files;
mod rules_texts;
mod sentence;
mod status;
mod words;

pub use adding::{add_rules, rule_analysis};
pub use analysis::{Judgeable, load_analysis};
pub use expanding::{Expanded, expand_tree};
pub use loading::{Loaded, load_tree};
pub use reading::read_tree;
pub use refusals::{Refusal, no_text, refuse, refused_in, stopped_in, too_long};
pub use rules_files::load_rules;
pub use sentence::{problem_in, read_problem};
pub use status::Status;
pub use words::{problem_from, problem_of};
