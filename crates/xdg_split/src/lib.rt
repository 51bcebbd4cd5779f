//! The analyses of a sentence, printed as they are found, and sentences searched side by side. Each is searched by itself, so its answer is
//! the one that it has alone; or what they find is put together, one behind the other, so that the parts of one sentence answer for it.
#![tactic(auto)]

mod answer;
mod answering;
mod finding;
mod found;
mod job;
mod printing;
mod slots;
mod splitting;

pub use answer::Answer;
pub use answering::answers;
pub use finding::last_analysis;
pub use found::Found;
pub use job::Job;
pub use printing::{Printed, print_analyses, write_last};
pub use splitting::{SplitAnswer, split, split_laws};
