//! Analysis texts read back, line by line, and the analysis of a problem that such a text shows.
//!
//! An analysis has one spelling in each of the two texts, and every other text is refused at the first line that offends.
#![tactic(auto)]

mod attrs;
mod cursor;
mod edges;
mod fitting;
mod laws;
mod line;
mod names;
mod reading;
mod refused;
mod slots;
mod stage;
mod texts;
mod word_entries;
mod words;

pub use fitting::fit;
pub use laws::reads_back;
pub use line::Line;
pub use names::label_number;
pub use reading::read;
pub use stage::Stage;
pub use texts::{AnalysisText, AttrLine, EdgeLine};
