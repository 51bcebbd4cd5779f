//! What a job gives.

use xdg_base::Bytes;
use xdg_facts::Ending;

/// What the search of a job printed, in text 1 and with its last line, and how it ended.
#[derive(Debug, Drop)]
pub struct Answer {
    /// The text: blocks in text 1, and the last line.
    pub bytes: Bytes,
    /// Whether the list is complete, or ends at the wanted number or for want of budget.
    pub ending: Ending,
}
