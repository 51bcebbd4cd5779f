//! What a removal did.

/// What a removal did.
#[derive(Clone, Copy, Debug, PartialEq, Eq)]
pub enum Change {
    /// No value to be taken remained, and nothing changed.
    Same,
    /// Such values remained beside others, and remain no more.
    Changed,
    /// Its decision has no other values left, and nothing changed.
    Emptied,
}
