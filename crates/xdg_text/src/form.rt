//! The two texts of an analysis.

/// In which of its two texts an analysis is printed.
#[derive(Clone, Copy, Debug, PartialEq, Eq)]
pub enum Form {
    /// The block.
    One,
    /// The block that tells its format and how many lines it has.
    Two,
}
