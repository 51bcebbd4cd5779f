//! Which edges.

/// Which edges of a box.
#[derive(Clone, Copy, Debug)]
pub enum Which {
    /// Those that may be present.
    May,
    /// Those that must be present.
    Must,
}
