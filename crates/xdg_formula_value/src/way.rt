//! Which way.

/// Which way something is looked along.
#[derive(Clone, Copy, Debug)]
pub enum Way {
    /// From the first node to the second.
    Down,
    /// From the second node to the first.
    Up,
}
