//! Definitions with their uses, and the strong components that they form.

use xdg_base::List;

/// A use of a definition.
#[derive(Clone, Copy, Debug)]
pub struct Use {
    /// The number of the definition that is used, from 0.
    pub to: usize,
    /// The byte place of the use, from 0.
    pub at: u32,
}

/// The strong components of a graph. Two definitions are of one component exactly where each leads to the other.
#[derive(Debug, Drop)]
pub struct Components {
    /// For each definition the number of its component. Two definitions have one number exactly where each leads to
    /// the other, and a use never leads to a greater number.
    pub numbers: List<usize>,
    /// Each definition once, in an order in which the numbers of the components never fall.
    pub order: List<usize>,
}
