//! What settling came to.

/// What [`crate::settle`] came to.
#[derive(Clone, Copy, Debug, PartialEq, Eq)]
pub enum Fixpoint {
    /// The box is closed for all propagators.
    Settled,
    /// No box inside the box was closed for all propagators.
    Dead,
}
