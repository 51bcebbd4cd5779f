//! What a step did.

use crate::wake::Wake;

/// What a step of a propagator did.
#[derive(Clone, Copy, Debug, PartialEq, Eq)]
pub enum Moved {
    /// Nothing: the propagator is still on the box.
    Same,
    /// The box lost values of these kinds.
    Changed(Wake),
    /// No box inside the box is closed for the principle use.
    Dead,
}
