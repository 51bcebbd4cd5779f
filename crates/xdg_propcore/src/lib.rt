//! Propagators, which take values away from a box by the rules of a principle use, and the greatest closed box inside a box.
//!
//! All that is proved of [`Propagator`] holds for each type that is one. [`UseProp`] is one for each family of principles: these have
//! their principles, and what their uses take from a box, as an `impl` of [`Family`].
#![tactic(auto)]

mod agenda;
mod awake;
mod deciding;
mod family;
mod fixpoint;
mod kinds;
mod moved;
mod pass;
mod propagator;
mod rests;
mod running;
mod touched;
mod use_prop;
mod wake;

pub use agenda::{Agenda, settle, settle_since};
pub use deciding::still_decides;
pub use family::Family;
pub use fixpoint::Fixpoint;
pub use moved::Moved;
pub use pass::Pass;
pub use propagator::Propagator;
pub use touched::Touched;
pub use use_prop::{UseProp, use_of};
pub use wake::Wake;
