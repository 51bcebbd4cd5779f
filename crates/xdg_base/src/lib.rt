//! What every crate speaks of: ids, faults with their places, lists that contracts see as lists, and how a name is spelled.
//!
//! A text stands as a name where it can ([`is_name`]), and is quoted where it can't ([`is_escaped`]); what reads texts asks for a
//! character at a time ([`begins_name`], [`continues_name`]).
#![tactic(auto)]

mod boxes;
mod faults;
mod ids;
mod lists;
mod places;
mod spelling;

pub use boxes::Boxed;
pub use faults::{Cause, Fault, OutOfMemory, Stop, number};
pub use ids::{AttrId, DimId, EntryNo, LabelId, NodeId};
pub use lists::{Bytes, List, Text};
pub use places::{LineColumn, Span, place};
pub use spelling::{begins_name, continues_name, is_escaped, is_name, keyword_at, keyword_place};
