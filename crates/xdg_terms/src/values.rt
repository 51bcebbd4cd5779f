//! What terms mean.

ghost use Rattle.xdg_domain.specs.Shapes.{shape, IsType};
ghost use Rattle.xdg_terms.specs.Answers.{Tells};

use crate::building::build;
use crate::checking::check;
use crate::forms::Bindings;
use std::alloc::Global;
use xdg_ast::Term;
use xdg_base::Stop;
use xdg_domain::{Ty, Value};

/// The value that a term means where a type is wanted. Parameters are taken as what the bindings say. A number stands
/// for the place of a constant in its domain or of a field in its record, from 0; a tuple's number counts the first
/// field slowest.
///
/// # Errors
///
/// The first fault, the one with the least place and at one place the one with the least number; faults in a parameter
/// stand where its term stands.
///
/// - `UnknownName` (30): at a key that is no field of a record.
/// - `Twice` (31): at a key that stands there before.
/// - `WrongKind` (33): at a term that is not of the form that the type wants.
/// - `NotMember` (34): at a constant that is not in the domain of its place, or neither `true` nor `false`.
/// - `CardRange` (38): at a number above 127, at the second number of an interval that is below the first, or at a
///   cardinality without numbers.
///
/// Or want of memory.
pub fn value(alloc: Global, ty: &Ty, term: &Term, bindings: &Bindings) -> Result<Value, Stop>
    requires { IsType (shape ty.now) }
    ensures { Tells bindings.now (shape ty.now) term.now result }
{
    match check(ty, term, bindings) {
        Some(fault) => Err(Stop::Fault(fault)),
        None => match build(alloc, ty, term, bindings) {
            Ok(value) => Ok(value),
            Err(_) => Err(Stop::OutOfMemory),
        },
    }
}
