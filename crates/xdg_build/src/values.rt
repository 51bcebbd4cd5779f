//! The numbers of values.

ghost use Rattle.std.specs.Prelude.{◌≡◌, [], IfOk};
ghost use Rattle.xdg_domain.specs.Shapes.{shape, IsSmall};
ghost use Rattle.xdg_domain.specs.declared.values.Value.{out-Value};
ghost use Rattle.xdg_formula.specs.Formulas.{value_faults};
ghost use Rattle.xdg_build.specs.Formulas.{number_of};
ghost use Rattle.xdg_build.specs.Tables as spec;

use std::alloc::Global;
use xdg_ast::Term;
use xdg_base::{List, OutOfMemory, Stop};
use xdg_domain::{Ty, Value};
use xdg_terms::value;

/// The number of a constant or a tuple.
fn number_in(value: &Value) -> u16
    ensures { result ≡ spec.number_in (out-Value value.now) }
{
    match value {
        Value::Const(number) => u16::from(*number),
        Value::Tuple(number) => *number,
        _ => 0,
    }
}

/// The number of a value of a domain or a tuple type, with which nothing is wrong.
pub(crate) fn value_number(alloc: Global, ty: &Ty, written: &Term) -> Result<u16, OutOfMemory>
    requires small { IsSmall (shape ty.now) }
    requires right { value_faults (shape ty.now) written.now ≡ [] }
    ensures { IfOk result (λ number. number ≡ number_of (shape ty.now) written.now) }
{
    match value(alloc, ty, written, &List::new(alloc)) {
        Ok(meant) => Ok(number_in(&meant)),
        Err(Stop::Fault(_)) => Ok(0),
        Err(Stop::OutOfMemory) => Err(OutOfMemory),
    }
}
