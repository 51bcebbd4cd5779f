//! How values of attributes are shown.

ghost use Rattle.std.specs.Prelude.{◌≡◌, ◌<◌, IfOk};
ghost use Rattle.xdg_build.specs.Plans as spec;
ghost use Rattle.xdg_domain.specs.Shapes.{shape, shapes_of, count, IsSmall, IsTupleType};
ghost use Rattle.xdg_domain.specs.Sized.{sizes_of};
ghost use Rattle.xdg_domain.specs.Tuples.{InRange};
ghost use Rattle.xdg_terms.specs.Built.{constants_each};
ghost use Rattle.xdg_terms.specs.Means.{chosen};

use std::alloc::Global;
use xdg_base::{List, OutOfMemory, Text};
use xdg_domain::{Tuple, Ty, tuple_of};
use xdg_problem::Shown;

/// The constants of a tuple of these domains.
fn texts(alloc: Global, fields: &[Ty], tuple: &Tuple) -> Result<List<Text>, OutOfMemory>
    requires { InRange (sizes_of fields.now) tuple.now }
    ensures { IfOk result (λ made. made ≡ chosen (constants_each fields.now) tuple.now) }
{
    let mut made = List::new(alloc);
    for (i, field) in fields.iter().enumerate() {
        let number = tuple.at(i) as usize;
        made.push(field.constants()[number].copy(alloc)?)?;
    }
    Ok(made)
}

/// How the value with that number is shown: by its constant, or by those of its tuple.
pub(crate) fn shown(alloc: Global, ty: &Ty, number: u16) -> Result<Shown, OutOfMemory>
    requires small { IsSmall (shape ty.now) }
    requires below { number < count (shape ty.now) }
    ensures { IfOk result (λ made. made ≡ spec.shown_as (shape ty.now) number) }
{
    match ty {
        Ty::Domain(_) => Ok(Shown::One(ty.constants()[number as usize].copy(alloc)?)),
        Ty::Tuple(fields) => {
            let tuple = tuple_of(ty, number);
            Ok(Shown::Many(texts(alloc, fields.as_slice(), &tuple)?))
        }
        _ => Ok(Shown::Many(List::new(alloc))),
    }
}
