//! The numbers of the tuples that terms name.

ghost use Rattle.std.specs.Prelude.{◌≡◌, [], IfOk};
ghost use Rattle.xdg_domain.specs.Shapes.{shape, IsTupleType};
ghost use Rattle.xdg_domain.specs.Sized.{sizes_of};
ghost use Rattle.xdg_domain.specs.Values.{AllBelow};
ghost use Rattle.xdg_terms.specs.Built as spec;

use crate::parts::{constant_place, fields};
use std::alloc::Global;
use xdg_ast::Name;
use xdg_base::{List, OutOfMemory};
use xdg_domain::{Ty, tuple_index};

/// The number of the tuple with these constants, where each is in the domain of its place.
pub(crate) fn tuple_number(
    alloc: Global,
    ty: &Ty,
    names: &[Name],
) -> Result<Option<u16>, OutOfMemory>
    requires { IsTupleType (shape ty.now) }
    ensures { IfOk result (λ told. told ≡ spec.tuple_number (shape ty.now) names.now) }
{
    match places(alloc, fields(ty), names)? {
        None => Ok(None),
        Some(found) => Ok(Some(tuple_index(ty, found.as_slice()))),
    }
}

/// The places of the constants, each in the domain of its place.
fn places(alloc: Global, fields: &[Ty], names: &[Name]) -> Result<Option<List<u8>>, OutOfMemory>
    requires { AllBelow 65 (sizes_of fields.now) }
    ensures { IfOk result (λ told. told ≡ spec.places_behind [] (spec.constants_each fields.now) names.now) }
{
    if names.len() != fields.len() {
        return Ok(None);
    }
    let mut found = List::new(alloc);
    for (i, field) in fields.iter().enumerate() {
        match constant_place(field.constants(), names[i].text.as_str()) {
            None => return Ok(None),
            Some(place) => found.push(place)?,
        }
    }
    Ok(Some(found))
}
