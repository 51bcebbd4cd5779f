//! The sets that terms name.

ghost use Rattle.std.specs.Prelude.{◌≡◌, IfOk};
ghost use Rattle.xdg_domain.specs.Shapes.{shape, IsSmall};
ghost use Rattle.xdg_terms.specs.Built as spec;

use crate::generators::generated;
use crate::parts::constant_place;
use crate::tuples::tuple_number;
use std::alloc::Global;
use xdg_ast::{Elem, ElemKind, Term, TermKind};
use xdg_base::OutOfMemory;
use xdg_domain::{SetOf, Ty};

/// The set of the constants or of the tuples that the term names.
#[tactic(auto, unfolding(crate::specs::Built::set_of))]
pub(crate) fn set(alloc: Global, ty: &Ty, term: &Term) -> Result<SetOf, OutOfMemory>
    requires { IsSmall (shape ty.now) }
    ensures { IfOk result (λ made. made ≡ spec.set_of (shape ty.now) term.now) }
{
    match &term.kind {
        TermKind::Braces(elems) => listed(alloc, ty, elems.as_slice()),
        TermKind::Gen(generator) => match ty {
            Ty::Tuple(_) => generated(alloc, ty, generator),
            _ => Ok(SetOf::none(alloc)),
        },
        _ => Ok(SetOf::none(alloc)),
    }
}

/// The set of what the elements name.
fn listed(alloc: Global, ty: &Ty, elems: &[Elem]) -> Result<SetOf, OutOfMemory>
    requires { IsSmall (shape ty.now) }
    ensures { IfOk result (λ made. made ≡ spec.as_set (spec.listed (shape ty.now) elems.now)) }
{
    let mut numbers = Vec::new(alloc);
    for elem in elems {
        match number_of(alloc, ty, elem)? {
            None => continue,
            Some(number) => numbers.push(number)?,
        }
    }
    SetOf::of(alloc, numbers.as_slice())
}

/// The number of the constant or of the tuple that the element names.
#[tactic(auto, unfolding(crate::specs::Built::number_of_elem))]
fn number_of(alloc: Global, ty: &Ty, elem: &Elem) -> Result<Option<u16>, OutOfMemory>
    requires { IsSmall (shape ty.now) }
    ensures { IfOk result (λ told. told ≡ spec.number_of_elem (shape ty.now) elem.now) }
{
    match (ty, &elem.kind) {
        (Ty::Domain(constants), ElemKind::Const(name)) => {
            match constant_place(constants.as_slice(), name.text.as_str()) {
                None => Ok(None),
                Some(place) => Ok(Some(u16::from(place))),
            }
        }
        (Ty::Tuple(_), ElemKind::Tuple(names)) => tuple_number(alloc, ty, names.as_slice()),
        _ => Ok(None),
    }
}
