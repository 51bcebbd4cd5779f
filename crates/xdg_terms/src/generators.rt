//! The tuples that a generator tells.

ghost use Rattle.std.specs.Prelude.{◌≡◌, IfOk};
ghost use Rattle.std.specs.List.{list_any, list_all};
ghost use Rattle.xdg_base.specs.Texts.{has_text};
ghost use Rattle.xdg_domain.specs.Shapes.{shape, IsTupleType};
ghost use Rattle.xdg_domain.specs.Sized.{sizes_of};
ghost use Rattle.xdg_domain.specs.Tuples.{InRange};
ghost use Rattle.xdg_terms.specs.Built as spec;
ghost use Rattle.xdg_terms.specs.Means.{chosen, fulfils};

use crate::parts::fields;
use std::alloc::Global;
use xdg_ast::{Gen, GenKind};
use xdg_base::OutOfMemory;
use xdg_domain::{SetOf, Tuple, Ty, count, tuple_of};

/// The tuples of the type that have what the generator asks for.
pub(crate) fn generated(alloc: Global, ty: &Ty, generator: &Gen) -> Result<SetOf, OutOfMemory>
    requires { IsTupleType (shape ty.now) }
    ensures { IfOk result (λ made. made ≡ spec.generated (shape ty.now) generator.now) }
{
    let fields = fields(ty);
    let count = count(ty);
    let mut numbers = Vec::new(alloc);
    for number in 0..count {
        if is_fulfilled(&generator.kind, fields, &tuple_of(ty, number)) {
            numbers.push(number)?;
        }
    }
    SetOf::of(alloc, numbers.as_slice())
}

/// Whether the tuple has what the generator asks for.
#[cycle(generators)]
fn is_fulfilled(generator: &GenKind, fields: &[Ty], tuple: &Tuple<'_>) -> bool
    requires { InRange (sizes_of fields.now) tuple.now }
    ensures { result ≡ fulfils (chosen (spec.constants_each fields.now) tuple.now) generator.now }
{
    match generator {
        GenKind::Const(name) => has_constant(fields, tuple, name.text.as_str()),
        GenKind::And(members) => are_all_fulfilled(members.as_slice(), fields, tuple),
        GenKind::Or(members) => is_some_fulfilled(members.as_slice(), fields, tuple),
    }
}

/// Whether the tuple has what each of these asks for.
#[cycle(generators)]
fn are_all_fulfilled(members: &[Gen], fields: &[Ty], tuple: &Tuple<'_>) -> bool
    requires { InRange (sizes_of fields.now) tuple.now }
    ensures { result ≡ list_all (λ member. fulfils (chosen (spec.constants_each fields.now) tuple.now) member.kind) members.now }
{
    for member in members {
        if !is_fulfilled(&member.kind, fields, tuple) {
            return false;
        }
    }
    true
}

/// Whether the tuple has what one of these asks for.
#[cycle(generators)]
fn is_some_fulfilled(members: &[Gen], fields: &[Ty], tuple: &Tuple<'_>) -> bool
    requires { InRange (sizes_of fields.now) tuple.now }
    ensures { result ≡ list_any (λ member. fulfils (chosen (spec.constants_each fields.now) tuple.now) member.kind) members.now }
{
    for member in members {
        if is_fulfilled(&member.kind, fields, tuple) {
            return true;
        }
    }
    false
}

/// Whether the tuple has the constant in some field.
fn has_constant(fields: &[Ty], tuple: &Tuple<'_>, name: &str) -> bool
    requires { InRange (sizes_of fields.now) tuple.now }
    ensures { result ≡ has_text (chosen (spec.constants_each fields.now) tuple.now) name.now }
{
    for (i, field) in fields.iter().enumerate() {
        let constants = field.constants();
        if constants[tuple.at(i) as usize].as_str() == name {
            return true;
        }
    }
    false
}
