//! The values of terms.

ghost use Rattle.std.specs.Prelude.{◌≡◌, ◌≤◌, length, IfOk};
ghost use Rattle.xdg_domain.specs.Shapes.{shape, IsType, AreTypes};
ghost use Rattle.xdg_domain.specs.Values.{IsValue, EachSaid};
ghost use Rattle.xdg_terms.specs.Answers.{IsRight};
ghost use Rattle.xdg_terms.specs.Fitting.{Fits, FitsField};
ghost use Rattle.xdg_terms.specs.Forms.{keyed_elem, bound};
ghost use Rattle.xdg_terms.specs.Means.{Means};
ghost use Rattle.xdg_domain.specs.Joined.{fields_in};
ghost use Rattle.xdg_terms.specs.Built as spec;

use crate::forms::{Bindings, bound};
use crate::parts::{elems, term_for};
use crate::plain::{card, member, number, text, truth, tuple, valency};
use crate::set_values::set;
use std::alloc::Global;
use xdg_ast::{Elem, Term};
use xdg_base::{List, OutOfMemory, Text};
use xdg_domain::{Fields, Ty, Value, ValueMap};

/// The value of a term that has no offence.
pub(crate) fn build(
    alloc: Global,
    ty: &Ty,
    term: &Term,
    bindings: &Bindings,
) -> Result<Value, OutOfMemory>
    requires is_type { IsType (shape ty.now) }
    requires right { IsRight bindings.now (shape ty.now) term.now }
    ensures means { IfOk result (λ value. Means bindings.now (shape ty.now) term.now value) }
    ensures value { IfOk result (λ value. IsValue (shape ty.now) value) }
{
    value_of(alloc, ty, term, bindings)
}

/// The value of a term, and some value where it has an offence.
#[cycle(build)]
fn value_of(alloc: Global, ty: &Ty, term: &Term, bindings: &Bindings) -> Result<Value, OutOfMemory>
    requires { IsType (shape ty.now) }
    ensures value { IfOk result (λ value. value ≡ spec.built bindings.now (shape ty.now) term.now) }
    ensures fits { IfOk result (λ value. Fits (shape ty.now) value) }
{
    let term = bound(bindings.as_slice(), term);
    match ty {
        Ty::Domain(constants) => Ok(Value::Const(member(constants.as_slice(), term))),
        Ty::Tuple(_) => Ok(Value::Tuple(tuple(alloc, ty, term)?)),
        Ty::Bool => Ok(Value::Bool(truth(term))),
        Ty::Int => Ok(Value::Int(number(term))),
        Ty::Str => Ok(Value::Str(text(alloc, term)?)),
        Ty::Set(of) => Ok(Value::Set(set(alloc, of.get(), term)?)),
        Ty::ISet(of) => Ok(Value::Set(set(alloc, of.get(), term)?)),
        Ty::Card => Ok(Value::Card(card(term))),
        Ty::Valency(key) => Ok(Value::Valency(valency(alloc, key.get().constants(), elems(term))?)),
        Ty::Map(key, of) => Ok(Value::Map(by_key(
            alloc,
            key.get().constants(),
            of.get(),
            elems(term),
            bindings,
        )?)),
        Ty::Rec(fields) => Ok(Value::Rec(by_field(
            alloc,
            fields.as_slice(),
            elems(term),
            bindings,
        )?)),
    }
}

/// What the elements say of each of these keys.
#[cycle(build)]
fn by_key(
    alloc: Global,
    constants: &[Text],
    of: &Ty,
    elems: &[Elem],
    bindings: &Bindings,
) -> Result<ValueMap, OutOfMemory>
    requires few { length constants.now ≤ 64 }
    requires is_type { IsType (shape of.now) }
    ensures { IfOk result
        (λ made. made ≡ spec.said_from (λ written. spec.built bindings.now (shape of.now) written) (spec.first_for keyed_elem elems.now) 0 constants.now) }
{
    let mut made = List::new(alloc);
    for (key, constant) in constants.iter().enumerate() {
        match term_for(elems, constant.as_str()) {
            None => continue,
            Some(term) => made.push((key as u8, value_of(alloc, of, term, bindings)?))?,
        }
    }
    Ok(made)
}

/// What the elements say of each of these fields.
#[cycle(build)]
fn by_field(
    alloc: Global,
    fields: &[(Text, Ty)],
    elems: &[Elem],
    bindings: &Bindings,
) -> Result<Fields, OutOfMemory>
    requires { AreTypes (fields_in fields.now) }
    ensures value { IfOk result (λ made. made ≡ spec.fields_from bindings.now (fields_in fields.now) elems.now 0) }
    ensures fits { IfOk result (λ made. EachSaid (FitsField (fields_in fields.now)) made) }
{
    let mut made = List::new(alloc);
    for (place, field) in fields.iter().enumerate() {
        match term_for(elems, field.0.as_str()) {
            None => continue,
            Some(term) => {
                let Ok(key) = u32::try_from(place) else {
                    return Err(OutOfMemory);
                };
                made.push((key, value_of(alloc, &field.1, term, bindings)?))?;
            }
        }
    }
    Ok(made)
}
