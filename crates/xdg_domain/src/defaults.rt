//! What a feature holds of which nothing is said.

ghost use Rattle.std.specs.Prelude.{◌≡◌, ◌↔◌, IsTrue, ℕ, ◌-◌, ◌^◌, ◌<◌, ◌≤◌, [], ◌∷◌, map, min, IfOk};
ghost use Rattle.xdg_domain.specs.Shapes.{shape, fields_of, count, IsDomain, IsType, IsMapped, AreTypes};
ghost use Rattle.xdg_domain.specs.Sized.{shape_of_field};
ghost use Rattle.xdg_domain.specs.Defaults.{default, defaults, for_each_key, map_of_default, record_of_defaults, weight, weights, most_parts};

use crate::cards::CardSet;
use crate::sets::SetOf;
use crate::tuples::{count, members};
use crate::types::Ty;
use crate::valencies::CardMap;
use crate::values::Value;
use std::alloc::Global;
use xdg_base::{List, OutOfMemory, Text};

/// How many parts a default may have.
const MOST_PARTS: u64 = 16_777_216;

/// What a value of the type holds where nothing is said: the empty set of a set, the full set of an
/// iset, all numbers of a cardinality, the number 0 alone for each key of a valency, the default of
/// the values for each key of a map, and the defaults of the fields of a record. None for the plain
/// types, which are domains, tuples, bool, int and string, and for a record with a plain field at
/// any depth. The parts that it would hold are counted first: above 16,777,216 the answer is
/// want of memory, and none is taken.
pub fn default_of(alloc: Global, ty: &Ty) -> Result<Option<Value>, OutOfMemory>
    requires { IsType (shape ty.now) }
    ensures value { IfOk result (λ told. told ≡ default (shape ty.now)) }
    ensures within { IfOk result (λ _. weight (shape ty.now) ≤ most_parts) }
{
    if !has_few_parts(ty) {
        return Err(OutOfMemory);
    }
    made(alloc, ty)
}

/// Whether the default of a type would hold at most 16,777,216 parts. The time is linear in the type.
pub fn has_few_parts(ty: &Ty) -> bool
    ensures { IsTrue result ↔ (weight (shape ty.now) ≤ most_parts) }
{
    parts(ty) <= MOST_PARTS
}

/// How many parts the default of a type holds, with itself, a count that stops at the greatest u64.
#[cycle(parts)]
fn parts(ty: &Ty) -> u64
    ensures { result ≡ min (weight (shape ty.now)) (2 ^ 64 - 1) }
{
    match ty {
        Ty::ISet(of) => members(of.get()).saturating_add(1),
        Ty::Valency(key) => members(key.get()).saturating_add(1),
        Ty::Map(key, of) => members(key.get())
            .saturating_mul(parts(of.get()))
            .saturating_add(1),
        Ty::Rec(fields) => field_parts(fields.as_slice()).saturating_add(1),
        _ => 1,
    }
}

/// The same of all these fields together.
#[cycle(parts)]
fn field_parts(fields: &[(Text, Ty)]) -> u64
    ensures { result ≡ min (weights (fields_of (map shape_of_field fields.now))) (2 ^ 64 - 1) }
{
    let mut sum = 0u64;
    for field in fields {
        sum = sum.saturating_add(parts(&field.1));
    }
    sum
}

/// The default, if the type has one.
#[cycle(made)]
fn made(alloc: Global, ty: &Ty) -> Result<Option<Value>, OutOfMemory>
    requires { IsType (shape ty.now) }
    ensures { IfOk result (λ told. told ≡ default (shape ty.now)) }
{
    match ty {
        Ty::Set(_) => Ok(Some(Value::Set(SetOf::none(alloc)))),
        Ty::ISet(of) => Ok(Some(Value::Set(SetOf::full(alloc, count(of.get()))?))),
        Ty::Card => Ok(Some(Value::Card(CardSet::all()))),
        Ty::Valency(key) => Ok(Some(Value::Valency(zeros(alloc, keys(key.get()))?))),
        Ty::Map(key, of) => made_map(alloc, keys(key.get()), of.get()),
        Ty::Rec(fields) => made_record(alloc, fields.as_slice()),
        _ => Ok(None),
    }
}

/// The map that holds the default of the values for each key below the bound.
#[cycle(made)]
fn made_map(alloc: Global, keys: u8, of: &Ty) -> Result<Option<Value>, OutOfMemory>
    requires mapped { IsMapped (shape of.now) }
    requires right { IsType (shape of.now) }
    ensures { IfOk result (λ told. told ≡ map_of_default keys (default (shape of.now))) }
{
    let mut all = List::new(alloc);
    for key in 0..keys {
        match made(alloc, of)? {
            None => return Ok(None),
            Some(value) => all.push((key, value))?,
        }
    }
    Ok(Some(Value::Map(all)))
}

/// The record that holds the defaults of the fields, if each has one.
#[cycle(made)]
fn made_record(alloc: Global, fields: &[(Text, Ty)]) -> Result<Option<Value>, OutOfMemory>
    requires { AreTypes (fields_of (map shape_of_field fields.now)) }
    ensures { IfOk result (λ told. told ≡ record_of_defaults (defaults 0 (fields_of (map shape_of_field fields.now)))) }
{
    let mut all = List::new(alloc);
    for (i, field) in fields.iter().enumerate() {
        let Ok(place) = u32::try_from(i) else {
            return Err(OutOfMemory);
        };
        match made(alloc, &field.1)? {
            None => return Ok(None),
            Some(value) => all.push((place, value))?,
        }
    }
    Ok(Some(Value::Rec(all)))
}

/// How many constants a domain has.
fn keys(ty: &Ty) -> u8
    requires { IsDomain (shape ty.now) }
    ensures { result ≡ count (shape ty.now) }
{
    members(ty) as u8
}

/// The number 0 alone for each key below the bound.
fn zeros(alloc: Global, keys: u8) -> Result<CardMap, OutOfMemory>
    ensures { IfOk result (λ made. made ≡ for_each_key keys (0 ∷ [])) }
{
    let mut map = CardMap::none(alloc);
    for key in 0..keys {
        map.add(key, CardSet::one(0))?;
    }
    Ok(map)
}
