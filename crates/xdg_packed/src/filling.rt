//! Values with their defaults.

ghost use Rattle.std.specs.Prelude.{◌≡◌, ◌↔◌, ◌+◌, ◌<◌, ◌≤◌, ℕ, map, None, IfOk, IfSome};
ghost use Rattle.std.specs.Option.{option_copied};
ghost use Rattle.std.specs.List.{range_with_len};
ghost use Rattle.xdg_domain.specs.Shapes.{shape, count, fields_of, IsDomain, IsType, AreTypes};
ghost use Rattle.xdg_domain.specs.Sized.{shape_of_field};
ghost use Rattle.xdg_domain.specs.Valencies.{said_at, KeysRise};
ghost use Rattle.xdg_domain.specs.Values.{IsValue};
ghost use Rattle.xdg_domain.specs.Defaults.{IsFilled, record_of_defaults, weight, most_parts};
ghost use Rattle.xdg_packed.specs.Filled as spec;
ghost use Rattle.xdg_domain.specs.Joined.{of_map};
ghost use Rattle.xdg_packed.specs.Filled.{Lacks, IsSaid, AreValuesOf, AreSaid};

use std::alloc::Global;
use xdg_base::{List, OutOfMemory, Text};
use xdg_domain::{CardMap, CardSet, Ty, Value, count, default_of, has_few_parts};

/// What a feature of this type holds of which this is said, with all defaults: a valency holds a cardinality for each key,
/// a map a value for each key and a record one for each field. None where nothing is said of a plain type, or of a plain
/// field of a record at any depth. The parts that its default would hold are counted first, those of plain fields with them:
/// above 16,777,216 the answer is want of memory, and none is taken.
pub fn fill(alloc: Global, ty: &Ty, said: Option<&Value>) -> Result<Option<Value>, OutOfMemory>
    requires right { IsType (shape ty.now) }
    requires said { IsSaid (shape ty.now) (option_copied said) }
    ensures filled { IfOk result (λ told. told ≡ spec.filled (shape ty.now) (option_copied said.entry)) }
    ensures lacks { IfOk result (λ told. (told ≡ None) ↔ Lacks (shape ty.now) (option_copied said.entry)) }
    ensures value { IfOk result (λ told. IfSome told (λ made. IsValue (shape ty.now) made × IsFilled (shape ty.now) made)) }
    ensures within { IfOk result (λ _. weight (shape ty.now) ≤ most_parts) }
{
    if !has_few_parts(ty) {
        return Err(OutOfMemory);
    }
    filled(alloc, ty, said)
}

/// The same of a feature whose default is small enough.
#[cycle(filled)]
fn filled(alloc: Global, ty: &Ty, said: Option<&Value>) -> Result<Option<Value>, OutOfMemory>
    requires right { IsType (shape ty.now) }
    requires said { IsSaid (shape ty.now) (option_copied said) }
    ensures { IfOk result (λ told. told ≡ spec.filled (shape ty.now) (option_copied said.entry)) }
{
    match ty {
        Ty::Valency(key) => {
            let all = filled_valency(alloc, keys(key.get()), said)?;
            Ok(Some(Value::Valency(all)))
        }
        Ty::Map(key, of) => filled_map(alloc, keys(key.get()), of.get(), said),
        Ty::Rec(types) => {
            let types = types.as_slice();
            let mut rest = fields_said(said);
            let mut all = List::new(alloc);
            for (i, field) in types.iter().enumerate() {
                let Ok(place) = u32::try_from(i) else {
                    return Err(OutOfMemory);
                };
                let (here, later) = taken(rest, place);
                match filled(alloc, &field.1, here)? {
                    None => return Ok(None),
                    Some(value) => all.push((place, value))?,
                }
                rest = later;
            }
            Ok(Some(Value::Rec(all)))
        }
        Ty::Domain(_) => said_or_default(alloc, ty, said),
        Ty::Tuple(_) => said_or_default(alloc, ty, said),
        Ty::Bool => said_or_default(alloc, ty, said),
        Ty::Int => said_or_default(alloc, ty, said),
        Ty::Str => said_or_default(alloc, ty, said),
        Ty::Set(_) => said_or_default(alloc, ty, said),
        Ty::ISet(_) => said_or_default(alloc, ty, said),
        Ty::Card => said_or_default(alloc, ty, said),
    }
}

/// What is said, or the default.
fn said_or_default(
    alloc: Global,
    ty: &Ty,
    said: Option<&Value>,
) -> Result<Option<Value>, OutOfMemory>
    requires { IsType (shape ty.now) }
    ensures { IfOk result (λ told. told ≡ spec.or_default (shape ty.now) (option_copied said.entry)) }
{
    match said {
        None => default_of(alloc, ty),
        Some(value) => Ok(Some(value.copy(alloc)?)),
    }
}

/// What is said of each key, or the number 0 alone.
fn filled_valency(alloc: Global, keys: u8, said: Option<&Value>) -> Result<CardMap, OutOfMemory>
    ensures { IfOk result (λ made. made ≡ spec.filled_cards keys (spec.cards_said (option_copied said.entry))) }
{
    let mut all = CardMap::none(alloc);
    for key in 0..keys {
        all.add(key, cards_of(said, key))?;
    }
    Ok(all)
}

/// What is said of a key of a valency, or the number 0 alone.
fn cards_of(said: Option<&Value>, key: u8) -> CardSet
    ensures { result ≡ spec.or_zero (said_at (spec.cards_said (option_copied said.entry)) key) }
{
    if let Some(Value::Valency(map)) = said {
        match map.get(key) {
            Some(cards) => cards,
            None => CardSet::one(0),
        }
    } else {
        CardSet::one(0)
    }
}

/// The values of a map for each key below the bound.
#[cycle(filled)]
fn filled_map(
    alloc: Global,
    keys: u8,
    of: &Ty,
    said: Option<&Value>,
) -> Result<Option<Value>, OutOfMemory>
    requires right { IsType (shape of.now) }
    requires said { AreValuesOf (shape of.now) (spec.keys_said (option_copied said)) }
    ensures { IfOk result
        (λ told. told
        ≡ of_map (spec.each_key (λ key. spec.filled (shape of.now) (said_at (spec.keys_said (option_copied said.entry)) key)) (range_with_len 0 keys))) }
{
    let entries = keys_said(said);
    let mut all = List::new(alloc);
    for key in 0..keys {
        match filled(alloc, of, value_for(entries, key))? {
            None => return Ok(None),
            Some(value) => all.push((key, value))?,
        }
    }
    Ok(Some(Value::Map(all)))
}

/// What is said of the keys of a map.
fn keys_said(said: Option<&Value>) -> &[(u8, Value)]
    ensures { result.now ≡ spec.keys_said (option_copied said.entry) }
{
    match said {
        Some(Value::Map(entries)) => entries.as_slice(),
        _ => &[],
    }
}

/// What is said of the fields of a record.
fn fields_said(said: Option<&Value>) -> &[(u32, Value)]
    ensures { result.now ≡ spec.fields_said (option_copied said.entry) }
{
    match said {
        Some(Value::Rec(entries)) => entries.as_slice(),
        _ => &[],
    }
}

/// What is said of a key.
fn value_for(entries: &[(u8, Value)], key: u8) -> Option<&Value>
    ensures { option_copied result ≡ said_at entries.now key }
{
    for entry in entries {
        if entry.0 == key {
            return Some(&entry.1);
        }
    }
    None
}

/// What stands at the front of what is said for the field with that place, and what is said of later ones.
pub fn taken(said: &[(u32, Value)], place: u32) -> (Option<&Value>, &[(u32, Value)])
    requires { KeysRise place said.now }
    ensures here { option_copied result.0 ≡ said_at said.now place }
    ensures rises { KeysRise (place + 1) result.1.now }
    ensures later { (key : ℕ) → place < key → said_at result.1.now key ≡ said_at said.now key }
{
    let Some((first, more)) = said.split_first() else {
        return (None, said);
    };
    if first.0 == place {
        return (Some(&first.1), more);
    }
    (None, said)
}

/// How many constants a domain has.
fn keys(ty: &Ty) -> u8
    requires { IsDomain (shape ty.now) }
    ensures { result ≡ count (shape ty.now) }
{
    count(ty) as u8
}
