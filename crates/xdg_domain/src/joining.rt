//! What two values of a type say together.

ghost use Rattle.std.specs.Prelude.{◌≡◌, IfOk, IfSome, MatchOption};
ghost use Rattle.xdg_domain.specs.Shapes.{Shape, shape};
ghost use Rattle.xdg_domain.specs.Values.{IsValue};
ghost use Rattle.xdg_domain.specs.Joins.{Joins, Clashes, JoinLaws};
ghost use Rattle.xdg_domain.specs.Joined.{either, both, allowed, merged, same_list, joined, joined_field, fields_in};

use crate::cards::CardSet;
use crate::copying::{add_entries, add_fields};
use crate::sets::SetOf;
use crate::types::Ty;
use crate::valencies::CardMap;
use crate::values::{Fields, Value, ValueMap};
use std::alloc::Global;
use xdg_base::{List, OutOfMemory, Text};

/// What two values of a type say together, in a value of its own: of two plain values the same
/// value, of sets the union or the intersection, as their type says, of cardinalities the numbers
/// that both allow, and of valencies, maps and records this key by key, where what one alone says
/// of a key stays. None where they clash: two plain values differ, or two cardinalities allow no
/// number in common. The time is linear in the two values. The error is want of memory.
pub fn join(
    alloc: Global,
    ty: &Ty,
    one: &Value,
    other: &Value,
) -> Result<Option<Value>, OutOfMemory>
    requires one { IsValue (shape ty.now) one.now }
    requires other { IsValue (shape ty.now) other.now }
    ensures joins { IfOk result (λ told. MatchOption told (Clashes (shape ty.now) one.now other.now) (λ value. Joins (shape ty.now) one.now other.now value)) }
    ensures value { IfOk result (λ told. IfSome told (λ value. IsValue (shape ty.now) value)) }
{
    Ok(join_values(alloc, ty, one, other)?)
}

/// A law, and nothing to run: two values of a type have exactly one join, or they clash; it commutes and associates. So what
/// many values say together is one value, in whatever order they are joined. Joins are those of feature structures, whose
/// conjunction is their least upper bound.
pub fn join_laws()
    ensures { (s : Shape) → JoinLaws s }
{}

/// The same as [`join`] for values of the type; None for values of another form. A row of the table of types is an arm.
#[cycle(join)]
pub(crate) fn join_values(
    alloc: Global,
    ty: &Ty,
    one: &Value,
    other: &Value,
) -> Result<Option<Value>, OutOfMemory>
    ensures { IfOk result (λ told. told ≡ joined (shape ty.now) one.now other.now) }
{
    match (ty, one, other) {
        (Ty::Domain(_), Value::Const(mine), Value::Const(theirs)) => {
            if mine == theirs {
                Ok(Some(Value::Const(*mine)))
            } else {
                Ok(None)
            }
        }
        (Ty::Tuple(_), Value::Tuple(mine), Value::Tuple(theirs)) => {
            if mine == theirs {
                Ok(Some(Value::Tuple(*mine)))
            } else {
                Ok(None)
            }
        }
        (Ty::Bool, Value::Bool(mine), Value::Bool(theirs)) => {
            if mine == theirs {
                Ok(Some(Value::Bool(*mine)))
            } else {
                Ok(None)
            }
        }
        (Ty::Int, Value::Int(mine), Value::Int(theirs)) => {
            if mine == theirs {
                Ok(Some(Value::Int(*mine)))
            } else {
                Ok(None)
            }
        }
        (Ty::Str, Value::Str(mine), Value::Str(theirs)) => {
            if is_same(mine, theirs) {
                Ok(Some(Value::Str(mine.copy(alloc)?)))
            } else {
                Ok(None)
            }
        }
        (Ty::Set(_), Value::Set(mine), Value::Set(theirs)) => {
            Ok(Some(Value::Set(in_either(alloc, mine, theirs)?)))
        }
        (Ty::ISet(_), Value::Set(mine), Value::Set(theirs)) => {
            Ok(Some(Value::Set(in_both(alloc, mine, theirs)?)))
        }
        (Ty::Card, Value::Card(mine), Value::Card(theirs)) => match allowed(mine, theirs) {
            None => Ok(None),
            Some(cards) => Ok(Some(Value::Card(cards))),
        },
        (Ty::Valency(_), Value::Valency(mine), Value::Valency(theirs)) => {
            match join_valencies(alloc, mine, theirs)? {
                None => Ok(None),
                Some(said) => Ok(Some(Value::Valency(said))),
            }
        }
        (Ty::Map(_, of), Value::Map(mine), Value::Map(theirs)) => {
            match join_entries(alloc, of.get(), mine.as_slice(), theirs.as_slice())? {
                None => Ok(None),
                Some(said) => Ok(Some(Value::Map(said))),
            }
        }
        (Ty::Rec(types), Value::Rec(mine), Value::Rec(theirs)) => {
            match join_fields(alloc, types.as_slice(), mine.as_slice(), theirs.as_slice())? {
                None => Ok(None),
                Some(said) => Ok(Some(Value::Rec(said))),
            }
        }
        _ => Ok(None),
    }
}

#[cycle(join)]
fn join_entries(
    alloc: Global,
    ty: &Ty,
    mine: &[(u8, Value)],
    theirs: &[(u8, Value)],
) -> Result<Option<ValueMap>, OutOfMemory>
    ensures { IfOk result (λ told. told ≡ merged (λ key. joined (shape ty.now)) mine.now theirs.now) }
{
    let mut made = List::new(alloc);
    let mut i = 0;
    let mut j = 0;
    while i < mine.len() && j < theirs.len() {
        let x = &mine[i];
        let y = &theirs[j];
        if x.0 < y.0 {
            made.push((x.0, x.1.copy(alloc)?))?;
            i += 1;
        } else if y.0 < x.0 {
            made.push((y.0, y.1.copy(alloc)?))?;
            j += 1;
        } else {
            match join_values(alloc, ty, &x.1, &y.1)? {
                None => return Ok(None),
                Some(value) => {
                    made.push((x.0, value))?;
                    i += 1;
                    j += 1;
                }
            }
        }
    }
    let (_, later) = mine.split_at(i);
    add_entries(alloc, later, &mut made)?;
    let (_, more) = theirs.split_at(j);
    add_entries(alloc, more, &mut made)?;
    Ok(Some(made))
}

#[cycle(join)]
fn join_fields(
    alloc: Global,
    types: &[(Text, Ty)],
    mine: &[(u32, Value)],
    theirs: &[(u32, Value)],
) -> Result<Option<Fields>, OutOfMemory>
    ensures { IfOk result (λ told. told ≡ merged (joined_field (fields_in types.now)) mine.now theirs.now) }
{
    let mut made = List::new(alloc);
    let mut i = 0;
    let mut j = 0;
    while i < mine.len() && j < theirs.len() {
        let x = &mine[i];
        let y = &theirs[j];
        if x.0 < y.0 {
            made.push((x.0, x.1.copy(alloc)?))?;
            i += 1;
        } else if y.0 < x.0 {
            made.push((y.0, y.1.copy(alloc)?))?;
            j += 1;
        } else {
            match join_field(alloc, types, x.0, &x.1, &y.1)? {
                None => return Ok(None),
                Some(value) => {
                    made.push((x.0, value))?;
                    i += 1;
                    j += 1;
                }
            }
        }
    }
    let (_, later) = mine.split_at(i);
    add_fields(alloc, later, &mut made)?;
    let (_, more) = theirs.split_at(j);
    add_fields(alloc, more, &mut made)?;
    Ok(Some(made))
}

#[cycle(join)]
fn join_field(
    alloc: Global,
    types: &[(Text, Ty)],
    place: u32,
    one: &Value,
    other: &Value,
) -> Result<Option<Value>, OutOfMemory>
    ensures { IfOk result (λ told. told ≡ joined_field (fields_in types.now) place one.now other.now) }
{
    let at = place as usize;
    if at >= types.len() {
        return Ok(None);
    }
    join_values(alloc, &types[at].1, one, other)
}

// Whether two texts are the same.
fn is_same(one: &Text, other: &Text) -> bool
    ensures { result ≡ same_list one.now other.now }
{
    one.as_str() == other.as_str()
}

// The members of either set.
fn in_either(alloc: Global, one: &SetOf, other: &SetOf) -> Result<SetOf, OutOfMemory>
    ensures { IfOk result (λ made. made ≡ either one.now other.now) }
{
    one.union(alloc, other)
}

// The members of both sets.
fn in_both(alloc: Global, one: &SetOf, other: &SetOf) -> Result<SetOf, OutOfMemory>
    ensures { IfOk result (λ made. made ≡ both one.now other.now) }
{
    one.meet(alloc, other)
}

// The numbers that both allow, where there is one.
fn allowed(one: &CardSet, other: &CardSet) -> Option<CardSet>
    ensures { result ≡ allowed one.now other.now }
{
    one.meet(other)
}

// What both allow, key by key.
fn join_valencies(
    alloc: Global,
    one: &CardMap,
    other: &CardMap,
) -> Result<Option<CardMap>, OutOfMemory>
    ensures { IfOk result (λ told. told ≡ merged (λ key. allowed) one.now other.now) }
{
    one.rises();
    other.rises();
    match one.join(alloc, other)? {
        None => Ok(None),
        Some(made) => {
            made.rises();
            Ok(Some(made))
        }
    }
}
