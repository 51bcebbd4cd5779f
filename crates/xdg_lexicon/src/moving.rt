//! Joins of partial entries that are given away: of a dimension of which one alone says something its record is moved, and not copied.

ghost use Rattle.std.specs.Prelude.{IfOk, MatchOption};
ghost use Rattle.xdg_domain.specs.Joined.{fields_in};
ghost use Rattle.xdg_domain.specs.Joins.{SaysBoth, JoinsField, OnSome, ClashesField};
ghost use Rattle.xdg_lexicon.specs.Partial.{IsRecord, IsPartial, PartialsJoin, PartialsClash};

use crate::entries::Partial;
use crate::lists::turn;
use crate::taking::join_taken;
use std::alloc::Global;
use xdg_base::{List, OutOfMemory, Text};
use xdg_domain::{Fields, Ty};
use xdg_types::DimType;

/// What two records say together. None where they clash.
fn join_moved(
    alloc: Global,
    fields: &[(Text, Ty)],
    one: Fields,
    other: Fields,
) -> Result<Option<Fields>, OutOfMemory>
    requires one { IsRecord (fields_in fields.now) one }
    requires other { IsRecord (fields_in fields.now) other }
    ensures { IfOk result (λ told. MatchOption told
        (OnSome (ClashesField (fields_in fields.now)) one other)
        (λ made. SaysBoth (JoinsField (fields_in fields.now)) one other made × IsRecord (fields_in fields.now) made)) }
{
    if one.is_empty() {
        return Ok(Some(other));
    }
    if other.is_empty() {
        return Ok(Some(one));
    }
    join_taken(alloc, fields, one, other)
}

/// What two partial entries say together, joined from the last dimension to the first. None where they clash in a feature of
/// some dimension.
pub(crate) fn join_two(
    alloc: Global,
    dims: &[DimType],
    one: Partial,
    other: Partial,
) -> Result<Option<Partial>, OutOfMemory>
    requires one { IsPartial dims.now one }
    requires other { IsPartial dims.now other }
    ensures { IfOk result (λ told. MatchOption told
        (PartialsClash dims.now one other)
        (λ made. PartialsJoin dims.now one other made × IsPartial dims.now made)) }
{
    let mut one = one;
    let mut other = other;
    let mut made = List::with_room(alloc, dims.len())?;
    while let Some(mine) = one.pop() {
        let Some(theirs) = other.pop() else {
            unreachable!()
        };
        let place = one.len();
        let dim = &dims[place];
        match join_moved(alloc, dim.fields.as_slice(), mine, theirs)? {
            None => return Ok(None),
            Some(both) => made.push(both)?,
        }
    }
    turn(&mut made, &mut one)?;
    Ok(Some(one))
}
