//! Joins of records that are given away, from the last feature to the first: what one alone says of a feature is moved, and not copied.

ghost use Rattle.std.specs.Prelude.{◌≡◌, ◌+◌, ◌<◌, ℕ, true, false, IfOk, IfSome, MatchOption};
ghost use Rattle.xdg_domain.specs.Joined.{fields_in};
ghost use Rattle.xdg_domain.specs.Joins.{Both, SaysBoth, Joins, JoinsField, OnBoth, OnSome, Clashes, ClashesField};
ghost use Rattle.xdg_domain.specs.Keys.{KeysBelow};
ghost use Rattle.xdg_domain.specs.Shapes.{shape};
ghost use Rattle.xdg_domain.specs.Valencies.{said_at, KeysRise};
ghost use Rattle.xdg_domain.specs.Values.{IsValue};
ghost use Rattle.xdg_lexicon.specs.Partial.{IsRecord};
ghost use Rattle.xdg_lexicon.specs.Made.{EndsAt};

use crate::lists::turn;
use crate::records::add;
use std::alloc::Global;
use xdg_base::{List, OutOfMemory, Text};
use xdg_domain::{Fields, Ty, Value, join};

/// Whether the last that is said is said of the feature with that place.
fn is_last(said: &[(u32, Value)], key: u32) -> bool
    ensures last { result ≡ true → EndsAt said.now key }
    ensures others { result ≡ false → KeysRise 0 said.now → KeysBelow (key + 1) said.now → KeysBelow key said.now }
{
    match said.split_last() {
        None => false,
        Some((last, _)) => last.0 == key,
    }
}

/// Takes what is said of the feature with that place, if anything is, where nothing is said of later ones.
fn take_last(said: &mut Fields, key: u32) -> Option<Value>
    requires rises { KeysRise 0 said.old }
    requires below { KeysBelow (key + 1) said.old }
    ensures here { result ≡ said_at said.old key }
    ensures front { (other : ℕ) → other < key → said_at said.new other ≡ said_at said.old other }
    ensures rises { KeysRise 0 said.new }
    ensures below { KeysBelow key said.new }
{
    if !is_last(said.as_slice(), key) {
        return None;
    }
    match said.pop() {
        None => None,
        Some(entry) => Some(entry.1),
    }
}

/// What two say of a feature together. None where they clash.
fn join_values(
    alloc: Global,
    ty: &Ty,
    one: Option<Value>,
    other: Option<Value>,
) -> Result<Option<Option<Value>>, OutOfMemory>
    requires one { IfSome one (IsValue (shape ty.now)) }
    requires other { IfSome other (IsValue (shape ty.now)) }
    ensures joins { IfOk result (λ told. MatchOption told
        (OnBoth (Clashes (shape ty.now)) one other)
        (λ said. Both (Joins (shape ty.now)) one other said × IfSome said (IsValue (shape ty.now)))) }
{
    let Some(x) = one else {
        return Ok(Some(other));
    };
    let Some(y) = other else {
        return Ok(Some(Some(x)));
    };
    match join(alloc, ty, &x, &y)? {
        None => Ok(None),
        Some(z) => Ok(Some(Some(z))),
    }
}

/// What two records say together, feature by feature. None where they clash.
pub(crate) fn join_taken(
    alloc: Global,
    fields: &[(Text, Ty)],
    one: Fields,
    other: Fields,
) -> Result<Option<Fields>, OutOfMemory>
    requires one { IsRecord (fields_in fields.now) one }
    requires other { IsRecord (fields_in fields.now) other }
    ensures { IfOk result (λ told. MatchOption told
        (OnSome (ClashesField (fields_in fields.now)) one other)
        (λ made. SaysBoth (JoinsField (fields_in fields.now)) one other made × IsRecord (fields_in fields.now) made)) }
{
    let mut one = one;
    let mut other = other;
    let mut made = List::with_room(alloc, fields.len())?;
    let mut left = fields.len();
    while left > 0 {
        let place = left - 1;
        let Ok(key) = u32::try_from(place) else {
            return Err(OutOfMemory);
        };
        let mine = take_last(&mut one, key);
        let theirs = take_last(&mut other, key);
        let field = &fields[place];
        match join_values(alloc, &field.1, mine, theirs)? {
            None => return Ok(None),
            Some(both) => add(&mut made, key, both)?,
        }
        left = place;
    }
    let mut whole = List::with_room(alloc, made.len())?;
    turn(&mut made, &mut whole)?;
    Ok(Some(whole))
}
