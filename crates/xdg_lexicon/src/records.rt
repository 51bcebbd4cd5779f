//! What is said of the features of one dimension.

ghost use Rattle.std.specs.Prelude.{◌≡◌, ◌++◌, IfOk, OnOk, IfSome, MatchOption};
ghost use Rattle.std.specs.Option.{option_copied};
ghost use Rattle.xdg_domain.specs.Joined.{fields_in};
ghost use Rattle.xdg_domain.specs.Joins.{Both, SaysBoth, Joins, JoinsField, OnBoth, OnSome, Clashes, ClashesField};
ghost use Rattle.xdg_domain.specs.Shapes.{shape, IsType, AreTypes};
ghost use Rattle.xdg_domain.specs.Valencies.{said_at};
ghost use Rattle.xdg_domain.specs.Values.{IsValue};
ghost use Rattle.xdg_terms.specs.Answers.{IsRight};
ghost use Rattle.xdg_terms.specs.Means.{Means, Said, written_for};
ghost use Rattle.xdg_lexicon.specs.Made.{entry};
ghost use Rattle.xdg_lexicon.specs.Partial.{IsRecord, SaysFields, written};
ghost use Rattle.xdg_lexicon.specs.Right.{AreRight};

use std::alloc::Global;
use xdg_ast::{Pair, Term};
use xdg_base::{List, OutOfMemory, Stop, Text};
use xdg_domain::{Fields, Ty, Value, join};
use xdg_terms::{Bindings, value};

/// What is said of the feature with that place.
fn said(fields: &[(u32, Value)], key: u32) -> Option<&Value>
    ensures { option_copied result ≡ said_at fields.now key }
{
    for field in fields {
        if field.0 == key {
            return Some(&field.1);
        }
    }
    None
}

/// Adds what is said of the feature with that place, if anything is.
pub(crate) fn add(made: &mut Fields, key: u32, said: Option<Value>) -> Result<(), OutOfMemory>
    ensures { OnOk result (made.new ≡ made.old ++ entry key said) }
{
    match said {
        None => Ok(()),
        Some(value) => made.push((key, value)),
    }
}

/// What two say of a feature together. None where they clash.
fn join_said(
    alloc: Global,
    ty: &Ty,
    one: Option<&Value>,
    other: Option<&Value>,
) -> Result<Option<Option<Value>>, OutOfMemory>
    requires one { IfSome (option_copied one) (IsValue (shape ty.now)) }
    requires other { IfSome (option_copied other) (IsValue (shape ty.now)) }
    ensures joins { IfOk result (λ told. MatchOption told
        (OnBoth (Clashes (shape ty.now)) (option_copied one.entry) (option_copied other.entry))
        (λ said. Both (Joins (shape ty.now)) (option_copied one.entry) (option_copied other.entry) said × IfSome said (IsValue (shape ty.now)))) }
{
    match (one, other) {
        (None, None) => Ok(Some(None)),
        (None, Some(y)) => Ok(Some(Some(y.copy(alloc)?))),
        (Some(x), None) => Ok(Some(Some(x.copy(alloc)?))),
        (Some(x), Some(y)) => match join(alloc, ty, x, y)? {
            None => Ok(None),
            Some(z) => Ok(Some(Some(z))),
        },
    }
}

/// What two records say together, feature by feature. None where they clash. The time is linear in the product of the
/// number of features and of those that are said.
pub(crate) fn join_records(
    alloc: Global,
    fields: &[(Text, Ty)],
    one: &[(u32, Value)],
    other: &[(u32, Value)],
) -> Result<Option<Fields>, OutOfMemory>
    requires one { IsRecord (fields_in fields.now) one.now }
    requires other { IsRecord (fields_in fields.now) other.now }
    ensures { IfOk result (λ told. MatchOption told
        (OnSome (ClashesField (fields_in fields.now)) one.now other.now)
        (λ made. SaysBoth (JoinsField (fields_in fields.now)) one.now other.now made × IsRecord (fields_in fields.now) made)) }
{
    let mut made = List::new(alloc);
    for (place, field) in fields.iter().enumerate() {
        let Ok(key) = u32::try_from(place) else {
            return Err(OutOfMemory);
        };
        match join_said(alloc, &field.1, said(one, key), said(other, key))? {
            None => return Ok(None),
            Some(both) => add(&mut made, key, both)?,
        }
    }
    Ok(Some(made))
}

/// The term that stands under the name first.
fn term_for<'a>(pairs: &'a [Pair<Term>], name: &str) -> Option<&'a Term>
    ensures { option_copied result ≡ written_for (written pairs.now) name.now }
{
    for pair in pairs {
        if pair.key.text.as_str() == name {
            return Some(&pair.value);
        }
    }
    None
}

/// What is said of a feature where this is written, by a term with which nothing is wrong.
fn value_of(
    alloc: Global,
    ty: &Ty,
    term: Option<&Term>,
    bindings: &Bindings,
) -> Result<Option<Value>, OutOfMemory>
    requires typed { IsType (shape ty.now) }
    requires right { IfSome (option_copied term) (IsRight bindings.now (shape ty.now)) }
    ensures { IfOk result (λ told. Said (Means bindings.now (shape ty.now)) (option_copied term.entry) told × IfSome told (IsValue (shape ty.now))) }
{
    match term {
        None => Ok(None),
        Some(term) => match value(alloc, ty, term, bindings) {
            Ok(made) => Ok(Some(made)),
            Err(Stop::OutOfMemory) => Err(OutOfMemory),
            Err(Stop::Fault(_)) => unreachable!(),
        },
    }
}

/// What the pairs say of the features, by terms with which nothing is wrong.
pub(crate) fn read_record(
    alloc: Global,
    fields: &[(Text, Ty)],
    pairs: &[Pair<Term>],
    bindings: &Bindings,
) -> Result<Fields, OutOfMemory>
    requires typed { AreTypes (fields_in fields.now) }
    requires right { AreRight bindings.now fields.now pairs.now }
    ensures { IfOk result (λ made. SaysFields bindings.now (fields_in fields.now) pairs.now made × IsRecord (fields_in fields.now) made) }
{
    let mut made = List::with_room(alloc, pairs.len())?;
    for (place, field) in fields.iter().enumerate() {
        let Ok(key) = u32::try_from(place) else {
            return Err(OutOfMemory);
        };
        let told = value_of(alloc, &field.1, term_for(pairs, field.0.as_str()), bindings)?;
        add(&mut made, key, told)?;
    }
    Ok(made)
}
