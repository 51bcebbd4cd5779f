//! Comparing types up to their places.

ghost use Rattle.std.specs.Prelude.{◌≡◌, ◌↔◌, IsTrue, map};
ghost use Rattle.xdg_ast.specs.Same as bare;

use crate::comparing::names::{same_name, same_names};
use crate::names::Pair;
use crate::types::{TypeKind as Kind, TypeTerm};

/// Whether two types are the same.
#[cycle(types)]
pub(crate) fn same_type(one: &Kind, other: &Kind) -> bool
    ensures { IsTrue result ↔ (bare.bare_type one.now ≡ bare.bare_type other.now) }
{
    match (one, other) {
        (Kind::Empty, Kind::Empty) => true,
        (Kind::Domain(names), Kind::Domain(others)) => same_names(
            names.as_slice(),
            others.as_slice(),
        ),
        (Kind::Rec(fields), Kind::Rec(others)) => same_fields(fields.as_slice(), others.as_slice()),
        (Kind::Tuple(types), Kind::Tuple(others)) => same_types(
            types.as_slice(),
            others.as_slice(),
        ),
        (Kind::Set(part), Kind::Set(given)) => same_type(&part.get().kind, &given.get().kind),
        (Kind::ISet(part), Kind::ISet(given)) => same_type(&part.get().kind, &given.get().kind),
        (Kind::Valency(part), Kind::Valency(given)) => same_type(
            &part.get().kind,
            &given.get().kind,
        ),
        (Kind::Map(key, value), Kind::Map(given, image)) => {
            same_type(&key.get().kind, &given.get().kind)
                && same_type(&value.get().kind, &image.get().kind)
        }
        (Kind::Card, Kind::Card) => true,
        (Kind::Bool, Kind::Bool) => true,
        (Kind::Int, Kind::Int) => true,
        (Kind::Str, Kind::Str) => true,
        (Kind::Named(name), Kind::Named(given)) => same_name(name, given),
        _ => false,
    }
}

/// Whether types are the same, one by one.
#[cycle(types)]
fn same_types(one: &[TypeTerm], other: &[TypeTerm]) -> bool
    ensures { IsTrue result ↔ (map (bare.bare_part bare.bare_type) one.now ≡ map (bare.bare_part bare.bare_type) other.now) }
{
    if one.len() != other.len() {
        return false;
    }
    for at in 0..one.len() {
        if !same_type(&one[at].kind, &other[at].kind) {
            return false;
        }
    }
    true
}

/// Whether fields are the same, one by one.
#[cycle(types)]
fn same_fields(one: &[Pair<TypeTerm>], other: &[Pair<TypeTerm>]) -> bool
    ensures { IsTrue result ↔ (map (bare.bare_pair (bare.bare_part bare.bare_type)) one.now ≡ map (bare.bare_pair (bare.bare_part bare.bare_type)) other.now) }
{
    if one.len() != other.len() {
        return false;
    }
    for at in 0..one.len() {
        if !same_name(&one[at].key, &other[at].key) {
            return false;
        }
        if !same_type(&one[at].value.kind, &other[at].value.kind) {
            return false;
        }
    }
    true
}
