//! Comparing names and numbers up to their places.

ghost use Rattle.std.specs.Prelude.{◌≡◌, ◌↔◌, IsTrue, map};
ghost use Rattle.xdg_ast.specs.Same as bare;

use crate::names::{Name, Num, Pair};

/// Whether two names have the same characters.
pub(crate) fn same_name(one: &Name, other: &Name) -> bool
    ensures { IsTrue result ↔ (bare.bare_name one.now ≡ bare.bare_name other.now) }
{
    one.text.as_str() == other.text.as_str()
}

/// Whether two numbers have the same value.
pub(crate) fn same_num(one: &Num, other: &Num) -> bool
    ensures { IsTrue result ↔ (bare.bare_num one.now ≡ bare.bare_num other.now) }
{
    one.value == other.value
}

/// Whether names are the same, one by one.
pub(crate) fn same_names(one: &[Name], other: &[Name]) -> bool
    ensures { IsTrue result ↔ (map bare.bare_name one.now ≡ map bare.bare_name other.now) }
{
    if one.len() != other.len() {
        return false;
    }
    for at in 0..one.len() {
        if !same_name(&one[at], &other[at]) {
            return false;
        }
    }
    true
}

/// Whether numbers are the same, one by one.
pub(crate) fn same_nums(one: &[Num], other: &[Num]) -> bool
    ensures { IsTrue result ↔ (map bare.bare_num one.now ≡ map bare.bare_num other.now) }
{
    if one.len() != other.len() {
        return false;
    }
    for at in 0..one.len() {
        if !same_num(&one[at], &other[at]) {
            return false;
        }
    }
    true
}

/// Whether two pairs of names are the same.
fn same_named(one: &Pair<Name>, other: &Pair<Name>) -> bool
    ensures { IsTrue result ↔ (bare.bare_pair bare.bare_name one.now ≡ bare.bare_pair bare.bare_name other.now) }
{
    same_name(&one.key, &other.key) && same_name(&one.value, &other.value)
}

/// Whether pairs of names are the same, one by one.
pub(crate) fn same_pairs(one: &[Pair<Name>], other: &[Pair<Name>]) -> bool
    ensures { IsTrue result ↔ (map (bare.bare_pair bare.bare_name) one.now ≡ map (bare.bare_pair bare.bare_name) other.now) }
{
    if one.len() != other.len() {
        return false;
    }
    for at in 0..one.len() {
        if !same_named(&one[at], &other[at]) {
            return false;
        }
    }
    true
}
