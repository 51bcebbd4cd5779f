//! Comparing terms up to their places.

ghost use Rattle.std.specs.Prelude.{◌≡◌, ◌↔◌, IsTrue, map};
ghost use Rattle.xdg_ast.specs.Same as bare;

use crate::comparing::names::{same_name, same_names, same_num, same_nums};
use crate::names::Pair;
use crate::terms::{CardKind, Elem, ElemKind, Gen, GenKind, Term, TermKind};

/// Whether two cardinalities are the same.
#[tactic(auto, unfolding(crate::specs::Same::bare_card))]
fn same_card(one: &CardKind, other: &CardKind) -> bool
    ensures { IsTrue result ↔ (bare.bare_card one.now ≡ bare.bare_card other.now) }
{
    match (one, other) {
        (CardKind::One, CardKind::One) => true,
        (CardKind::Maybe, CardKind::Maybe) => true,
        (CardKind::Any, CardKind::Any) => true,
        (CardKind::Some1, CardKind::Some1) => true,
        (CardKind::Numbers(nums), CardKind::Numbers(others)) => same_nums(
            nums.as_slice(),
            others.as_slice(),
        ),
        (CardKind::Interval(low, high), CardKind::Interval(least, most)) => same_num(low, least)
            && same_num(high, most),
        _ => false,
    }
}

/// Whether two generators are the same.
#[cycle(generators)]
fn same_gen(one: &GenKind, other: &GenKind) -> bool
    ensures { IsTrue result ↔ (bare.bare_gen one.now ≡ bare.bare_gen other.now) }
{
    match (one, other) {
        (GenKind::Const(name), GenKind::Const(given)) => same_name(name, given),
        (GenKind::And(members), GenKind::And(others)) => same_gens(
            members.as_slice(),
            others.as_slice(),
        ),
        (GenKind::Or(members), GenKind::Or(others)) => same_gens(
            members.as_slice(),
            others.as_slice(),
        ),
        _ => false,
    }
}

/// Whether generators are the same, one by one.
#[cycle(generators)]
fn same_gens(one: &[Gen], other: &[Gen]) -> bool
    ensures { IsTrue result ↔ (map (bare.bare_part bare.bare_gen) one.now ≡ map (bare.bare_part bare.bare_gen) other.now) }
{
    if one.len() != other.len() {
        return false;
    }
    for at in 0..one.len() {
        if !same_gen(&one[at].kind, &other[at].kind) {
            return false;
        }
    }
    true
}

/// Whether two terms are the same.
#[cycle(terms)]
pub(crate) fn same_term(one: &TermKind, other: &TermKind) -> bool
    ensures { IsTrue result ↔ (bare.bare_term one.now ≡ bare.bare_term other.now) }
{
    match (one, other) {
        (TermKind::Const(name), TermKind::Const(given)) => same_name(name, given),
        (TermKind::Param(name), TermKind::Param(given)) => same_name(name, given),
        (TermKind::Number(n), TermKind::Number(given)) => *n == *given,
        (TermKind::Card(card), TermKind::Card(given)) => same_card(&card.kind, &given.kind),
        (TermKind::Braces(elems), TermKind::Braces(others)) => same_elems(
            elems.as_slice(),
            others.as_slice(),
        ),
        (TermKind::Tuple(names), TermKind::Tuple(others)) => same_names(
            names.as_slice(),
            others.as_slice(),
        ),
        (TermKind::Gen(tuples), TermKind::Gen(given)) => same_gen(&tuples.kind, &given.kind),
        _ => false,
    }
}

/// Whether two elements are the same.
#[cycle(terms)]
fn same_elem(one: &ElemKind, other: &ElemKind) -> bool
    ensures { IsTrue result ↔ (bare.bare_elem one.now ≡ bare.bare_elem other.now) }
{
    match (one, other) {
        (ElemKind::Count(name, card), ElemKind::Count(given, count)) => {
            same_name(name, given) && same_card(&card.kind, &count.kind)
        }
        (ElemKind::Keyed(name, term), ElemKind::Keyed(given, value)) => {
            same_name(name, given) && same_term(&term.get().kind, &value.get().kind)
        }
        (ElemKind::Const(name), ElemKind::Const(given)) => same_name(name, given),
        (ElemKind::Tuple(names), ElemKind::Tuple(others)) => same_names(
            names.as_slice(),
            others.as_slice(),
        ),
        _ => false,
    }
}

/// Whether elements are the same, one by one.
#[cycle(terms)]
fn same_elems(one: &[Elem], other: &[Elem]) -> bool
    ensures { IsTrue result ↔ (map (bare.bare_part bare.bare_elem) one.now ≡ map (bare.bare_part bare.bare_elem) other.now) }
{
    if one.len() != other.len() {
        return false;
    }
    for at in 0..one.len() {
        if !same_elem(&one[at].kind, &other[at].kind) {
            return false;
        }
    }
    true
}

/// Whether two pairs with terms are the same.
fn same_valued(one: &Pair<Term>, other: &Pair<Term>) -> bool
    ensures { IsTrue result ↔ (bare.bare_pair (bare.bare_part bare.bare_term) one.now ≡ bare.bare_pair (bare.bare_part bare.bare_term) other.now) }
{
    same_name(&one.key, &other.key) && same_term(&one.value.kind, &other.value.kind)
}

/// Whether pairs with terms are the same, one by one.
pub(crate) fn same_terms(one: &[Pair<Term>], other: &[Pair<Term>]) -> bool
    ensures { IsTrue result ↔ (bare.bare_terms one.now ≡ bare.bare_terms other.now) }
{
    if one.len() != other.len() {
        return false;
    }
    for at in 0..one.len() {
        if !same_valued(&one[at], &other[at]) {
            return false;
        }
    }
    true
}
