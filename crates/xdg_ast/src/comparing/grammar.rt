//! Comparing statements and whole grammars up to their places.

ghost use Rattle.std.specs.Prelude.{◌≡◌, ◌↔◌, IsTrue, map};
ghost use Rattle.xdg_ast.specs.Same as bare;
ghost use Rattle.xdg_ast.specs.Same.{Same};

use crate::comparing::expressions::{same_arguments, same_expr};
use crate::comparing::names::{same_name, same_pairs};
use crate::comparing::terms::same_term;
use crate::comparing::types::same_type;
use crate::grammar::{ClassParam, DimPart, DimPartKind, Grammar, Statement, StatementKind};
use crate::terms::Term;

/// Whether two parts of the definition of a dimension are the same.
#[tactic(auto, unfolding(crate::specs::Same::bare_dim_part))]
fn same_part(one: &DimPartKind, other: &DimPartKind) -> bool
    ensures { IsTrue result ↔ (bare.bare_dim_part one.now ≡ bare.bare_dim_part other.now) }
{
    match (one, other) {
        (DimPartKind::DefType(name, part), DimPartKind::DefType(given, meant)) => {
            same_name(name, given) && same_type(&part.kind, &meant.kind)
        }
        (DimPartKind::LabelType(part), DimPartKind::LabelType(meant)) => same_type(
            &part.kind,
            &meant.kind,
        ),
        (DimPartKind::AttrsType(part), DimPartKind::AttrsType(meant)) => same_type(
            &part.kind,
            &meant.kind,
        ),
        (DimPartKind::EntryType(part), DimPartKind::EntryType(meant)) => same_type(
            &part.kind,
            &meant.kind,
        ),
        (DimPartKind::Output(name), DimPartKind::Output(given)) => same_name(name, given),
        (DimPartKind::UseOutput(name), DimPartKind::UseOutput(given)) => same_name(name, given),
        (
            DimPartKind::UsePrinciple { name, dims, args },
            DimPartKind::UsePrinciple {
                name: given,
                dims: places,
                args: terms,
            },
        ) => {
            same_name(name, given)
                && same_pairs(dims.as_slice(), places.as_slice())
                && same_arguments(args, terms)
        }
        _ => false,
    }
}

/// Whether parts of the definitions of dimensions are the same, one by one.
fn same_parts(one: &[DimPart], other: &[DimPart]) -> bool
    ensures { IsTrue result ↔ (map (bare.bare_part bare.bare_dim_part) one.now ≡ map (bare.bare_part bare.bare_dim_part) other.now) }
{
    if one.len() != other.len() {
        return false;
    }
    for at in 0..one.len() {
        if !same_part(&one[at].kind, &other[at].kind) {
            return false;
        }
    }
    true
}

/// Whether two defaults are the same, or both are missing.
fn same_preset(one: &Option<Term>, other: &Option<Term>) -> bool
    ensures { IsTrue result ↔ (bare.bare_option (bare.bare_part bare.bare_term) one.now ≡ bare.bare_option (bare.bare_part bare.bare_term) other.now) }
{
    match (one, other) {
        (Some(term), Some(given)) => same_term(&term.kind, &given.kind),
        (None, None) => true,
        _ => false,
    }
}

/// Whether two parameters are the same.
fn same_param(one: &ClassParam, other: &ClassParam) -> bool
    ensures { IsTrue result ↔ (bare.bare_class_param one.now ≡ bare.bare_class_param other.now) }
{
    same_name(&one.name, &other.name) && same_preset(&one.preset, &other.preset)
}

/// Whether parameters are the same, one by one.
fn same_params(one: &[ClassParam], other: &[ClassParam]) -> bool
    ensures { IsTrue result ↔ (map bare.bare_class_param one.now ≡ map bare.bare_class_param other.now) }
{
    if one.len() != other.len() {
        return false;
    }
    for at in 0..one.len() {
        if !same_param(&one[at], &other[at]) {
            return false;
        }
    }
    true
}

/// Whether two statements are the same.
#[tactic(auto, unfolding(crate::specs::Same::bare_statement))]
fn same_statement(one: &StatementKind, other: &StatementKind) -> bool
    ensures { IsTrue result ↔ (bare.bare_statement one.now ≡ bare.bare_statement other.now) }
{
    match (one, other) {
        (StatementKind::UseDim(name), StatementKind::UseDim(given)) => same_name(name, given),
        (StatementKind::DefDim(name, parts), StatementKind::DefDim(given, others)) => {
            same_name(name, given) && same_parts(parts.as_slice(), others.as_slice())
        }
        (
            StatementKind::DefClass { name, params, body },
            StatementKind::DefClass {
                name: given,
                params: others,
                body: meant,
            },
        ) => {
            same_name(name, given)
                && same_params(params.as_slice(), others.as_slice())
                && same_expr(&body.kind, &meant.kind)
        }
        (StatementKind::DefEntry(body), StatementKind::DefEntry(meant)) => same_expr(
            &body.kind,
            &meant.kind,
        ),
        _ => false,
    }
}

/// Whether statements are the same, one by one.
fn same_statements(one: &[Statement], other: &[Statement]) -> bool
    ensures { IsTrue result ↔ (bare.bare_statements one.now ≡ bare.bare_statements other.now) }
{
    if one.len() != other.len() {
        return false;
    }
    for at in 0..one.len() {
        if !same_statement(&one[at].kind, &other[at].kind) {
            return false;
        }
    }
    true
}

/// Whether two grammars differ at most in the places of their parts.
#[tactic(auto, unfolding(crate::specs::Same::bare_grammar))]
pub fn same(one: &Grammar, other: &Grammar) -> bool
    ensures { IsTrue result ↔ Same one.now other.now }
{
    same_statements(one.statements.as_slice(), other.statements.as_slice())
}
