//! Comparing expressions up to their places.

ghost use Rattle.std.specs.Prelude.{◌≡◌, ◌↔◌, IsTrue, map};
ghost use Rattle.xdg_ast.specs.Same as bare;

use crate::comparing::names::same_name;
use crate::comparing::terms::same_terms;
use crate::expressions::{Expr, ExprKind};
use crate::names::Pair;
use crate::terms::Term;
use xdg_base::List;

/// Whether two lists of arguments are the same, or both are missing.
pub(crate) fn same_arguments(
    one: &Option<List<Pair<Term>>>,
    other: &Option<List<Pair<Term>>>,
) -> bool
    ensures { IsTrue result ↔ (bare.bare_option bare.bare_terms one.now ≡ bare.bare_option bare.bare_terms other.now) }
{
    match (one, other) {
        (Some(pairs), Some(others)) => same_terms(pairs.as_slice(), others.as_slice()),
        (None, None) => true,
        _ => false,
    }
}

/// Whether two expressions are the same.
#[cycle(expressions)]
pub(crate) fn same_expr(one: &ExprKind, other: &ExprKind) -> bool
    ensures { IsTrue result ↔ (bare.bare_expr one.now ≡ bare.bare_expr other.now) }
{
    match (one, other) {
        (ExprKind::Or(members), ExprKind::Or(others)) => same_exprs(
            members.as_slice(),
            others.as_slice(),
        ),
        (ExprKind::And(members), ExprKind::And(others)) => same_exprs(
            members.as_slice(),
            others.as_slice(),
        ),
        (ExprKind::Dim(name, pairs), ExprKind::Dim(given, others)) => {
            same_name(name, given) && same_terms(pairs.as_slice(), others.as_slice())
        }
        (ExprKind::Use(name, pairs), ExprKind::Use(given, others)) => {
            same_name(name, given) && same_arguments(pairs, others)
        }
        _ => false,
    }
}

/// Whether expressions are the same, one by one.
#[cycle(expressions)]
fn same_exprs(one: &[Expr], other: &[Expr]) -> bool
    ensures { IsTrue result ↔ (map (bare.bare_part bare.bare_expr) one.now ≡ map (bare.bare_part bare.bare_expr) other.now) }
{
    if one.len() != other.len() {
        return false;
    }
    for at in 0..one.len() {
        if !same_expr(&one[at].kind, &other[at].kind) {
            return false;
        }
    }
    true
}
