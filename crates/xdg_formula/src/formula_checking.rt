//! The first fault of a formula.

ghost use Rattle.std.specs.Prelude.{◌≡◌, [], ◌∷◌, ◌++◌, map, IfOk};
ghost use Rattle.xdg_names.specs.First.{first};
ghost use Rattle.xdg_formula.specs.Written.{tree};
ghost use Rattle.xdg_formula.specs.Formulas as spec;
ghost use Rattle.xdg_formula.specs.Tables.{used_dims};

use crate::atom_names::{check_attr, check_dim, check_edge, check_feature};
use crate::scopes::{bind, check_binding, check_node, check_nodes};
use crate::tree::{RuleKind, RuleTerm};
use std::alloc::Global;
use xdg_base::{Fault, OutOfMemory};
use xdg_names::earlier;
use xdg_types::TypeTable;

/// What is wrong with a formula that stands at a place, where these names are bound.
fn check_kind<'a>(
    alloc: Global,
    types: &TypeTable,
    bound: &[&'a str],
    place: u32,
    kind: &'a RuleKind,
) -> Result<Option<Fault>, OutOfMemory>
    ensures { IfOk result (λ found. found ≡ first (spec.faults_in (used_dims types.now) (map (λ text. text.now) bound.now) place (tree kind.now))) }
{
    match kind {
        RuleKind::Or(members) => {
            let mut found = None;
            for member in members.as_slice() {
                let inside = check_kind(alloc, types, bound, member.span.start, &member.kind)?;
                found = earlier(found, inside);
            }
            Ok(found)
        }
        RuleKind::And(members) => {
            let mut found = None;
            for part in members.as_slice() {
                let inside = check_kind(alloc, types, bound, part.span.start, &part.kind)?;
                found = earlier(found, inside);
            }
            Ok(found)
        }
        RuleKind::Not(_, body) => {
            let body = body.get();
            check_kind(alloc, types, bound, body.span.start, &body.kind)
        }
        RuleKind::Every(name, body) => {
            let body = body.get();
            let scope = bind(alloc, bound, name)?;
            let inside = check_kind(alloc, types, scope.as_slice(), body.span.start, &body.kind)?;
            Ok(earlier(check_binding(bound, place, name), inside))
        }
        RuleKind::Any(name, body) => {
            let body = body.get();
            let scope = bind(alloc, bound, name)?;
            let inside = check_kind(alloc, types, scope.as_slice(), body.span.start, &body.kind)?;
            Ok(earlier(check_binding(bound, place, name), inside))
        }
        RuleKind::Edge {
            dim,
            mother,
            label,
            daughter,
        } => Ok(earlier(
            check_edge(types, dim, label),
            check_nodes(bound, mother, daughter),
        )),
        RuleKind::Above { dim, upper, lower } => Ok(earlier(
            check_dim(types, dim),
            check_nodes(bound, upper, lower),
        )),
        RuleKind::Left(first, second) => Ok(check_nodes(bound, first, second)),
        RuleKind::Same(first, second) => Ok(check_nodes(bound, first, second)),
        RuleKind::Attr {
            node,
            dim,
            attr,
            value,
        } => Ok(earlier(
            check_node(bound, node),
            check_attr(alloc, types, dim, attr, value),
        )),
        RuleKind::Feat {
            node,
            dim,
            feature,
            value,
        } => Ok(earlier(
            check_node(bound, node),
            check_feature(alloc, types, dim, feature, value),
        )),
    }
}

/// What is wrong with a formula.
pub(crate) fn check_formula(
    alloc: Global,
    types: &TypeTable,
    term: &RuleTerm,
) -> Result<Option<Fault>, OutOfMemory>
    ensures { IfOk result (λ found. found ≡ first (spec.formula_faults (used_dims types.now) [] term.now)) }
{
    check_kind(alloc, types, &[], term.span.start, &term.kind)
}
