//! Formulas.

ghost use Rattle.std.specs.Prelude.{◌≡◌, ◌≤◌, ◌<◌, ◌++◌, [], ◌∷◌, length, map, All, IfOk};
ghost use Rattle.xdg_formula.specs.Tables.{used_dims};
ghost use Rattle.xdg_formula.specs.Written.{tree};
ghost use Rattle.xdg_build.specs.Formulas.{formula_in};
ghost use Rattle.xdg_build.specs.Problems.{IsFor};
ghost use Rattle.xdg_build.specs.Right.{IsRight};
ghost use Rattle.xdg_build.specs.Signs.{denies};

use crate::atoms;
use crate::lookups::node_number;
use std::alloc::Global;
use xdg_ast::Name;
use xdg_base::{Boxed, List, OutOfMemory, Span};
use xdg_formula::{RuleKind, RuleTerm, bind};
use xdg_packed::Packed;
use xdg_problem::{Formula, Problem};
use xdg_types::TypeTable;

/// Whether a run of signs `!` denies: of two signs one undoes the other.
#[tactic(auto, using(crate::proofs::FormulaLaws::denies_is))]
fn denies(signs: &List<Span>) -> bool
    ensures { result ≡ denies (length signs.now) }
{
    signs.len() % 2 == 1
}

/// A formula where these names are bound.
#[cycle(formula)]
pub(crate) fn formula_of<'a>(
    alloc: Global,
    types: &TypeTable,
    packed: &Packed,
    problem: &Problem,
    bound: &[&'a str],
    kind: &'a RuleKind,
) -> Result<Formula, OutOfMemory>
    requires fits { IsFor types.now packed.now problem.now }
    requires right { IsRight (used_dims types.now) (map (λ text. text.now) bound.now) (tree kind.now) }
    requires few { length bound.now ≤ 3 }
    ensures { IfOk result (λ made. made ≡ formula_in types.now packed.now problem.now (map (λ text. text.now) bound.now) (tree kind.now)) }
{
    match kind {
        RuleKind::Or(members) => {
            let made = formulas_of(alloc, types, packed, problem, bound, members.as_slice())?;
            Ok(Formula::Or(made))
        }
        RuleKind::And(members) => {
            let made = formulas_of(alloc, types, packed, problem, bound, members.as_slice())?;
            Ok(Formula::And(made))
        }
        RuleKind::Not(signs, body) => {
            let inside = formula_of(alloc, types, packed, problem, bound, &body.get().kind)?;
            if !denies(signs) {
                return Ok(inside);
            }
            let boxed = Boxed::new(alloc, inside)?;
            Ok(Formula::Not(boxed))
        }
        RuleKind::Every(name, body) => {
            let boxed = under(alloc, types, packed, problem, bound, name, body.get())?;
            Ok(Formula::Every(bound.len() as u8, boxed))
        }
        RuleKind::Any(name, body) => {
            let boxed = under(alloc, types, packed, problem, bound, name, body.get())?;
            Ok(Formula::Any(bound.len() as u8, boxed))
        }
        RuleKind::Edge {
            dim,
            mother,
            label,
            daughter,
        } => Ok(atoms::edge(types, packed, problem, bound, dim, mother, label, daughter)),
        RuleKind::Above { dim, upper, lower } => Ok(atoms::above(
            types, packed, problem, bound, dim, upper, lower,
        )),
        RuleKind::Left(first, second) => Ok(Formula::Left(
            node_number(bound, first),
            node_number(bound, second),
        )),
        RuleKind::Same(first, second) => Ok(Formula::Same(
            node_number(bound, first),
            node_number(bound, second),
        )),
        RuleKind::Attr {
            node,
            dim,
            attr,
            value,
        } => atoms::attr(alloc, types, packed, problem, bound, node, dim, attr, value),
        RuleKind::Feat {
            node,
            dim,
            feature,
            value,
        } => atoms::feat(
            alloc, types, packed, problem, bound, node, dim, feature, value,
        ),
    }
}

/// Each of some formulas.
#[cycle(formula)]
fn formulas_of<'a>(
    alloc: Global,
    types: &TypeTable,
    packed: &Packed,
    problem: &Problem,
    bound: &[&'a str],
    members: &'a [RuleTerm],
) -> Result<List<Formula>, OutOfMemory>
    requires fits { IsFor types.now packed.now problem.now }
    requires right { All (λ term. IsRight (used_dims types.now) (map (λ text. text.now) bound.now) (tree term.kind)) members.now }
    requires few { length bound.now ≤ 3 }
    ensures { IfOk result (λ made. made ≡ map
        (λ term. formula_in types.now packed.now problem.now (map (λ text. text.now) bound.now) (tree term.kind)) members.now) }
{
    let mut made = List::new(alloc);
    for member in members {
        made.push(formula_of(alloc, types, packed, problem, bound, &member.kind)?)?;
    }
    Ok(made)
}

/// A formula under a quantifier, which binds one name more.
#[cycle(formula)]
fn under<'a>(
    alloc: Global,
    types: &TypeTable,
    packed: &Packed,
    problem: &Problem,
    bound: &[&'a str],
    name: &'a Name,
    body: &'a RuleTerm,
) -> Result<Boxed<Formula>, OutOfMemory>
    requires fits { IsFor types.now packed.now problem.now }
    requires right { IsRight (used_dims types.now) (map (λ text. text.now) bound.now ++ name.now.text ∷ []) (tree body.now.kind) }
    requires few { length bound.now < 3 }
    ensures { IfOk result (λ made. made ≡ formula_in types.now packed.now problem.now
        (map (λ text. text.now) bound.now ++ name.now.text ∷ []) (tree body.now.kind)) }
{
    let scope = bind(alloc, bound, name)?;
    let inside = formula_of(alloc, types, packed, problem, scope.as_slice(), &body.kind)?;
    Boxed::new(alloc, inside)
}
