//! Values and atoms.

ghost use Rattle.std.specs.Prelude.{◌≡◌};
ghost use Rattle.xdg_ast.specs.Language.{behind, is, token};
ghost use Rattle.xdg_parse.specs.Steps.{Reads};
ghost use Rattle.xdg_formula.specs.Rules as grammar;
ghost use Rattle.xdg_formula.specs.Rules.{in_parentheses, under};

use crate::names::{constant, constants, node};
use crate::tree::RuleKind;
use crate::words::{ABOVE, ATTR, EDGE, FEAT, LEFT, SAME};
use std::alloc::Global;
use xdg_ast::{Kind, Name, Term, TermKind};
use xdg_parse::{Cursor, Why};

#[tactic(auto, unfolding(crate::specs::Rules::value_kind, crate::specs::Rules::under))]
fn value_kind(alloc: Global, cursor: &mut Cursor<'_, '_>, within: u32) -> Result<TermKind, Why>
    ensures { Reads ((grammar.value_kind (under within)).read cursor.old) result cursor.new }
{
    if cursor.sees(Kind::LeftBracket) {
        cursor.open(Kind::LeftBracket, within)?;
        let names = constants(alloc, cursor)?;
        cursor.expect(Kind::RightBracket)?;
        return Ok(TermKind::Tuple(names));
    }
    Ok(TermKind::Const(constant(alloc, cursor)?))
}

/// A value, in which `within` more brackets may be opened.
#[tactic(auto, unfolding(crate::specs::Rules::value))]
fn value(alloc: Global, cursor: &mut Cursor<'_, '_>, within: u32) -> Result<Term, Why>
    ensures { Reads ((grammar.value (under within)).read cursor.old) result cursor.new }
{
    let start = cursor.start();
    let kind = value_kind(alloc, cursor, within)?;
    Ok(Term {
        kind,
        span: cursor.span_from(start),
    })
}

/// The names of two nodes.
#[tactic(auto, unfolding(crate::specs::Rules::two_nodes))]
fn two_nodes(alloc: Global, cursor: &mut Cursor<'_, '_>) -> Result<(Name, Name), Why>
    ensures { Reads (grammar.two_nodes.read cursor.old) result cursor.new }
{
    let first = node(alloc, cursor)?;
    let second = node(alloc, cursor)?;
    Ok((first, second))
}

/// What stands in the parentheses of `edge`.
#[tactic(auto, unfolding(crate::specs::Rules::edge_places))]
fn edge_places(alloc: Global, cursor: &mut Cursor<'_, '_>) -> Result<(Name, Name, Name, Name), Why>
    ensures { Reads (grammar.edge_places.read cursor.old) result cursor.new }
{
    let dim = constant(alloc, cursor)?;
    let mother = node(alloc, cursor)?;
    let label = constant(alloc, cursor)?;
    let daughter = node(alloc, cursor)?;
    Ok((dim, mother, label, daughter))
}

/// What stands in the parentheses of `above`.
#[tactic(auto, unfolding(crate::specs::Rules::above_places, crate::specs::Rules::two_nodes))]
fn above_places(alloc: Global, cursor: &mut Cursor<'_, '_>) -> Result<(Name, Name, Name), Why>
    ensures { Reads (grammar.above_places.read cursor.old) result cursor.new }
{
    let dim = constant(alloc, cursor)?;
    let (upper, lower) = two_nodes(alloc, cursor)?;
    Ok((dim, upper, lower))
}

/// What stands in the parentheses of `attr` and `feat`.
#[tactic(auto, unfolding(crate::specs::Rules::valued))]
fn valued(
    alloc: Global,
    cursor: &mut Cursor<'_, '_>,
    within: u32,
) -> Result<(Name, Name, Name, Term), Why>
    ensures { Reads ((grammar.valued (under within)).read cursor.old) result cursor.new }
{
    let node = node(alloc, cursor)?;
    let dim = constant(alloc, cursor)?;
    let place = constant(alloc, cursor)?;
    let value = value(alloc, cursor, within)?;
    Ok((node, dim, place, value))
}

#[tactic(auto, unfolding(crate::specs::Rules::edge, crate::specs::Rules::under))]
fn edge(alloc: Global, cursor: &mut Cursor<'_, '_>, within: u32) -> Result<RuleKind, Why>
    ensures { Reads ((grammar.edge (under within)).read cursor.old) result cursor.new }
{
    cursor.expect(EDGE)?;
    cursor.open(Kind::LeftParenthesis, within)?;
    let (dim, mother, label, daughter) = edge_places(alloc, cursor)?;
    cursor.expect(Kind::RightParenthesis)?;
    Ok(RuleKind::Edge {
        dim,
        mother,
        label,
        daughter,
    })
}

#[tactic(auto, unfolding(crate::specs::Rules::above, crate::specs::Rules::under))]
fn above(alloc: Global, cursor: &mut Cursor<'_, '_>, within: u32) -> Result<RuleKind, Why>
    ensures { Reads ((grammar.above (under within)).read cursor.old) result cursor.new }
{
    cursor.expect(ABOVE)?;
    cursor.open(Kind::LeftParenthesis, within)?;
    let (dim, upper, lower) = above_places(alloc, cursor)?;
    cursor.expect(Kind::RightParenthesis)?;
    Ok(RuleKind::Above { dim, upper, lower })
}

/// Two nodes in parentheses, behind a word.
#[tactic(auto, unfolding(crate::specs::Rules::under))]
fn nodes_behind(
    alloc: Global,
    cursor: &mut Cursor<'_, '_>,
    word: Kind,
    within: u32,
) -> Result<(Name, Name), Why>
    ensures { Reads ((behind (token (is word)) (in_parentheses (under within) (λ _. grammar.two_nodes))).read cursor.old) result cursor.new }
{
    cursor.expect(word)?;
    cursor.open(Kind::LeftParenthesis, within)?;
    let nodes = two_nodes(alloc, cursor)?;
    cursor.expect(Kind::RightParenthesis)?;
    Ok(nodes)
}

/// A node, a dimension, an attribute or a feature of it, and a value, in parentheses, behind a word.
#[tactic(auto, unfolding(crate::specs::Rules::under, crate::specs::Rules::inside))]
fn valued_behind(
    alloc: Global,
    cursor: &mut Cursor<'_, '_>,
    word: Kind,
    within: u32,
) -> Result<(Name, Name, Name, Term), Why>
    ensures { Reads ((behind (token (is word)) (in_parentheses (under within) (λ j. j.valued))).read cursor.old) result cursor.new }
{
    cursor.expect(word)?;
    let inner = cursor.open(Kind::LeftParenthesis, within)?;
    let said = valued(alloc, cursor, inner)?;
    cursor.expect(Kind::RightParenthesis)?;
    Ok(said)
}

#[tactic(auto, unfolding(crate::specs::Rules::attr))]
fn attr(alloc: Global, cursor: &mut Cursor<'_, '_>, within: u32) -> Result<RuleKind, Why>
    ensures { Reads ((grammar.attr (under within)).read cursor.old) result cursor.new }
{
    let (node, dim, attr, value) = valued_behind(alloc, cursor, ATTR, within)?;
    Ok(RuleKind::Attr {
        node,
        dim,
        attr,
        value,
    })
}

#[tactic(auto, unfolding(crate::specs::Rules::feat))]
fn feat(alloc: Global, cursor: &mut Cursor<'_, '_>, within: u32) -> Result<RuleKind, Why>
    ensures { Reads ((grammar.feat (under within)).read cursor.old) result cursor.new }
{
    let (node, dim, feature, value) = valued_behind(alloc, cursor, FEAT, within)?;
    Ok(RuleKind::Feat {
        node,
        dim,
        feature,
        value,
    })
}

/// An atom, in which `within` more brackets may be opened.
#[tactic(auto, unfolding(crate::specs::Rules::atom, crate::specs::Rules::left, crate::specs::Rules::same), using(crate::proofs::Nexts::atom_firsts))]
pub(crate) fn atom(alloc: Global, cursor: &mut Cursor<'_, '_>, within: u32) -> Result<RuleKind, Why>
    ensures { Reads ((grammar.atom (under within)).read cursor.old) result cursor.new }
{
    if cursor.sees(EDGE) {
        return edge(alloc, cursor, within);
    }
    if cursor.sees(ABOVE) {
        return above(alloc, cursor, within);
    }
    if cursor.sees(LEFT) {
        let (first, second) = nodes_behind(alloc, cursor, LEFT, within)?;
        return Ok(RuleKind::Left(first, second));
    }
    if cursor.sees(SAME) {
        let (first, second) = nodes_behind(alloc, cursor, SAME, within)?;
        return Ok(RuleKind::Same(first, second));
    }
    if cursor.sees(ATTR) {
        return attr(alloc, cursor, within);
    }
    feat(alloc, cursor, within)
}
