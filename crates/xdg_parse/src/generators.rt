//! Generators, in which `&` binds closer than `|`.

ghost use Rattle.std.specs.Prelude.{◌≡◌};
ghost use Rattle.xdg_ast.specs.Grammar as grammar;
ghost use Rattle.xdg_ast.specs.Grammar.{under};
ghost use Rattle.xdg_parse.specs.Steps.{Reads};

use crate::cursor::{Cursor, Why};
use crate::names::name;
use std::alloc::Global;
use xdg_ast::{Gen, GenKind, Kind, Params};
use xdg_base::{List, Span};

/// One member is that member, and more are all of them.
fn conjunction(span: Span, members: List<Gen>) -> Gen
    ensures { result ≡ grammar.conjunction span members }
{
    let mut members = members;
    if members.len() == 1 {
        return members.pop().unwrap();
    }
    Gen {
        kind: GenKind::And(members),
        span,
    }
}

/// One member is that member, and more are any of them.
fn disjunction(span: Span, members: List<Gen>) -> Gen
    ensures { result ≡ grammar.disjunction span members }
{
    let mut members = members;
    if members.len() == 1 {
        return members.pop().unwrap();
    }
    Gen {
        kind: GenKind::Or(members),
        span,
    }
}

#[cycle(generator)]
#[tactic(auto, unfolding(xdg_ast::specs::Grammar::gprim, xdg_ast::specs::Grammar::under, xdg_ast::specs::Grammar::inside))]
fn gprim(
    alloc: Global,
    params: &Params,
    cursor: &mut Cursor<'_, '_>,
    within: u32,
) -> Result<Gen, Why>
    ensures { Reads ((grammar.gprim (under params.now within)).read cursor.old) result cursor.new }
{
    if cursor.sees(Kind::LeftParenthesis) {
        let inner = cursor.open(Kind::LeftParenthesis, within)?;
        let inner = generator(alloc, params, cursor, inner)?;
        cursor.expect(Kind::RightParenthesis)?;
        return Ok(inner);
    }
    let start = cursor.start();
    let name = name(alloc, cursor)?;
    Ok(Gen {
        kind: GenKind::Const(name),
        span: cursor.span_from(start),
    })
}

#[cycle(generator)]
#[tactic(auto, unfolding(xdg_ast::specs::Grammar::next_gprim))]
fn next_gprim(
    alloc: Global,
    params: &Params,
    cursor: &mut Cursor<'_, '_>,
    within: u32,
) -> Result<Gen, Why>
    ensures { Reads ((grammar.next_gprim (under params.now within)).read cursor.old) result cursor.new }
{
    cursor.expect(Kind::Ampersand)?;
    gprim(alloc, params, cursor, within)
}

#[cycle(generator)]
#[tactic(auto, unfolding(xdg_ast::specs::Grammar::gprims), using(crate::proofs::Loop::reading, crate::proofs::Listed::next_gprim_item))]
fn gprims(
    alloc: Global,
    params: &Params,
    cursor: &mut Cursor<'_, '_>,
    within: u32,
) -> Result<List<Gen>, Why>
    ensures { Reads ((grammar.gprims (under params.now within)).read cursor.old) result cursor.new }
{
    let mut members = List::new(alloc);
    members.push(gprim(alloc, params, cursor, within)?)?;
    'more: while cursor.sees(Kind::Ampersand) {
        members.push(next_gprim(alloc, params, cursor, within)?)?;
    }
    Ok(members)
}

#[cycle(generator)]
#[tactic(auto, unfolding(xdg_ast::specs::Grammar::gconj))]
fn gconj(
    alloc: Global,
    params: &Params,
    cursor: &mut Cursor<'_, '_>,
    within: u32,
) -> Result<Gen, Why>
    ensures { Reads ((grammar.gconj (under params.now within)).read cursor.old) result cursor.new }
{
    let start = cursor.start();
    let members = gprims(alloc, params, cursor, within)?;
    Ok(conjunction(cursor.span_from(start), members))
}

#[cycle(generator)]
#[tactic(auto, unfolding(xdg_ast::specs::Grammar::next_gconj))]
fn next_gconj(
    alloc: Global,
    params: &Params,
    cursor: &mut Cursor<'_, '_>,
    within: u32,
) -> Result<Gen, Why>
    ensures { Reads ((grammar.next_gconj (under params.now within)).read cursor.old) result cursor.new }
{
    cursor.expect(Kind::Bar)?;
    gconj(alloc, params, cursor, within)
}

#[cycle(generator)]
#[tactic(auto, unfolding(xdg_ast::specs::Grammar::gconjs), using(crate::proofs::Loop::reading, crate::proofs::Listed::next_gconj_item))]
fn gconjs(
    alloc: Global,
    params: &Params,
    cursor: &mut Cursor<'_, '_>,
    within: u32,
) -> Result<List<Gen>, Why>
    ensures { Reads ((grammar.gconjs (under params.now within)).read cursor.old) result cursor.new }
{
    let mut members = List::new(alloc);
    members.push(gconj(alloc, params, cursor, within)?)?;
    'more: while cursor.sees(Kind::Bar) {
        members.push(next_gconj(alloc, params, cursor, within)?)?;
    }
    Ok(members)
}

/// A generator.
#[cycle(generator)]
pub(crate) fn generator(
    alloc: Global,
    params: &Params,
    cursor: &mut Cursor<'_, '_>,
    within: u32,
) -> Result<Gen, Why>
    ensures { Reads ((grammar.gen (under params.now within)).read cursor.old) result cursor.new }
{
    let start = cursor.start();
    let members = gconjs(alloc, params, cursor, within)?;
    Ok(disjunction(cursor.span_from(start), members))
}
