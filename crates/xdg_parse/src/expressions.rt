//! Expressions, in which `&` binds closer than `|`, and may be left out.

ghost use Rattle.std.specs.Prelude.{◌≡◌};
ghost use Rattle.xdg_ast.specs.Language.{sees, full};
ghost use Rattle.xdg_ast.specs.Grammar as grammar;
ghost use Rattle.xdg_ast.specs.Grammar.{under};
ghost use Rattle.xdg_parse.specs.Steps.{Reads};

use crate::cursor::{Cursor, Why};
use crate::names::name;
use crate::terms::braced_terms;
use std::alloc::Global;
use xdg_ast::{Expr, ExprKind, Kind, Params};
use xdg_base::{List, Span};

/// One member is that member, and more are all of them.
fn all_of(span: Span, members: List<Expr>) -> Expr
    ensures { result ≡ grammar.all_of span members }
{
    let mut members = members;
    if members.len() == 1 {
        return members.pop().unwrap();
    }
    Expr {
        kind: ExprKind::And(members),
        span,
    }
}

/// One member is that member, and more are any of them.
fn any_of(span: Span, members: List<Expr>) -> Expr
    ensures { result ≡ grammar.any_of span members }
{
    let mut members = members;
    if members.len() == 1 {
        return members.pop().unwrap();
    }
    Expr {
        kind: ExprKind::Or(members),
        span,
    }
}

#[tactic(auto, unfolding(xdg_ast::specs::Grammar::dim))]
fn dim(
    alloc: Global,
    params: &Params,
    cursor: &mut Cursor<'_, '_>,
    within: u32,
) -> Result<Expr, Why>
    ensures { Reads ((grammar.dim (under params.now within)).read cursor.old) result cursor.new }
{
    let start = cursor.start();
    cursor.expect(Kind::Dim)?;
    let name = name(alloc, cursor)?;
    let features = braced_terms(alloc, params, cursor, within)?;
    Ok(Expr {
        kind: ExprKind::Dim(name, features),
        span: cursor.span_from(start),
    })
}

#[tactic(auto, unfolding(xdg_ast::specs::Grammar::use_of_class, xdg_ast::specs::Grammar::braced_terms))]
fn use_of_class(
    alloc: Global,
    params: &Params,
    cursor: &mut Cursor<'_, '_>,
    within: u32,
) -> Result<Expr, Why>
    ensures { Reads ((grammar.use_of_class (under params.now within)).read cursor.old) result cursor.new }
{
    let start = cursor.start();
    let name = name(alloc, cursor)?;
    if !cursor.sees(Kind::LeftBrace) {
        return Ok(Expr {
            kind: ExprKind::Use(name, None),
            span: cursor.span_from(start),
        });
    }
    let arguments = braced_terms(alloc, params, cursor, within)?;
    Ok(Expr {
        kind: ExprKind::Use(name, Some(arguments)),
        span: cursor.span_from(start),
    })
}

#[cycle(expr)]
#[tactic(auto, unfolding(xdg_ast::specs::Grammar::prim, xdg_ast::specs::Grammar::dim, xdg_ast::specs::Grammar::under, xdg_ast::specs::Grammar::inside))]
fn prim(
    alloc: Global,
    params: &Params,
    cursor: &mut Cursor<'_, '_>,
    within: u32,
) -> Result<Expr, Why>
    ensures { Reads ((grammar.prim (under params.now within)).read cursor.old) result cursor.new }
{
    if cursor.sees(Kind::Dim) {
        return dim(alloc, params, cursor, within);
    }
    if cursor.sees(Kind::LeftParenthesis) {
        let inner = cursor.open(Kind::LeftParenthesis, within)?;
        let inner = expr(alloc, params, cursor, inner)?;
        cursor.expect(Kind::RightParenthesis)?;
        return Ok(inner);
    }
    use_of_class(alloc, params, cursor, within)
}

#[cycle(expr)]
#[tactic(auto, unfolding(xdg_ast::specs::Grammar::next_prim))]
fn next_prim(
    alloc: Global,
    params: &Params,
    cursor: &mut Cursor<'_, '_>,
    within: u32,
) -> Result<Expr, Why>
    ensures { Reads ((grammar.next_prim (under params.now within)).read cursor.old) result cursor.new }
{
    cursor.eat(Kind::Ampersand);
    prim(alloc, params, cursor, within)
}

#[tactic(auto, using(crate::proofs::Sees::sees_or, crate::proofs::Sees::next_prim_first))]
fn begins_next_prim(cursor: &Cursor<'_, '_>) -> bool
    ensures { result ≡ sees (grammar.next_prim full).first cursor.now.left }
{
    cursor.sees(Kind::Ampersand)
        || cursor.sees(Kind::Dim)
        || cursor.sees(Kind::LeftParenthesis)
        || cursor.sees_constant()
}

#[cycle(expr)]
#[tactic(auto, unfolding(xdg_ast::specs::Grammar::prims), using(crate::proofs::Loop::reading, crate::proofs::Listed::next_prim_item))]
fn prims(
    alloc: Global,
    params: &Params,
    cursor: &mut Cursor<'_, '_>,
    within: u32,
) -> Result<List<Expr>, Why>
    ensures { Reads ((grammar.prims (under params.now within)).read cursor.old) result cursor.new }
{
    let mut members = List::new(alloc);
    members.push(prim(alloc, params, cursor, within)?)?;
    'more: while begins_next_prim(cursor) {
        members.push(next_prim(alloc, params, cursor, within)?)?;
    }
    Ok(members)
}

#[cycle(expr)]
#[tactic(auto, unfolding(xdg_ast::specs::Grammar::conj))]
fn conj(
    alloc: Global,
    params: &Params,
    cursor: &mut Cursor<'_, '_>,
    within: u32,
) -> Result<Expr, Why>
    ensures { Reads ((grammar.conj (under params.now within)).read cursor.old) result cursor.new }
{
    let start = cursor.start();
    let members = prims(alloc, params, cursor, within)?;
    Ok(all_of(cursor.span_from(start), members))
}

#[cycle(expr)]
#[tactic(auto, unfolding(xdg_ast::specs::Grammar::next_conj))]
fn next_conj(
    alloc: Global,
    params: &Params,
    cursor: &mut Cursor<'_, '_>,
    within: u32,
) -> Result<Expr, Why>
    ensures { Reads ((grammar.next_conj (under params.now within)).read cursor.old) result cursor.new }
{
    cursor.expect(Kind::Bar)?;
    conj(alloc, params, cursor, within)
}

#[cycle(expr)]
#[tactic(auto, unfolding(xdg_ast::specs::Grammar::conjs), using(crate::proofs::Loop::reading, crate::proofs::Listed::next_conj_item))]
fn conjs(
    alloc: Global,
    params: &Params,
    cursor: &mut Cursor<'_, '_>,
    within: u32,
) -> Result<List<Expr>, Why>
    ensures { Reads ((grammar.conjs (under params.now within)).read cursor.old) result cursor.new }
{
    let mut members = List::new(alloc);
    members.push(conj(alloc, params, cursor, within)?)?;
    'more: while cursor.sees(Kind::Bar) {
        members.push(next_conj(alloc, params, cursor, within)?)?;
    }
    Ok(members)
}

/// An expression in the body of a class with these parameters, or of an entry.
#[cycle(expr)]
#[tactic(auto, unfolding(xdg_ast::specs::Grammar::expr))]
pub(crate) fn expr(
    alloc: Global,
    params: &Params,
    cursor: &mut Cursor<'_, '_>,
    within: u32,
) -> Result<Expr, Why>
    ensures { Reads ((grammar.expr (under params.now within)).read cursor.old) result cursor.new }
{
    let start = cursor.start();
    let members = conjs(alloc, params, cursor, within)?;
    Ok(any_of(cursor.span_from(start), members))
}
