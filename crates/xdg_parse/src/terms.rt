//! Terms and their elements.

ghost use Rattle.std.specs.Prelude.{◌≡◌, IfOk, []};
ghost use Rattle.xdg_ast.specs.Lexemes.{lexeme_of};
ghost use Rattle.xdg_ast.specs.Language.{sees, full};
ghost use Rattle.xdg_ast.specs.Grammar as grammar;
ghost use Rattle.xdg_ast.specs.Grammar.{under, in_braces};
ghost use Rattle.xdg_parse.specs.Steps.{Reads};
ghost use Rattle.xdg_parse.specs.Parts.{giving};

use crate::cards::{begins_card, card};
use crate::cursor::{Cursor, Why};
use crate::generators::generator;
use crate::names::{bracketed_names, name, name_from};
use std::alloc::Global;
use xdg_ast::{Elem, ElemKind, Kind, Name, Pair, Params, Term, TermKind, Token};
use xdg_base::{Boxed, List, OutOfMemory};
use xdg_lex::value;

/// A parameter of the class, if the token is a name of one, and else a constant.
fn named(alloc: Global, params: &Params, token: &Token) -> Result<TermKind, OutOfMemory>
    ensures { IfOk result (λ kind. kind ≡ grammar.named params.now (lexeme_of token.now)) }
{
    let name = name_from(alloc, token)?;
    if Kind::Name as u8 == token.kind as u8 && params.contains(name.text.as_str()) {
        return Ok(TermKind::Param(name));
    }
    Ok(TermKind::Const(name))
}

/// Elements in braces, in the order of the text.
#[cycle(term)]
#[tactic(auto, unfolding(xdg_ast::specs::Grammar::under, xdg_ast::specs::Grammar::inside))]
fn braced_elems(
    alloc: Global,
    params: &Params,
    cursor: &mut Cursor<'_, '_>,
    within: u32,
) -> Result<List<Elem>, Why>
    ensures { Reads ((in_braces (under params.now within) (λ j. j.elems)).read cursor.old) result cursor.new }
{
    let inner = cursor.open(Kind::LeftBrace, within)?;
    let elems = elems(alloc, params, cursor, inner)?;
    cursor.expect(Kind::RightBrace)?;
    Ok(elems)
}

#[cycle(term)]
#[tactic(auto, unfolding(xdg_ast::specs::Grammar::term_kind, xdg_ast::specs::Grammar::bracketed_names))]
fn term_kind(
    alloc: Global,
    params: &Params,
    cursor: &mut Cursor<'_, '_>,
    within: u32,
) -> Result<TermKind, Why>
    ensures { Reads ((grammar.term_kind params.now (under params.now within)).read cursor.old) result cursor.new }
{
    if cursor.sees(Kind::Number) {
        let token = cursor.expect(Kind::Number)?;
        return Ok(TermKind::Number(value(&token)));
    }
    if cursor.sees(Kind::LeftBrace) {
        return Ok(TermKind::Braces(braced_elems(alloc, params, cursor, within)?));
    }
    if cursor.sees(Kind::LeftBracket) {
        return Ok(TermKind::Tuple(bracketed_names(alloc, params, cursor, within)?));
    }
    if cursor.sees(Kind::Dollar) {
        cursor.expect(Kind::Dollar)?;
        return Ok(TermKind::Gen(generator(alloc, params, cursor, within)?));
    }
    if cursor.sees_constant() {
        let token = cursor.constant()?;
        return Ok(named(alloc, params, &token)?);
    }
    Ok(TermKind::Card(card(alloc, params, cursor, within)?))
}

/// A term of a class with these parameters, or of none.
#[cycle(term)]
#[tactic(auto, unfolding(xdg_ast::specs::Grammar::term))]
pub fn term(
    alloc: Global,
    params: &Params,
    cursor: &mut Cursor<'_, '_>,
    within: u32,
) -> Result<Term, Why>
    ensures { Reads ((grammar.term params.now (under params.now within)).read cursor.old) result cursor.new }
{
    let start = cursor.start();
    let kind = term_kind(alloc, params, cursor, within)?;
    Ok(Term {
        kind,
        span: cursor.span_from(start),
    })
}

/// What an element is, of which the constant was read.
#[cycle(term)]
#[tactic(auto, unfolding(xdg_ast::specs::Grammar::elem_tail), using(crate::proofs::Sees::card_first))]
fn elem_tail(
    alloc: Global,
    params: &Params,
    cursor: &mut Cursor<'_, '_>,
    within: u32,
    name: Name,
) -> Result<ElemKind, Why>
    ensures { Reads (giving (λ make. make name) ((grammar.elem_tail params.now (under params.now within)).read cursor.old)) result cursor.new }
{
    if cursor.sees(Kind::Colon) {
        cursor.expect(Kind::Colon)?;
        let term = term(alloc, params, cursor, within)?;
        return Ok(ElemKind::Keyed(name, Boxed::new(alloc, term)?));
    }
    if begins_card(cursor) {
        return Ok(ElemKind::Count(name, card(alloc, params, cursor, within)?));
    }
    Ok(ElemKind::Const(name))
}

#[cycle(term)]
#[tactic(auto, unfolding(xdg_ast::specs::Grammar::elem_kind, xdg_ast::specs::Grammar::bracketed_names))]
fn elem_kind(
    alloc: Global,
    params: &Params,
    cursor: &mut Cursor<'_, '_>,
    within: u32,
) -> Result<ElemKind, Why>
    ensures { Reads ((grammar.elem_kind params.now (under params.now within)).read cursor.old) result cursor.new }
{
    if cursor.sees(Kind::LeftBracket) {
        return Ok(ElemKind::Tuple(bracketed_names(alloc, params, cursor, within)?));
    }
    let name = name(alloc, cursor)?;
    elem_tail(alloc, params, cursor, within, name)
}

#[cycle(term)]
#[tactic(auto, unfolding(xdg_ast::specs::Grammar::elem))]
fn elem(
    alloc: Global,
    params: &Params,
    cursor: &mut Cursor<'_, '_>,
    within: u32,
) -> Result<Elem, Why>
    ensures { Reads ((grammar.elem params.now (under params.now within)).read cursor.old) result cursor.new }
{
    let start = cursor.start();
    let kind = elem_kind(alloc, params, cursor, within)?;
    Ok(Elem {
        kind,
        span: cursor.span_from(start),
    })
}

#[tactic(auto, using(crate::proofs::Sees::sees_or, crate::proofs::Sees::elem_first))]
fn begins_elem(cursor: &Cursor<'_, '_>) -> bool
    ensures { result ≡ sees (grammar.elem [] full).first cursor.now.left }
{
    cursor.sees(Kind::LeftBracket) || cursor.sees_constant()
}

#[cycle(term)]
#[tactic(auto, unfolding(xdg_ast::specs::Grammar::elems), using(crate::proofs::Loop::reading, crate::proofs::Listed::elem_item))]
fn elems(
    alloc: Global,
    params: &Params,
    cursor: &mut Cursor<'_, '_>,
    within: u32,
) -> Result<List<Elem>, Why>
    ensures { Reads ((grammar.elems params.now (under params.now within)).read cursor.old) result cursor.new }
{
    let mut elems = List::new(alloc);
    'elems: while begins_elem(cursor) {
        elems.push(elem(alloc, params, cursor, within)?)?;
    }
    Ok(elems)
}

#[tactic(auto, unfolding(xdg_ast::specs::Grammar::keyed_term, xdg_ast::specs::Grammar::name))]
fn keyed_term(
    alloc: Global,
    params: &Params,
    cursor: &mut Cursor<'_, '_>,
    within: u32,
) -> Result<Pair<Term>, Why>
    ensures { Reads ((grammar.keyed_term params.now (under params.now within)).read cursor.old) result cursor.new }
{
    let key = name(alloc, cursor)?;
    cursor.expect(Kind::Colon)?;
    let value = term(alloc, params, cursor, within)?;
    Ok(Pair { key, value })
}

#[tactic(auto, unfolding(xdg_ast::specs::Grammar::terms), using(crate::proofs::Loop::reading, crate::proofs::Listed::keyed_term_item))]
fn terms(
    alloc: Global,
    params: &Params,
    cursor: &mut Cursor<'_, '_>,
    within: u32,
) -> Result<List<Pair<Term>>, Why>
    ensures { Reads ((grammar.terms params.now (under params.now within)).read cursor.old) result cursor.new }
{
    let mut terms = List::new(alloc);
    'terms: while cursor.sees_constant() {
        terms.push(keyed_term(alloc, params, cursor, within)?)?;
    }
    Ok(terms)
}

/// Constants with their terms, in braces, in the order of the text.
#[tactic(auto, unfolding(xdg_ast::specs::Grammar::braced_terms, xdg_ast::specs::Grammar::under, xdg_ast::specs::Grammar::inside))]
pub fn braced_terms(
    alloc: Global,
    params: &Params,
    cursor: &mut Cursor<'_, '_>,
    within: u32,
) -> Result<List<Pair<Term>>, Why>
    ensures { Reads ((grammar.braced_terms (under params.now within)).read cursor.old) result cursor.new }
{
    let inner = cursor.open(Kind::LeftBrace, within)?;
    let terms = terms(alloc, params, cursor, inner)?;
    cursor.expect(Kind::RightBrace)?;
    Ok(terms)
}
