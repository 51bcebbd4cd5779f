//! Formulas, in which `!` binds closer than `&`, and `&` closer than `|`.

ghost use Rattle.std.specs.Prelude.{◌≡◌, IfOk};
ghost use Rattle.xdg_ast.specs.Language.{behind, is, pair, token};
ghost use Rattle.xdg_parse.specs.Steps.{Reads};
ghost use Rattle.xdg_formula.specs.Rules as grammar;
ghost use Rattle.xdg_formula.specs.Rules.{in_parentheses, under};

use crate::atoms::atom;
use crate::names::node;
use crate::tree::{RuleKind, RuleTerm};
use crate::words::{ALL, SOME};
use std::alloc::Global;
use xdg_ast::{Kind, Name};
use xdg_base::{Boxed, List, OutOfMemory, Span};
use xdg_parse::{Cursor, Why};

/// One member is that member, and more are all of them.
fn conjunction(span: Span, members: List<RuleTerm>) -> RuleTerm
    ensures { result ≡ grammar.conjunction span members }
{
    let mut members = members;
    if members.len() == 1 {
        return members.pop().unwrap();
    }
    RuleTerm {
        kind: RuleKind::And(members),
        span,
    }
}

/// One member is that member, and more are any of them.
fn disjunction(span: Span, members: List<RuleTerm>) -> RuleTerm
    ensures { result ≡ grammar.disjunction span members }
{
    let mut members = members;
    if members.len() == 1 {
        return members.pop().unwrap();
    }
    RuleTerm {
        kind: RuleKind::Or(members),
        span,
    }
}

/// No sign leaves a formula as it is, and a run of signs is one node before it.
fn negated(
    alloc: Global,
    span: Span,
    signs: List<Span>,
    term: RuleTerm,
) -> Result<RuleTerm, OutOfMemory>
    ensures { IfOk result (λ made. made ≡ grammar.negated span (signs, term)) }
{
    if signs.len() == 0 {
        return Ok(term);
    }
    Ok(RuleTerm {
        kind: RuleKind::Not(signs, Boxed::new(alloc, term)?),
        span,
    })
}

/// The place of a sign `!`.
#[tactic(auto, unfolding(crate::specs::Rules::sign))]
fn sign(cursor: &mut Cursor<'_, '_>) -> Result<Span, Why>
    ensures { Reads (grammar.sign.read cursor.old) result cursor.new }
{
    let token = cursor.expect(Kind::Exclamation)?;
    Ok(token.span)
}

/// The places of a run of signs `!`, as many as come.
#[tactic(auto, unfolding(crate::specs::Rules::signs), using(xdg_parse::proofs::Loop::reading, crate::proofs::Listed::sign_item))]
fn signs(alloc: Global, cursor: &mut Cursor<'_, '_>) -> Result<List<Span>, Why>
    ensures { Reads (grammar.signs.read cursor.old) result cursor.new }
{
    let mut signs = List::new(alloc);
    'signs: while cursor.sees(Kind::Exclamation) {
        signs.push(sign(cursor)?)?;
    }
    Ok(signs)
}

/// A name and a formula in parentheses, behind a word.
#[cycle(formula)]
#[tactic(auto, unfolding(crate::specs::Rules::under, crate::specs::Rules::inside))]
fn bound(
    alloc: Global,
    cursor: &mut Cursor<'_, '_>,
    word: Kind,
    within: u32,
) -> Result<(Name, Boxed<RuleTerm>), Why>
    ensures { Reads ((behind (token (is word)) (pair grammar.node (in_parentheses (under within) (λ j. j.formula)))).read cursor.old) result cursor.new }
{
    cursor.expect(word)?;
    let name = node(alloc, cursor)?;
    let inner = cursor.open(Kind::LeftParenthesis, within)?;
    let body = formula(alloc, cursor, inner)?;
    cursor.expect(Kind::RightParenthesis)?;
    Ok((name, Boxed::new(alloc, body)?))
}

#[cycle(formula)]
#[tactic(auto, unfolding(crate::specs::Rules::simple_kind, crate::specs::Rules::every, crate::specs::Rules::any))]
fn simple_kind(alloc: Global, cursor: &mut Cursor<'_, '_>, within: u32) -> Result<RuleKind, Why>
    ensures { Reads ((grammar.simple_kind (under within)).read cursor.old) result cursor.new }
{
    if cursor.sees(ALL) {
        let (name, body) = bound(alloc, cursor, ALL, within)?;
        return Ok(RuleKind::Every(name, body));
    }
    if cursor.sees(SOME) {
        let (name, body) = bound(alloc, cursor, SOME, within)?;
        return Ok(RuleKind::Any(name, body));
    }
    atom(alloc, cursor, within)
}

/// A formula without a sign before it.
#[cycle(formula)]
#[tactic(auto, unfolding(crate::specs::Rules::simple, crate::specs::Rules::under, crate::specs::Rules::inside))]
fn simple(alloc: Global, cursor: &mut Cursor<'_, '_>, within: u32) -> Result<RuleTerm, Why>
    ensures { Reads ((grammar.simple (under within)).read cursor.old) result cursor.new }
{
    if cursor.sees(Kind::LeftParenthesis) {
        let inner = cursor.open(Kind::LeftParenthesis, within)?;
        let term = formula(alloc, cursor, inner)?;
        cursor.expect(Kind::RightParenthesis)?;
        return Ok(term);
    }
    let start = cursor.start();
    let kind = simple_kind(alloc, cursor, within)?;
    Ok(RuleTerm {
        kind,
        span: cursor.span_from(start),
    })
}

#[cycle(formula)]
#[tactic(auto, unfolding(crate::specs::Rules::prim))]
fn prim(alloc: Global, cursor: &mut Cursor<'_, '_>, within: u32) -> Result<RuleTerm, Why>
    ensures { Reads ((grammar.prim (under within)).read cursor.old) result cursor.new }
{
    let start = cursor.start();
    let signs = signs(alloc, cursor)?;
    let term = simple(alloc, cursor, within)?;
    Ok(negated(alloc, cursor.span_from(start), signs, term)?)
}

#[cycle(formula)]
#[tactic(auto, unfolding(crate::specs::Rules::next_prim))]
fn next_prim(alloc: Global, cursor: &mut Cursor<'_, '_>, within: u32) -> Result<RuleTerm, Why>
    ensures { Reads ((grammar.next_prim (under within)).read cursor.old) result cursor.new }
{
    cursor.expect(Kind::Ampersand)?;
    prim(alloc, cursor, within)
}

#[cycle(formula)]
#[tactic(auto, unfolding(crate::specs::Rules::prims), using(xdg_parse::proofs::Loop::reading, crate::proofs::Listed::next_prim_item))]
fn prims(alloc: Global, cursor: &mut Cursor<'_, '_>, within: u32) -> Result<List<RuleTerm>, Why>
    ensures { Reads ((grammar.prims (under within)).read cursor.old) result cursor.new }
{
    let mut members = List::new(alloc);
    members.push(prim(alloc, cursor, within)?)?;
    'more: while cursor.sees(Kind::Ampersand) {
        members.push(next_prim(alloc, cursor, within)?)?;
    }
    Ok(members)
}

#[cycle(formula)]
#[tactic(auto, unfolding(crate::specs::Rules::conj))]
fn conj(alloc: Global, cursor: &mut Cursor<'_, '_>, within: u32) -> Result<RuleTerm, Why>
    ensures { Reads ((grammar.conj (under within)).read cursor.old) result cursor.new }
{
    let start = cursor.start();
    let members = prims(alloc, cursor, within)?;
    Ok(conjunction(cursor.span_from(start), members))
}

#[cycle(formula)]
#[tactic(auto, unfolding(crate::specs::Rules::next_conj))]
fn next_conj(alloc: Global, cursor: &mut Cursor<'_, '_>, within: u32) -> Result<RuleTerm, Why>
    ensures { Reads ((grammar.next_conj (under within)).read cursor.old) result cursor.new }
{
    cursor.expect(Kind::Bar)?;
    conj(alloc, cursor, within)
}

#[cycle(formula)]
#[tactic(auto, unfolding(crate::specs::Rules::conjs), using(xdg_parse::proofs::Loop::reading, crate::proofs::Listed::next_conj_item))]
fn conjs(alloc: Global, cursor: &mut Cursor<'_, '_>, within: u32) -> Result<List<RuleTerm>, Why>
    ensures { Reads ((grammar.conjs (under within)).read cursor.old) result cursor.new }
{
    let mut members = List::new(alloc);
    members.push(conj(alloc, cursor, within)?)?;
    'more: while cursor.sees(Kind::Bar) {
        members.push(next_conj(alloc, cursor, within)?)?;
    }
    Ok(members)
}

/// A formula, in which `within` more brackets may be opened.
#[cycle(formula)]
#[tactic(auto, unfolding(crate::specs::Rules::formula))]
pub(crate) fn formula(
    alloc: Global,
    cursor: &mut Cursor<'_, '_>,
    within: u32,
) -> Result<RuleTerm, Why>
    ensures { Reads ((grammar.formula (under within)).read cursor.old) result cursor.new }
{
    let start = cursor.start();
    let members = conjs(alloc, cursor, within)?;
    Ok(disjunction(cursor.span_from(start), members))
}
