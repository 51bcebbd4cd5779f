//! Cardinalities.

ghost use Rattle.std.specs.Prelude.{◌≡◌};
ghost use Rattle.xdg_ast.specs.Language.{sees, full};
ghost use Rattle.xdg_ast.specs.Grammar as grammar;
ghost use Rattle.xdg_ast.specs.Grammar.{under};
ghost use Rattle.xdg_parse.specs.Steps.{Reads};

use crate::cursor::{Cursor, Why};
use crate::names::{interval, nums};
use std::alloc::Global;
use xdg_ast::{CardKind, CardTerm, Kind, Params};

/// What stands behind `#`.
#[tactic(auto, unfolding(xdg_ast::specs::Grammar::hashed, xdg_ast::specs::Grammar::under, xdg_ast::specs::Grammar::inside))]
fn hashed(
    alloc: Global,
    params: &Params,
    cursor: &mut Cursor<'_, '_>,
    within: u32,
) -> Result<CardKind, Why>
    ensures { Reads ((grammar.hashed (under params.now within)).read cursor.old) result cursor.new }
{
    if cursor.sees(Kind::LeftBrace) {
        cursor.open(Kind::LeftBrace, within)?;
        let numbers = nums(alloc, cursor)?;
        cursor.expect(Kind::RightBrace)?;
        return Ok(CardKind::Numbers(numbers));
    }
    cursor.open(Kind::LeftBracket, within)?;
    let (first, last) = interval(cursor)?;
    cursor.expect(Kind::RightBracket)?;
    Ok(CardKind::Interval(first, last))
}

#[tactic(auto, unfolding(xdg_ast::specs::Grammar::card_kind))]
fn card_kind(
    alloc: Global,
    params: &Params,
    cursor: &mut Cursor<'_, '_>,
    within: u32,
) -> Result<CardKind, Why>
    ensures { Reads ((grammar.card_kind (under params.now within)).read cursor.old) result cursor.new }
{
    if cursor.sees(Kind::Exclamation) {
        cursor.expect(Kind::Exclamation)?;
        return Ok(CardKind::One);
    }
    if cursor.sees(Kind::Question) {
        cursor.expect(Kind::Question)?;
        return Ok(CardKind::Maybe);
    }
    if cursor.sees(Kind::Star) {
        cursor.expect(Kind::Star)?;
        return Ok(CardKind::Any);
    }
    if cursor.sees(Kind::Plus) {
        cursor.expect(Kind::Plus)?;
        return Ok(CardKind::Some1);
    }
    cursor.expect(Kind::Hash)?;
    hashed(alloc, params, cursor, within)
}

/// A cardinality.
#[tactic(auto, unfolding(xdg_ast::specs::Grammar::card))]
pub(crate) fn card(
    alloc: Global,
    params: &Params,
    cursor: &mut Cursor<'_, '_>,
    within: u32,
) -> Result<CardTerm, Why>
    ensures { Reads ((grammar.card (under params.now within)).read cursor.old) result cursor.new }
{
    let start = cursor.start();
    let kind = card_kind(alloc, params, cursor, within)?;
    Ok(CardTerm {
        kind,
        span: cursor.span_from(start),
    })
}

/// Whether a cardinality begins with the next token.
#[tactic(auto, using(crate::proofs::Sees::sees_or, crate::proofs::Sees::card_first))]
pub(crate) fn begins_card(cursor: &Cursor<'_, '_>) -> bool
    ensures { result ≡ sees (grammar.card full).first cursor.now.left }
{
    cursor.sees(Kind::Exclamation)
        || cursor.sees(Kind::Question)
        || cursor.sees(Kind::Star)
        || cursor.sees(Kind::Plus)
        || cursor.sees(Kind::Hash)
}
