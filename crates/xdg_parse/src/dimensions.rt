//! The parts of the definition of a dimension.

ghost use Rattle.std.specs.Prelude.{◌≡◌, []};
ghost use Rattle.xdg_ast.specs.declared.token.Kind.TheVariants as kinds;
ghost use Rattle.xdg_ast.specs.Language.{behind, full, is, pair, sees, token};
ghost use Rattle.xdg_ast.specs.Grammar as grammar;
ghost use Rattle.xdg_ast.specs.Grammar.{under, in_braces};
ghost use Rattle.xdg_parse.specs.Steps.{Reads};

use crate::cursor::{Cursor, Why};
use crate::names::name;
use crate::terms::braced_terms;
use crate::types::type_term;
use std::alloc::Global;
use xdg_ast::{DimPart, DimPartKind, Kind, Name, Pair, Params, Term};
use xdg_base::List;

/// The dimensions and the arguments of the use of a principle.
type Principle = (List<Pair<Name>>, Option<List<Pair<Term>>>);

#[tactic(auto, unfolding(xdg_ast::specs::Grammar::keyed_name, xdg_ast::specs::Grammar::name))]
fn keyed_name(alloc: Global, cursor: &mut Cursor<'_, '_>) -> Result<Pair<Name>, Why>
    ensures { Reads (grammar.keyed_name.read cursor.old) result cursor.new }
{
    let key = name(alloc, cursor)?;
    cursor.expect(Kind::Colon)?;
    let value = name(alloc, cursor)?;
    Ok(Pair { key, value })
}

#[tactic(auto, unfolding(xdg_ast::specs::Grammar::keyed_names), using(crate::proofs::Loop::reading, crate::proofs::Listed::keyed_name_item))]
fn keyed_names(alloc: Global, cursor: &mut Cursor<'_, '_>) -> Result<List<Pair<Name>>, Why>
    ensures { Reads (grammar.keyed_names.read cursor.old) result cursor.new }
{
    let mut names = List::new(alloc);
    'names: while cursor.sees_constant() {
        names.push(keyed_name(alloc, cursor)?)?;
    }
    Ok(names)
}

#[tactic(auto, unfolding(xdg_ast::specs::Grammar::principle_dims, xdg_ast::specs::Grammar::under, xdg_ast::specs::Grammar::inside))]
fn principle_dims(
    alloc: Global,
    cursor: &mut Cursor<'_, '_>,
    within: u32,
) -> Result<List<Pair<Name>>, Why>
    ensures { Reads ((grammar.principle_dims (under [] within)).read cursor.old) result cursor.new }
{
    cursor.expect(Kind::Dims)?;
    cursor.open(Kind::LeftBrace, within)?;
    let dims = keyed_names(alloc, cursor)?;
    cursor.expect(Kind::RightBrace)?;
    Ok(dims)
}

#[tactic(auto, unfolding(xdg_ast::specs::Grammar::principle_args))]
fn principle_args(
    alloc: Global,
    cursor: &mut Cursor<'_, '_>,
    within: u32,
) -> Result<List<Pair<Term>>, Why>
    ensures { Reads ((grammar.principle_args (under [] within)).read cursor.old) result cursor.new }
{
    cursor.expect(Kind::Args)?;
    braced_terms(alloc, &Params::none(alloc), cursor, within)
}

#[tactic(auto, unfolding(xdg_ast::specs::Grammar::principle, xdg_ast::specs::Grammar::principle_args))]
fn principle(alloc: Global, cursor: &mut Cursor<'_, '_>, within: u32) -> Result<Principle, Why>
    ensures { Reads ((grammar.principle (under [] within)).read cursor.old) result cursor.new }
{
    let dims = principle_dims(alloc, cursor, within)?;
    if !cursor.sees(Kind::Args) {
        return Ok((dims, None));
    }
    let args = principle_args(alloc, cursor, within)?;
    Ok((dims, Some(args)))
}

/// The name of a principle, and what stands in the braces behind it.
#[tactic(auto, unfolding(xdg_ast::specs::Grammar::under, xdg_ast::specs::Grammar::inside))]
fn use_of_principle(
    alloc: Global,
    cursor: &mut Cursor<'_, '_>,
    within: u32,
) -> Result<(Name, Principle), Why>
    ensures { Reads ((behind (token (is kinds.UsePrinciple)) (pair grammar.name (in_braces (under [] within) (λ j. j.principle)))).read cursor.old) result
        cursor.new }
{
    cursor.expect(Kind::UsePrinciple)?;
    let name = name(alloc, cursor)?;
    let inner = cursor.open(Kind::LeftBrace, within)?;
    let principle = principle(alloc, cursor, inner)?;
    cursor.expect(Kind::RightBrace)?;
    Ok((name, principle))
}

#[tactic(auto, unfolding(xdg_ast::specs::Grammar::part_kind))]
fn part_kind(alloc: Global, cursor: &mut Cursor<'_, '_>, within: u32) -> Result<DimPartKind, Why>
    ensures { Reads ((grammar.part_kind (under [] within)).read cursor.old) result cursor.new }
{
    if cursor.sees(Kind::DefType) {
        cursor.expect(Kind::DefType)?;
        let name = name(alloc, cursor)?;
        let meant = type_term(alloc, cursor, within)?;
        return Ok(DimPartKind::DefType(name, meant));
    }
    if cursor.sees(Kind::DefLabelType) {
        cursor.expect(Kind::DefLabelType)?;
        return Ok(DimPartKind::LabelType(type_term(alloc, cursor, within)?));
    }
    if cursor.sees(Kind::DefAttrsType) {
        cursor.expect(Kind::DefAttrsType)?;
        return Ok(DimPartKind::AttrsType(type_term(alloc, cursor, within)?));
    }
    if cursor.sees(Kind::DefEntryType) {
        cursor.expect(Kind::DefEntryType)?;
        return Ok(DimPartKind::EntryType(type_term(alloc, cursor, within)?));
    }
    if cursor.sees(Kind::UsePrinciple) {
        let (name, (dims, args)) = use_of_principle(alloc, cursor, within)?;
        return Ok(DimPartKind::UsePrinciple { name, dims, args });
    }
    if cursor.sees(Kind::Output) {
        cursor.expect(Kind::Output)?;
        return Ok(DimPartKind::Output(name(alloc, cursor)?));
    }
    cursor.expect(Kind::UseOutput)?;
    Ok(DimPartKind::UseOutput(name(alloc, cursor)?))
}

#[tactic(auto, unfolding(xdg_ast::specs::Grammar::part))]
fn part(alloc: Global, cursor: &mut Cursor<'_, '_>, within: u32) -> Result<DimPart, Why>
    ensures { Reads ((grammar.part (under [] within)).read cursor.old) result cursor.new }
{
    let start = cursor.start();
    let kind = part_kind(alloc, cursor, within)?;
    Ok(DimPart {
        kind,
        span: cursor.span_from(start),
    })
}

#[tactic(auto, unfolding(xdg_ast::specs::Grammar::part, xdg_ast::specs::Grammar::part_kind), using(crate::proofs::Sees::sees_or))]
fn begins_part(cursor: &Cursor<'_, '_>) -> bool
    ensures { result ≡ sees (grammar.part full).first cursor.now.left }
{
    cursor.sees(Kind::DefType)
        || cursor.sees(Kind::DefLabelType)
        || cursor.sees(Kind::DefAttrsType)
        || cursor.sees(Kind::DefEntryType)
        || cursor.sees(Kind::UsePrinciple)
        || cursor.sees(Kind::Output)
        || cursor.sees(Kind::UseOutput)
}

/// Parts, as many as come.
#[tactic(auto, unfolding(xdg_ast::specs::Grammar::parts), using(crate::proofs::Loop::reading, crate::proofs::Listed::part_item))]
pub(crate) fn parts(
    alloc: Global,
    cursor: &mut Cursor<'_, '_>,
    within: u32,
) -> Result<List<DimPart>, Why>
    ensures { Reads ((grammar.parts (under [] within)).read cursor.old) result cursor.new }
{
    let mut parts = List::new(alloc);
    'parts: while begins_part(cursor) {
        parts.push(part(alloc, cursor, within)?)?;
    }
    Ok(parts)
}
