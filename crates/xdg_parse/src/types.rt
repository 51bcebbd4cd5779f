//! Types.

ghost use Rattle.std.specs.Prelude.{◌≡◌, [], ◌∷◌};
ghost use Rattle.xdg_ast.specs.declared.token.Kind.TheVariants as kinds;
ghost use Rattle.xdg_ast.specs.Language.{behind, full, is, sees, token};
ghost use Rattle.xdg_ast.specs.Grammar as grammar;
ghost use Rattle.xdg_ast.specs.Grammar.{under, in_braces, in_parentheses};
ghost use Rattle.xdg_parse.specs.Steps.{Reads};
ghost use Rattle.xdg_parse.specs.Parts.{giving, plain_type};

use crate::cursor::{Cursor, Why};
use crate::names::name;
use std::alloc::Global;
use xdg_ast::{Kind, Name, Pair, TypeKind, TypeTerm};
use xdg_base::{Boxed, List};

/// A type that is one word.
#[tactic(auto, unfolding(xdg_ast::specs::Grammar::name))]
fn plain_type(alloc: Global, cursor: &mut Cursor<'_, '_>) -> Result<TypeKind, Why>
    ensures { Reads (plain_type.read cursor.old) result cursor.new }
{
    if cursor.sees(Kind::Card) {
        cursor.expect(Kind::Card)?;
        return Ok(TypeKind::Card);
    }
    if cursor.sees(Kind::Bool) {
        cursor.expect(Kind::Bool)?;
        return Ok(TypeKind::Bool);
    }
    if cursor.sees(Kind::Int) {
        cursor.expect(Kind::Int)?;
        return Ok(TypeKind::Int);
    }
    if cursor.sees(Kind::String) {
        cursor.expect(Kind::String)?;
        return Ok(TypeKind::Str);
    }
    Ok(TypeKind::Named(name(alloc, cursor)?))
}

/// A type in parentheses, behind a keyword.
#[cycle(type_term)]
#[tactic(auto, unfolding(xdg_ast::specs::Grammar::under, xdg_ast::specs::Grammar::inside))]
fn one_type(
    alloc: Global,
    cursor: &mut Cursor<'_, '_>,
    keyword: Kind,
    within: u32,
) -> Result<Boxed<TypeTerm>, Why>
    ensures { Reads ((behind (token (is keyword)) (in_parentheses (under [] within) (λ j. j.one_type))).read cursor.old) result cursor.new }
{
    cursor.expect(keyword)?;
    let inner = cursor.open(Kind::LeftParenthesis, within)?;
    let one = boxed_type(alloc, cursor, inner)?;
    cursor.expect(Kind::RightParenthesis)?;
    Ok(one)
}

/// Types in parentheses, behind the keyword `tuple`.
#[cycle(type_term)]
#[tactic(auto, unfolding(xdg_ast::specs::Grammar::under, xdg_ast::specs::Grammar::inside))]
fn tuple_types(
    alloc: Global,
    cursor: &mut Cursor<'_, '_>,
    within: u32,
) -> Result<List<TypeTerm>, Why>
    ensures { Reads ((behind (token (is kinds.Tuple)) (in_parentheses (under [] within) (λ j. j.more_types))).read cursor.old) result cursor.new }
{
    cursor.expect(Kind::Tuple)?;
    let inner = cursor.open(Kind::LeftParenthesis, within)?;
    let types = more_types(alloc, cursor, inner)?;
    cursor.expect(Kind::RightParenthesis)?;
    Ok(types)
}

/// Two types, one behind the other.
#[cycle(type_term)]
#[tactic(auto, unfolding(xdg_ast::specs::Grammar::two_types))]
fn two_types(
    alloc: Global,
    cursor: &mut Cursor<'_, '_>,
    within: u32,
) -> Result<(Boxed<TypeTerm>, Boxed<TypeTerm>), Why>
    ensures { Reads ((grammar.two_types (under [] within)).read cursor.old) result cursor.new }
{
    let first = boxed_type(alloc, cursor, within)?;
    let second = boxed_type(alloc, cursor, within)?;
    Ok((first, second))
}

/// Two types in parentheses, behind the keyword `map`.
#[cycle(type_term)]
#[tactic(auto, unfolding(xdg_ast::specs::Grammar::under, xdg_ast::specs::Grammar::inside))]
fn map_types(
    alloc: Global,
    cursor: &mut Cursor<'_, '_>,
    within: u32,
) -> Result<(Boxed<TypeTerm>, Boxed<TypeTerm>), Why>
    ensures { Reads ((behind (token (is kinds.Map)) (in_parentheses (under [] within) (λ j. j.two_types))).read cursor.old) result cursor.new }
{
    cursor.expect(Kind::Map)?;
    let inner = cursor.open(Kind::LeftParenthesis, within)?;
    let types = two_types(alloc, cursor, inner)?;
    cursor.expect(Kind::RightParenthesis)?;
    Ok(types)
}

#[cycle(type_term)]
#[tactic(auto, unfolding(xdg_ast::specs::Grammar::type_kind))]
fn type_kind(alloc: Global, cursor: &mut Cursor<'_, '_>, within: u32) -> Result<TypeKind, Why>
    ensures { Reads ((grammar.type_kind (under [] within)).read cursor.old) result cursor.new }
{
    if cursor.sees(Kind::LeftBrace) {
        return braced(alloc, cursor, within);
    }
    if cursor.sees(Kind::Tuple) {
        return Ok(TypeKind::Tuple(tuple_types(alloc, cursor, within)?));
    }
    if cursor.sees(Kind::Set) {
        return Ok(TypeKind::Set(one_type(alloc, cursor, Kind::Set, within)?));
    }
    if cursor.sees(Kind::ISet) {
        let one = one_type(alloc, cursor, Kind::ISet, within)?;
        return Ok(TypeKind::ISet(one));
    }
    if cursor.sees(Kind::Valency) {
        let one = one_type(alloc, cursor, Kind::Valency, within)?;
        return Ok(TypeKind::Valency(one));
    }
    if cursor.sees(Kind::Map) {
        let (from, to) = map_types(alloc, cursor, within)?;
        return Ok(TypeKind::Map(from, to));
    }
    plain_type(alloc, cursor)
}

/// A type, in which `within` more brackets may be opened.
#[cycle(type_term)]
#[tactic(auto, unfolding(xdg_ast::specs::Grammar::type_term))]
pub fn type_term(alloc: Global, cursor: &mut Cursor<'_, '_>, within: u32) -> Result<TypeTerm, Why>
    ensures { Reads ((grammar.type_term (under [] within)).read cursor.old) result cursor.new }
{
    let start = cursor.start();
    let kind = type_kind(alloc, cursor, within)?;
    Ok(TypeTerm {
        kind,
        span: cursor.span_from(start),
    })
}

/// A type on the heap.
#[cycle(type_term)]
fn boxed_type(
    alloc: Global,
    cursor: &mut Cursor<'_, '_>,
    within: u32,
) -> Result<Boxed<TypeTerm>, Why>
    ensures { Reads ((grammar.type_term (under [] within)).read cursor.old) result cursor.new }
{
    let one = type_term(alloc, cursor, within)?;
    Ok(Boxed::new(alloc, one)?)
}

#[cycle(type_term)]
#[tactic(auto, unfolding(xdg_ast::specs::Grammar::keyed_type, xdg_ast::specs::Grammar::name))]
fn keyed_type(
    alloc: Global,
    cursor: &mut Cursor<'_, '_>,
    within: u32,
) -> Result<Pair<TypeTerm>, Why>
    ensures { Reads ((grammar.keyed_type (under [] within)).read cursor.old) result cursor.new }
{
    let key = name(alloc, cursor)?;
    cursor.expect(Kind::Colon)?;
    let value = type_term(alloc, cursor, within)?;
    Ok(Pair { key, value })
}

/// Fields, of which the first is there already.
#[cycle(type_term)]
#[tactic(auto, unfolding(xdg_ast::specs::Grammar::keyed_types), using(crate::proofs::Loop::reading, crate::proofs::Listed::keyed_type_item))]
fn keyed_types(
    alloc: Global,
    cursor: &mut Cursor<'_, '_>,
    within: u32,
    first: Pair<TypeTerm>,
) -> Result<List<Pair<TypeTerm>>, Why>
    ensures { Reads (giving (λ others. first ∷ others) ((grammar.keyed_types (under [] within)).read cursor.old)) result cursor.new }
{
    let mut fields = List::new(alloc);
    fields.push(first)?;
    'fields: while cursor.sees_constant() {
        fields.push(keyed_type(alloc, cursor, within)?)?;
    }
    Ok(fields)
}

/// Constants, of which the first is there already.
#[tactic(auto, unfolding(xdg_ast::specs::Grammar::names), using(crate::proofs::Loop::reading, crate::proofs::Listed::name_item))]
fn more_names(alloc: Global, cursor: &mut Cursor<'_, '_>, first: Name) -> Result<List<Name>, Why>
    ensures { Reads (giving (λ others. first ∷ others) (grammar.names.read cursor.old)) result cursor.new }
{
    let mut names = List::new(alloc);
    names.push(first)?;
    'names: while cursor.sees_constant() {
        names.push(name(alloc, cursor)?)?;
    }
    Ok(names)
}

/// What stands in the braces of a type behind its first constant.
#[cycle(type_term)]
#[tactic(auto, unfolding(xdg_ast::specs::Grammar::braced_tail, xdg_ast::specs::Grammar::keyed_types, xdg_ast::specs::Grammar::names))]
fn braced_tail(
    alloc: Global,
    cursor: &mut Cursor<'_, '_>,
    within: u32,
    first: Name,
) -> Result<TypeKind, Why>
    ensures { Reads (giving (λ make. make first) ((grammar.braced_tail (under [] within)).read cursor.old)) result cursor.new }
{
    if !cursor.sees(Kind::Colon) {
        return Ok(TypeKind::Domain(more_names(alloc, cursor, first)?));
    }
    cursor.expect(Kind::Colon)?;
    let value = type_term(alloc, cursor, within)?;
    let field = Pair { key: first, value };
    Ok(TypeKind::Rec(keyed_types(alloc, cursor, within, field)?))
}

/// A type in braces.
#[cycle(type_term)]
#[tactic(auto, unfolding(xdg_ast::specs::Grammar::under, xdg_ast::specs::Grammar::inside, xdg_ast::specs::Grammar::braced, xdg_ast::specs::Grammar::name))]
fn braced(alloc: Global, cursor: &mut Cursor<'_, '_>, within: u32) -> Result<TypeKind, Why>
    ensures { Reads ((in_braces (under [] within) (λ j. j.braced)).read cursor.old) result cursor.new }
{
    let inner = cursor.open(Kind::LeftBrace, within)?;
    if !cursor.sees_constant() {
        cursor.expect(Kind::RightBrace)?;
        return Ok(TypeKind::Empty);
    }
    let first = name(alloc, cursor)?;
    let kind = braced_tail(alloc, cursor, inner, first)?;
    cursor.expect(Kind::RightBrace)?;
    Ok(kind)
}

#[tactic(auto, unfolding(xdg_ast::specs::Grammar::name), using(crate::proofs::Sees::sees_or))]
fn begins_plain_type(cursor: &Cursor<'_, '_>) -> bool
    ensures { result ≡ sees plain_type.first cursor.now.left }
{
    cursor.sees(Kind::Card)
        || cursor.sees(Kind::Bool)
        || cursor.sees(Kind::Int)
        || cursor.sees(Kind::String)
        || cursor.sees_constant()
}

#[tactic(auto, using(crate::proofs::Sees::sees_or, crate::proofs::Sees::type_first))]
fn begins_type(cursor: &Cursor<'_, '_>) -> bool
    ensures { result ≡ sees (grammar.type_term full).first cursor.now.left }
{
    cursor.sees(Kind::LeftBrace)
        || cursor.sees(Kind::Tuple)
        || cursor.sees(Kind::Set)
        || cursor.sees(Kind::ISet)
        || cursor.sees(Kind::Valency)
        || cursor.sees(Kind::Map)
        || begins_plain_type(cursor)
}

#[cycle(type_term)]
#[tactic(auto, unfolding(xdg_ast::specs::Grammar::more_types), using(crate::proofs::Loop::reading, crate::proofs::Listed::type_term_item))]
fn more_types(
    alloc: Global,
    cursor: &mut Cursor<'_, '_>,
    within: u32,
) -> Result<List<TypeTerm>, Why>
    ensures { Reads ((grammar.more_types (under [] within)).read cursor.old) result cursor.new }
{
    let mut types = List::new(alloc);
    types.push(type_term(alloc, cursor, within)?)?;
    'more: while begins_type(cursor) {
        types.push(type_term(alloc, cursor, within)?)?;
    }
    Ok(types)
}
