//! Statements.

ghost use Rattle.std.specs.Prelude.{◌≡◌, []};
ghost use Rattle.xdg_ast.specs.declared.token.Kind.TheVariants as kinds;
ghost use Rattle.xdg_ast.specs.Language.{behind, is, pair, sees, token};
ghost use Rattle.xdg_ast.specs.Grammar as grammar;
ghost use Rattle.xdg_ast.specs.Grammar.{in_braces, under};
ghost use Rattle.xdg_parse.specs.Steps.{Reads};

use crate::cursor::{Cursor, Why};
use crate::dimensions::parts;
use crate::expressions::expr;
use crate::names::{name, name_from};
use crate::terms::term;
use std::alloc::Global;
use xdg_ast::{ClassParam, DimPart, Expr, Kind, Name, Params, Statement, StatementKind, Term};
use xdg_base::List;

#[tactic(auto, unfolding(xdg_ast::specs::Grammar::preset))]
fn preset(alloc: Global, cursor: &mut Cursor<'_, '_>, within: u32) -> Result<Option<Term>, Why>
    ensures { Reads ((grammar.preset within).read cursor.old) result cursor.new }
{
    if !cursor.sees(Kind::Colon) {
        return Ok(None);
    }
    cursor.expect(Kind::Colon)?;
    let given = term(alloc, &Params::none(alloc), cursor, within)?;
    Ok(Some(given))
}

#[tactic(auto, unfolding(xdg_ast::specs::Grammar::class_param))]
fn class_param(alloc: Global, cursor: &mut Cursor<'_, '_>, within: u32) -> Result<ClassParam, Why>
    ensures { Reads ((grammar.class_param within).read cursor.old) result cursor.new }
{
    let token = cursor.expect(Kind::Name)?;
    let name = name_from(alloc, &token)?;
    let preset = preset(alloc, cursor, within)?;
    Ok(ClassParam { name, preset })
}

#[tactic(auto, unfolding(xdg_ast::specs::Grammar::class_params), using(crate::proofs::Loop::reading, crate::proofs::Listed::class_param_item))]
fn class_params(
    alloc: Global,
    cursor: &mut Cursor<'_, '_>,
    within: u32,
) -> Result<List<ClassParam>, Why>
    ensures { Reads ((grammar.class_params within).read cursor.old) result cursor.new }
{
    let mut params = List::new(alloc);
    'params: while cursor.sees(Kind::Name) {
        params.push(class_param(alloc, cursor, within)?)?;
    }
    Ok(params)
}

/// The body of a class with these parameters, or of an entry.
#[tactic(auto, unfolding(xdg_ast::specs::Grammar::body, xdg_ast::specs::Grammar::under, xdg_ast::specs::Grammar::inside))]
fn body(
    alloc: Global,
    params: &Params,
    cursor: &mut Cursor<'_, '_>,
    within: u32,
) -> Result<Expr, Why>
    ensures { Reads ((grammar.body params.now within).read cursor.old) result cursor.new }
{
    let inner = cursor.open(Kind::LeftBrace, within)?;
    let expr = expr(alloc, params, cursor, inner)?;
    cursor.expect(Kind::RightBrace)?;
    Ok(expr)
}

#[tactic(auto, unfolding(xdg_ast::specs::Grammar::class_tail))]
fn class_tail(
    alloc: Global,
    cursor: &mut Cursor<'_, '_>,
    within: u32,
) -> Result<(List<ClassParam>, Expr), Why>
    ensures { Reads ((grammar.class_tail within).read cursor.old) result cursor.new }
{
    let params = class_params(alloc, cursor, within)?;
    let names = Params::of(alloc, params.as_slice())?;
    let body = body(alloc, &names, cursor, within)?;
    Ok((params, body))
}

/// The name of a dimension and its parts.
#[tactic(auto, unfolding(xdg_ast::specs::Grammar::under, xdg_ast::specs::Grammar::inside))]
fn dimension(
    alloc: Global,
    cursor: &mut Cursor<'_, '_>,
    within: u32,
) -> Result<(Name, List<DimPart>), Why>
    ensures { Reads ((behind (token (is kinds.DefDim)) (pair grammar.name (in_braces (under [] within) (λ j. j.parts)))).read cursor.old) result cursor.new }
{
    cursor.expect(Kind::DefDim)?;
    let name = name(alloc, cursor)?;
    let inner = cursor.open(Kind::LeftBrace, within)?;
    let parts = parts(alloc, cursor, inner)?;
    cursor.expect(Kind::RightBrace)?;
    Ok((name, parts))
}

#[tactic(auto, unfolding(xdg_ast::specs::Grammar::statement_kind))]
fn statement_kind(
    alloc: Global,
    cursor: &mut Cursor<'_, '_>,
    within: u32,
) -> Result<StatementKind, Why>
    ensures { Reads ((grammar.statement_kind within).read cursor.old) result cursor.new }
{
    if cursor.sees(Kind::UseDim) {
        cursor.expect(Kind::UseDim)?;
        return Ok(StatementKind::UseDim(name(alloc, cursor)?));
    }
    if cursor.sees(Kind::DefDim) {
        let (name, parts) = dimension(alloc, cursor, within)?;
        return Ok(StatementKind::DefDim(name, parts));
    }
    if cursor.sees(Kind::DefClass) {
        cursor.expect(Kind::DefClass)?;
        let name = name(alloc, cursor)?;
        let (params, body) = class_tail(alloc, cursor, within)?;
        return Ok(StatementKind::DefClass { name, params, body });
    }
    cursor.expect(Kind::DefEntry)?;
    let body = body(alloc, &Params::none(alloc), cursor, within)?;
    Ok(StatementKind::DefEntry(body))
}

#[tactic(auto, unfolding(xdg_ast::specs::Grammar::statement))]
fn statement(alloc: Global, cursor: &mut Cursor<'_, '_>, within: u32) -> Result<Statement, Why>
    ensures { Reads ((grammar.statement within).read cursor.old) result cursor.new }
{
    let start = cursor.start();
    let kind = statement_kind(alloc, cursor, within)?;
    Ok(Statement {
        kind,
        span: cursor.span_from(start),
    })
}

#[tactic(auto, unfolding(xdg_ast::specs::Grammar::statement, xdg_ast::specs::Grammar::statement_kind), using(crate::proofs::Sees::sees_or))]
fn begins_statement(cursor: &Cursor<'_, '_>) -> bool
    ensures { result ≡ sees (grammar.statement 0).first cursor.now.left }
{
    cursor.sees(Kind::UseDim)
        || cursor.sees(Kind::DefDim)
        || cursor.sees(Kind::DefClass)
        || cursor.sees(Kind::DefEntry)
}

/// Statements, as many as come.
#[tactic(auto, unfolding(xdg_ast::specs::Grammar::statements), using(crate::proofs::Loop::reading, crate::proofs::Listed::statement_item))]
pub(crate) fn statements(
    alloc: Global,
    cursor: &mut Cursor<'_, '_>,
    within: u32,
) -> Result<List<Statement>, Why>
    ensures { Reads ((grammar.statements within).read cursor.old) result cursor.new }
{
    let mut statements = List::new(alloc);
    'statements: while begins_statement(cursor) {
        statements.push(statement(alloc, cursor, within)?)?;
    }
    Ok(statements)
}
