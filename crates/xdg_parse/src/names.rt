//! Names, numbers, and lists of them.

ghost use Rattle.std.specs.Prelude.{◌≡◌, IfOk};
ghost use Rattle.xdg_ast.specs.Lexemes.{lexeme_of};
ghost use Rattle.xdg_ast.specs.Grammar as grammar;
ghost use Rattle.xdg_ast.specs.Grammar.{under, name_of};
ghost use Rattle.xdg_parse.specs.Steps.{Reads};

use crate::cursor::{Cursor, Why};
use std::alloc::Global;
use xdg_ast::{Kind, Name, Num, Params, Token};
use xdg_base::{List, OutOfMemory};
use xdg_lex::{content, value};

/// The name that a constant is. The error is want of memory.
pub fn name_from(alloc: Global, token: &Token) -> Result<Name, OutOfMemory>
    ensures { IfOk result (λ name. name ≡ name_of (lexeme_of token.now)) }
{
    let text = content(alloc, token)?;
    Ok(Name {
        text,
        span: token.span,
    })
}

/// A constant.
#[tactic(auto, unfolding(xdg_ast::specs::Grammar::name))]
pub fn name(alloc: Global, cursor: &mut Cursor<'_, '_>) -> Result<Name, Why>
    ensures { Reads (grammar.name.read cursor.old) result cursor.new }
{
    let token = cursor.constant()?;
    Ok(name_from(alloc, &token)?)
}

/// Constants, as many as come.
#[tactic(auto, unfolding(xdg_ast::specs::Grammar::names), using(crate::proofs::Loop::reading, crate::proofs::Listed::name_item))]
pub(crate) fn names(alloc: Global, cursor: &mut Cursor<'_, '_>) -> Result<List<Name>, Why>
    ensures { Reads (grammar.names.read cursor.old) result cursor.new }
{
    let mut names = List::new(alloc);
    'names: while cursor.sees_constant() {
        names.push(name(alloc, cursor)?)?;
    }
    Ok(names)
}

/// A number.
#[tactic(auto, unfolding(xdg_ast::specs::Grammar::num))]
pub(crate) fn num(cursor: &mut Cursor<'_, '_>) -> Result<Num, Why>
    ensures { Reads (grammar.num.read cursor.old) result cursor.new }
{
    let token = cursor.expect(Kind::Number)?;
    Ok(Num {
        value: value(&token),
        span: token.span,
    })
}

/// Numbers, as many as come.
#[tactic(auto, unfolding(xdg_ast::specs::Grammar::nums), using(crate::proofs::Loop::reading, crate::proofs::Listed::num_item))]
pub(crate) fn nums(alloc: Global, cursor: &mut Cursor<'_, '_>) -> Result<List<Num>, Why>
    ensures { Reads (grammar.nums.read cursor.old) result cursor.new }
{
    let mut nums = List::new(alloc);
    'nums: while cursor.sees(Kind::Number) {
        nums.push(num(cursor)?)?;
    }
    Ok(nums)
}

/// Two numbers.
#[tactic(auto, unfolding(xdg_ast::specs::Grammar::interval))]
pub(crate) fn interval(cursor: &mut Cursor<'_, '_>) -> Result<(Num, Num), Why>
    ensures { Reads (grammar.interval.read cursor.old) result cursor.new }
{
    let first = num(cursor)?;
    let last = num(cursor)?;
    Ok((first, last))
}

/// Constants in square brackets.
#[tactic(auto, unfolding(xdg_ast::specs::Grammar::bracketed_names, xdg_ast::specs::Grammar::under))]
pub(crate) fn bracketed_names(
    alloc: Global,
    params: &Params,
    cursor: &mut Cursor<'_, '_>,
    within: u32,
) -> Result<List<Name>, Why>
    ensures { Reads ((grammar.bracketed_names (under params.now within)).read cursor.old) result cursor.new }
{
    cursor.open(Kind::LeftBracket, within)?;
    let names = names(alloc, cursor)?;
    cursor.expect(Kind::RightBracket)?;
    Ok(names)
}
