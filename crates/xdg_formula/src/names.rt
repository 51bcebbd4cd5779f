//! Names of nodes, constants, and lists of constants.

ghost use Rattle.std.specs.Prelude.{◌≡◌};
ghost use Rattle.xdg_ast.specs.Language as spec;
ghost use Rattle.xdg_ast.specs.Language.{sees};
ghost use Rattle.xdg_parse.specs.Steps.{Reads, Takes};
ghost use Rattle.xdg_formula.specs.Rules as grammar;
ghost use Rattle.xdg_formula.specs.Words.{is_atom_word, is_name, is_outer_word, is_rule_constant};

use crate::words::{ABOVE, ALL, ATTR, EDGE, FEAT, LEFT, RULE, SAME, SOME};
use std::alloc::Global;
use xdg_ast::{Kind, Name, Token};
use xdg_base::List;
use xdg_parse::{Cursor, Why, name_from};

/// Whether the next token is the word of a rule or of a quantifier.
#[tactic(auto, using(xdg_parse::proofs::Sees::sees_or))]
fn sees_outer_word(cursor: &Cursor<'_, '_>) -> bool
    ensures { result ≡ sees is_outer_word cursor.now.left }
{
    cursor.sees(RULE) || cursor.sees(ALL) || cursor.sees(SOME)
}

/// Whether the next token is the word of an atom.
#[tactic(auto, using(xdg_parse::proofs::Sees::sees_or))]
fn sees_atom_word(cursor: &Cursor<'_, '_>) -> bool
    ensures { result ≡ sees is_atom_word cursor.now.left }
{
    cursor.sees(EDGE)
        || cursor.sees(ABOVE)
        || cursor.sees(LEFT)
        || cursor.sees(SAME)
        || cursor.sees(ATTR)
        || cursor.sees(FEAT)
}

/// Whether the next token is a name.
#[tactic(auto, using(xdg_parse::proofs::Sees::sees_or))]
fn sees_name(cursor: &Cursor<'_, '_>) -> bool
    ensures { result ≡ sees is_name cursor.now.left }
{
    cursor.sees(Kind::Name) || sees_outer_word(cursor) || sees_atom_word(cursor)
}

/// Whether the next token is a constant.
#[tactic(auto, using(xdg_parse::proofs::Sees::sees_or))]
fn sees_constant(cursor: &Cursor<'_, '_>) -> bool
    ensures { result ≡ sees is_rule_constant cursor.now.left }
{
    cursor.sees(Kind::Quoted) || sees_name(cursor)
}

/// The next token.
fn next<'a>(cursor: &mut Cursor<'_, 'a>) -> Result<Token<'a>, Why>
    ensures { Takes (spec.next cursor.old) result cursor.new }
{
    match cursor.kind() {
        None => Err(Why::Unexpected),
        Some(kind) => cursor.expect(kind),
    }
}

/// The name of a node.
#[tactic(auto, unfolding(crate::specs::Rules::node, xdg_ast::specs::Language::read_token))]
pub(crate) fn node(alloc: Global, cursor: &mut Cursor<'_, '_>) -> Result<Name, Why>
    ensures { Reads (grammar.node.read cursor.old) result cursor.new }
{
    if !sees_name(cursor) {
        return Err(Why::Unexpected);
    }
    let token = next(cursor)?;
    Ok(name_from(alloc, &token)?)
}

/// A constant.
#[tactic(auto, unfolding(crate::specs::Rules::constant, xdg_ast::specs::Language::read_token))]
pub(crate) fn constant(alloc: Global, cursor: &mut Cursor<'_, '_>) -> Result<Name, Why>
    ensures { Reads (grammar.constant.read cursor.old) result cursor.new }
{
    if !sees_constant(cursor) {
        return Err(Why::Unexpected);
    }
    let token = next(cursor)?;
    Ok(name_from(alloc, &token)?)
}

/// Constants, as many as come.
#[tactic(auto, unfolding(crate::specs::Rules::constants), using(xdg_parse::proofs::Loop::reading, crate::proofs::Listed::constant_item))]
pub(crate) fn constants(alloc: Global, cursor: &mut Cursor<'_, '_>) -> Result<List<Name>, Why>
    ensures { Reads (grammar.constants.read cursor.old) result cursor.new }
{
    let mut constants = List::new(alloc);
    'constants: while sees_constant(cursor) {
        constants.push(constant(alloc, cursor)?)?;
    }
    Ok(constants)
}
