//! The tree of a rules text.

ghost use Rattle.std.specs.Prelude.{◌≡◌, ◌<◌, ◌^◌, Result, length};
ghost use Rattle.xdg_base.specs.declared.faults.Fault as faults;
ghost use Rattle.xdg_ast.specs.Lexemes.{lexemes_of};
ghost use Rattle.xdg_formula.specs.declared.tree.Rules as trees;
ghost use Rattle.xdg_formula.specs.Texts.{TellsSeen, Tells, IsAnswer};
ghost use Rattle.xdg_base.specs.Told.{Gives};
ghost use Rattle.xdg_formula.specs.Words.{seen_all};

use crate::rules::rules;
use crate::tree::Rules;
use crate::words::seen_all;
use std::alloc::Global;
use xdg_ast::Token;
use xdg_base::{List, Stop};
use xdg_lex::tokens;
use xdg_parse::{Cursor, MOST_BRACKETS, Why, too_deep, unexpected};

/// The tree of tokens with the kinds that they have in rules, of a text that ends at a place.
fn parsed(alloc: Global, tokens: &[Token], end: u32) -> Result<Rules, Stop>
    ensures { TellsSeen (lexemes_of tokens.now) end result }
{
    let mut cursor = Cursor::new(tokens);
    match rules(alloc, &mut cursor, MOST_BRACKETS) {
        Ok(rules) => match cursor.kind() {
            None => Ok(Rules { rules }),
            Some(_) => Err(unexpected(cursor.place(end))),
        },
        Err(Why::Memory) => Err(Stop::OutOfMemory),
        Err(Why::Unexpected) => Err(unexpected(cursor.place(end))),
        Err(Why::TooDeep) => Err(too_deep(cursor.place(end))),
    }
}

/// The tree of the tokens of a text that ends at a place.
fn read(alloc: Global, tokens: &List<Token>, end: u32) -> Result<Rules, Stop>
    ensures { TellsSeen (seen_all (lexemes_of tokens.now)) end result }
{
    match seen_all(alloc, tokens.as_slice()) {
        Ok(seen) => parsed(alloc, seen.as_slice(), end),
        Err(_) => Err(Stop::OutOfMemory),
    }
}

/// The tree of a rules text, in UTF-8.
///
/// # Errors
///
/// The first of these faults, in this order, or want of memory:
///
/// - `Cause::BadUtf8` (20) at the first byte that belongs to no whole character;
/// - `Cause::BadChar` (21), `Cause::OpenText` (22) and `Cause::TooLong` (40) of a token, the first in the text;
/// - `Cause::Unexpected` (23) at the first token with which the tokens before it don't go on in any rules text, or at the end where
///   they are no whole one, and `Cause::TooDeep` (41) at the first bracket that is the 65th open one, with `reached` 65, whichever
///   comes first in the text.
pub fn formulas(alloc: Global, bytes: &[u8]) -> Result<Rules, Stop>
    requires { length bytes.now < 2 ^ 32 }
    ensures tells { Tells bytes.now result }
    ensures only { (answer : Result trees.Rules faults.Fault) → IsAnswer bytes.now answer → Gives answer result }
{
    let tokens = match tokens(alloc, bytes) {
        Ok(tokens) => tokens,
        Err(stop) => return Err(stop),
    };
    read(alloc, &tokens, bytes.len() as u32)
}
