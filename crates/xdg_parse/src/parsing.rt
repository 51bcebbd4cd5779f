//! The grammar that tokens stand for.

ghost use Rattle.std.specs.Prelude.{◌≡◌, Result};
ghost use Rattle.xdg_base.specs.declared.faults.Fault as faults;
ghost use Rattle.xdg_base.specs.declared.faults.Cause.TheVariants as causes;
ghost use Rattle.xdg_base.specs.declared.faults.Stop.TheVariants as stops;
ghost use Rattle.xdg_ast.specs.Lexemes.{lexemes_of};
ghost use Rattle.xdg_ast.specs.declared.grammar.Grammar as trees;
ghost use Rattle.xdg_parse.specs.Outcome.{IsAnswer, Tells};
ghost use Rattle.xdg_base.specs.Told.{Gives};

use crate::cursor::{Cursor, Why};
use crate::statements::statements;
use std::alloc::Global;
use xdg_ast::{Grammar, Token};
use xdg_base::{Cause, Fault, List, Stop};

/// How many brackets may be open at a time, in a grammar text and in any other that is read by a [`Cursor`].
pub const MOST_BRACKETS: u32 = 64;

/// The refusal at a place with which nothing goes on: [`Cause::Unexpected`].
pub fn unexpected(at: u32) -> Stop
    ensures { result ≡ stops.Fault (record { cause = causes.Unexpected; at = at; reached = 0 }) }
{
    Stop::Fault(Fault::at(Cause::Unexpected, at))
}

/// The refusal of a bracket at a place that is one too many: [`Cause::TooDeep`].
pub fn too_deep(at: u32) -> Stop
    ensures { result ≡ stops.Fault (record { cause = causes.TooDeep; at = at; reached = 65 }) }
{
    Stop::Fault(Fault {
        cause: Cause::TooDeep,
        at,
        reached: u64::from(MOST_BRACKETS) + 1,
    })
}

/// The grammar that tokens stand for, in this project's profile of the User Language of the XDG Development Kit. The
/// place `end` is where the text of the tokens ends.
///
/// # Errors
///
/// - [`Cause::Unexpected`] at the first token with which the tokens before it don't go on in any grammar, or at the end
///   where the tokens are no whole grammar;
/// - [`Cause::TooDeep`] at the first bracket that is the 65th open one, with `reached` 65.
///
/// The time is linear in the number of tokens, and the depth of calls is bounded by that of the brackets.
pub fn parse(alloc: Global, tokens: &List<Token>, end: u32) -> Result<Grammar, Stop>
    ensures tells { Tells (lexemes_of tokens.now) end result }
    ensures only { (answer : Result trees.Grammar faults.Fault) → IsAnswer (lexemes_of tokens.now) end answer → Gives answer result }
{
    let mut cursor = Cursor::new(tokens.as_slice());
    let start = cursor.start();
    match statements(alloc, &mut cursor, MOST_BRACKETS) {
        Ok(statements) => match cursor.kind() {
            None => Ok(Grammar {
                statements,
                span: cursor.span_from(start),
            }),
            Some(_) => Err(unexpected(cursor.place(end))),
        },
        Err(Why::Memory) => Err(Stop::OutOfMemory),
        Err(Why::Unexpected) => Err(unexpected(cursor.place(end))),
        Err(Why::TooDeep) => Err(too_deep(cursor.place(end))),
    }
}
