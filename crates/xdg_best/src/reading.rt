//! The statements that tokens say.

ghost use Rattle.std.specs.Prelude.{◌≡◌, Result, [], List};
ghost use Rattle.xdg_base.specs.declared.faults.Fault as faults;
ghost use Rattle.xdg_ast.specs.Lexemes.{lexemes_of};
ghost use Rattle.xdg_best.specs.declared.statements.Open.TheVariants as open_;
ghost use Rattle.xdg_best.specs.declared.statements.Statement as statements;
ghost use Rattle.xdg_best.specs.Reading.{IsAnswer, Tells};
ghost use Rattle.xdg_base.specs.Told.{Gives};
ghost use Rattle.xdg_best.specs.Turns.{run, Runs};

use crate::statements::{Open, Statement, Turn, next_turn};
use std::alloc::Global;
use xdg_ast::Token;
use xdg_base::{List, Stop};
use xdg_parse::unexpected;

/// The statements that tokens say, one token after another.
fn run(alloc: Global, tokens: &[Token], end: u32) -> Result<List<Statement>, Stop>
    ensures { Runs (run end [] open_.Nothing (lexemes_of tokens.now)) result }
{
    let mut made = List::new(alloc);
    let mut so_far = Open::Nothing;
    for token in tokens {
        match next_turn(alloc, so_far, token)? {
            Turn::GoesOn(next) => so_far = next,
            Turn::Says(statement) => {
                made.push(statement)?;
                so_far = Open::Nothing;
            }
            Turn::Refused => return Err(unexpected(token.span.start)),
        }
    }
    if so_far.is_nothing() {
        return Ok(made);
    }
    Err(unexpected(end))
}

/// The statements that tokens say. The place `end` is where the text of the tokens ends.
///
/// The error is `Cause::Unexpected` at the first token with which the tokens before it don't go on in any costs text, or at the
/// end where the tokens are no whole one; or want of memory.
pub(crate) fn statements(
    alloc: Global,
    tokens: &List<Token>,
    end: u32,
) -> Result<List<Statement>, Stop>
    ensures tells { Tells (lexemes_of tokens.now) end result }
    ensures only { (answer : Result (List statements.Statement) faults.Fault) → IsAnswer (lexemes_of tokens.now) end answer → Gives answer result }
{
    run(alloc, tokens.as_slice(), end)
}
