//! The tree of a grammar text.

ghost use Rattle.std.specs.Prelude.{◌≤◌, Result, length};
ghost use Rattle.xdg_ast.specs.declared.grammar.Grammar as trees;
ghost use Rattle.xdg_base.specs.declared.faults.Fault as faults;
ghost use Rattle.xdg_base.specs.Told.{Gives};
ghost use Rattle.xdg_inputs.specs.GrammarTexts.{IsReadAs, TellsTree};

use std::alloc::Global;
use xdg_ast::Grammar;
use xdg_base::Stop;
use xdg_lex::tokens;
use xdg_parse::parse;

/// The tree of a grammar text of at most 4,194,304 bytes.
///
/// # Errors
///
/// The first fault, in this order: `BadUtf8` (20); `BadChar` (21), `OpenText` (22) and `TooLong` (40) of a token; `Unexpected`
/// (23) and `TooDeep` (41). Or want of memory.
pub fn read_tree(alloc: Global, text: &[u8]) -> Result<Grammar, Stop>
    requires { length text.now ≤ 4194304 }
    ensures tells { TellsTree text.now result }
    ensures only { (answer : Result trees.Grammar faults.Fault) → IsReadAs text.now answer → Gives answer result }
{
    let tokens = match tokens(alloc, text) {
        Ok(tokens) => tokens,
        Err(stop) => return Err(stop),
    };
    parse(alloc, &tokens, text.len() as u32)
}
