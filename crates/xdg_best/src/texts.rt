//! Costs texts.

ghost use Rattle.std.specs.Prelude.{◌<◌, ◌^◌, Result, length};
ghost use Rattle.xdg_base.specs.declared.faults.Fault as faults;
ghost use Rattle.xdg_best.specs.Texts.{IsAnswer, Tells};
ghost use Rattle.xdg_base.specs.Told.{Gives};
ghost use Rattle.xdg_problem.specs.Costs.{CostLists};

use crate::building::build;
use crate::reading::statements;
use std::alloc::Global;
use xdg_base::Stop;
use xdg_lex::tokens;
use xdg_problem::Costs;
use xdg_types::TypeTable;

/// What a text says that entries and edges cost, where there are so many entries. It has the tokens of grammar texts, and is a
/// list of statements, in any order:
///
/// - `entry 3 7`: the third entry costs 7;
/// - `edge id subj 2`: each edge of the used dimension `id` with the label `subj` costs 2.
///
/// # Errors
///
/// The first fault, in this order: `BadUtf8` (20); `BadChar` (21), `OpenText` (22) and `TooLong` (40) of a token; `Unexpected`
/// (23); and, that with the least place, `UnknownName` (30) at a dimension that isn't used, `Twice` (31) at an entry number, or at
/// the label of a dimension with a label, that comes a second time, `NotMember` (34) at what is no label of the dimension, and
/// `NoEntry` (73) at a number that is 0 or above the number of entries. Or want of memory, of which it takes a byte for each entry.
pub fn costs(alloc: Global, bytes: &[u8], types: &TypeTable, entries: u32) -> Result<Costs, Stop>
    requires { length bytes.now < 2 ^ 32 }
    ensures tells { Tells bytes.now types.now entries result }
    ensures only { (answer : Result CostLists faults.Fault) → IsAnswer bytes.now types.now entries answer → Gives answer result }
{
    let tokens = match tokens(alloc, bytes) {
        Ok(tokens) => tokens,
        Err(stop) => return Err(stop),
    };
    let said = match statements(alloc, &tokens, bytes.len() as u32) {
        Ok(said) => said,
        Err(stop) => return Err(stop),
    };
    build(alloc, types, entries, said.as_slice())
}
