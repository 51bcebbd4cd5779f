//! Rules texts.

ghost use Rattle.std.specs.Prelude.{◌<◌, ◌^◌, Result, length};
ghost use Rattle.xdg_base.specs.declared.faults.Fault as faults;
ghost use Rattle.xdg_formula.specs.declared.tree.Rules as trees;
ghost use Rattle.xdg_base.specs.Told.{Gives};
ghost use Rattle.xdg_inputs.specs.RulesTexts.{IsAnswer, Tells};

use std::alloc::Global;
use xdg_base::Stop;
use xdg_formula::{Rules, check_rules, formulas};
use xdg_types::TypeTable;

/// The rules of a text, with which nothing is wrong in a grammar of these types.
pub(crate) fn rules_in(alloc: Global, types: &TypeTable, text: &[u8]) -> Result<Rules, Stop>
    requires { length text.now < 2 ^ 32 }
    ensures tells { Tells types.now text.now result }
    ensures only { (answer : Result trees.Rules faults.Fault) → IsAnswer types.now text.now answer → Gives answer result }
{
    let rules = match formulas(alloc, text) {
        Ok(rules) => rules,
        Err(stop) => return Err(stop),
    };
    match check_rules(alloc, &rules, types) {
        Ok(()) => Ok(rules),
        Err(stop) => Err(stop),
    }
}
