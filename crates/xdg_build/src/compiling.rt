//! Rules.

ghost use Rattle.std.specs.Prelude.{◌≡◌, [], IfOk};
ghost use Rattle.xdg_base.specs.declared.faults.Fault as faults;
ghost use Rattle.xdg_formula.specs.Answers.{Offends};
ghost use Rattle.xdg_formula.specs.Formulas.{formula_faults};
ghost use Rattle.xdg_formula.specs.Tables.{used_dims};
ghost use Rattle.xdg_formula.specs.Written.{tree};
ghost use Rattle.xdg_build.specs.Formulas.{formula_in, formulas_of};
ghost use Rattle.xdg_build.specs.Problems.{IsFor};
ghost use Rattle.xdg_build.specs.Says.{KeepsEach};

use crate::formulas::formula_of;
use std::alloc::Global;
use xdg_base::{List, OutOfMemory};
use xdg_formula::{Rule, Rules};
use xdg_packed::Packed;
use xdg_problem::{Formula, Problem};
use xdg_types::TypeTable;

/// The formula of a rule.
fn compile_rule(
    alloc: Global,
    types: &TypeTable,
    packed: &Packed,
    problem: &Problem,
    rule: &Rule,
) -> Result<Formula, OutOfMemory>
    requires fits { IsFor types.now packed.now problem.now }
    requires right { formula_faults (used_dims types.now) [] rule.now.body ≡ [] }
    ensures { IfOk result (λ made. made ≡ formula_in types.now packed.now problem.now [] (tree rule.now.body.kind)) }
{
    formula_of(alloc, types, packed, problem, &[], &rule.body.kind)
}

/// The formulas of the rules of a text, one for each, in their order. Each suits the problem, and is true in those analyses of it in which
/// its rule is true; it is a function of the rule, the types, the lexicon and the problem. Of a run of signs `!` it has none or one, so
/// that it nests no deeper than the text has brackets.
///
/// The rules are those with which nothing is wrong ([`check_rules`](xdg_formula::check_rules) tells), and the problem is one of a
/// grammar with these types and this lexicon. The time is linear in the length of the text, and for each atom about a feature in the
/// number of candidates.
pub fn compile(
    alloc: Global,
    rules: &Rules,
    types: &TypeTable,
    packed: &Packed,
    problem: &Problem,
) -> Result<List<Formula>, OutOfMemory>
    requires right { (f : faults.Fault) → Offends types.now rules.now.rules f → ⊥ }
    requires fits { IsFor types.now packed.now problem.now }
    ensures keeps { IfOk result (KeepsEach types.now packed.now problem.now rules.now.rules) }
    ensures is { IfOk result (λ made. made ≡ formulas_of types.now packed.now problem.now rules.now.rules) }
{
    // For the proof alone: the first call tells that the types are those of a table, the second that the problem is one.
    let _ = types.dims();
    let _ = problem.parts();
    let mut made = List::new(alloc);
    for rule in rules.rules.as_slice() {
        made.push(compile_rule(alloc, types, packed, problem, rule)?)?;
    }
    Ok(made)
}
