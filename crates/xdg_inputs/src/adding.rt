//! Problems with rules.

ghost use Rattle.std.specs.Prelude.{◌≡◌, IfOk};
ghost use Rattle.xdg_inputs.specs.Answers.{grammar_in};
ghost use Rattle.xdg_inputs.specs.Made.{IsMade};
ghost use Rattle.xdg_problem.specs.Analyses.{IsAnalysis};
ghost use Rattle.xdg_inputs.specs.Files.{AreRight};
ghost use Rattle.xdg_inputs.specs.Ruled.{KeepsRules, ruled};
ghost use Rattle.xdg_inputs.specs.RightLexicons.{HasRightLexicon};

use crate::analysis::Judgeable;
use crate::expanding::Expanded;
use std::alloc::Global;
use xdg_base::OutOfMemory;
use xdg_build::compile;
use xdg_formula::Rules;
use xdg_problem::Problem;

/// The problem with rules behind its principle uses. It has the same analyses in the same order, and its solutions are those in which each
/// rule is true. On want of memory the problem is dropped.
pub fn add_rules(
    alloc: Global,
    expanded: &Expanded,
    rules: &Rules,
    problem: Problem,
) -> Result<Problem, OutOfMemory>
    requires lexicon { HasRightLexicon expanded.now }
    requires right { AreRight expanded.now.checked.types rules.now }
    requires made { IsMade (grammar_in expanded.now) problem }
    ensures ruled { IfOk result (λ made. made ≡ ruled (grammar_in expanded.now) rules.now.rules problem) }
    ensures keeps { IfOk result (KeepsRules (grammar_in expanded.now) rules.now.rules problem) }
{
    let _parts = problem.parts();
    if rules.rules.is_empty() {
        return Ok(problem);
    }
    let formulas = compile(
        alloc,
        rules,
        expanded.checked.types(),
        &expanded.lexicon,
        &problem,
    )?;
    problem.with_rules(alloc, formulas)
}

/// The same of the problem of an analysis, which stays one of the problem with the rules.
pub fn rule_analysis(
    alloc: Global,
    expanded: &Expanded,
    rules: &Rules,
    judgeable: Judgeable,
) -> Result<Judgeable, OutOfMemory>
    requires lexicon { HasRightLexicon expanded.now }
    requires right { AreRight expanded.now.checked.types rules.now }
    requires made { IsMade (grammar_in expanded.now) judgeable.problem }
    requires fits { IsAnalysis judgeable.problem judgeable.analysis }
    ensures ruled { IfOk result (λ made. made.problem ≡ ruled (grammar_in expanded.now) rules.now.rules judgeable.problem) }
    ensures keeps { IfOk result (λ made. KeepsRules (grammar_in expanded.now) rules.now.rules judgeable.problem made.problem) }
    ensures same { IfOk result (λ made. made.analysis ≡ judgeable.analysis) }
    ensures fits { IfOk result (λ made. IsAnalysis made.problem made.analysis) }
{
    let Judgeable { problem, analysis } = judgeable;
    let problem = add_rules(alloc, expanded, rules, problem)?;
    Ok(Judgeable { problem, analysis })
}
