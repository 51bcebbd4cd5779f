//! What tests, live prefixes, solutions and verdicts keep.

ghost use Rattle.std.specs.Prelude.{ℕ, ◌<◌, List, length, All};
ghost use Rattle.xdg_problem.specs.declared.analysis.Analysis.{Analysis};
ghost use Rattle.xdg_problem.specs.declared.parts.Group.{Group};
ghost use Rattle.xdg_problem.specs.declared.parts.Parts.{Parts};
ghost use Rattle.xdg_problem.specs.BranchLaws.{BranchLaws, BranchesJoin};
ghost use Rattle.xdg_problem.specs.Branches.{first_candidates};
ghost use Rattle.xdg_problem.specs.Laws.{HasOneVerdict, LiveLaws, SolutionLaws};
ghost use Rattle.xdg_problem.specs.declared.formula.Formula.{Formula};
ghost use Rattle.xdg_problem.specs.Claims.{Suits};
ghost use Rattle.xdg_problem.specs.Costs.{CostLists, cost_of};
ghost use Rattle.xdg_problem.specs.Further.{bound_of, rules_of, FurtherLaws};
ghost use Rattle.xdg_problem.specs.Truths.{FormulaHolds};
ghost use Rattle.xdg_problem.specs.Problems.{IsProblem};

/// A law, and nothing to run: on a whole analysis all tests of a principle together are its relation, so a whole vector is
/// live exactly where its analysis is a solution, and each prefix of a solution is live. The tests are those of a search that
/// looks ahead: a constraint is asked as soon as all that it reads is decided.
#[tactic(auto, using(crate::proofs::Lawful::live_lawful))]
pub fn live_laws()
    ensures { (parts : Parts) → IsProblem parts → LiveLaws parts }
{}

/// A law, and nothing to run: after any start there is one list of the solutions, in rising order, and it is that of the whole
/// live vectors. The order is that of the decisions, as a search by depth first meets them.
pub fn solution_laws()
    ensures { (parts : Parts) (start : List ℕ) → IsProblem parts → SolutionLaws parts start }
{}

/// A law, and nothing to run: of each principle use an analysis satisfies the relation, or exactly one condition with one tuple
/// is the first that it breaks. Conditions come in their order and tuples item by item, so there is a least that is broken.
pub fn verdict_laws()
    ensures { (parts : Parts) (group : Group) (analysis : Analysis) → HasOneVerdict parts group analysis }
{}

/// A law, and nothing to run: the branches of a problem are problems, whose analyses, solutions and order are those of the problem for
/// the candidate that the first node has alone; and the lists of their solutions, one branch after another, are the problem's list.
#[tactic(auto, using(crate::proofs::BranchesJoined::branches_join))]
pub fn branch_laws()
    ensures each { (parts : Parts) (place : ℕ) → IsProblem parts → place < length (first_candidates parts) → BranchLaws parts place }
    ensures join { (parts : Parts) → IsProblem parts → BranchesJoin parts }
{}

/// A law, and nothing to run: with rules, or with a bound, a problem stays one with the same analyses in the same order. Its solutions are
/// those in which each formula is true, or those that cost less than the bound.
pub fn further_laws()
    ensures rules { (parts : Parts) (formulas : List Formula) → IsProblem parts → All (Suits parts) formulas
        → FurtherLaws parts (rules_of parts formulas) (λ analysis. All (FormulaHolds parts analysis) formulas) }
    ensures bound { (parts : Parts) (costs : CostLists) (bound : ℕ) → IsProblem parts
        → FurtherLaws parts (bound_of parts costs bound) (λ analysis. cost_of costs analysis < bound) }
{}
