//! What the rules of the principles keep, what closed boxes and boxed prefixes do, and what the values of formulas in boxes keep.

ghost use Rattle.std.specs.Prelude.{ℕ, List};
ghost use Rattle.xdg_problem.specs.declared.parts.Parts.{Parts};
ghost use Rattle.xdg_problem.specs.Claims.{Claim, IsBound, IsOf};
ghost use Rattle.xdg_problem.specs.Problems.{IsProblem};
ghost use Rattle.xdg_rules.specs.Laws.{BoxedLaws, EachRuleLaws};
ghost use Rattle.xdg_rules.specs.WorthLaws.{NameLaws, WorthLaws};
ghost use Rattle.xdg_problem.specs.Truths.{AreNodes};

/// A law, and nothing to run: what the rules of a principle take from a box remains in no box inside that is closed for the
/// principle, so no rule takes a value of an analysis that satisfies it; and a box of single values is closed exactly where
/// their analysis satisfies it. Rules that take more from less, as operators of constraint propagation do.
#[tactic(auto, using(crate::proofs::RuleLaws::each_rule_laws))]
pub fn rule_laws()
    ensures { (parts : Parts) → IsProblem parts → EachRuleLaws parts }
{}

/// A law, and nothing to run: in each box lies a greatest closed one, or none; boxed prefixes are live, stay boxed when
/// shortened and have one list, and the whole ones among them are exactly the vectors of the solutions. The greatest closed box
/// is the greatest fixed point of rules that are monotone, so it doesn't matter in which order they are used.
#[tactic(auto, using(crate::proofs::RuleLaws::boxed_laws))]
pub fn boxed_laws()
    ensures { (parts : Parts) → IsProblem parts → BoxedLaws parts }
{}

/// A law, and nothing to run: a claim has one value in a box, true, false or open. Where it isn't open each analysis of the box
/// has that truth, and each smaller box has that value; in a box of single values it is the truth of their analysis. So a search
/// that looks ahead may go by the value, as it does in three-valued logic (Kleene 1952, paragraph 64), where what is said of a
/// part of the decisions stays when more are made.
#[tactic(auto, using(crate::proofs::ClaimLaws::worth_laws))]
pub fn worth_laws()
    ensures { (parts : Parts) → IsProblem parts → (c : Claim) (b : ℕ → ℕ) → IsOf parts c → AreNodes parts b → WorthLaws parts c b }
{}

/// A law, and nothing to run: what a claim is goes by the nodes for which its bound names stand, and by no others.
#[tactic(auto, using(crate::proofs::ClaimLaws::name_laws))]
pub fn name_laws()
    ensures { (parts : Parts) (scope : List ℕ) (c : Claim) → IsBound scope c → NameLaws parts scope c }
{}
