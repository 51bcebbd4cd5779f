//! The judge.

ghost use Rattle.std.specs.Prelude.{◌≡◌, ◌<◌, ◌≤◌, ◌↔◌, ◌∷◌, ◌++◌, [], Bool, List, cond, IsTrue, IfOk, MatchOption, length, take, slice_index_or};
ghost use Rattle.xdg_problem.specs.declared.conditions.Condition.TheVariants as conditions;
ghost use Rattle.xdg_problem.specs.Analyses.{IsAnalysis};
ghost use Rattle.xdg_problem.specs.declared.parts.Group.{Group};
ghost use Rattle.xdg_problem.specs.declared.parts.Principle.TheVariants as principles;
ghost use Rattle.xdg_problem.specs.Conditions.{conditions_of};
ghost use Rattle.xdg_problem.specs.Principles.{conditions_for};
ghost use Rattle.xdg_problem.specs.Problems.{IsProblem};
ghost use Rattle.xdg_problem.specs.Relations.{Relation};
ghost use Rattle.xdg_judge.specs.Searching.{IsSearched, tuple_for, second_size, third_size};
ghost use Rattle.xdg_judge.specs.Views.{IsView};
ghost use Rattle.xdg_judge.specs.Verdicts.{IsOfWhole, tuple_of, IsVerdict, AreVerdicts, IsKeptHere, IsLeastBroken};

use crate::counts::{count_roots, tally};
use crate::reads::label_count_of;
use crate::search::first_refused;
use crate::verdict::{Tuple4, Verdict};
use crate::view::View;
use crate::whole::keeps_whole;
use std::alloc::Global;
use xdg_base::{List, OutOfMemory};
use xdg_problem::{Analysis, Condition, Group, Parts, Principle, Problem, truth_of};

/// The number of nodes without mother, where it isn't 1.
#[tactic(auto, using(crate::proofs::Judging::roots_kept, crate::proofs::Judging::roots_broken))]
fn broken_roots(view: &View) -> Option<Tuple4>
    requires view { IsView view.now.parts.now view.now.group.now view.now.analysis.now view.now.first_dim view.now.second_dim view.now.first view.now.second }
    ensures { MatchOption result (IsKeptHere view.now.parts.now view.now.group.now view.now.analysis.now conditions.Roots)
        (λ tuple. IsLeastBroken view.now.parts.now view.now.group.now view.now.analysis.now conditions.Roots (tuple_of tuple)) }
{
    let count = count_roots(view.edges(), view.first_dim, view.parts.words.len());
    if count == 1 {
        return None;
    }
    Some(Tuple4::one(count as u8))
}

/// Below what the second number of a condition's tuples stands.
fn second_size(view: &View, condition: Condition) -> u8
    requires view { IsView view.now.parts.now view.now.group.now view.now.analysis.now view.now.first_dim view.now.second_dim view.now.first view.now.second }
    ensures { result ≡ second_size condition view.now.parts.now view.now.group.now }
{
    match condition {
        Condition::Pair
        | Condition::Order
        | Condition::Between
        | Condition::Below
        | Condition::Blocked => view.parts.words.len() as u8,
        Condition::InCount
        | Condition::OutCount
        | Condition::Agree
        | Condition::Govern
        | Condition::Link => label_count_of(view.parts, view.first_dim) as u8,
        _ => 1,
    }
}

/// Below what the third number of a condition's tuples stands.
fn third_size(view: &View, condition: Condition) -> u8
    requires view { IsView view.now.parts.now view.now.group.now view.now.analysis.now view.now.first_dim view.now.second_dim view.now.first view.now.second }
    ensures { result ≡ third_size condition view.now.parts.now view.now.group.now }
{
    match condition {
        Condition::Order
        | Condition::Between
        | Condition::Agree
        | Condition::Govern
        | Condition::Link => view.parts.words.len() as u8,
        _ => 1,
    }
}

/// The tuple of a condition that begins with some of three numbers.
fn tuple_for(condition: Condition, u: u8, x: u8, y: u8) -> Tuple4
    ensures { tuple_of result ≡ tuple_for condition u x y }
{
    match condition {
        Condition::Cycle | Condition::Roots | Condition::Mothers | Condition::Agr => Tuple4::one(u),
        Condition::Pair
        | Condition::InCount
        | Condition::OutCount
        | Condition::Below
        | Condition::Blocked => Tuple4::two(u, x),
        Condition::Rule | Condition::Bound => Tuple4::none(),
        _ => Tuple4::three(u, x, y),
    }
}

/// The least tuple of nodes and labels that breaks a condition.
fn broken_tuple(view: &View, condition: Condition) -> Option<Tuple4>
    requires view { IsView view.now.parts.now view.now.group.now view.now.analysis.now view.now.first_dim view.now.second_dim view.now.first view.now.second }
    requires searched { IsSearched condition }
    ensures { MatchOption result (IsKeptHere view.now.parts.now view.now.group.now view.now.analysis.now condition)
        (λ tuple. IsLeastBroken view.now.parts.now view.now.group.now view.now.analysis.now condition (tuple_of tuple)) }
{
    let size = view.parts.words.len() as u8;
    let middle = second_size(view, condition);
    let last = third_size(view, condition);
    let counts = tally(view.edges(), view.first_dim, condition);
    match first_refused(view, &counts, condition, size, middle, last) {
        None => None,
        Some((u, x, y)) => Some(tuple_for(condition, u, x, y)),
    }
}

/// The empty tuple, where the rule or the bound of a principle use isn't kept.
#[tactic(auto, using(crate::proofs::Judging::whole_kept, crate::proofs::Judging::whole_broken))]
fn broken_whole(view: &View, condition: Condition) -> Option<Tuple4>
    requires view { IsView view.now.parts.now view.now.group.now view.now.analysis.now view.now.first_dim view.now.second_dim view.now.first view.now.second }
    requires whole { IsOfWhole condition }
    ensures { MatchOption result (IsKeptHere view.now.parts.now view.now.group.now view.now.analysis.now condition)
        (λ tuple. IsLeastBroken view.now.parts.now view.now.group.now view.now.analysis.now condition (tuple_of tuple)) }
{
    if keeps_whole(view) {
        return None;
    }
    Some(Tuple4::none())
}

/// The least tuple that breaks a condition.
fn broken(view: &View, condition: Condition) -> Option<Tuple4>
    requires view { IsView view.now.parts.now view.now.group.now view.now.analysis.now view.now.first_dim view.now.second_dim view.now.first view.now.second }
    ensures { MatchOption result (IsKeptHere view.now.parts.now view.now.group.now view.now.analysis.now condition)
        (λ tuple. IsLeastBroken view.now.parts.now view.now.group.now view.now.analysis.now condition (tuple_of tuple)) }
{
    match condition {
        Condition::Roots => broken_roots(view),
        Condition::Rule => broken_whole(view, condition),
        Condition::Bound => broken_whole(view, condition),
        _ => broken_tuple(view, condition),
    }
}

/// The conditions of dag, as the first of three.
fn dag_conditions(roots: bool, pair: bool) -> (usize, [Condition; 3])
    ensures listed { take result.0 result.1 ≡ conditions.Cycle ∷ (cond roots (conditions.Roots ∷ []) [] ++ cond pair (conditions.Pair ∷ []) []) }
    ensures count { result.0 ≤ 3 }
{
    if roots {
        if pair {
            return (3, [Condition::Cycle, Condition::Roots, Condition::Pair]);
        }
        return (2, [Condition::Cycle, Condition::Roots, Condition::Pair]);
    }
    if pair {
        return (2, [Condition::Cycle, Condition::Pair, Condition::Pair]);
    }
    (1, [Condition::Cycle, Condition::Pair, Condition::Pair])
}

/// The conditions of a principle that has one.
fn only_condition(principle: &Principle) -> Condition
    requires graph { principle.now ≡ principles.Graph → ⊥ }
    requires entries { principle.now ≡ principles.Entries → ⊥ }
    requires tree { principle.now ≡ principles.Tree → ⊥ }
    requires dag { principle.now ≡ principles.Dag → ⊥ }
    requires valency { principle.now ≡ principles.Valency → ⊥ }
    ensures { (truths : List Bool) → result ∷ [] ≡ conditions_for principle.now truths }
{
    match principle {
        Principle::Order => Condition::Order,
        Principle::Projectivity => Condition::Between,
        Principle::Agr => Condition::Agr,
        Principle::Agreement => Condition::Agree,
        Principle::Government => Condition::Govern,
        Principle::Climbing => Condition::Below,
        Principle::Barriers => Condition::Blocked,
        Principle::Rule(_) => Condition::Rule,
        Principle::Bound(_, _) => Condition::Bound,
        _ => Condition::Link,
    }
}

/// The conditions of a principle use, as the first of three.
#[tactic(auto, using(crate::proofs::Judging::named))]
fn conditions_of(group: &Group) -> (usize, [Condition; 3])
    ensures listed { take result.0 result.1 ≡ conditions_of group.now }
    ensures count { result.0 ≤ 3 }
{
    let principle = &group.principle;
    match principle {
        Principle::Graph => (0, [Condition::Link, Condition::Link, Condition::Link]),
        Principle::Entries => (0, [Condition::Link, Condition::Link, Condition::Link]),
        Principle::Tree => (3, [Condition::Cycle, Condition::Roots, Condition::Mothers]),
        Principle::Dag => dag_conditions(truth_of(group, 0), truth_of(group, 1)),
        Principle::Valency => (
            2,
            [Condition::InCount, Condition::OutCount, Condition::OutCount],
        ),
        _ => {
            let condition = only_condition(principle);
            (1, [condition, condition, condition])
        }
    }
}

/// The verdict on a principle use.
fn judge(view: &View) -> Verdict
    requires view { IsView view.now.parts.now view.now.group.now view.now.analysis.now view.now.first_dim view.now.second_dim view.now.first view.now.second }
    ensures { IsVerdict view.now.parts.now view.now.analysis.now view.now.group.now result }
{
    let (count, conditions) = conditions_of(view.group);
    for condition in &conditions[..count] {
        if let Some(tuple) = broken(view, *condition) {
            return Verdict::Broken {
                condition: *condition,
                tuple,
            };
        }
    }
    Verdict::Kept
}

/// The verdict on a principle use of a problem.
fn verdict_of(parts: &Parts, group: &Group, analysis: &Analysis) -> Verdict
    requires problem { IsProblem parts.now }
    requires fits { IsAnalysis parts.now analysis.now }
    ensures { IsVerdict parts.now analysis.now group.now result }
{
    let view = View::of(parts, group, analysis);
    judge(&view)
}

/// Whether an analysis satisfies a principle use, which is given by its place among those of the problem. It takes no
/// memory from an allocator.
///
/// No command asks it: it is for those who judge an analysis by one principle use.
pub fn holds(problem: &Problem, group: usize, analysis: &Analysis) -> bool
    requires fits { IsAnalysis problem.now analysis.now }
    requires within { group < length problem.now.groups }
    ensures { (given : Group) → IsTrue result ↔ Relation problem.now (slice_index_or problem.now.groups group given) analysis.now }
{
    let parts = problem.parts();
    match verdict_of(parts, &parts.groups.as_slice()[group], analysis) {
        Verdict::Kept => true,
        Verdict::Broken { .. } => false,
    }
}

/// The verdict on each principle use, in their order: it is kept exactly where its relation holds, and otherwise the first
/// of its conditions that is broken is named with the least tuple that breaks it.
#[tactic(auto, using(crate::proofs::Judging::zip_more, crate::proofs::Judging::zip_end))]
pub fn explain(
    alloc: Global,
    problem: &Problem,
    analysis: &Analysis,
) -> Result<List<Verdict>, OutOfMemory>
    requires fits { IsAnalysis problem.now analysis.now }
    ensures { IfOk result (λ verdicts. AreVerdicts problem.now analysis.now problem.now.groups verdicts) }
{
    let parts = problem.parts();
    let mut verdicts = List::new(alloc);
    for group in parts.groups.as_slice() {
        verdicts.push(verdict_of(parts, group, analysis))?;
    }
    Ok(verdicts)
}
