//! The search for the least tuple that a condition refuses.

ghost use Rattle.std.specs.Prelude.{◌≡◌, ℕ, ◌<◌, MatchOption};
ghost use Rattle.xdg_problem.specs.Arguments.{first_dim};
ghost use Rattle.xdg_problem.specs.Paths.{edges_on};
ghost use Rattle.xdg_problem.specs.Places.{nodes};
ghost use Rattle.xdg_judge.specs.Counting.{IsTally};
ghost use Rattle.xdg_judge.specs.Searching.{IsSearched, tuple_for, second_size, third_size, FirstOne, FirstTwo, FirstThree};
ghost use Rattle.xdg_judge.specs.Views.{IsView};
ghost use Rattle.xdg_judge.specs.Verdicts.{AsksHere};

use crate::asking::passes;
use crate::skips::{skips_one, skips_two};
use crate::view::View;
use xdg_problem::Condition;

/// The first third number with which a condition refuses a tuple that begins with two numbers.
#[tactic(auto, using(xdg_facts::proofs::Numbers::all_next, xdg_facts::proofs::Numbers::less_all))]
fn first_third(
    view: &View,
    counts: &[[usize; 128]; 128],
    condition: Condition,
    u: u8,
    x: u8,
    last: u8,
) -> Option<u8>
    requires view { IsView view.now.parts.now view.now.group.now view.now.analysis.now view.now.first_dim view.now.second_dim view.now.first view.now.second }
    requires counts { IsTally condition (edges_on (first_dim view.now.group.now) view.now.analysis.now.edges) counts.now }
    requires searched { IsSearched condition }
    requires u_within { u < nodes view.now.parts.now }
    requires x_within { x < second_size condition view.now.parts.now view.now.group.now }
    requires size { last ≡ third_size condition view.now.parts.now view.now.group.now }
    ensures { MatchOption result
        ((c : ℕ) → c < last → AsksHere view.now.parts.now view.now.group.now view.now.analysis.now condition (tuple_for condition u x c))
        (λ y. FirstOne last (λ c. AsksHere view.now.parts.now view.now.group.now view.now.analysis.now condition (tuple_for condition u x c)) y) }
{
    if skips_one(view, condition, u, x) {
        return None;
    }
    for y in 0..last {
        if !passes(view, counts, condition, u, x, y) {
            return Some(y);
        }
    }
    None
}

/// The first second and third number with which a condition refuses a tuple that begins with a number.
#[tactic(auto, using(xdg_facts::proofs::Numbers::all_next, xdg_facts::proofs::Numbers::less_all))]
fn first_second(
    view: &View,
    counts: &[[usize; 128]; 128],
    condition: Condition,
    u: u8,
    middle: u8,
    last: u8,
) -> Option<(u8, u8)>
    requires view { IsView view.now.parts.now view.now.group.now view.now.analysis.now view.now.first_dim view.now.second_dim view.now.first view.now.second }
    requires counts { IsTally condition (edges_on (first_dim view.now.group.now) view.now.analysis.now.edges) counts.now }
    requires searched { IsSearched condition }
    requires u_within { u < nodes view.now.parts.now }
    requires middle_size { middle ≡ second_size condition view.now.parts.now view.now.group.now }
    requires size { last ≡ third_size condition view.now.parts.now view.now.group.now }
    ensures { MatchOption result
        ((b : ℕ) → b < middle → (c : ℕ) → c < last → AsksHere view.now.parts.now view.now.group.now view.now.analysis.now condition (tuple_for condition u b c))
        (λ found. FirstTwo middle last (λ b c. AsksHere view.now.parts.now view.now.group.now view.now.analysis.now condition (tuple_for condition u b c))
        found.0 found.1) }
{
    if skips_two(view, condition, u) {
        return None;
    }
    for x in 0..middle {
        if let Some(y) = first_third(view, counts, condition, u, x, last) {
            return Some((x, y));
        }
    }
    None
}

/// The first three numbers of which a condition refuses the tuple.
#[tactic(auto, using(xdg_facts::proofs::Numbers::all_next, xdg_facts::proofs::Numbers::less_all))]
pub fn first_refused(
    view: &View,
    counts: &[[usize; 128]; 128],
    condition: Condition,
    size: u8,
    middle: u8,
    last: u8,
) -> Option<(u8, u8, u8)>
    requires view { IsView view.now.parts.now view.now.group.now view.now.analysis.now view.now.first_dim view.now.second_dim view.now.first view.now.second }
    requires counts { IsTally condition (edges_on (first_dim view.now.group.now) view.now.analysis.now.edges) counts.now }
    requires searched { IsSearched condition }
    requires size_is { size ≡ nodes view.now.parts.now }
    requires middle_size { middle ≡ second_size condition view.now.parts.now view.now.group.now }
    requires last_size { last ≡ third_size condition view.now.parts.now view.now.group.now }
    ensures { MatchOption result
        ((a : ℕ) → a < size → (b : ℕ) → b < middle → (c : ℕ) → c < last
        → AsksHere view.now.parts.now view.now.group.now view.now.analysis.now condition (tuple_for condition a b c))
        (λ found. FirstThree size middle last
        (λ a b c. AsksHere view.now.parts.now view.now.group.now view.now.analysis.now condition (tuple_for condition a b c)) found.0 found.1 found.2) }
{
    for u in 0..size {
        if let Some((x, y)) = first_second(view, counts, condition, u, middle, last) {
            return Some((u, x, y));
        }
    }
    None
}
