//! Counting among the edges of a dimension.

ghost use Rattle.std.specs.Prelude.{◌≡◌, ℕ, ◌+◌, ◌^◌, ◌<◌, ◌≤◌, ◌==◌, ◌&&◌, cond, length, slice_index};
ghost use Rattle.std.specs.List.{list_any};
ghost use Rattle.xdg_problem.specs.Paths.{edges_on, roots};
ghost use Rattle.xdg_judge.specs.Counting.{first_key, second_key, counted, IsTally};
ghost use Rattle.xdg_judge.specs.Reached.{AreWithin};

use xdg_problem::{Condition, Edge};

/// The two numbers of an edge by which a condition counts it.
fn keys_of(condition: Condition, edge: Edge) -> (u8, u8)
    requires mother { edge.mother.0 < 128 }
    requires label { edge.label.0 < 32 }
    requires daughter { edge.daughter.0 < 128 }
    ensures first { result.0 ≡ first_key condition edge }
    ensures second { result.1 ≡ second_key condition edge }
    ensures first_within { result.0 < 128 }
    ensures second_within { result.1 < 128 }
{
    match condition {
        Condition::Mothers => (0, edge.daughter.0),
        Condition::Pair => (edge.mother.0, edge.daughter.0),
        Condition::InCount => (edge.daughter.0, edge.label.0),
        _ => (edge.mother.0, edge.label.0),
    }
}

/// Counts one more for a number.
#[tactic(auto, using(xdg_facts::proofs::Lists::count_at))]
fn count_in(row: &mut [usize; 128], number: u8)
    requires within { number < 128 }
    requires room { slice_index row.old number + 1 < 2 ^ 64 }
    ensures { (n : ℕ) → slice_index row.new n ≡ slice_index row.old n + cond (number == n) 1 0 }
{
    row[usize::from(number)] += 1;
}

/// Counts one more for two numbers.
#[tactic(auto, using(crate::proofs::Tallies::count_row))]
fn count_one(table: &mut [[usize; 128]; 128], a: u8, b: u8)
    requires first { a < 128 }
    requires second { b < 128 }
    requires room { counted table.old a b + 1 < 2 ^ 64 }
    ensures { (k m : ℕ) → counted table.new k m ≡ counted table.old k m + cond ((a == k) && (b == m)) 1 0 }
{
    count_in(&mut table[usize::from(a)], b);
}

/// How many edges of a dimension have which two numbers, by which a condition counts.
pub fn tally(edges: &[Edge], dim: u8, condition: Condition) -> [[usize; 128]; 128]
    requires { AreWithin 128 edges.now }
    ensures { IsTally condition (edges_on dim edges.now) result }
{
    let mut table = [[0; 128]; 128];
    for edge in edges {
        if edge.dim.0 == dim {
            let (a, b) = keys_of(condition, *edge);
            count_one(&mut table, a, b);
        }
    }
    table
}

/// The number that a table has for two numbers.
pub fn counted(table: &[[usize; 128]; 128], a: u8, b: u8) -> usize
    requires { a < 128 }
    ensures { result ≡ counted table.now a b }
{
    match table[usize::from(a)].get(usize::from(b)) {
        Some(count) => *count,
        None => 0,
    }
}

/// Whether an edge of a dimension enters a node.
fn has_mother(edges: &[Edge], dim: u8, node: usize) -> bool
    ensures { result ≡ list_any (λ e. (e.dim.0 == dim) && (e.daughter.0 == node)) edges.now }
{
    edges.iter().any(|edge| edge.dim.0 == dim && usize::from(edge.daughter.0) == node)
}

/// How many of the first n nodes no edge of a dimension enters.
pub fn count_roots(edges: &[Edge], dim: u8, n: usize) -> usize
    ensures value { result ≡ length (roots n (edges_on dim edges.now)) }
    ensures most { result ≤ n }
{
    let mut count = 0;
    for node in 0..n {
        if !has_mother(edges, dim, node) {
            count += 1;
        }
    }
    count
}
