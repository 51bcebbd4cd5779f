//! Facts that name nothing of the product: lists of numbers in one strict order, and the list of all that satisfy a predicate.
//!
//! Lemmas on lists, options, texts, bits, numbers and truth values stand in proofs/, by topic, for all crates.
//!
//! A search goes through the prefixes of vectors of numbers, one number for each decision. What it has to answer is said
//! here once, of lists alone: the order, the rising list of all that is counted, the whole vectors among them, and the
//! three ways in which answers can end.
#![tactic(auto)]

ghost use Rattle.std.specs.Prelude.{◌≡◌, ◌↔◌, ℕ, Bool, true, List, IsTrue};
ghost use Rattle.xdg_facts.specs.Order.{Less, IsStrictOrder};
ghost use Rattle.xdg_facts.specs.Fits.{Fits};
ghost use Rattle.xdg_facts.specs.Listing.{HasOneListing};
ghost use Rattle.xdg_facts.specs.Endings.{OneEnding, WholeListed};

use std::cmp::Ordering;

/// How the answers of a search ended.
#[derive(Clone, Copy, PartialEq, Eq, Debug)]
pub enum Ending {
    /// Each solution was answered.
    Complete,
    /// As many were answered as were asked for.
    First,
    /// The budget was spent before the solutions were.
    Spent,
}

/// Compares two lists of numbers: the first difference decides, and a list comes before its proper extensions.
pub fn compare(first: &[u16], second: &[u16]) -> Ordering
    ensures less { (result ≡ Ordering.Less) ↔ Less first.now second.now }
    ensures equal { (result ≡ Ordering.Equal) ↔ (first.now ≡ second.now) }
    ensures greater { (result ≡ Ordering.Greater) ↔ Less second.now first.now }
    ensures order { IsStrictOrder Less }
{
    first.cmp(second)
}

/// Whether a list of numbers goes with the front of a shape: it is no longer, and each number is one of the values of its
/// decision. No code calls it: it carries the law that what is decided of such lists has one listing.
pub fn fits(shape: &[u16], numbers: &[u16]) -> bool
    ensures exact { IsTrue result ↔ Fits shape.now numbers.now }
    // Whatever is tested, what fits and passes the test has one listing from any start.
    ensures listed { (test : List ℕ → Bool) (start : List ℕ) → HasOneListing shape.now (λ x. test x ≡ true) start }
{
    if numbers.len() > shape.len() {
        return false;
    }
    for (k, number) in numbers.iter().enumerate() {
        if *number >= shape[k] {
            return false;
        }
    }
    true
}

/// A law, and nothing to run: over the one list of counted prefixes the answers end in exactly one way, with exactly one number
/// of answers, and their solutions are the list of the whole vectors among them. It rests on the order: what is listed rises, so
/// a budget cuts off a front.
#[tactic(auto, using(crate::proofs::OneEnding::one_ending))]
pub fn one_ending()
    ensures one { OneEnding }
    ensures whole { WholeListed }
{}
