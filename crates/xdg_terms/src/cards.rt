//! What is wrong with cardinalities.

ghost use Rattle.std.specs.Prelude.{◌≡◌};
ghost use Rattle.std.specs.List.{flat_map};
ghost use Rattle.xdg_names.specs.First.{first};
ghost use Rattle.xdg_terms.specs.Faults as spec;

use xdg_ast::{CardKind, CardTerm, Num};
use xdg_base::{Cause, Fault};
use xdg_names::earlier;

/// The greatest number that a cardinality may have.
const GREATEST: u32 = 127;

/// A number above 127.
#[tactic(auto, unfolding(crate::specs::Faults::too_big))]
fn check_number(number: &Num) -> Option<Fault>
    ensures { result ≡ first (spec.too_big number.now) }
{
    if number.value > GREATEST {
        Some(Fault::at(Cause::CardRange, number.span.start))
    } else {
        None
    }
}

/// A number above 127 or below the first one.
#[tactic(auto, unfolding(crate::specs::Faults::wrong_end))]
fn check_end(low: &Num, high: &Num) -> Option<Fault>
    ensures { result ≡ first (spec.wrong_end low.now high.now) }
{
    if high.value > GREATEST || high.value < low.value {
        Some(Fault::at(Cause::CardRange, high.span.start))
    } else {
        None
    }
}

/// The first number above 127.
fn check_numbers(numbers: &[Num]) -> Option<Fault>
    ensures { result ≡ first (flat_map spec.too_big numbers.now) }
{
    let mut found = None;
    for number in numbers {
        found = earlier(found, check_number(number));
    }
    found
}

/// The first fault of a cardinality.
#[tactic(auto, unfolding(crate::specs::Faults::card_faults), using(xdg_names::proofs::First::first_append))]
pub(crate) fn check_card(card: &CardTerm) -> Option<Fault>
    ensures { result ≡ first (spec.card_faults card.now) }
{
    match &card.kind {
        CardKind::Numbers(numbers) => {
            if numbers.is_empty() {
                return Some(Fault::at(Cause::CardRange, card.span.start));
            }
            check_numbers(numbers.as_slice())
        }
        CardKind::Interval(low, high) => earlier(check_number(low), check_end(low, high)),
        _ => None,
    }
}
