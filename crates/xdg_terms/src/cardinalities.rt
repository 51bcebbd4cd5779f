//! The numbers that a cardinality allows.

ghost use Rattle.std.specs.Prelude.{◌≡◌, ℕ, ◌<◌, ◌==◌, ◌||◌, ◌&&◌, Bool, nat_le};
ghost use Rattle.std.specs.List.{list_any};
ghost use Rattle.xdg_domain.specs.Cards.{IsCards};
ghost use Rattle.xdg_facts.specs.Rises.{has, numbers_below};
ghost use Rattle.xdg_terms.specs.Built as spec;
ghost use Rattle.xdg_terms.specs.Counted.{told, AreCards};

use xdg_ast::{CardKind, Num};
use xdg_domain::CardSet;

/// The numbers up to 127 that a cardinality allows, or all of them where it allows none of these.
pub(crate) fn cards(card: &CardKind) -> CardSet
    ensures { result ≡ spec.card_numbers card.now }
{
    match card {
        CardKind::One => CardSet::one(1),
        CardKind::Maybe => CardSet::one(0).with(1),
        CardKind::Any => CardSet::all(),
        CardKind::Some1 => between(1, 127),
        CardKind::Numbers(numbers) => among(numbers.as_slice()),
        CardKind::Interval(low, high) => between(low.value, high.value),
    }
}

/// The numbers up to 127 among these, or all of them where there is none.
fn among(numbers: &[Num]) -> CardSet
    ensures { result ≡ spec.some_or_all (numbers_below 128 (λ n. list_any (λ num. num.value == n) numbers.now)) }
{
    let mut made = None;
    for num in numbers {
        if num.value > 127 {
            continue;
        }
        made = Some(with(made, num.value as u8));
    }
    found_or_all(made)
}

/// The numbers up to 127 from the one to the other, or all of them where there is none.
fn between(low: u32, high: u32) -> CardSet
    ensures { result ≡ spec.some_or_all (numbers_below 128 (λ n. nat_le low n && nat_le n high)) }
{
    let mut made = None;
    for number in low..high.min(127) + 1 {
        made = Some(with(made, number as u8));
    }
    found_or_all(made)
}

/// One number more.
fn with(made: Option<CardSet>, number: u8) -> CardSet
    requires small { number < 128 }
    requires cards { AreCards made }
    ensures members { (n : ℕ) → has result n ≡ ((n == number) || told made n) }
    ensures cards { IsCards result }
{
    match made {
        None => CardSet::one(number),
        Some(cards) => cards.with(number),
    }
}

/// The numbers that were found, or all of them where there is none.
fn found_or_all(made: Option<CardSet>) -> CardSet
    requires { AreCards made }
    ensures { (p : ℕ → Bool) → ((n : ℕ) → n < 128 → told made n ≡ p n) → result ≡ spec.some_or_all (numbers_below 128 p) }
{
    match made {
        Some(cards) => cards,
        None => CardSet::all(),
    }
}
