//! Cardinalities as they are written.

ghost use Rattle.std.specs.Prelude.{◌≡◌, [], ◌∷◌, true, map, OnOk, nat_lt};
ghost use Rattle.std.specs.Str.{bytes_eq};
ghost use Rattle.xdg_ast.specs.Words as word;
ghost use Rattle.xdg_domain.specs.Cards as domain;
ghost use Rattle.xdg_print.specs.Printed.{put};
ghost use Rattle.xdg_print.specs.ValueWords.{sign_for, card_words};

use crate::printer::Printer;
use xdg_ast::Kind;
use xdg_base::OutOfMemory;
use xdg_domain::CardSet;

/// Whether it allows the number 0 alone.
pub(crate) fn is_zero(cards: &CardSet) -> bool
    ensures { result ≡ bytes_eq cards.now (0 ∷ []) }
{
    cards.equals(&CardSet::one(0))
}

/// Whether it allows the number 1 alone.
fn is_one(cards: &CardSet) -> bool
    ensures { result ≡ bytes_eq cards.now (1 ∷ []) }
{
    cards.equals(&CardSet::one(1))
}

/// Whether it allows 0 and 1, and no other number.
fn is_maybe(cards: &CardSet) -> bool
    ensures { result ≡ bytes_eq cards.now (0 ∷ 1 ∷ []) }
{
    cards.equals(&CardSet::one(0).with(1))
}

/// Whether it allows all numbers.
pub(crate) fn is_any(cards: &CardSet) -> bool
    ensures { result ≡ bytes_eq cards.now (domain.cards (λ _. true)) }
{
    cards.equals(&CardSet::all())
}

/// Whether it allows all numbers from 1 on, and not 0.
fn is_positive(cards: &CardSet) -> bool
    ensures { result ≡ bytes_eq cards.now (domain.cards (λ n. nat_lt 0 n)) }
{
    !cards.contains(0) && cards.with(0).equals(&CardSet::all())
}

/// The sign that stands for just the numbers of the cardinality, if there is one.
#[tactic(auto, unfolding(crate::specs::ValueWords::sign_for))]
fn sign_of(cards: &CardSet) -> Option<Kind>
    ensures { result ≡ sign_for cards.now }
{
    if is_one(cards) {
        return Some(Kind::Exclamation);
    }
    if is_maybe(cards) {
        return Some(Kind::Question);
    }
    if is_any(cards) {
        return Some(Kind::Star);
    }
    if is_positive(cards) {
        return Some(Kind::Plus);
    }
    None
}

/// Adds the numbers of a cardinality, rising.
fn put_numbers(printer: &mut Printer, cards: &CardSet) -> Result<(), OutOfMemory>
    ensures { OnOk result (printer.new ≡ put (map word.number cards.now) printer.old) }
{
    for number in 0..128u8 {
        if !cards.contains(number) {
            continue;
        }
        printer.number(u32::from(number))?;
    }
    Ok(())
}

/// Adds a cardinality: `!`, `?`, `*` or `+` where it is one of these, else `#{..}` with its numbers.
#[tactic(auto, using(crate::proofs::Put::put_append))]
pub(crate) fn put_cards(printer: &mut Printer, cards: &CardSet) -> Result<(), OutOfMemory>
    ensures { OnOk result (printer.new ≡ put (card_words cards.now) printer.old) }
{
    match sign_of(cards) {
        Some(sign) => printer.mark(sign),
        None => {
            printer.mark(Kind::Hash)?;
            printer.mark(Kind::LeftBrace)?;
            put_numbers(printer, cards)?;
            printer.mark(Kind::RightBrace)
        }
    }
}
