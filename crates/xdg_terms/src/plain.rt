//! What terms mean that hold no other terms.

ghost use Rattle.std.specs.Prelude.{◌≡◌, ◌≤◌, length, IfOk, bytes_eq, codes, unwrap_or};
ghost use Rattle.xdg_domain.specs.Shapes.{shape, IsTupleType};
ghost use Rattle.xdg_terms.specs.Forms.{constant_of, number_of, card_of, counted_elem};
ghost use Rattle.xdg_terms.specs.Built as spec;

use crate::cardinalities::cards;
use crate::parts::{card_for, constant, constant_place, names};
use crate::tuples::tuple_number;
use std::alloc::Global;
use xdg_ast::{Elem, Term, TermKind};
use xdg_base::{OutOfMemory, Text};
use xdg_domain::{CardMap, CardSet, Ty};

/// The number of the constant, or 0.
pub(crate) fn member(constants: &[Text], term: &Term) -> u8
    requires { length constants.now ≤ 64 }
    ensures { result ≡ spec.number_named constants.now (constant_of term.now) }
{
    match constant(term) {
        None => 0,
        Some(name) => match constant_place(constants, name.text.as_str()) {
            None => 0,
            Some(place) => place,
        },
    }
}

/// The number of the tuple, or 0.
pub(crate) fn tuple(alloc: Global, ty: &Ty, term: &Term) -> Result<u16, OutOfMemory>
    requires { IsTupleType (shape ty.now) }
    ensures { IfOk result (λ number. number ≡ unwrap_or (spec.tuple_number (shape ty.now) (spec.names_of term.now)) 0) }
{
    match tuple_number(alloc, ty, names(term))? {
        None => Ok(0),
        Some(number) => Ok(number),
    }
}

/// Whether the term is `true`.
pub(crate) fn truth(term: &Term) -> bool
    ensures { result ≡ bytes_eq (spec.text_named (constant_of term.now)) (codes "true") }
{
    match constant(term) {
        None => false,
        Some(name) => name.text.as_str() == "true",
    }
}

/// The number, or 0.
#[tactic(auto, unfolding(crate::specs::Forms::number_of))]
pub(crate) fn number(term: &Term) -> u32
    ensures { result ≡ unwrap_or (number_of term.now) 0 }
{
    match &term.kind {
        TermKind::Number(number) => *number,
        _ => 0,
    }
}

/// The text of the constant.
pub(crate) fn text(alloc: Global, term: &Term) -> Result<Text, OutOfMemory>
    ensures { IfOk result (λ made. made ≡ spec.text_named (constant_of term.now)) }
{
    match constant(term) {
        None => Ok(Text::new(alloc)),
        Some(name) => name.text.copy(alloc),
    }
}

/// The numbers up to 127 that the cardinality allows.
#[tactic(auto, unfolding(crate::specs::Forms::card_of))]
pub(crate) fn card(term: &Term) -> CardSet
    ensures { result ≡ spec.numbers_of_card (card_of term.now) }
{
    match &term.kind {
        TermKind::Card(card) => cards(&card.kind),
        _ => CardSet::all(),
    }
}

/// What the elements say of each of these keys.
pub(crate) fn valency(
    alloc: Global,
    constants: &[Text],
    elems: &[Elem],
) -> Result<CardMap, OutOfMemory>
    requires { length constants.now ≤ 64 }
    ensures { IfOk result (λ made. made ≡ spec.said_from (λ written. spec.card_numbers written.kind) (spec.first_for counted_elem elems.now) 0 constants.now) }
{
    let mut made = CardMap::none(alloc);
    for (key, constant) in constants.iter().enumerate() {
        match card_for(elems, constant.as_str()) {
            None => continue,
            Some(card) => made.add(key as u8, cards(&card.kind))?,
        }
    }
    Ok(made)
}
