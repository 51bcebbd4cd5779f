//! What is wrong with a term where a constant, a number, a text, a cardinality or a tuple is wanted.

ghost use Rattle.std.specs.Prelude.{◌≡◌, map};
ghost use Rattle.xdg_base.specs.declared.faults.Cause.TheVariants as causes;
ghost use Rattle.xdg_domain.specs.Shapes as shapes;
ghost use Rattle.xdg_domain.specs.Shapes.{shape, shapes_of};
ghost use Rattle.xdg_names.specs.First.{first};
ghost use Rattle.xdg_terms.specs.Faults as spec;
ghost use Rattle.xdg_names.specs.Texts.{has_text};

use crate::cards::check_card;
use xdg_ast::{Name, Term, TermKind};
use xdg_base::{Cause, Fault, Text};
use xdg_domain::Ty;
use xdg_names::{earlier, has_text};

/// The fault of a term that has not the wanted form.
pub(crate) fn wrong_kind(term: &Term) -> Option<Fault>
    ensures { result ≡ first (spec.wrong_kind term.now) }
{
    Some(Fault::at(Cause::WrongKind, term.span.start))
}

/// A constant that is not one of the domain's.
#[tactic(auto, unfolding(crate::specs::Faults::missing))]
pub fn check_constant(texts: &[Text], name: &Name) -> Option<Fault>
    ensures { result ≡ first (spec.missing causes.NotMember texts.now name.now) }
{
    if has_text(texts, name.text.as_str()) {
        None
    } else {
        Some(Fault::at(Cause::NotMember, name.span.start))
    }
}

/// A term where a constant of a domain is wanted.
#[tactic(auto, unfolding(crate::specs::Faults::constant_faults, crate::specs::Forms::constant_of))]
pub(crate) fn check_domain(texts: &[Text], term: &Term) -> Option<Fault>
    ensures { result ≡ first (spec.constant_faults texts.now term.now) }
{
    match &term.kind {
        TermKind::Const(name) => check_constant(texts, name),
        _ => wrong_kind(term),
    }
}

/// A constant that is neither `true` nor `false`.
#[tactic(auto, unfolding(crate::specs::Faults::missing))]
fn check_bool(name: &Name) -> Option<Fault>
    ensures { result ≡ first (spec.missing causes.NotMember spec.truth_texts name.now) }
{
    if name.text.as_str() == "true" || name.text.as_str() == "false" {
        None
    } else {
        Some(Fault::at(Cause::NotMember, name.span.start))
    }
}

/// A term where `true` or `false` is wanted.
#[tactic(auto, unfolding(crate::specs::Faults::constant_faults, crate::specs::Forms::constant_of))]
pub(crate) fn check_truth(term: &Term) -> Option<Fault>
    ensures { result ≡ first (spec.constant_faults spec.truth_texts term.now) }
{
    match &term.kind {
        TermKind::Const(name) => check_bool(name),
        _ => wrong_kind(term),
    }
}

/// A term where a number is wanted.
#[tactic(auto, unfolding(crate::specs::Faults::number_faults, crate::specs::Forms::number_of))]
pub(crate) fn check_number(term: &Term) -> Option<Fault>
    ensures { result ≡ first (spec.number_faults term.now) }
{
    match &term.kind {
        TermKind::Number(_) => None,
        _ => wrong_kind(term),
    }
}

/// A term where a text is wanted.
#[tactic(auto, unfolding(crate::specs::Faults::text_faults, crate::specs::Forms::constant_of))]
pub(crate) fn check_text(term: &Term) -> Option<Fault>
    ensures { result ≡ first (spec.text_faults term.now) }
{
    match &term.kind {
        TermKind::Const(_) => None,
        _ => wrong_kind(term),
    }
}

/// A term where a cardinality is wanted.
#[tactic(auto, unfolding(crate::specs::Faults::cardinality_faults, crate::specs::Forms::card_of))]
pub(crate) fn check_cardinality(term: &Term) -> Option<Fault>
    ensures { result ≡ first (spec.cardinality_faults term.now) }
{
    match &term.kind {
        TermKind::Card(card) => check_card(card),
        _ => wrong_kind(term),
    }
}

/// Constants, each of which has to be of the domain of its place.
pub(crate) fn check_in_turn(types: &[Ty], names: &[Name]) -> Option<Fault>
    ensures { result ≡ first (spec.missing_in_turn (shapes.constants_of (shapes_of (map shape types.now))) names.now) }
{
    let mut found = None;
    let mut left = types;
    for name in names {
        match left.split_first() {
            None => return found,
            Some((ty, rest)) => {
                found = earlier(found, check_constant(ty.constants(), name));
                left = rest;
            }
        }
    }
    found
}

/// A term where a tuple is wanted.
#[tactic(auto, unfolding(crate::specs::Faults::tuple_faults, crate::specs::Forms::bracket_of))]
pub(crate) fn check_tuple(types: &[Ty], term: &Term) -> Option<Fault>
    ensures { result ≡ first (spec.tuple_faults (shapes_of (map shape types.now)) term.now) }
{
    match &term.kind {
        TermKind::Tuple(names) => {
            let names = names.as_slice();
            if names.len() != types.len() {
                return wrong_kind(term);
            }
            check_in_turn(types, names)
        }
        _ => wrong_kind(term),
    }
}
