//! What is wrong with the keys of elements in braces, and with valencies.

ghost use Rattle.std.specs.Prelude.{◌≡◌, [], ◌++◌};
ghost use Rattle.std.specs.List.{flat_map};
ghost use Rattle.xdg_base.specs.declared.faults.Cause.TheVariants as causes;
ghost use Rattle.xdg_domain.specs.Shapes.{names_of};
ghost use Rattle.xdg_names.specs.First.{first};
ghost use Rattle.xdg_terms.specs.Faults as spec;
ghost use Rattle.xdg_names.specs.Texts.{has_text};

use crate::cards::check_card;
use crate::forms::each_counted;
use crate::members::{check_constant, wrong_kind};
use xdg_ast::{Elem, ElemKind, Name, Term, TermKind};
use xdg_base::{Cause, Fault, Text};
use xdg_domain::Ty;
use xdg_names::earlier;

/// Whether an element has the key.
#[tactic(auto, unfolding(crate::specs::Faults::key_of))]
fn has_key(elem: &Elem, text: &str) -> bool
    ensures { result ≡ has_text (spec.texts_of (spec.key_of elem.now)) text.now }
{
    match &elem.kind {
        ElemKind::Count(name, _) => name.text.as_str() == text,
        ElemKind::Keyed(name, _) => name.text.as_str() == text,
        _ => false,
    }
}

/// Whether one of the elements has the key.
fn is_key(elems: &[Elem], text: &str) -> bool
    ensures { result ≡ has_text (spec.texts_of (spec.keys elems.now)) text.now }
{
    for elem in elems {
        if has_key(elem, text) {
            return true;
        }
    }
    false
}

/// A key that an element before has too.
#[tactic(auto, unfolding(crate::specs::Faults::twice))]
fn check_again(before: &[Elem], name: &Name) -> Option<Fault>
    ensures { result ≡ first (spec.twice (spec.keys before.now) name.now) }
{
    if is_key(before, name.text.as_str()) {
        Some(Fault::at(Cause::Twice, name.span.start))
    } else {
        None
    }
}

/// The key of an element, where an element before has it too.
#[tactic(auto, unfolding(crate::specs::Faults::key_faults))]
fn check_key_again(before: &[Elem], elem: &Elem) -> Option<Fault>
    ensures { result ≡ first (spec.key_faults (spec.twice (spec.keys before.now)) elem.now) }
{
    match &elem.kind {
        ElemKind::Count(name, _) => check_again(before, name),
        ElemKind::Keyed(name, _) => check_again(before, name),
        _ => None,
    }
}

/// The keys that stand a second time.
pub(crate) fn check_twice(elems: &[Elem]) -> Option<Fault>
    ensures { result ≡ first (spec.all_twice [] (spec.keys elems.now)) }
{
    let mut found = None;
    for (at, elem) in elems.iter().enumerate() {
        found = earlier(found, check_key_again(&elems[..at], elem));
    }
    found
}

/// The key of an element, which has to be one of the domain's.
#[tactic(auto, unfolding(crate::specs::Faults::key_faults))]
fn check_key(texts: &[Text], elem: &Elem) -> Option<Fault>
    ensures { result ≡ first (spec.key_faults (spec.missing causes.NotMember texts.now) elem.now) }
{
    match &elem.kind {
        ElemKind::Count(name, _) => check_constant(texts, name),
        ElemKind::Keyed(name, _) => check_constant(texts, name),
        _ => None,
    }
}

/// The keys that are not the domain's.
fn check_each_key(texts: &[Text], elems: &[Elem]) -> Option<Fault>
    ensures { result ≡ first (flat_map (spec.key_faults (spec.missing causes.NotMember texts.now)) elems.now) }
{
    let mut found = None;
    for elem in elems {
        found = earlier(found, check_key(texts, elem));
    }
    found
}

/// The keys of a valency or a map.
#[tactic(auto, using(xdg_names::proofs::First::first_append))]
pub(crate) fn check_keys(texts: &[Text], elems: &[Elem]) -> Option<Fault>
    ensures { result ≡ first (flat_map (spec.key_faults (spec.missing causes.NotMember texts.now)) elems.now ++ spec.all_twice [] (spec.keys elems.now)) }
{
    earlier(check_each_key(texts, elems), check_twice(elems))
}

/// Whether a field has the name.
fn has_field(fields: &[(Text, Ty)], text: &str) -> bool
    ensures { result ≡ has_text (names_of (spec.fields_in fields.now)) text.now }
{
    for (name, _) in fields {
        if name.as_str() == text {
            return true;
        }
    }
    false
}

/// A key that no field has.
#[tactic(auto, unfolding(crate::specs::Faults::missing))]
fn check_field(fields: &[(Text, Ty)], name: &Name) -> Option<Fault>
    ensures { result ≡ first (spec.missing causes.UnknownName (names_of (spec.fields_in fields.now)) name.now) }
{
    if has_field(fields, name.text.as_str()) {
        None
    } else {
        Some(Fault::at(Cause::UnknownName, name.span.start))
    }
}

/// The key of an element, which has to be a field's name.
#[tactic(auto, unfolding(crate::specs::Faults::key_faults))]
fn check_field_key(fields: &[(Text, Ty)], elem: &Elem) -> Option<Fault>
    ensures { result ≡ first (spec.key_faults (spec.missing causes.UnknownName (names_of (spec.fields_in fields.now))) elem.now) }
{
    match &elem.kind {
        ElemKind::Count(name, _) => check_field(fields, name),
        ElemKind::Keyed(name, _) => check_field(fields, name),
        _ => None,
    }
}

/// The keys that no field has.
fn check_each_field(fields: &[(Text, Ty)], elems: &[Elem]) -> Option<Fault>
    ensures { result ≡ first (flat_map (spec.key_faults (spec.missing causes.UnknownName (names_of (spec.fields_in fields.now)))) elems.now) }
{
    let mut found = None;
    for elem in elems {
        found = earlier(found, check_field_key(fields, elem));
    }
    found
}

/// The keys of a record.
#[tactic(auto, using(xdg_names::proofs::First::first_append))]
pub(crate) fn check_fields(fields: &[(Text, Ty)], elems: &[Elem]) -> Option<Fault>
    ensures { result
        ≡ first
        (flat_map (spec.key_faults (spec.missing causes.UnknownName (names_of (spec.fields_in fields.now)))) elems.now
        ++ spec.all_twice [] (spec.keys elems.now)) }
{
    earlier(check_each_field(fields, elems), check_twice(elems))
}

/// The cardinality of an element.
#[tactic(auto, unfolding(crate::specs::Faults::count_faults))]
fn check_count(elem: &Elem) -> Option<Fault>
    ensures { result ≡ first (spec.count_faults elem.now) }
{
    match &elem.kind {
        ElemKind::Count(_, card) => check_card(card),
        _ => None,
    }
}

/// The cardinalities of a valency.
fn check_counts(elems: &[Elem]) -> Option<Fault>
    ensures { result ≡ first (flat_map spec.count_faults elems.now) }
{
    let mut found = None;
    for elem in elems {
        found = earlier(found, check_count(elem));
    }
    found
}

/// A term where a valency is wanted.
#[tactic(auto, unfolding(crate::specs::Faults::valency_faults, crate::specs::Forms::counts_of))]
pub(crate) fn check_valency(texts: &[Text], term: &Term) -> Option<Fault>
    ensures { result ≡ first (spec.valency_faults texts.now term.now) }
{
    let TermKind::Braces(elems) = &term.kind else {
        return wrong_kind(term);
    };
    let elems = elems.as_slice();
    if !each_counted(elems) {
        return wrong_kind(term);
    }
    earlier(check_keys(texts, elems), check_counts(elems))
}
