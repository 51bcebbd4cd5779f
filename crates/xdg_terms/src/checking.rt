//! The first fault of a term where a type is wanted.

ghost use Rattle.std.specs.Prelude.{◌≡◌, List};
ghost use Rattle.std.specs.List.{flat_map};
ghost use Rattle.xdg_ast.specs.declared.names.Name.{Name};
ghost use Rattle.xdg_domain.specs.Shapes.{shape};
ghost use Rattle.xdg_names.specs.First.{Tells, first};
ghost use Rattle.xdg_terms.specs.Faults as spec;
ghost use Rattle.xdg_terms.specs.Offences.{Offends, OpenOffends};
ghost use Rattle.xdg_terms.specs.Readings.{look_of};

use crate::forms::{Bindings, Reading, each_keyed, seen};
use crate::keys::{check_fields, check_keys, check_valency};
use crate::members::{
    check_cardinality, check_domain, check_number, check_text, check_truth, check_tuple, wrong_kind,
};
use crate::sets::check_set;
use xdg_ast::{Elem, ElemKind, Name, Params, Term, TermKind};
use xdg_base::{Fault, Text};
use xdg_domain::Ty;
use xdg_names::earlier;

/// The first fault of a term where a type is wanted, if it has one: the one with the least place, and at one place the
/// one with the least number. Parameters are taken as what the bindings say; faults in that stand where it stands.
/// It takes no memory.
///
/// - `UnknownName` (30): at a key that is no field of a record. Its term is not looked at.
/// - `Twice` (31): at a key that stands there before. Its term is looked at all the same.
/// - `WrongKind` (33): at a term that is not of the form that the type wants. Nothing in it is looked at.
/// - `NotMember` (34): at a constant that is not in the domain of its place, or neither `true` nor `false`.
/// - `CardRange` (38): at a number above 127, at the second number of an interval that is below the first, or at a
///   cardinality without numbers.
pub fn check(ty: &Ty, term: &Term, bindings: &Bindings) -> Option<Fault>
    ensures { Tells (Offends bindings.now (shape ty.now) term.now) result }
{
    check_term(ty, &*term, &Reading::Bound((&*bindings).as_slice()))
}

/// The first fault of a term in which these parameters are open, as [`check`] tells it. Where one of them stands for a
/// term nothing is wrong; any other parameter is `WrongKind` (33). It takes no memory.
pub fn check_open(ty: &Ty, term: &Term, params: &Params) -> Option<Fault>
    ensures { Tells (OpenOffends params.now (shape ty.now) term.now) result }
{
    check_term(ty, &*term, &Reading::Open(&*params))
}

/// The first fault where a term stands.
#[cycle(check_term)]
fn check_term<'a>(ty: &Ty, term: &'a Term, reading: &Reading<'a>) -> Option<Fault>
    ensures { result ≡ first (spec.faults (look_of reading.now) (shape ty.now) term.now) }
{
    match seen(reading, term) {
        None => None,
        Some(meant) => check_seen(ty, meant, reading),
    }
}

/// The first fault of a term that is looked at.
#[cycle(check_term)]
#[tactic(auto, unfolding(crate::specs::Faults::mapping_faults, crate::specs::Faults::record_faults))]
fn check_seen<'a>(ty: &Ty, term: &'a Term, reading: &Reading<'a>) -> Option<Fault>
    ensures { result ≡ first (spec.faults_in (look_of reading.now) (shape ty.now) term.now) }
{
    match ty {
        Ty::Domain(texts) => check_domain(texts.as_slice(), term),
        Ty::Tuple(types) => check_tuple(types.as_slice(), term),
        Ty::Bool => check_truth(term),
        Ty::Int => check_number(term),
        Ty::Str => check_text(term),
        Ty::Set(of) => check_set(of.get(), term),
        Ty::ISet(of) => check_set(of.get(), term),
        Ty::Card => check_cardinality(term),
        Ty::Valency(key) => check_valency(key.get().constants(), term),
        Ty::Map(key, value) => check_map(value.get(), key.get().constants(), term, reading),
        Ty::Rec(fields) => check_record(fields.as_slice(), term, reading),
    }
}

/// A term where a map is wanted, whose keys are constants of the domain.
#[cycle(check_term)]
#[tactic(auto, unfolding(crate::specs::Faults::mapping_faults, crate::specs::Forms::pairs_of))]
fn check_map<'a>(value: &Ty, texts: &[Text], term: &'a Term, reading: &Reading<'a>) -> Option<Fault>
    ensures { result ≡ first (spec.mapping_faults (look_of reading.now) texts.now (shape value.now) term.now) }
{
    let TermKind::Braces(elems) = &term.kind else {
        return wrong_kind(term);
    };
    let elems = elems.as_slice();
    if !each_keyed(elems) {
        return wrong_kind(term);
    }
    earlier(
        check_keys(texts, elems),
        check_values(value, elems, reading),
    )
}

/// The values of a map.
#[cycle(check_term)]
fn check_values<'a>(value: &Ty, elems: &'a [Elem], reading: &Reading<'a>) -> Option<Fault>
    ensures { result ≡ first (flat_map (spec.value_faults (look_of reading.now) (shape value.now)) elems.now) }
{
    let mut found = None;
    for elem in elems {
        found = earlier(found, check_value(value, elem, reading));
    }
    found
}

/// A value of a map.
#[cycle(check_term)]
#[tactic(auto, unfolding(crate::specs::Faults::value_faults))]
fn check_value<'a>(value: &Ty, elem: &'a Elem, reading: &Reading<'a>) -> Option<Fault>
    ensures { result ≡ first (spec.value_faults (look_of reading.now) (shape value.now) elem.now) }
{
    match &elem.kind {
        ElemKind::Keyed(_, term) => check_term(value, term.get(), reading),
        _ => None,
    }
}

/// A term where a record is wanted.
#[cycle(check_term)]
#[tactic(auto, unfolding(crate::specs::Faults::record_faults, crate::specs::Forms::pairs_of))]
fn check_record<'a>(fields: &[(Text, Ty)], term: &'a Term, reading: &Reading<'a>) -> Option<Fault>
    ensures { result ≡ first (spec.record_faults (look_of reading.now) (spec.fields_in fields.now) term.now) }
{
    let TermKind::Braces(elems) = &term.kind else {
        return wrong_kind(term);
    };
    let elems = elems.as_slice();
    if !each_keyed(elems) {
        return wrong_kind(term);
    }
    earlier(
        check_fields(fields, elems),
        check_parts(fields, elems, reading),
    )
}

/// The values of a record's fields.
#[cycle(check_term)]
fn check_parts<'a>(fields: &[(Text, Ty)], elems: &'a [Elem], reading: &Reading<'a>) -> Option<Fault>
    ensures { result ≡ first (flat_map (spec.elem_faults (look_of reading.now) (spec.fields_in fields.now)) elems.now) }
{
    let mut found = None;
    for elem in elems {
        found = earlier(found, check_part(fields, elem, reading));
    }
    found
}

/// The value of a field, where the record has it.
#[cycle(check_term)]
#[tactic(auto, unfolding(crate::specs::Faults::elem_faults))]
fn check_part<'a>(fields: &[(Text, Ty)], elem: &'a Elem, reading: &Reading<'a>) -> Option<Fault>
    ensures { result ≡ first (spec.elem_faults (look_of reading.now) (spec.fields_in fields.now) elem.now) }
{
    match &elem.kind {
        ElemKind::Keyed(name, term) => check_under(fields, name, term.get(), reading),
        _ => None,
    }
}

/// The term that stands under a name, where a field has it.
#[cycle(check_term)]
fn check_under<'a>(
    fields: &[(Text, Ty)],
    key: &Name,
    term: &'a Term,
    reading: &Reading<'a>,
) -> Option<Fault>
    ensures { result ≡ first (spec.field_faults (look_of reading.now) (spec.fields_in fields.now) (key.now, term.now)) }
{
    for (name, ty) in fields {
        if name.as_str() == key.text.as_str() {
            return check_term(ty, term, reading);
        }
    }
    None
}
