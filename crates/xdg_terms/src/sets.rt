//! What is wrong with a term where a set is wanted.

ghost use Rattle.std.specs.Prelude.{◌≡◌, List, map};
ghost use Rattle.std.specs.List.{flat_map};
ghost use Rattle.xdg_base.specs.declared.faults.Cause.TheVariants as causes;
ghost use Rattle.xdg_domain.specs.Shapes as shapes;
ghost use Rattle.xdg_domain.specs.Shapes.{shape, shapes_of};
ghost use Rattle.xdg_names.specs.First.{first};
ghost use Rattle.xdg_terms.specs.Faults as spec;
ghost use Rattle.xdg_names.specs.Texts.{has_text};
ghost use Rattle.xdg_terms.specs.Offences.{gen_names};

use crate::forms::{each_bracketed, each_plain};
use crate::members::{check_constant, check_in_turn, wrong_kind};
use xdg_ast::{Elem, ElemKind, Gen, GenKind, Name, Term, TermKind};
use xdg_base::{Cause, Fault, Text};
use xdg_domain::Ty;
use xdg_names::{earlier, has_text};

/// An element of a set of constants.
#[tactic(auto, unfolding(crate::specs::Faults::plain_missing))]
fn check_plain(texts: &[Text], elem: &Elem) -> Option<Fault>
    ensures { result ≡ first (spec.plain_missing texts.now elem.now) }
{
    match &elem.kind {
        ElemKind::Const(name) => check_constant(texts, name),
        _ => None,
    }
}

/// The elements of a set of constants.
fn check_each_plain(texts: &[Text], elems: &[Elem]) -> Option<Fault>
    ensures { result ≡ first (flat_map (spec.plain_missing texts.now) elems.now) }
{
    let mut found = None;
    for elem in elems {
        found = earlier(found, check_plain(texts, elem));
    }
    found
}

/// A term where a set of constants is wanted.
#[tactic(auto, unfolding(crate::specs::Faults::constants_faults, crate::specs::Forms::constants_of))]
fn check_constants(texts: &[Text], term: &Term) -> Option<Fault>
    ensures { result ≡ first (spec.constants_faults texts.now term.now) }
{
    let TermKind::Braces(elems) = &term.kind else {
        return wrong_kind(term);
    };
    let elems = elems.as_slice();
    if !each_plain(elems) {
        return wrong_kind(term);
    }
    check_each_plain(texts, elems)
}

/// An element of a set of tuples.
#[tactic(auto, unfolding(crate::specs::Faults::bracket_missing))]
fn check_bracket(types: &[Ty], elem: &Elem) -> Option<Fault>
    ensures { result ≡ first (spec.bracket_missing (shapes_of (map shape types.now)) elem.now) }
{
    match &elem.kind {
        ElemKind::Tuple(names) => check_in_turn(types, names.as_slice()),
        _ => None,
    }
}

/// The elements of a set of tuples.
fn check_each_bracket(types: &[Ty], elems: &[Elem]) -> Option<Fault>
    ensures { result ≡ first (flat_map (spec.bracket_missing (shapes_of (map shape types.now))) elems.now) }
{
    let mut found = None;
    for elem in elems {
        found = earlier(found, check_bracket(types, elem));
    }
    found
}

/// Whether a text is a constant of one of the domains.
fn is_in_a_row(types: &[Ty], text: &str) -> bool
    ensures { result ≡ has_text (shapes.in_a_row (shapes.constants_of (shapes_of (map shape types.now)))) text.now }
{
    for ty in types {
        if has_text(ty.constants(), text) {
            return true;
        }
    }
    false
}

/// A constant of a generator, which has to be one of a domain.
#[tactic(auto, unfolding(crate::specs::Faults::missing))]
fn check_in_a_row(types: &[Ty], name: &Name) -> Option<Fault>
    ensures { result ≡ first (spec.missing causes.NotMember (shapes.in_a_row (shapes.constants_of (shapes_of (map shape types.now)))) name.now) }
{
    if is_in_a_row(types, name.text.as_str()) {
        None
    } else {
        Some(Fault::at(Cause::NotMember, name.span.start))
    }
}

/// The constants of a generator.
#[cycle(check_generator)]
fn check_generator(gen_kind: &GenKind, types: &[Ty]) -> Option<Fault>
    ensures { result
        ≡ first (spec.all_missing causes.NotMember (shapes.in_a_row (shapes.constants_of (shapes_of (map shape types.now)))) (gen_names gen_kind.now)) }
{
    match gen_kind {
        GenKind::Const(name) => check_in_a_row(types, name),
        GenKind::And(members) => check_generators(members.as_slice(), types),
        GenKind::Or(members) => check_generators(members.as_slice(), types),
    }
}

/// The constants of generators.
#[cycle(check_generator)]
fn check_generators(members: &[Gen], types: &[Ty]) -> Option<Fault>
    ensures { result
        ≡ first
        (spec.all_missing causes.NotMember (shapes.in_a_row (shapes.constants_of (shapes_of (map shape types.now))))
        (flat_map (λ member. gen_names member.kind) members.now)) }
{
    let mut found = None;
    for member in members {
        found = earlier(found, check_generator(&member.kind, types));
    }
    found
}

/// A term where a set of tuples is wanted.
#[tactic(auto, unfolding(crate::specs::Faults::tuples_faults, crate::specs::Forms::brackets_of, crate::specs::Forms::generator_of))]
fn check_tuples(types: &[Ty], term: &Term) -> Option<Fault>
    ensures { result ≡ first (spec.tuples_faults (shapes_of (map shape types.now)) term.now) }
{
    match &term.kind {
        TermKind::Braces(elems) => {
            let elems = elems.as_slice();
            if !each_bracketed(elems, types.len()) {
                return wrong_kind(term);
            }
            check_each_bracket(types, elems)
        }
        TermKind::Gen(written) => check_generator(&written.kind, types),
        _ => wrong_kind(term),
    }
}

/// A term where a set is wanted.
pub(crate) fn check_set(of: &Ty, term: &Term) -> Option<Fault>
    ensures { result ≡ first (spec.set_faults (shape of.now) term.now) }
{
    match of {
        Ty::Tuple(types) => check_tuples(types.as_slice(), term),
        _ => check_constants(of.constants(), term),
    }
}
