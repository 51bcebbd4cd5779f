//! The parts of terms and of types, and places of constants.

ghost use Rattle.std.specs.Prelude.{◌≡◌, ◌≤◌, length};
ghost use Rattle.std.specs.Option.{option_copied};
ghost use Rattle.xdg_domain.specs.Shapes.{shape, sizes_in};
ghost use Rattle.xdg_names.specs.Texts.{place_of};
ghost use Rattle.xdg_domain.specs.Sized.{sizes_of};
ghost use Rattle.xdg_terms.specs.Forms.{constant_of, card_of, counted_elem, keyed_elem};
ghost use Rattle.xdg_terms.specs.Built as spec;

use xdg_ast::{CardTerm, Elem, ElemKind, Name, Term, TermKind};
use xdg_base::Text;
use xdg_domain::Ty;
use xdg_names::place_of;

/// The fields of a tuple type.
pub(crate) fn fields(ty: &Ty) -> &[Ty]
    ensures constants { spec.constants_each result.now ≡ spec.constants_in (shape ty.now) }
    ensures sizes { sizes_of result.now ≡ sizes_in (shape ty.now) }
{
    match ty {
        Ty::Tuple(types) => types.as_slice(),
        _ => &[],
    }
}

/// The place of a constant among those of its domain, from 0.
pub(crate) fn constant_place(constants: &[Text], name: &str) -> Option<u8>
    requires few { length constants.now ≤ 64 }
    ensures { result ≡ place_of constants.now name.now }
{
    match place_of(constants, name) {
        None => None,
        Some(place) => Some(place as u8),
    }
}

/// The constant that a term is, if it is one.
#[tactic(auto, unfolding(crate::specs::Forms::constant_of))]
pub fn constant(term: &Term) -> Option<&Name>
    ensures { option_copied result ≡ constant_of term.now }
{
    match &term.kind {
        TermKind::Const(name) => Some(name),
        _ => None,
    }
}

/// The constants of a term in square brackets; none of another term.
#[tactic(auto, unfolding(crate::specs::Built::names_of))]
pub fn names(term: &Term) -> &[Name]
    ensures { result.now ≡ spec.names_of term.now }
{
    match &term.kind {
        TermKind::Tuple(names) => names.as_slice(),
        _ => &[],
    }
}

/// The elements in braces.
#[tactic(auto, unfolding(crate::specs::Built::elems_of))]
pub(crate) fn elems(term: &Term) -> &[Elem]
    ensures { result.now ≡ spec.elems_of term.now }
{
    match &term.kind {
        TermKind::Braces(elems) => elems.as_slice(),
        _ => &[],
    }
}

/// The cardinality that stands under the name first.
#[tactic(auto, unfolding(crate::specs::Forms::counted_elem))]
pub(crate) fn card_for<'a>(elems: &'a [Elem], name: &str) -> Option<&'a CardTerm>
    ensures { option_copied result ≡ spec.first_for counted_elem elems.now name.now }
{
    for elem in elems {
        if let ElemKind::Count(key, card) = &elem.kind {
            if key.text.as_str() == name {
                return Some(card);
            }
        }
    }
    None
}

/// The term that stands under the name first.
#[tactic(auto, unfolding(crate::specs::Forms::keyed_elem))]
pub(crate) fn term_for<'a>(elems: &'a [Elem], name: &str) -> Option<&'a Term>
    ensures { option_copied result ≡ spec.first_for keyed_elem elems.now name.now }
{
    for elem in elems {
        if let ElemKind::Keyed(key, term) = &elem.kind {
            if key.text.as_str() == name {
                return Some(term.get());
            }
        }
    }
    None
}
