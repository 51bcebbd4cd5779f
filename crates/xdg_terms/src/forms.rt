//! The forms of terms, and parameters as what they stand for.

ghost use Rattle.std.specs.Prelude.{◌≡◌};
ghost use Rattle.xdg_terms.specs.Forms as spec;
ghost use Rattle.xdg_terms.specs.Offences.{is_some};
ghost use Rattle.xdg_terms.specs.Readings.{look_of};
ghost use Rattle.std.specs.Option.{option_copied};

use xdg_ast::{Elem, ElemKind, Pair, Params, Term, TermKind};
use xdg_base::List;

/// What the parameters of a class stand for: pairs of a parameter's name and a term without parameters. Of two pairs
/// with one name the first counts.
pub type Bindings = List<Pair<Term>>;

/// What a term stands for: itself, or what it is bound to where it is a parameter.
#[tactic(auto, unfolding(crate::specs::Forms::bound))]
pub(crate) fn bound<'a>(bindings: &'a [Pair<Term>], term: &'a Term) -> &'a Term
    ensures { result.now ≡ spec.bound bindings.now term.now }
{
    let TermKind::Param(name) = &term.kind else {
        return term;
    };
    bound_to(bindings, name.text.as_str(), term)
}

/// What the parameter with that name stands for, or else the other term.
fn bound_to<'a>(bindings: &'a [Pair<Term>], name: &str, other: &'a Term) -> &'a Term
    ensures { result.now ≡ spec.bound_or other.now (spec.bound_to bindings.now name.now) }
{
    for binding in bindings {
        if binding.key.text.as_str() == name {
            return &binding.value;
        }
    }
    other
}

/// How parameters are taken where they stand for terms.
#[derive(Clone, Copy)]
pub(crate) enum Reading<'a> {
    /// As what they are bound to.
    Bound(&'a [Pair<Term>]),
    /// Those with these names as anything that may stand there.
    Open(&'a Params),
}

/// What is looked at where a term stands: what it stands for, and nothing where it is an open parameter.
pub(crate) fn seen<'a>(reading: &Reading<'a>, term: &'a Term) -> Option<&'a Term>
    ensures { option_copied result ≡ look_of reading.now term.now }
{
    match *reading {
        Reading::Bound(bindings) => Some(bound(bindings, term)),
        Reading::Open(params) => unless_open(params, term),
    }
}

/// A term, unless it is an open parameter.
#[tactic(auto, unfolding(crate::specs::Forms::with_open))]
fn unless_open<'a>(params: &Params, term: &'a Term) -> Option<&'a Term>
    ensures { option_copied result ≡ spec.with_open params.now term.now }
{
    match &term.kind {
        TermKind::Param(name) => {
            if params.contains(name.text.as_str()) {
                None
            } else {
                Some(term)
            }
        }
        _ => Some(term),
    }
}

/// Whether all elements are constants.
#[tactic(auto, unfolding(crate::specs::Forms::all_of, crate::specs::Forms::plain_elem))]
pub(crate) fn each_plain(elems: &[Elem]) -> bool
    ensures { result ≡ is_some (spec.all_of spec.plain_elem elems.now) }
{
    for elem in elems {
        let ElemKind::Const(_) = &elem.kind else {
            return false;
        };
    }
    true
}

/// Whether all elements are square brackets with so many constants.
#[tactic(auto, unfolding(crate::specs::Forms::all_of, crate::specs::Forms::bracketed_elem))]
pub(crate) fn each_bracketed(elems: &[Elem], wanted: usize) -> bool
    ensures { result ≡ is_some (spec.all_of (spec.bracketed_elem wanted) elems.now) }
{
    for elem in elems {
        let ElemKind::Tuple(names) = &elem.kind else {
            return false;
        };
        if names.len() != wanted {
            return false;
        }
    }
    true
}

/// Whether all elements are constants with cardinalities.
#[tactic(auto, unfolding(crate::specs::Forms::all_of, crate::specs::Forms::counted_elem))]
pub(crate) fn each_counted(elems: &[Elem]) -> bool
    ensures { result ≡ is_some (spec.all_of spec.counted_elem elems.now) }
{
    for elem in elems {
        let ElemKind::Count(..) = &elem.kind else {
            return false;
        };
    }
    true
}

/// Whether all elements are keys with terms.
#[tactic(auto, unfolding(crate::specs::Forms::all_of, crate::specs::Forms::keyed_elem))]
pub(crate) fn each_keyed(elems: &[Elem]) -> bool
    ensures { result ≡ is_some (spec.all_of spec.keyed_elem elems.now) }
{
    for elem in elems {
        let ElemKind::Keyed(..) = &elem.kind else {
            return false;
        };
    }
    true
}
