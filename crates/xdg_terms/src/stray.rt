//! Parameters where no class has them.

ghost use Rattle.std.specs.Prelude.{◌≡◌};
ghost use Rattle.std.specs.List.{flat_map};
ghost use Rattle.xdg_names.specs.First.{Tells, first};
ghost use Rattle.xdg_terms.specs.Stray as spec;

use xdg_ast::{ElemKind, Name, Params, Term, TermKind};
use xdg_base::{Cause, Fault};
use xdg_names::earlier;

/// The first parameter in a term, anywhere in it, that is none of these: `WrongKind` (33) at it. No text has one, since
/// a name is a parameter only where its class has it. It takes no memory.
pub fn check_stray(term: &Term, params: &Params) -> Option<Fault>
    ensures { Tells (spec.IsStrayParam params.now term.now) result }
{
    stray_in(&term.kind, params)
}

/// A parameter that is none of these.
#[tactic(auto, unfolding(crate::specs::Stray::stray))]
fn stray(name: &Name, params: &Params) -> Option<Fault>
    ensures { result ≡ first (spec.stray params.now name.now) }
{
    if params.contains(name.text.as_str()) {
        None
    } else {
        Some(Fault::at(Cause::WrongKind, name.span.start))
    }
}

/// The first such parameter in a term.
#[cycle(stray_in)]
#[tactic(auto, using(crate::proofs::Straying::in_braces))]
fn stray_in(kind: &TermKind, params: &Params) -> Option<Fault>
    ensures { result ≡ first (spec.all_stray params.now kind.now) }
{
    match kind {
        TermKind::Param(name) => stray(name, params),
        TermKind::Braces(elems) => {
            let mut found = None;
            for elem in elems.as_slice() {
                found = earlier(found, stray_elem(&elem.kind, params));
            }
            found
        }
        _ => None,
    }
}

/// The first such parameter in an element.
#[cycle(stray_in)]
#[tactic(auto, using(crate::proofs::Straying::in_keyed))]
fn stray_elem(kind: &ElemKind, params: &Params) -> Option<Fault>
    ensures { result ≡ first (flat_map (spec.stray params.now) (spec.elem_tokens kind.now)) }
{
    match kind {
        ElemKind::Keyed(_, term) => stray_in(&term.get().kind, params),
        _ => None,
    }
}
