//! Terms with their parameters replaced by what they are bound to.

ghost use Rattle.std.specs.Prelude.{◌≡◌, ◌++◌, [], ℕ, List, map, IfOk, OnOk};
ghost use Rattle.xdg_domain.specs.Shapes.{Shape};
ghost use Rattle.xdg_terms.specs.Answers.{IsRight};
ghost use Rattle.xdg_terms.specs.Replaced.{IsOpenRight, AreBoundRight};
ghost use Rattle.xdg_terms.specs.Closed as spec;

use crate::copying::{copy_elem, copy_name, copy_term};
use crate::forms::{Bindings, bound};
use std::alloc::Global;
use xdg_ast::{Elem, ElemKind, Pair, Term, TermKind};
use xdg_base::{Boxed, List, OutOfMemory};

/// The term with each bound parameter replaced by a copy of what it is bound to, wherever it stands: for the whole term,
/// or behind a key in braces. A parameter that is not bound stays, and all places stay; a fault in what stands for a
/// parameter stands where that stands. The error is want of memory.
///
/// Where nothing is wrong with the term in which parameters are open ([`check_open`](crate::check_open)), and each of
/// them is bound to a term without parameters that is right at each place where it stands
/// ([`params_in`](crate::params_in)), nothing is wrong with the term under the bindings ([`value`](crate::value)), nor
/// with the one that this gives, in which no parameter is open.
pub fn close(alloc: Global, term: &Term, bindings: &Bindings) -> Result<Term, OutOfMemory>
    ensures closed { IfOk result (λ made. made ≡ spec.closed bindings.now term.now) }
    ensures right { (free : List (List ℕ)) (s : Shape) → IsOpenRight free s term.now → AreBoundRight free bindings.now s term.now
        → IsRight bindings.now s term.now × IsOpenRight [] s (spec.closed bindings.now term.now) }
{
    close_term(alloc, term, bindings.as_slice())
}

#[cycle(close)]
#[tactic(auto, using(crate::proofs::Replacing::closing_is))]
fn close_term(alloc: Global, term: &Term, bindings: &[Pair<Term>]) -> Result<Term, OutOfMemory>
    ensures { IfOk result (λ made. made ≡ spec.closed bindings.now term.now) }
{
    close_layer(alloc, term, bindings)
}

#[cycle(close)]
#[tactic(auto, unfolding(crate::specs::Closed::closing, crate::specs::Forms::bound))]
fn close_layer(alloc: Global, term: &Term, bindings: &[Pair<Term>]) -> Result<Term, OutOfMemory>
    ensures { IfOk result (λ made. made ≡ spec.closing bindings.now term.now) }
{
    match &term.kind {
        TermKind::Param(_) => copy_term(alloc, bound(bindings, term)),
        TermKind::Braces(elems) => {
            let mut made = List::new(alloc);
            close_elems(alloc, elems.as_slice(), bindings, &mut made)?;
            Ok(Term {
                kind: TermKind::Braces(made),
                span: term.span,
            })
        }
        _ => copy_term(alloc, term),
    }
}

/// Adds the elements with their parameters replaced.
#[cycle(close)]
fn close_elems(
    alloc: Global,
    elems: &[Elem],
    bindings: &[Pair<Term>],
    made: &mut List<Elem>,
) -> Result<(), OutOfMemory>
    ensures { OnOk result (made.new ≡ made.old ++ map (spec.closing_elem bindings.now) elems.now) }
{
    for elem in elems {
        made.push(Elem {
            kind: close_elem(alloc, &elem.kind, bindings)?,
            span: elem.span,
        })?;
    }
    Ok(())
}

#[cycle(close)]
#[tactic(auto, unfolding(crate::specs::Closed::closing_kind))]
fn close_elem(
    alloc: Global,
    kind: &ElemKind,
    bindings: &[Pair<Term>],
) -> Result<ElemKind, OutOfMemory>
    ensures { IfOk result (λ made. made ≡ spec.closing_kind bindings.now kind.now) }
{
    match kind {
        ElemKind::Keyed(name, term) => Ok(ElemKind::Keyed(
            copy_name(alloc, name)?,
            Boxed::new(alloc, close_term(alloc, term.get(), bindings)?)?,
        )),
        _ => copy_elem(alloc, kind),
    }
}
