//! Copies of terms.

ghost use Rattle.std.specs.Prelude.{◌≡◌, ◌++◌, IfOk, OnOk};

use std::alloc::Global;
use xdg_ast::{CardKind, CardTerm, Elem, ElemKind, Gen, GenKind, Name, Term, TermKind};
use xdg_base::{Boxed, List, OutOfMemory};

/// A copy of a name, with its place.
pub fn copy_name(alloc: Global, name: &Name) -> Result<Name, OutOfMemory>
    ensures { IfOk result (λ made. made ≡ name.now) }
{
    Ok(Name {
        text: name.text.copy(alloc)?,
        span: name.span,
    })
}

/// Adds copies of names.
fn add_names(alloc: Global, names: &[Name], made: &mut List<Name>) -> Result<(), OutOfMemory>
    ensures { OnOk result (made.new ≡ made.old ++ names.now) }
{
    for name in names {
        made.push(copy_name(alloc, name)?)?;
    }
    Ok(())
}

/// A copy of names.
fn copy_names(alloc: Global, names: &[Name]) -> Result<List<Name>, OutOfMemory>
    ensures { IfOk result (λ made. made ≡ names.now) }
{
    let mut made = List::new(alloc);
    add_names(alloc, names, &mut made)?;
    Ok(made)
}

/// A copy of a cardinality.
fn copy_card(alloc: Global, card: &CardTerm) -> Result<CardTerm, OutOfMemory>
    ensures { IfOk result (λ made. made ≡ card.now) }
{
    let kind = match &card.kind {
        CardKind::One => CardKind::One,
        CardKind::Maybe => CardKind::Maybe,
        CardKind::Any => CardKind::Any,
        CardKind::Some1 => CardKind::Some1,
        CardKind::Numbers(numbers) => {
            CardKind::Numbers(List::from_slice(alloc, numbers.as_slice())?)
        }
        CardKind::Interval(low, high) => CardKind::Interval(*low, *high),
    };
    Ok(CardTerm {
        kind,
        span: card.span,
    })
}

/// A copy of a generator.
#[cycle(copy_generator)]
fn copy_generator(alloc: Global, kind: &GenKind) -> Result<GenKind, OutOfMemory>
    ensures { IfOk result (λ made. made ≡ kind.now) }
{
    match kind {
        GenKind::Const(name) => Ok(GenKind::Const(copy_name(alloc, name)?)),
        GenKind::And(members) => {
            let mut made = List::new(alloc);
            add_generators(alloc, members.as_slice(), &mut made)?;
            Ok(GenKind::And(made))
        }
        GenKind::Or(members) => {
            let mut made = List::new(alloc);
            add_generators(alloc, members.as_slice(), &mut made)?;
            Ok(GenKind::Or(made))
        }
    }
}

/// Adds copies of generators.
#[cycle(copy_generator)]
fn add_generators(alloc: Global, members: &[Gen], made: &mut List<Gen>) -> Result<(), OutOfMemory>
    ensures { OnOk result (made.new ≡ made.old ++ members.now) }
{
    for member in members {
        made.push(Gen {
            kind: copy_generator(alloc, &member.kind)?,
            span: member.span,
        })?;
    }
    Ok(())
}

/// A copy of a term.
#[cycle(copy_term)]
pub fn copy_term(alloc: Global, term: &Term) -> Result<Term, OutOfMemory>
    ensures { IfOk result (λ made. made ≡ term.now) }
{
    Ok(Term {
        kind: copy_kind(alloc, &term.kind)?,
        span: term.span,
    })
}

#[cycle(copy_term)]
fn copy_kind(alloc: Global, kind: &TermKind) -> Result<TermKind, OutOfMemory>
    ensures { IfOk result (λ made. made ≡ kind.now) }
{
    match kind {
        TermKind::Const(name) => Ok(TermKind::Const(copy_name(alloc, name)?)),
        TermKind::Param(name) => Ok(TermKind::Param(copy_name(alloc, name)?)),
        TermKind::Number(number) => Ok(TermKind::Number(*number)),
        TermKind::Card(card) => Ok(TermKind::Card(copy_card(alloc, card)?)),
        TermKind::Braces(elems) => {
            let mut made = List::new(alloc);
            add_elems(alloc, elems.as_slice(), &mut made)?;
            Ok(TermKind::Braces(made))
        }
        TermKind::Tuple(names) => Ok(TermKind::Tuple(copy_names(alloc, names.as_slice())?)),
        TermKind::Gen(written) => Ok(TermKind::Gen(Gen {
            kind: copy_generator(alloc, &written.kind)?,
            span: written.span,
        })),
    }
}

/// Adds copies of elements.
#[cycle(copy_term)]
fn add_elems(alloc: Global, elems: &[Elem], made: &mut List<Elem>) -> Result<(), OutOfMemory>
    ensures { OnOk result (made.new ≡ made.old ++ elems.now) }
{
    for elem in elems {
        made.push(Elem {
            kind: copy_elem(alloc, &elem.kind)?,
            span: elem.span,
        })?;
    }
    Ok(())
}

/// A copy of an element.
#[cycle(copy_term)]
pub(crate) fn copy_elem(alloc: Global, kind: &ElemKind) -> Result<ElemKind, OutOfMemory>
    ensures { IfOk result (λ made. made ≡ kind.now) }
{
    match kind {
        ElemKind::Count(name, card) => Ok(ElemKind::Count(
            copy_name(alloc, name)?,
            copy_card(alloc, card)?,
        )),
        ElemKind::Keyed(name, term) => Ok(ElemKind::Keyed(
            copy_name(alloc, name)?,
            Boxed::new(alloc, copy_term(alloc, term.get())?)?,
        )),
        ElemKind::Const(name) => Ok(ElemKind::Const(copy_name(alloc, name)?)),
        ElemKind::Tuple(names) => Ok(ElemKind::Tuple(copy_names(alloc, names.as_slice())?)),
    }
}
