//! The types that are wanted of the parameters in terms.

ghost use Rattle.std.specs.Prelude.{◌≡◌, ◌++◌, Some, IfOk};
ghost use Rattle.std.specs.List.{flat_map};
ghost use Rattle.std.specs.Option.{option_copied};
ghost use Rattle.xdg_domain.specs.Shapes.{shape};
ghost use Rattle.xdg_terms.specs.Forms.{all_of, keyed_elem, pairs_of};
ghost use Rattle.xdg_terms.specs.Offences.{all_told};
ghost use Rattle.xdg_terms.specs.Faults.{fields_in};
ghost use Rattle.xdg_terms.specs.Wanted as spec;

use crate::forms::each_keyed;
use std::alloc::Global;
use xdg_ast::{Elem, ElemKind, Name, Params, Term, TermKind};
use xdg_base::{OutOfMemory, Text};
use xdg_domain::Ty;

/// A parameter that stands where a type is wanted.
#[derive(Clone, Copy)]
pub struct Wanted<'a> {
    /// The parameter, where it stands.
    pub name: &'a Name,
    /// The type that is wanted there.
    pub ty: &'a Ty,
}

/// The open parameters that stand in a term where a type is wanted, each with the type that is wanted at its place, in
/// the order of the text: the term itself, the values of a map, and the values of the fields that a record has. A
/// parameter under a key that a record has not is left out, and so are those in braces that are not of the wanted form.
pub fn params_in<'a>(
    alloc: Global,
    ty: &'a Ty,
    term: &'a Term,
    params: &Params,
) -> Result<Vec<Wanted<'a>>, OutOfMemory>
    ensures { IfOk result (λ found. spec.wants_of found.items ≡ spec.params_in params.now (shape ty.now) term.now) }
{
    let mut found = Vec::new(alloc);
    add_params(ty, term, params, &mut found)?;
    Ok(found)
}

/// The open parameter that the term is.
#[tactic(auto, unfolding(crate::specs::Wanted::free_of))]
fn free<'a>(term: &'a Term, params: &Params) -> Option<&'a Name>
    ensures { option_copied result ≡ spec.free_of params.now term.now }
{
    match &term.kind {
        TermKind::Param(name) => {
            if params.contains(name.text.as_str()) {
                Some(name)
            } else {
                None
            }
        }
        _ => None,
    }
}

/// The elements in braces, where all of them are keys with terms.
#[tactic(auto, unfolding(crate::specs::Forms::pairs_of))]
fn keyed(term: &Term) -> &[Elem]
    ensures { all_of keyed_elem result.now ≡ Some (all_told (pairs_of term.now)) }
{
    let TermKind::Braces(elems) = &term.kind else {
        return &[];
    };
    let elems = elems.as_slice();
    if each_keyed(elems) { elems } else { &[] }
}

/// Adds those in a term.
#[cycle(add_params)]
fn add_params<'a>(
    ty: &'a Ty,
    term: &'a Term,
    params: &Params,
    found: &mut Vec<Wanted<'a>>,
) -> Result<(), OutOfMemory>
    ensures { IfOk result (λ _. spec.wants_of found.new.items ≡ spec.wants_of found.old.items ++ spec.params_in params.now (shape ty.now) term.now) }
{
    match free(term, params) {
        Some(name) => {
            found.push(Wanted { name, ty })?;
            Ok(())
        }
        None => add_inside(ty, term, params, found),
    }
}

/// Adds those inside a term.
#[cycle(add_params)]
fn add_inside<'a>(
    ty: &'a Ty,
    term: &'a Term,
    params: &Params,
    found: &mut Vec<Wanted<'a>>,
) -> Result<(), OutOfMemory>
    ensures { IfOk result (λ _. spec.wants_of found.new.items ≡ spec.wants_of found.old.items ++ spec.params_inside params.now (shape ty.now) term.now) }
{
    match ty {
        Ty::Map(_, value) => add_values(value.get(), keyed(term), params, found),
        Ty::Rec(fields) => add_parts(fields.as_slice(), keyed(term), params, found),
        _ => Ok(()),
    }
}

/// Adds those in the values of a map.
#[cycle(add_params)]
#[tactic(auto, unfolding(crate::specs::Wanted::value_params))]
fn add_values<'a>(
    value: &'a Ty,
    elems: &'a [Elem],
    params: &Params,
    found: &mut Vec<Wanted<'a>>,
) -> Result<(), OutOfMemory>
    ensures { IfOk result
        (λ _. spec.wants_of found.new.items ≡ spec.wants_of found.old.items ++ flat_map (spec.value_params params.now (shape value.now)) elems.now) }
{
    for elem in elems {
        if let ElemKind::Keyed(_, term) = &elem.kind {
            add_params(value, term.get(), params, found)?;
        }
    }
    Ok(())
}

/// Adds those in the values of a record's fields.
#[cycle(add_params)]
#[tactic(auto, unfolding(crate::specs::Wanted::part_params))]
fn add_parts<'a>(
    fields: &'a [(Text, Ty)],
    elems: &'a [Elem],
    params: &Params,
    found: &mut Vec<Wanted<'a>>,
) -> Result<(), OutOfMemory>
    ensures { IfOk result
        (λ _. spec.wants_of found.new.items ≡ spec.wants_of found.old.items ++ flat_map (spec.part_params params.now (fields_in fields.now)) elems.now) }
{
    for elem in elems {
        if let ElemKind::Keyed(name, term) = &elem.kind {
            add_under(fields, name, term.get(), params, found)?;
        }
    }
    Ok(())
}

/// Adds those in the term that stands under a name, where a field has it.
#[cycle(add_params)]
fn add_under<'a>(
    fields: &'a [(Text, Ty)],
    key: &Name,
    term: &'a Term,
    params: &Params,
    found: &mut Vec<Wanted<'a>>,
) -> Result<(), OutOfMemory>
    ensures { IfOk result
        (λ _. spec.wants_of found.new.items ≡ spec.wants_of found.old.items ++ spec.params_under params.now (fields_in fields.now) (key.now, term.now)) }
{
    for (name, ty) in fields {
        if name.as_str() == key.text.as_str() {
            return add_params(ty, term, params, found);
        }
    }
    Ok(())
}
