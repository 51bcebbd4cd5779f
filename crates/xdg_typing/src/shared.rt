//! Constants that two fields of a tuple type have.

ghost use Rattle.std.specs.Prelude.{◌≡◌, ℕ, List, [], map, flat_map, IfOk, OnOk};
ghost use Rattle.xdg_domain.specs.Shapes.{Shape};
ghost use Rattle.xdg_names.specs.First.{first};
ghost use Rattle.xdg_types.specs.Written.{tree};
ghost use Rattle.xdg_ast.specs.Texts.{texts};
ghost use Rattle.xdg_typing.specs.Heads.{Knows};
ghost use Rattle.xdg_typing.specs.KindFaults.{add_texts, has_one, trees, field_faults, shared_in, shared_faults, one_fault};
ghost use Rattle.xdg_types.specs.NameFaults.{repeated};

use crate::definitions::Definitions;
use crate::sizes::constants_of;
use std::alloc::Global;
use xdg_ast::{Name, TypeKind, TypeTerm};
use xdg_base::{Cause, Fault, OutOfMemory};
use xdg_names::{Index, earlier};

fn add_constants(alloc: Global, seen: &mut Index, constants: &[Name]) -> Result<(), OutOfMemory>
    ensures { OnOk result (seen.new ≡ add_texts seen.old (texts constants.now)) }
{
    for constant in constants {
        seen.add(alloc, constant.text.as_str())?;
    }
    Ok(())
}

fn has_one(seen: &Index, constants: &[Name]) -> bool
    ensures { result ≡ has_one seen.now (texts constants.now) }
{
    for constant in constants {
        if seen.contains(constant.text.as_str()) {
            return true;
        }
    }
    false
}

fn check_constant(seen: &Index, constant: &Name) -> Option<Fault>
    ensures { result ≡ first (repeated seen.now constant.now) }
{
    if seen.contains(constant.text.as_str()) {
        Some(Fault::at(Cause::Twice, constant.span.start))
    } else {
        None
    }
}

fn check_constants(seen: &Index, constants: &[Name]) -> Option<Fault>
    ensures { result ≡ first (flat_map (repeated seen.now) constants.now) }
{
    let mut found = None;
    for constant in constants {
        found = earlier(found, check_constant(seen, constant));
    }
    found
}

fn check_one(at: u32, shared: bool) -> Option<Fault>
    ensures { result ≡ first (one_fault at shared) }
{
    if shared {
        Some(Fault::at(Cause::Twice, at))
    } else {
        None
    }
}

fn check_field<'a>(definitions: &Definitions<'a>, seen: &Index, ty: &'a TypeTerm) -> Option<Fault>
    ensures { (names : List ℕ → Shape) → Knows names definitions.now.names (map (λ head. head.now) definitions.now.heads.items)
        → result ≡ first (field_faults names seen.now ty.now.span.start (tree ty.now.kind)) }
{
    match &ty.kind {
        TypeKind::Domain(constants) => check_constants(seen, constants.as_slice()),
        TypeKind::Named(_) => check_one(
            ty.span.start,
            has_one(seen, constants_of(definitions, ty)),
        ),
        _ => None,
    }
}

fn check_fields<'a>(
    alloc: Global,
    definitions: &Definitions<'a>,
    types: &'a [TypeTerm],
) -> Result<Option<Fault>, OutOfMemory>
    ensures { (names : List ℕ → Shape) → Knows names definitions.now.names (map (λ head. head.now) definitions.now.heads.items)
        → IfOk result (λ found. found ≡ first (shared_in names [] (trees types.now))) }
{
    let mut seen = Index::new(alloc);
    let mut found = None;
    for ty in types {
        found = earlier(found, check_field(definitions, &seen, ty));
        add_constants(alloc, &mut seen, constants_of(definitions, ty))?;
    }
    Ok(found)
}

/// The first constant of a tuple type that an earlier field has: its place, or that of the field that is given by name.
pub(crate) fn check_shared<'a>(
    alloc: Global,
    definitions: &Definitions<'a>,
    ty: &'a TypeTerm,
) -> Result<Option<Fault>, OutOfMemory>
    ensures { (names : List ℕ → Shape) → Knows names definitions.now.names (map (λ head. head.now) definitions.now.heads.items)
        → IfOk result (λ found. found ≡ first (shared_faults names (tree ty.now.kind))) }
{
    match &ty.kind {
        TypeKind::Tuple(types) => check_fields(alloc, definitions, types.as_slice()),
        _ => Ok(None),
    }
}
