//! The walk over what stands in a type.

ghost use Rattle.std.specs.Prelude.{◌≡◌, ℕ, List, ◌∷◌, map, IfOk};
ghost use Rattle.xdg_base.specs.Faults.{fault_at};
ghost use Rattle.xdg_domain.specs.Shapes.{Shape};
ghost use Rattle.xdg_names.specs.First.{first};
ghost use Rattle.xdg_types.specs.Written.{tree};
ghost use Rattle.xdg_base.specs.declared.faults.Cause.TheVariants as causes;
ghost use Rattle.xdg_typing.specs.Heads.{Knows};
ghost use Rattle.xdg_types.specs.Kinds.{inside, inside_trees, inside_members};
ghost use Rattle.xdg_typing.specs.KindFaults.{asked, trees, members, wrong_faults, kind_faults, alone_faults, site_faults, faults_in};

use crate::attributes::check_attributes;
use crate::definitions::Definitions;
use crate::shared::check_shared;
use crate::sizes::{check_labels, check_size, check_width, constants_of};
use crate::wanted::{Wanted, has_no_field, is_of_kind};
use std::alloc::Global;
use xdg_ast::{Pair, TypeKind, TypeTerm};
use xdg_base::{Cause, Fault, OutOfMemory};
use xdg_names::earlier;

fn wrong_kind(at: u32) -> Option<Fault>
    ensures { result ≡ Some (fault_at causes.WrongKind at) }
{
    Some(Fault::at(Cause::WrongKind, at))
}

fn check_right(at: u32, right: bool, fieldless: bool) -> Option<Fault>
    ensures { result ≡ first (wrong_faults at right fieldless) }
{
    if right {
        if fieldless {
            return wrong_kind(at);
        }
        return None;
    }
    wrong_kind(at)
}

fn check_kind<'a>(definitions: &Definitions<'a>, wanted: Wanted, ty: &'a TypeTerm) -> Option<Fault>
    ensures { (names : List ℕ → Shape) → Knows names definitions.now.names (map (λ head. head.now) definitions.now.heads.items)
        → result ≡ first (kind_faults names (asked wanted) ty.now.span.start (tree ty.now.kind)) }
{
    check_right(
        ty.span.start,
        is_of_kind(definitions, wanted, ty),
        has_no_field(&ty.kind),
    )
}

fn check_alone<'a>(definitions: &Definitions<'a>, wanted: Wanted, ty: &'a TypeTerm) -> Option<Fault>
    ensures { (names : List ℕ → Shape) → Knows names definitions.now.names (map (λ head. head.now) definitions.now.heads.items)
        → result ≡ first (alone_faults names (asked wanted) ty.now.span.start (tree ty.now.kind)) }
{
    let kind = check_kind(definitions, wanted, ty);
    let size = check_size(ty);
    let labels = check_labels(wanted, ty.span.start, constants_of(definitions, ty).len());
    let width = check_width(definitions, ty);
    let attributes = check_attributes(definitions, wanted, ty);
    earlier(
        kind,
        earlier(size, earlier(labels, earlier(width, attributes))),
    )
}

/// The first fault of a type, without what stands in it.
pub(crate) fn check_site<'a>(
    alloc: Global,
    definitions: &Definitions<'a>,
    wanted: Wanted,
    ty: &'a TypeTerm,
) -> Result<Option<Fault>, OutOfMemory>
    ensures { (names : List ℕ → Shape) → Knows names definitions.now.names (map (λ head. head.now) definitions.now.heads.items)
        → IfOk result (λ found. found ≡ first (site_faults names (record { wanted = asked wanted; at = ty.now.span.start; written = tree ty.now.kind }))) }
{
    let shared = check_shared(alloc, definitions, ty)?;
    Ok(earlier(check_alone(definitions, wanted, ty), shared))
}

/// The first fault of a type and of what stands in it.
#[cycle(walk)]
pub(crate) fn check_type<'a>(
    alloc: Global,
    definitions: &Definitions<'a>,
    wanted: Wanted,
    ty: &'a TypeTerm,
) -> Result<Option<Fault>, OutOfMemory>
    ensures { (names : List ℕ → Shape) → Knows names definitions.now.names (map (λ head. head.now) definitions.now.heads.items)
        → IfOk result
        (λ found. found
        ≡ first (faults_in names (record { wanted = asked wanted; at = ty.now.span.start; written = tree ty.now.kind } ∷ inside (tree ty.now.kind)))) }
{
    let here = check_site(alloc, definitions, wanted, ty)?;
    let inside = check_inside(alloc, definitions, &ty.kind)?;
    Ok(earlier(here, inside))
}

/// The first fault of what stands in a type.
#[cycle(walk)]
pub(crate) fn check_inside<'a>(
    alloc: Global,
    definitions: &Definitions<'a>,
    kind: &'a TypeKind,
) -> Result<Option<Fault>, OutOfMemory>
    ensures { (names : List ℕ → Shape) → Knows names definitions.now.names (map (λ head. head.now) definitions.now.heads.items)
        → IfOk result (λ found. found ≡ first (faults_in names (inside (tree kind.now)))) }
{
    match kind {
        TypeKind::Rec(fields) => check_members(
            alloc,
            definitions,
            Wanted::Anything,
            fields.as_slice(),
        ),
        TypeKind::Tuple(types) => check_types(alloc, definitions, types.as_slice()),
        TypeKind::Set(part) => check_type(alloc, definitions, Wanted::Small, part.get()),
        TypeKind::ISet(part) => check_type(alloc, definitions, Wanted::Small, part.get()),
        TypeKind::Valency(part) => check_type(alloc, definitions, Wanted::Domain, part.get()),
        TypeKind::Map(key, value) => {
            let first = check_type(alloc, definitions, Wanted::Domain, key.get())?;
            let second = check_type(alloc, definitions, Wanted::Mapped, value.get())?;
            Ok(earlier(first, second))
        }
        _ => Ok(None),
    }
}

#[cycle(walk)]
fn check_types<'a>(
    alloc: Global,
    definitions: &Definitions<'a>,
    types: &'a [TypeTerm],
) -> Result<Option<Fault>, OutOfMemory>
    ensures { (names : List ℕ → Shape) → Knows names definitions.now.names (map (λ head. head.now) definitions.now.heads.items)
        → IfOk result (λ found. found ≡ first (faults_in names (inside_trees (trees types.now)))) }
{
    let mut found = None;
    for ty in types {
        let here = check_site(alloc, definitions, Wanted::Domain, ty)?;
        let inside = check_inside(alloc, definitions, &ty.kind)?;
        found = earlier(found, earlier(here, inside));
    }
    Ok(found)
}

/// The first fault of the fields of a record, where each of them is wanted to be of one kind.
#[cycle(walk)]
pub(crate) fn check_members<'a>(
    alloc: Global,
    definitions: &Definitions<'a>,
    wanted: Wanted,
    fields: &'a [Pair<TypeTerm>],
) -> Result<Option<Fault>, OutOfMemory>
    ensures { (names : List ℕ → Shape) → Knows names definitions.now.names (map (λ head. head.now) definitions.now.heads.items)
        → IfOk result (λ found. found ≡ first (faults_in names (inside_members (asked wanted) (members fields.now)))) }
{
    let mut found = None;
    for field in fields {
        let here = check_site(alloc, definitions, wanted, &field.value)?;
        let inside = check_inside(alloc, definitions, &field.value.kind)?;
        found = earlier(found, earlier(here, inside));
    }
    Ok(found)
}
