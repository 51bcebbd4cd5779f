//! The pass over the kinds and the sizes of a grammar's types.

ghost use Rattle.std.specs.Prelude.{◌≡◌, ℕ, List, ◌∷◌, map, flat_map, slice_get, IfOk};
ghost use Rattle.xdg_domain.specs.Shapes.{Shape};
ghost use Rattle.xdg_names.specs.First.{first, Tells};
ghost use Rattle.xdg_types.specs.Written.{tree};
ghost use Rattle.xdg_types.specs.Parts.{dimension, used_places};
ghost use Rattle.xdg_typing.specs.Heads.{Knows};
ghost use Rattle.xdg_types.specs.Kinds.{the_attributes, inside_attributes, part_sites, sites, KindOffends};
ghost use Rattle.xdg_typing.specs.KindFaults.{faults_in, ninth_use_faults};

use crate::definitions::Definitions;
use crate::walk::{check_inside, check_members, check_site, check_type};
use crate::wanted::Wanted;
use std::alloc::Global;
use xdg_ast::{DimPart, DimPartKind, Statement, StatementKind, TypeKind, TypeTerm};
use xdg_base::{Cause, Fault, OutOfMemory};
use xdg_names::earlier;

fn check_inside_attributes<'a>(
    alloc: Global,
    definitions: &Definitions<'a>,
    kind: &'a TypeKind,
) -> Result<Option<Fault>, OutOfMemory>
    ensures { (names : List ℕ → Shape) → Knows names definitions.now.names (map (λ head. head.now) definitions.now.heads.items)
        → IfOk result (λ found. found ≡ first (faults_in names (inside_attributes (tree kind.now)))) }
{
    match kind {
        TypeKind::Rec(fields) => check_members(
            alloc,
            definitions,
            Wanted::Attribute,
            fields.as_slice(),
        ),
        _ => check_inside(alloc, definitions, kind),
    }
}

fn check_attributes_type<'a>(
    alloc: Global,
    definitions: &Definitions<'a>,
    ty: &'a TypeTerm,
) -> Result<Option<Fault>, OutOfMemory>
    ensures { (names : List ℕ → Shape) → Knows names definitions.now.names (map (λ head. head.now) definitions.now.heads.items)
        → IfOk result
        (λ found.
        found
        ≡ first
        (faults_in names
        (record { wanted = the_attributes; at = ty.now.span.start; written = tree ty.now.kind } ∷ inside_attributes (tree ty.now.kind)))) }
{
    let here = check_site(alloc, definitions, Wanted::Attributes, ty)?;
    let inside = check_inside_attributes(alloc, definitions, &ty.kind)?;
    Ok(earlier(here, inside))
}

fn check_part<'a>(
    alloc: Global,
    definitions: &Definitions<'a>,
    part: &'a DimPart,
) -> Result<Option<Fault>, OutOfMemory>
    ensures { (names : List ℕ → Shape) → Knows names definitions.now.names (map (λ head. head.now) definitions.now.heads.items)
        → IfOk result (λ found. found ≡ first (faults_in names (part_sites part.now.kind))) }
{
    match &part.kind {
        DimPartKind::DefType(_, ty) => check_type(alloc, definitions, Wanted::Anything, ty),
        DimPartKind::LabelType(ty) => check_type(alloc, definitions, Wanted::Labels, ty),
        DimPartKind::AttrsType(ty) => check_attributes_type(alloc, definitions, ty),
        DimPartKind::EntryType(ty) => check_type(alloc, definitions, Wanted::Features, ty),
        _ => Ok(None),
    }
}

fn check_parts<'a>(
    alloc: Global,
    definitions: &Definitions<'a>,
    parts: &'a [DimPart],
) -> Result<Option<Fault>, OutOfMemory>
    ensures { (names : List ℕ → Shape) → Knows names definitions.now.names (map (λ head. head.now) definitions.now.heads.items)
        → IfOk result (λ found. found ≡ first (faults_in names (flat_map (λ part. part_sites part.kind) parts.now))) }
{
    let mut found = None;
    for part in parts {
        found = earlier(found, check_part(alloc, definitions, part)?);
    }
    Ok(found)
}

fn check_statement<'a>(
    alloc: Global,
    definitions: &Definitions<'a>,
    statement: &'a Statement,
) -> Result<Option<Fault>, OutOfMemory>
    ensures { (names : List ℕ → Shape) → Knows names definitions.now.names (map (λ head. head.now) definitions.now.heads.items)
        → IfOk result
        (λ found. found ≡ first (faults_in names (flat_map (λ dim. flat_map (λ part. part_sites part.kind) dim.1) (dimension statement.now.kind)))) }
{
    match &statement.kind {
        StatementKind::DefDim(_, parts) => check_parts(alloc, definitions, parts.as_slice()),
        _ => Ok(None),
    }
}

fn check_statements<'a>(
    alloc: Global,
    definitions: &Definitions<'a>,
    statements: &'a [Statement],
) -> Result<Option<Fault>, OutOfMemory>
    ensures { (names : List ℕ → Shape) → Knows names definitions.now.names (map (λ head. head.now) definitions.now.heads.items)
        → IfOk result (λ found. found ≡ first (faults_in names (sites statements.now))) }
{
    let mut found = None;
    for statement in statements {
        found = earlier(found, check_statement(alloc, definitions, statement)?);
    }
    Ok(found)
}

fn check_uses(statements: &[Statement]) -> Option<Fault>
    ensures { result ≡ first (ninth_use_faults (slice_get (used_places statements.now) 8)) }
{
    let mut left: usize = 8;
    for statement in statements {
        let StatementKind::UseDim(_) = &statement.kind else {
            continue;
        };
        if left == 0 {
            return Some(Fault {
                cause: Cause::TooWide,
                at: statement.span.start,
                reached: 9,
            });
        }
        left -= 1;
    }
    None
}

/// The first fault of the kinds and sizes of a grammar's types, if there is one: a type that is not of the wanted kind,
/// or a tuple type without fields (33, at the type); a domain of more than 64 constants (45, at the domain); more than
/// 32 labels, 1,024 tuples, eight attributes or eight dimensions that are used (44, at the type, the ninth field, or
/// the ninth statement); a constant of two fields of a tuple type (31, at the later constant, or at the later field
/// where it is given by name). An error is want of memory.
pub fn check_kinds<'a>(
    alloc: Global,
    statements: &'a [Statement],
    definitions: &Definitions<'a>,
) -> Result<Option<Fault>, OutOfMemory>
    ensures { (names : List ℕ → Shape) → Knows names definitions.now.names (map (λ head. head.now) definitions.now.heads.items)
        → IfOk result (λ found. Tells (KindOffends names statements.now) found) }
{
    let in_types = check_statements(alloc, definitions, statements)?;
    Ok(earlier(check_uses(statements), in_types))
}
