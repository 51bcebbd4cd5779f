//! Names and parts that stand again where they may stand once.

ghost use Rattle.std.specs.Prelude.{◌≡◌, IfOk};
ghost use Rattle.xdg_names.specs.First.{first};
ghost use Rattle.xdg_types.specs.Parts.{dim_names, used_name, used_names, defined_names};
ghost use Rattle.xdg_types.specs.NameFaults as spec;
ghost use Rattle.xdg_typing.specs.Listed as listing;

use std::alloc::Global;
use xdg_ast::{DimPart, DimPartKind, Statement, StatementKind};
use xdg_base::{Fault, OutOfMemory};
use xdg_names::{Index, earlier};
use xdg_types::repeated;

// ---- dimensions

/// The first dimension whose name was seen before. From then on all their names are seen.
pub(crate) fn dims_again(
    alloc: Global,
    seen: &mut Index,
    statements: &[Statement],
) -> Result<Option<Fault>, OutOfMemory>
    ensures found { IfOk result (λ found. found ≡ first (spec.repeats seen.old (dim_names statements.now))) }
    ensures seen { IfOk result (λ _. seen.new ≡ spec.with_all seen.old (dim_names statements.now)) }
{
    let mut found = None;
    for statement in statements {
        found = earlier(found, dim_again(alloc, seen, statement)?);
    }
    Ok(found)
}

fn dim_again(
    alloc: Global,
    seen: &mut Index,
    statement: &Statement,
) -> Result<Option<Fault>, OutOfMemory>
    ensures found { IfOk result (λ found. found ≡ first (spec.repeats seen.old (spec.dim_name statement.now.kind))) }
    ensures seen { IfOk result (λ _. seen.new ≡ spec.with_all seen.old (spec.dim_name statement.now.kind)) }
{
    match &statement.kind {
        StatementKind::DefDim(name, _) => repeated(alloc, seen, name),
        _ => Ok(None),
    }
}

/// The first use of a dimension that was seen before. From then on all these uses are seen.
pub(crate) fn used_again(
    alloc: Global,
    seen: &mut Index,
    statements: &[Statement],
) -> Result<Option<Fault>, OutOfMemory>
    ensures found { IfOk result (λ found. found ≡ first (spec.repeats seen.old (used_names statements.now))) }
    ensures seen { IfOk result (λ _. seen.new ≡ spec.with_all seen.old (used_names statements.now)) }
{
    let mut found = None;
    for statement in statements {
        found = earlier(found, use_again(alloc, seen, statement)?);
    }
    Ok(found)
}

fn use_again(
    alloc: Global,
    seen: &mut Index,
    statement: &Statement,
) -> Result<Option<Fault>, OutOfMemory>
    ensures found { IfOk result (λ found. found ≡ first (spec.repeats seen.old (used_name statement.now.kind))) }
    ensures seen { IfOk result (λ _. seen.new ≡ spec.with_all seen.old (used_name statement.now.kind)) }
{
    match &statement.kind {
        StatementKind::UseDim(name) => repeated(alloc, seen, name),
        _ => Ok(None),
    }
}

// ---- definitions of types

/// The first type in all dimensions whose name was seen before. From then on all their names are seen.
pub(crate) fn definitions_again(
    alloc: Global,
    seen: &mut Index,
    statements: &[Statement],
) -> Result<Option<Fault>, OutOfMemory>
    ensures found { IfOk result (λ found. found ≡ first (spec.repeats seen.old (defined_names statements.now))) }
    ensures seen { IfOk result (λ _. seen.new ≡ spec.with_all seen.old (defined_names statements.now)) }
{
    let mut found = None;
    for statement in statements {
        found = earlier(found, definitions_in(alloc, seen, statement)?);
    }
    Ok(found)
}

fn definitions_in(
    alloc: Global,
    seen: &mut Index,
    statement: &Statement,
) -> Result<Option<Fault>, OutOfMemory>
    ensures found { IfOk result (λ found. found ≡ first (spec.repeats seen.old (listing.defined_name statement.now.kind))) }
    ensures seen { IfOk result (λ _. seen.new ≡ spec.with_all seen.old (listing.defined_name statement.now.kind)) }
{
    match &statement.kind {
        StatementKind::DefDim(_, parts) => definitions_by(alloc, seen, parts.as_slice()),
        _ => Ok(None),
    }
}

fn definitions_by(
    alloc: Global,
    seen: &mut Index,
    parts: &[DimPart],
) -> Result<Option<Fault>, OutOfMemory>
    ensures found { IfOk result (λ found. found ≡ first (spec.repeats seen.old (listing.named_by parts.now))) }
    ensures seen { IfOk result (λ _. seen.new ≡ spec.with_all seen.old (listing.named_by parts.now)) }
{
    let mut found = None;
    for part in parts {
        found = earlier(found, definition_again(alloc, seen, part)?);
    }
    Ok(found)
}

fn definition_again(
    alloc: Global,
    seen: &mut Index,
    part: &DimPart,
) -> Result<Option<Fault>, OutOfMemory>
    ensures found { IfOk result (λ found. found ≡ first (spec.repeats seen.old (listing.named_in part.now.kind))) }
    ensures seen { IfOk result (λ _. seen.new ≡ spec.with_all seen.old (listing.named_in part.now.kind)) }
{
    match &part.kind {
        DimPartKind::DefType(name, _) => repeated(alloc, seen, name),
        _ => Ok(None),
    }
}
