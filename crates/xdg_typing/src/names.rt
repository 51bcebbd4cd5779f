//! The pass over the names of dimensions and types.

ghost use Rattle.std.specs.Prelude.{◌≡◌, ℕ, List, flat_map, IfOk};
ghost use Rattle.xdg_facts.specs.Membership.{Differ};
ghost use Rattle.xdg_names.specs.First.{first, Tells};
ghost use Rattle.xdg_names.specs.Texts.{has_text};
ghost use Rattle.xdg_types.specs.Parts.{dimension, dimensions, defined_names, in_parts, type_in};
ghost use Rattle.xdg_ast.specs.Texts.{texts};
ghost use Rattle.xdg_types.specs.Names.{NameOffends};
ghost use Rattle.xdg_typing.specs.Listed as listing;

use crate::contents::lists_again;
use crate::repeats::{definitions_again, dims_again, used_again};
use crate::singles::parts_again;
use crate::uses::{unknown_in, unknown_used};
use std::alloc::Global;
use xdg_ast::{DimPart, DimPartKind, Statement, StatementKind, TypeTerm};
use xdg_base::{Fault, OutOfMemory};
use xdg_names::{Index, earlier};

/// The first fault of the names of dimensions and types, if there is one. Its cause is `UnknownName` (30) for a
/// dimension that is used and a type that is named without being defined, and `Twice` (31) for a dimension that is
/// defined or used again, a type that is defined again, a constant that stands again in a domain, a field in a record,
/// and the type of the labels, the attributes or the features in a dimension. Its place is where the name or the part
/// begins. A name may be used before it is defined. Names are looked up in hash indexes.
#[tactic(auto, using(crate::proofs::NameLaw::names_tell))]
pub fn check_names(alloc: Global, statements: &[Statement]) -> Result<Option<Fault>, OutOfMemory>
    ensures { IfOk result (λ found. Tells (NameOffends statements.now) found) }
{
    names_wrong(alloc, statements)
}

/// The different names of the types that the dimensions define, in the order of the text.
#[tactic(auto, using(xdg_types::proofs::Distinct::same_known, xdg_types::proofs::Distinct::all_differ))]
pub fn defined(alloc: Global, statements: &[Statement]) -> Result<Index, OutOfMemory>
    ensures known { IfOk result (λ made. (t : List ℕ) → has_text made t ≡ has_text (texts (defined_names statements.now)) t) }
    ensures same { IfOk result (λ made. Differ (texts (defined_names statements.now)) → made ≡ texts (defined_names statements.now)) }
{
    let mut made = Index::new(alloc);
    let _ = definitions_again(alloc, &mut made, statements)?;
    Ok(made)
}

#[tactic(auto, using(xdg_names::proofs::First::first_append))]
fn names_wrong(alloc: Global, statements: &[Statement]) -> Result<Option<Fault>, OutOfMemory>
    ensures { IfOk result (λ found. found ≡ first (listing.name_faults statements.now)) }
{
    let mut dims = Index::new(alloc);
    let dims_twice = dims_again(alloc, &mut dims, statements)?;
    let mut used = Index::new(alloc);
    let used_twice = used_again(alloc, &mut used, statements)?;
    let mut types = Index::new(alloc);
    let types_twice = definitions_again(alloc, &mut types, statements)?;
    let inside = in_statements(alloc, &types, statements)?;
    let unknown = unknown_used(&dims, statements);
    let twice = earlier(used_twice, earlier(types_twice, inside));
    Ok(earlier(unknown, earlier(dims_twice, twice)))
}

/// In the dimensions.
fn in_statements(
    alloc: Global,
    known: &Index,
    statements: &[Statement],
) -> Result<Option<Fault>, OutOfMemory>
    ensures { IfOk result (λ found. found ≡ first (flat_map (listing.in_dimension known.now) (dimensions statements.now))) }
{
    let mut found = None;
    for statement in statements {
        found = earlier(found, in_statement(alloc, known, statement)?);
    }
    Ok(found)
}

fn in_statement(
    alloc: Global,
    known: &Index,
    statement: &Statement,
) -> Result<Option<Fault>, OutOfMemory>
    ensures { IfOk result (λ found. found ≡ first (flat_map (listing.in_dimension known.now) (dimension statement.now.kind))) }
{
    match &statement.kind {
        StatementKind::DefDim(_, parts) => in_dimension(alloc, known, parts.as_slice()),
        _ => Ok(None),
    }
}

#[tactic(auto, using(xdg_names::proofs::First::first_append))]
fn in_dimension(
    alloc: Global,
    known: &Index,
    parts: &[DimPart],
) -> Result<Option<Fault>, OutOfMemory>
    ensures { IfOk result (λ found. found ≡ first (listing.in_definition known.now parts.now)) }
{
    let inside = in_types(alloc, known, parts)?;
    Ok(earlier(inside, parts_again(parts)))
}

/// In the types of these parts.
fn in_types(alloc: Global, known: &Index, parts: &[DimPart]) -> Result<Option<Fault>, OutOfMemory>
    ensures { IfOk result (λ found. found ≡ first (flat_map (listing.in_type known.now) (in_parts type_in parts.now))) }
{
    let mut found = None;
    for part in parts {
        found = earlier(found, in_part(alloc, known, part)?);
    }
    Ok(found)
}

fn in_part(alloc: Global, known: &Index, part: &DimPart) -> Result<Option<Fault>, OutOfMemory>
    ensures { IfOk result (λ found. found ≡ first (flat_map (listing.in_type known.now) (type_in part.now.kind))) }
{
    match &part.kind {
        DimPartKind::DefType(_, ty) => in_type(alloc, known, ty),
        DimPartKind::LabelType(ty) => in_type(alloc, known, ty),
        DimPartKind::AttrsType(ty) => in_type(alloc, known, ty),
        DimPartKind::EntryType(ty) => in_type(alloc, known, ty),
        _ => Ok(None),
    }
}

#[tactic(auto, using(xdg_names::proofs::First::first_append))]
fn in_type(alloc: Global, known: &Index, ty: &TypeTerm) -> Result<Option<Fault>, OutOfMemory>
    ensures { IfOk result (λ found. found ≡ first (listing.in_type known.now ty.now)) }
{
    let again = lists_again(alloc, ty)?;
    Ok(earlier(unknown_in(known, ty), again))
}
