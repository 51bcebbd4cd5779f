//! Dimensions with their types.

ghost use Rattle.std.specs.Prelude.{◌≡◌, ◌↔◌, map, slice_get, IfOk, IsTrue};
ghost use Rattle.std.specs.Option.{option_copied};
ghost use Rattle.xdg_domain.specs.Shapes.{constants};
ghost use Rattle.xdg_types.specs.Parts as spec;
ghost use Rattle.xdg_typing.specs.Branches.{Naming};
ghost use Rattle.xdg_types.specs.Meaning.{as_domain};
ghost use Rattle.xdg_typing.specs.Heads.{Knows};
ghost use Rattle.xdg_types.specs.Table.{typed, fields_in, first_meaning, IsDim, AreDims};
ghost use Rattle.xdg_typing.specs.Weights.{Weighs};
ghost use Rattle.xdg_typing.specs.Small as small;
ghost use Rattle.xdg_typing.specs.Room.{HasRoom};
ghost use Rattle.xdg_typing.specs.Small.{all_parts, weight_of_all, AreSmall};
ghost use Rattle.xdg_typing.specs.Used.{found, places};

use crate::definitions::Definitions;
use crate::resolving::{MOST_PARTS, copies, resolve_attributes, resolve_members};
use std::alloc::Global;
use xdg_ast::{DimPart, DimPartKind, Name, Statement, StatementKind, TypeKind, TypeTerm};
use xdg_base::{List, OutOfMemory, Text};
use xdg_domain::Ty;
use xdg_names::Index;
use xdg_types::DimType;

/// Whether the types of all dimensions together have few enough parts.
pub(crate) fn is_small<'a>(definitions: &Definitions<'a>, statements: &'a [Statement]) -> bool
    ensures { (names : Naming) → Weighs names definitions.now.names definitions.now.weights.items → IsTrue result ↔ AreSmall names statements.now }
{
    weigh_all(definitions, statements) <= MOST_PARTS
}

/// The weight of the types of all dimensions.
fn weigh_all<'a>(definitions: &Definitions<'a>, statements: &'a [Statement]) -> u64
    ensures { (names : Naming) → Weighs names definitions.now.names definitions.now.weights.items
        → result ≡ weight_of_all names (small.given_types statements.now) }
{
    let mut all = 0u64;
    for statement in statements {
        all = all.saturating_add(weigh_statement(definitions, statement));
    }
    all
}

/// The weight of the types of a dimension, where the statement defines one.
fn weigh_statement<'a>(definitions: &Definitions<'a>, statement: &'a Statement) -> u64
    ensures { (names : Naming) → Weighs names definitions.now.names definitions.now.weights.items
        → result ≡ weight_of_all names (small.given_by statement.now.kind) }
{
    match &statement.kind {
        StatementKind::DefDim(_, parts) => weigh_parts(definitions, parts.as_slice()),
        _ => 0,
    }
}

/// The weight of the types of the labels, attributes and features.
fn weigh_parts<'a>(definitions: &Definitions<'a>, parts: &'a [DimPart]) -> u64
    ensures { (names : Naming) → Weighs names definitions.now.names definitions.now.weights.items → result ≡ weight_of_all names (small.given_in parts.now) }
{
    let mut all = 0u64;
    for part in parts {
        all = all.saturating_add(weigh_part(definitions, part));
    }
    all
}

/// The weight of the type of the labels, attributes or features, where a part gives one.
#[tactic(auto, using(crate::proofs::SmallTypes::one_type))]
fn weigh_part<'a>(definitions: &Definitions<'a>, part: &'a DimPart) -> u64
    ensures { (names : Naming) → Weighs names definitions.now.names definitions.now.weights.items → result ≡ weight_of_all names (small.given part.now.kind) }
{
    match &part.kind {
        DimPartKind::LabelType(ty) => definitions.weight(ty),
        DimPartKind::AttrsType(ty) => definitions.weight(ty),
        DimPartKind::EntryType(ty) => definitions.weight(ty),
        _ => 0,
    }
}

/// The dimensions, in the order of the text.
pub(crate) fn resolve_dimensions<'a>(
    alloc: Global,
    definitions: &Definitions<'a>,
    statements: &'a [Statement],
) -> Result<List<DimType>, OutOfMemory>
    requires { HasRoom definitions.now.names (map (λ head. head.now) definitions.now.heads.items) (λ names. all_parts names (small.given_types statements.now))
        16777216 }
    ensures { (names : Naming) → Knows names definitions.now.names (map (λ head. head.now) definitions.now.heads.items)
        → IfOk result (λ made. AreDims names (spec.dimensions statements.now) made) }
{
    let mut all = List::new(alloc);
    for statement in statements {
        match &statement.kind {
            StatementKind::DefDim(name, parts) => {
                all.push(resolve_dimension(alloc, definitions, name, parts.as_slice())?)?;
            }
            _ => {}
        }
    }
    Ok(all)
}

/// The dimension with this name and these parts.
fn resolve_dimension<'a>(
    alloc: Global,
    definitions: &Definitions<'a>,
    name: &Name,
    parts: &'a [DimPart],
) -> Result<DimType, OutOfMemory>
    requires { HasRoom definitions.now.names (map (λ head. head.now) definitions.now.heads.items) (λ names. all_parts names (small.given_in parts.now))
        16777216 }
    ensures { (names : Naming) → Knows names definitions.now.names (map (λ head. head.now) definitions.now.heads.items)
        → IfOk result (λ made. IsDim names (name.now, parts.now) made) }
{
    Ok(DimType {
        name: name.text.copy(alloc)?,
        labels: labels(alloc, definitions, parts)?,
        attrs: attributes(alloc, definitions, parts)?,
        fields: features(alloc, definitions, parts)?,
    })
}

/// The labels of a dimension.
fn labels<'a>(
    alloc: Global,
    definitions: &Definitions<'a>,
    parts: &'a [DimPart],
) -> Result<List<Text>, OutOfMemory>
    ensures { (names : Naming) → Knows names definitions.now.names (map (λ head. head.now) definitions.now.heads.items)
        → IfOk result (λ made. made ≡ constants (as_domain (first_meaning names (spec.in_parts spec.label_type parts.now)))) }
{
    let Some(ty) = label_type(parts) else {
        return Ok(List::new(alloc));
    };
    match &definitions.head(ty).kind {
        TypeKind::Domain(constants) => copies(alloc, constants.as_slice()),
        _ => Ok(List::new(alloc)),
    }
}

/// The attributes of a dimension, with their types.
fn attributes<'a>(
    alloc: Global,
    definitions: &Definitions<'a>,
    parts: &'a [DimPart],
) -> Result<List<(Text, Ty)>, OutOfMemory>
    requires { HasRoom definitions.now.names (map (λ head. head.now) definitions.now.heads.items) (λ names. all_parts names (small.given_in parts.now))
        16777216 }
    ensures { (names : Naming) → Knows names definitions.now.names (map (λ head. head.now) definitions.now.heads.items)
        → IfOk result (λ made. typed made ≡ map (λ one. (one.0, as_domain one.1)) (fields_in (first_meaning names (spec.in_parts spec.attrs_type parts.now)))) }
{
    let Some(ty) = attrs_type(parts) else {
        return Ok(List::new(alloc));
    };
    match &definitions.head(ty).kind {
        TypeKind::Rec(fields) => {
            resolve_attributes(alloc, definitions, fields.as_slice(), MOST_PARTS)
        }
        _ => Ok(List::new(alloc)),
    }
}

/// The features of a dimension, with their types.
fn features<'a>(
    alloc: Global,
    definitions: &Definitions<'a>,
    parts: &'a [DimPart],
) -> Result<List<(Text, Ty)>, OutOfMemory>
    requires { HasRoom definitions.now.names (map (λ head. head.now) definitions.now.heads.items) (λ names. all_parts names (small.given_in parts.now))
        16777216 }
    ensures { (names : Naming) → Knows names definitions.now.names (map (λ head. head.now) definitions.now.heads.items)
        → IfOk result (λ made. typed made ≡ fields_in (first_meaning names (spec.in_parts spec.entry_type parts.now))) }
{
    let Some(ty) = entry_type(parts) else {
        return Ok(List::new(alloc));
    };
    match &definitions.head(ty).kind {
        TypeKind::Rec(fields) => resolve_members(alloc, definitions, fields.as_slice(), MOST_PARTS),
        _ => Ok(List::new(alloc)),
    }
}

/// The type of the labels, if it is given.
fn label_type<'a>(parts: &'a [DimPart]) -> Option<&'a TypeTerm>
    ensures { option_copied result ≡ slice_get (spec.in_parts spec.label_type parts.now) 0 }
{
    for part in parts {
        match &part.kind {
            DimPartKind::LabelType(ty) => return Some(ty),
            _ => {}
        }
    }
    None
}

/// The type of the attributes, if it is given.
fn attrs_type<'a>(parts: &'a [DimPart]) -> Option<&'a TypeTerm>
    ensures { option_copied result ≡ slice_get (spec.in_parts spec.attrs_type parts.now) 0 }
{
    for part in parts {
        match &part.kind {
            DimPartKind::AttrsType(ty) => return Some(ty),
            _ => {}
        }
    }
    None
}

/// The type of the features, if it is given.
fn entry_type<'a>(parts: &'a [DimPart]) -> Option<&'a TypeTerm>
    ensures { option_copied result ≡ slice_get (spec.in_parts spec.entry_type parts.now) 0 }
{
    for part in parts {
        match &part.kind {
            DimPartKind::EntryType(ty) => return Some(ty),
            _ => {}
        }
    }
    None
}

/// The places of the dimensions that are used, in the order of their uses.
pub(crate) fn used_places(
    alloc: Global,
    known: &Index,
    statements: &[Statement],
) -> Result<List<usize>, OutOfMemory>
    ensures { IfOk result (λ made. made ≡ places known.now (spec.used_names statements.now)) }
{
    let mut all = List::new(alloc);
    for statement in statements {
        match used_place(known, statement) {
            Some(place) => all.push(place)?,
            None => {}
        }
    }
    Ok(all)
}

/// The place of the dimension that a statement uses.
fn used_place(known: &Index, statement: &Statement) -> Option<usize>
    ensures { found result ≡ places known.now (spec.used_name statement.now.kind) }
{
    match &statement.kind {
        StatementKind::UseDim(name) => known.find(name.text.as_str()),
        _ => None,
    }
}
