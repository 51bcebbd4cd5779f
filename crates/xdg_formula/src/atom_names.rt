//! What is wrong with what an atom names.

ghost use Rattle.std.specs.Prelude.{◌≡◌};
ghost use Rattle.xdg_domain.specs.Shapes.{shape};
ghost use Rattle.xdg_names.specs.First.{first};
ghost use Rattle.xdg_formula.specs.Formulas as spec;
ghost use Rattle.xdg_formula.specs.Tables.{used_dims};

use crate::tables::{dim_named, member_type, type_named};
use std::alloc::Global;
use xdg_ast::{Name, Params, Term};
use xdg_base::{Cause, Fault, Text};
use xdg_domain::Ty;
use xdg_terms::{check_constant, check_open};
use xdg_types::TypeTable;

/// The dimension of an edge, and its label.
pub(crate) fn check_edge(types: &TypeTable, dim: &Name, label: &Name) -> Option<Fault>
    ensures { result ≡ first (spec.edge_faults (used_dims types.now) dim.now label.now) }
{
    match dim_named(types, dim.text.as_str()) {
        None => Some(Fault::at(Cause::UnknownName, dim.span.start)),
        Some(found) => check_constant(found.labels.as_slice(), label),
    }
}

/// A dimension that isn't used.
pub(crate) fn check_dim(types: &TypeTable, dim: &Name) -> Option<Fault>
    ensures { result ≡ first (spec.dim_faults (used_dims types.now) dim.now) }
{
    match dim_named(types, dim.text.as_str()) {
        None => Some(Fault::at(Cause::UnknownName, dim.span.start)),
        Some(_) => None,
    }
}

/// A value where one of a type is wanted.
#[tactic(auto, using(crate::proofs::Told::value_told))]
fn check_value(alloc: Global, ty: &Ty, value: &Term) -> Option<Fault>
    ensures { result ≡ first (spec.value_faults (shape ty.now) value.now) }
{
    check_open(ty, value, &Params::none(alloc))
}

/// An attribute among these, and a value of it.
fn check_attribute(alloc: Global, attrs: &[(Text, Ty)], attr: &Name, value: &Term) -> Option<Fault>
    ensures { result ≡ first (spec.attribute_faults attrs.now attr.now value.now) }
{
    match type_named(attrs, attr.text.as_str()) {
        None => Some(Fault::at(Cause::UnknownName, attr.span.start)),
        Some(ty) => check_value(alloc, ty, value),
    }
}

/// The dimension of an attribute, the attribute and its value.
pub(crate) fn check_attr(
    alloc: Global,
    types: &TypeTable,
    dim: &Name,
    attr: &Name,
    value: &Term,
) -> Option<Fault>
    ensures { result ≡ first (spec.attr_faults (used_dims types.now) dim.now attr.now value.now) }
{
    match dim_named(types, dim.text.as_str()) {
        None => Some(Fault::at(Cause::UnknownName, dim.span.start)),
        Some(found) => check_attribute(alloc, found.attrs.as_slice(), attr, value),
    }
}

/// A feature of a type, and a value of it.
fn check_member(alloc: Global, ty: &Ty, feature: &Name, value: &Term) -> Option<Fault>
    ensures { result ≡ first (spec.feature_faults feature.now value.now (shape ty.now)) }
{
    match member_type(ty) {
        None => Some(Fault::at(Cause::WrongKind, feature.span.start)),
        Some(wanted) => check_value(alloc, wanted, value),
    }
}

/// A feature among these, and a value of it.
fn check_field(alloc: Global, fields: &[(Text, Ty)], feature: &Name, value: &Term) -> Option<Fault>
    ensures { result ≡ first (spec.field_faults fields.now feature.now value.now) }
{
    match type_named(fields, feature.text.as_str()) {
        None => Some(Fault::at(Cause::UnknownName, feature.span.start)),
        Some(ty) => check_member(alloc, ty, feature, value),
    }
}

/// The dimension of a feature, the feature and a value of it.
pub(crate) fn check_feature(
    alloc: Global,
    types: &TypeTable,
    dim: &Name,
    feature: &Name,
    value: &Term,
) -> Option<Fault>
    ensures { result ≡ first (spec.feat_faults (used_dims types.now) dim.now feature.now value.now) }
{
    match dim_named(types, dim.text.as_str()) {
        None => Some(Fault::at(Cause::UnknownName, dim.span.start)),
        Some(found) => check_field(alloc, found.fields.as_slice(), feature, value),
    }
}
