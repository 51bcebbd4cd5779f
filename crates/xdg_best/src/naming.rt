//! The dimensions and the labels that constants name.

ghost use Rattle.std.specs.Prelude.{◌≡◌, ◌<◌, IfSome};
ghost use Rattle.xdg_base.specs.Faults.{fault_at};
ghost use Rattle.xdg_best.specs.Naming.{is_named, place_named, dim_number, labels_of, place_of};
ghost use Rattle.xdg_types.specs.Table.{IsTable};

use xdg_ast::Name;
use xdg_base::{Cause, DimId, Fault, LabelId, Text};
use xdg_reading::label_number;
use xdg_types::{DimType, TypeTable};

/// Whether the dimension at a place has a name.
fn is_named(dims: &[DimType], place: usize, name: &Text) -> bool
    ensures { result ≡ is_named dims.now name.now place }
{
    match dims.get(place) {
        Some(dim) => dim.name.as_str() == name.as_str(),
        None => false,
    }
}

/// The number of the first of these places at which a dimension has a name.
#[tactic(auto, unfolding(crate::specs::Naming::place_named))]
fn place_named(dims: &[DimType], used: &[usize], name: &Text) -> Option<usize>
    ensures { result ≡ place_named dims.now used.now name.now }
{
    used.iter().position(|place| is_named(dims, *place, name))
}

/// The number of the used dimension with a name.
fn dim_number(types: &TypeTable, name: &Text) -> Option<usize>
    ensures is { result ≡ dim_number types.now name.now }
    ensures small { IfSome result (λ dim. dim < 8) }
    ensures table { IsTable types.now }
{
    place_named(types.dims(), types.used(), name)
}

/// The labels of the used dimension with a number.
fn labels_of(types: &TypeTable, dim: usize) -> &[Text]
    ensures { result.now ≡ labels_of types.now dim }
{
    match types.used().get(dim) {
        Some(place) => match types.dims().get(*place) {
            Some(one) => one.labels.as_slice(),
            None => &[],
        },
        None => &[],
    }
}

/// The used dimension and the label of it that two constants name, or what is wrong with the first that names none.
#[tactic(auto, using(crate::proofs::Named::few_labels))]
pub(crate) fn place_of(
    types: &TypeTable,
    dim: &Name,
    label: &Name,
) -> Result<(DimId, LabelId), Fault>
    ensures { result ≡ place_of types.now dim.now label.now }
{
    match dim_number(types, &dim.text) {
        None => Err(Fault::at(Cause::UnknownName, dim.span.start)),
        Some(d) => match label_number(labels_of(types, d), &label.text) {
            None => Err(Fault::at(Cause::NotMember, label.span.start)),
            Some(l) => Ok((DimId(d as u8), LabelId(l as u8))),
        },
    }
}
