//! The features of a node's entries.

ghost use Rattle.std.specs.Prelude.{◌≡◌, ◌↔◌, IsTrue, Contains};
ghost use Rattle.xdg_problem.specs.Features.{map_row, row};

use xdg_base::{LabelId, NodeId};
use xdg_problem::Group;

/// The row that a feature argument has at a label for a candidate of a node. It is empty where the principle use has none.
pub fn feature_row(
    group: &Group,
    node: NodeId,
    place: u16,
    argument: usize,
    label: LabelId,
) -> &[u16]
    ensures { result.now ≡ row group.now node.0 place argument label.0 }
{
    let Some(candidates) = group.feats.get(node.0 as usize) else {
        return &[];
    };
    let Some(features) = candidates.get(place as usize) else {
        return &[];
    };
    let Some(feature) = features.get(argument) else {
        return &[];
    };
    let Some(numbers) = feature.rows.get(label.0 as usize) else {
        return &[];
    };
    numbers.as_slice()
}

/// The set that a candidate of a node has at a label, by the first feature. A feature that is one set has it at the label 0.
pub fn row_of(group: &Group, node: NodeId, place: u16, label: LabelId) -> &[u16]
    ensures { result.now ≡ map_row group.now node.0 place label.0 }
{
    feature_row(group, node, place, 0, label)
}

/// Whether a number is in a list.
pub fn is_member(numbers: &[u16], number: u16) -> bool
    ensures { IsTrue result ↔ Contains numbers.now number }
{
    numbers.iter().any(|member| *member == number)
}
