//! The attributes of an analysis in their order.

ghost use Rattle.std.specs.Prelude.{◌≡◌, ◌++◌, ◌≤◌, length, map, OnOk, IfOk};
ghost use Rattle.xdg_reading.specs.Slots.{asked_by, node_slots, dim_slots, slots};

use std::alloc::Global;
use xdg_base::{List, OutOfMemory, Text};
use xdg_problem::{AttrPlan, DimPlan};

/// An attribute of a node on a dimension.
#[derive(Drop)]
pub(crate) struct Slot<'a> {
    pub(crate) dim: &'a Text,
    pub(crate) node: usize,
    pub(crate) attr: &'a AttrPlan,
}

/// Adds the attributes of a node.
fn add_node<'a>(
    list: &mut List<Slot<'a>>,
    plan: &'a DimPlan,
    node: usize,
) -> Result<(), OutOfMemory>
    ensures { OnOk result (map asked_by list.new ≡ map asked_by list.old ++ node_slots plan.now node) }
{
    for attr in plan.attrs.as_slice() {
        list.push(Slot {
            dim: &plan.name,
            node,
            attr,
        })?;
    }
    Ok(())
}

/// Adds the attributes of a dimension, node by node.
fn add_dim<'a>(
    list: &mut List<Slot<'a>>,
    plan: &'a DimPlan,
    nodes: usize,
) -> Result<(), OutOfMemory>
    ensures { OnOk result (map asked_by list.new ≡ map asked_by list.old ++ dim_slots nodes plan.now) }
{
    for node in 0..nodes {
        add_node(list, plan, node)?;
    }
    Ok(())
}

/// The attributes by dimension, node and attribute.
pub(crate) fn slots<'a>(
    alloc: Global,
    nodes: usize,
    dims: &'a [DimPlan],
) -> Result<List<Slot<'a>>, OutOfMemory>
    ensures { IfOk result (λ list. map asked_by list ≡ slots nodes dims.now) }
{
    let mut list = List::new(alloc);
    for plan in dims {
        add_dim(&mut list, plan, nodes)?;
    }
    Ok(list)
}
