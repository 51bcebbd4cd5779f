//! The entries that nodes may have.

ghost use Rattle.std.specs.Prelude.{◌≡◌, IfOk};
ghost use Rattle.xdg_build.specs.Nodes.{candidates_in};

use crate::nodes::NodePlan;
use std::alloc::Global;
use xdg_base::{EntryNo, List, OutOfMemory};
use xdg_problem::SharedList;

/// The candidate entries of nodes.
pub(crate) fn candidates(
    alloc: Global,
    nodes: &[NodePlan],
) -> Result<List<SharedList<EntryNo>>, OutOfMemory>
    ensures { IfOk result (λ made. made ≡ candidates_in nodes.now) }
{
    let mut made = List::new(alloc);
    for node in nodes {
        made.push(node.candidates.share()?)?;
    }
    Ok(made)
}
