//! The strong components of a graph.

ghost use Rattle.std.specs.Prelude.{◌≡◌, ◌^◌, ◌<◌, IfOk, length};
ghost use Rattle.xdg_names.specs.Leads.{IsGraph, AreComponents};

use crate::graph::{Components, Use};
use crate::walk::Walk;
use std::alloc::Global;
use xdg_base::{List, OutOfMemory};

/// The strong components of a graph, in time linear in definitions and uses.
pub fn components(alloc: Global, graph: &[List<Use>]) -> Result<Components, OutOfMemory>
    requires graph { IsGraph graph.now }
    requires small { length graph.now < 2 ^ 32 }
    ensures { IfOk result (λ made. AreComponents graph.now made.numbers made.order) }
{
    let mut walk = Walk::new(alloc, graph)?;
    for root in 0..graph.len() {
        if walk.marks[root] == 0 {
            walk.visit(graph, root)?;
        }
    }
    Ok(Components {
        numbers: List::from_vec(walk.marks),
        order: List::from_vec(walk.order),
    })
}
