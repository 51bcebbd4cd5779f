//! The pass over the uses of types by name.

ghost use Rattle.std.specs.Prelude.{ℕ, List, IfOk};
ghost use Rattle.xdg_domain.specs.Shapes.{Shape};
ghost use Rattle.xdg_types.specs.Answers.{None_of};
ghost use Rattle.xdg_types.specs.Meaning.{Resolves};
ghost use Rattle.xdg_types.specs.Names.{NameOffends};
ghost use Rattle.xdg_typing.specs.Answers.{TellsResolved};
ghost use Rattle.xdg_typing.specs.Weights.{Weighs};

use crate::definitions::Definitions;
use crate::graph::{bodies, type_graph};
use crate::leading::heads;
use crate::names::defined;
use crate::weights::weights;
use std::alloc::Global;
use xdg_ast::Statement;
use xdg_base::Stop;
use xdg_names::{closing, components};

/// What the names of types lead to, where nothing is wrong with the names. The time is linear in the text.
///
/// # Errors
///
/// The first use of a type, in the order of the text, inside a definition to which it leads back
/// ([`Cause::Cycle`](xdg_base::Cause)), or want of memory.
pub fn resolved<'a>(alloc: Global, statements: &'a [Statement]) -> Result<Definitions<'a>, Stop>
    requires { None_of (NameOffends statements.now) }
    ensures tells { TellsResolved statements.now result }
    ensures weighs { IfOk result (λ made. (names : List ℕ → Shape) → Resolves statements.now names → Weighs names made.names made.weights.items) }
{
    let names = defined(alloc, statements)?;
    let bodies = bodies(alloc, statements)?;
    if bodies.len() > u32::MAX as usize {
        return Err(Stop::OutOfMemory);
    }
    let graph = type_graph(alloc, &names, bodies.as_slice())?;
    let components = components(alloc, graph.as_slice())?;
    match closing(&components, graph.as_slice()) {
        Some(fault) => Err(Stop::Fault(fault)),
        None => {
            let order = components.order.as_slice();
            let weights = weights(alloc, &names, bodies.as_slice(), order)?;
            let heads = heads(alloc, &names, bodies.as_slice(), order)?;
            Ok(Definitions {
                names,
                heads,
                weights,
            })
        }
    }
}
