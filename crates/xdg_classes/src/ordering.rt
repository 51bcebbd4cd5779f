//! Putting the classes of a grammar into an order in which each comes after those that it uses.

ghost use Rattle.xdg_types.specs.Answers.{None_of};
ghost use Rattle.xdg_ast.specs.Misnamed.{IsTwice};
ghost use Rattle.xdg_classes.specs.Names.{once};
ghost use Rattle.xdg_classes.specs.Ordered.{TellsClasses};

use crate::definitions::definitions;
use crate::graph::class_graph;
use crate::lookup::Classes;
use crate::repeats::classes_again;
use std::alloc::Global;
use xdg_ast::Statement;
use xdg_base::Stop;
use xdg_names::{Index, closing, components};

/// The classes of a grammar, lent from its statements, in an order in which each comes after those that it uses. In the
/// grammar no class has the name of another.
///
/// # Errors
///
/// - [`Cause::Cycle`](xdg_base::Cause) at the first use of a class, in the order of the text, that stands inside a class
///   to which it leads back.
/// - Want of memory, also where there are 4,294,967,296 classes or more.
///
/// The time is linear in the length of the text, and a chain of classes takes no depth of the stack.
pub fn classes<'a>(alloc: Global, statements: &'a [Statement]) -> Result<Classes<'a>, Stop>
    requires { None_of (IsTwice (once statements.now)) }
    ensures { TellsClasses statements.now result }
{
    let definitions = definitions(alloc, statements)?;
    if definitions.len() > u32::MAX as usize {
        return Err(Stop::OutOfMemory);
    }
    let mut names = Index::new(alloc);
    let _ = classes_again(alloc, &mut names, definitions.as_slice())?;
    let graph = class_graph(alloc, &names, definitions.as_slice())?;
    let components = components(alloc, graph.as_slice())?;
    match closing(&components, graph.as_slice()) {
        Some(fault) => Err(Stop::Fault(fault)),
        None => Ok(Classes {
            names,
            definitions,
            order: components.order,
        }),
    }
}
