//! The classes as a graph of uses.

ghost use Rattle.std.specs.Prelude.{◌≡◌, ◌++◌, map, IfOk};
ghost use Rattle.xdg_classes.specs.Graph as spec;
ghost use Rattle.xdg_classes.specs.Lent.{class_def};

use crate::bodies::calls;
use crate::definitions::ClassDef;
use std::alloc::Global;
use xdg_base::{List, OutOfMemory};
use xdg_names::{Index, Use};
use xdg_types::add_use;

/// The uses of classes in a class, in the order of the text.
fn class_uses(alloc: Global, known: &Index, definition: &ClassDef) -> Result<List<Use>, OutOfMemory>
    ensures { IfOk result (λ made. made ≡ spec.class_uses known.now (class_def definition.now)) }
{
    let calls = calls(alloc, definition.body)?;
    let mut made = List::new(alloc);
    for call in calls.as_slice() {
        add_use(known, call.name, &mut made)?;
    }
    Ok(made)
}

/// For each class its uses of classes, in the order of the text.
pub(crate) fn class_graph(
    alloc: Global,
    known: &Index,
    definitions: &[ClassDef],
) -> Result<Vec<List<Use>>, OutOfMemory>
    ensures { IfOk result (λ made. made.items ≡ map (spec.class_uses known.now) (map class_def definitions.now)) }
{
    let mut made = Vec::new(alloc);
    for definition in definitions {
        made.push(class_uses(alloc, known, definition)?)?;
    }
    Ok(made)
}
