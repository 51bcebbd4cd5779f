//! The table of a grammar whose types are right.

ghost use Rattle.std.specs.Prelude.{map, IfOk};
ghost use Rattle.xdg_types.specs.Table.{IsTableOf};
ghost use Rattle.xdg_typing.specs.Heads.{Knows};
ghost use Rattle.xdg_typing.specs.Branches.{Naming};
ghost use Rattle.xdg_typing.specs.Weights.{Weighs};
ghost use Rattle.xdg_typing.specs.Right.{AreRight};
ghost use Rattle.xdg_typing.specs.Small.{AreSmall};

use crate::definitions::Definitions;
use crate::dimensions::{is_small, resolve_dimensions, used_places};
use std::alloc::Global;
use xdg_ast::Statement;
use xdg_base::OutOfMemory;
use xdg_types::{TypeTable, index_dims};

/// The dimensions of a grammar with their types. Want of memory where the types together have more than
/// [`MOST_PARTS`](crate::resolving::MOST_PARTS) parts, names followed; then nothing is made.
pub(crate) fn table<'a>(
    alloc: Global,
    statements: &'a [Statement],
    definitions: &Definitions<'a>,
) -> Result<TypeTable, OutOfMemory>
    requires known { (names : Naming)
        × (Knows names definitions.now.names (map (λ head. head.now) definitions.now.heads.items)
        × (Weighs names definitions.now.names definitions.now.weights.items × AreRight statements.now names)) }
    ensures made { IfOk result
        (λ made. (names : Naming) → Knows names definitions.now.names (map (λ head. head.now) definitions.now.heads.items)
        → IsTableOf names statements.now made) }
    ensures within { IfOk result (λ _. (names : Naming) → Weighs names definitions.now.names definitions.now.weights.items → AreSmall names statements.now) }
{
    if !is_small(definitions, statements) {
        return Err(OutOfMemory);
    }
    let dims = resolve_dimensions(alloc, definitions, statements)?;
    let known = index_dims(alloc, dims.as_slice())?;
    let used = used_places(alloc, &known, statements)?;
    Ok(TypeTable::new(dims, used))
}
