//! Constants and fields that stand again in one list.

ghost use Rattle.std.specs.Prelude.{◌≡◌, [], flat_map, IfOk};
ghost use Rattle.xdg_names.specs.First.{first};
ghost use Rattle.xdg_types.specs.Written.{tree, lists};
ghost use Rattle.xdg_types.specs.NameFaults as spec;

use std::alloc::Global;
use xdg_ast::{TypeKind, TypeTerm};
use xdg_base::{Fault, OutOfMemory};
use xdg_names::earlier;
use xdg_types::{keys_again, names_again};

/// The first constant of a domain in a type, or field of a record in it, that stands there before.
pub(crate) fn lists_again(alloc: Global, ty: &TypeTerm) -> Result<Option<Fault>, OutOfMemory>
    ensures { IfOk result (λ found. found ≡ first (flat_map (spec.repeats []) (lists (tree ty.now.kind)))) }
{
    match &ty.kind {
        TypeKind::Domain(names) => names_again(alloc, names.as_slice()),
        TypeKind::Rec(fields) => {
            let mut found = keys_again(alloc, fields.as_slice())?;
            for field in fields.as_slice() {
                found = earlier(found, lists_again(alloc, &field.value)?);
            }
            Ok(found)
        }
        TypeKind::Tuple(types) => {
            let mut found = None;
            for part in types.as_slice() {
                found = earlier(found, lists_again(alloc, part)?);
            }
            Ok(found)
        }
        TypeKind::Set(part) => lists_again(alloc, part.get()),
        TypeKind::ISet(part) => lists_again(alloc, part.get()),
        TypeKind::Valency(part) => lists_again(alloc, part.get()),
        TypeKind::Map(key, value) => {
            let left = lists_again(alloc, key.get())?;
            let right = lists_again(alloc, value.get())?;
            Ok(earlier(left, right))
        }
        TypeKind::Empty
        | TypeKind::Card
        | TypeKind::Bool
        | TypeKind::Int
        | TypeKind::Str
        | TypeKind::Named(_) => Ok(None),
    }
}
