//! Names that stand for nothing.

ghost use Rattle.std.specs.Prelude.{◌≡◌, flat_map};
ghost use Rattle.xdg_names.specs.First.{first};
ghost use Rattle.xdg_types.specs.Written.{tree, uses};
ghost use Rattle.xdg_types.specs.Parts.{used_name, used_names};
ghost use Rattle.xdg_types.specs.NameFaults as spec;

use xdg_ast::{Statement, StatementKind, TypeKind, TypeTerm};
use xdg_base::Fault;
use xdg_names::{Index, earlier};
use xdg_types::unknown;

/// The first name in a type that isn't among those that are known.
pub(crate) fn unknown_in(known: &Index, ty: &TypeTerm) -> Option<Fault>
    ensures { result ≡ first (flat_map (spec.unknown known.now) (uses (tree ty.now.kind))) }
{
    match &ty.kind {
        TypeKind::Named(name) => unknown(known, name),
        TypeKind::Rec(fields) => {
            let mut found = None;
            for field in fields.as_slice() {
                found = earlier(found, unknown_in(known, &field.value));
            }
            found
        }
        TypeKind::Tuple(types) => {
            let mut found = None;
            for part in types.as_slice() {
                found = earlier(found, unknown_in(known, part));
            }
            found
        }
        TypeKind::Set(part) => unknown_in(known, part.get()),
        TypeKind::ISet(part) => unknown_in(known, part.get()),
        TypeKind::Valency(part) => unknown_in(known, part.get()),
        TypeKind::Map(key, value) => {
            earlier(unknown_in(known, key.get()), unknown_in(known, value.get()))
        }
        TypeKind::Empty
        | TypeKind::Domain(_)
        | TypeKind::Card
        | TypeKind::Bool
        | TypeKind::Int
        | TypeKind::Str => None,
    }
}

/// The first use of a dimension that isn't among those that are known.
pub(crate) fn unknown_used(known: &Index, statements: &[Statement]) -> Option<Fault>
    ensures { result ≡ first (flat_map (spec.unknown known.now) (used_names statements.now)) }
{
    let mut found = None;
    for statement in statements {
        found = earlier(found, unknown_here(known, statement));
    }
    found
}

fn unknown_here(known: &Index, statement: &Statement) -> Option<Fault>
    ensures { result ≡ first (flat_map (spec.unknown known.now) (used_name statement.now.kind)) }
{
    match &statement.kind {
        StatementKind::UseDim(name) => unknown(known, name),
        _ => None,
    }
}
