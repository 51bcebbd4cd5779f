//! The definitions of types as a graph of uses.

ghost use Rattle.std.specs.Prelude.{◌≡◌, ◌++◌, map, IfOk};
ghost use Rattle.xdg_types.specs.Parts.{definitions, definitions_in};
ghost use Rattle.xdg_types.specs.Written.{tree};
ghost use Rattle.xdg_types.specs.Graph as spec;

use std::alloc::Global;
use xdg_ast::{DimPart, DimPartKind, Statement, StatementKind, TypeKind, TypeTerm};
use xdg_base::{List, OutOfMemory};
use xdg_names::{Index, Use};
use xdg_types::add_use;

/// Adds the uses in a type, in the order of the text.
#[tactic(auto, using(crate::proofs::GraphUses::use_steps))]
fn add_uses(known: &Index, ty: &TypeKind, made: &mut List<Use>) -> Result<(), OutOfMemory>
    ensures { IfOk result (λ _. made.new ≡ made.old ++ spec.uses_in known.now (tree ty.now)) }
{
    match ty {
        TypeKind::Named(name) => add_use(known, name, made),
        TypeKind::Set(inner) | TypeKind::ISet(inner) | TypeKind::Valency(inner) => {
            add_uses(known, &inner.get().kind, made)
        }
        TypeKind::Map(key, value) => {
            add_uses(known, &key.get().kind, made)?;
            add_uses(known, &value.get().kind, made)
        }
        TypeKind::Tuple(fields) => {
            for field in fields.as_slice() {
                add_uses(known, &field.kind, made)?;
            }
            Ok(())
        }
        TypeKind::Rec(pairs) => {
            for pair in pairs.as_slice() {
                add_uses(known, &pair.value.kind, made)?;
            }
            Ok(())
        }
        TypeKind::Empty
        | TypeKind::Domain(_)
        | TypeKind::Card
        | TypeKind::Bool
        | TypeKind::Int
        | TypeKind::Str => Ok(()),
    }
}

/// Adds the types that the parts of a dimension define.
fn add_bodies<'a>(parts: &'a [DimPart], made: &mut Vec<&'a TypeTerm>) -> Result<(), OutOfMemory>
    ensures { IfOk result (λ _. map (λ body. body.now) made.new.items ≡ map (λ body. body.now) made.old.items ++ map (λ d. d.body) (definitions_in parts.now)) }
{
    for part in parts {
        if let DimPartKind::DefType(_, ty) = &part.kind {
            made.push(ty)?;
        }
    }
    Ok(())
}

/// The types that are defined, in the order of the text.
pub(crate) fn bodies<'a>(
    alloc: Global,
    statements: &'a [Statement],
) -> Result<Vec<&'a TypeTerm>, OutOfMemory>
    ensures { IfOk result (λ made. map (λ body. body.now) made.items ≡ map (λ d. d.body) (definitions statements.now)) }
{
    let mut made = Vec::new(alloc);
    for statement in statements {
        if let StatementKind::DefDim(_, parts) = &statement.kind {
            add_bodies(parts.as_slice(), &mut made)?;
        }
    }
    Ok(made)
}

/// For each definition its uses of definitions, in the order of the text.
pub(crate) fn type_graph(
    alloc: Global,
    known: &Index,
    bodies: &[&TypeTerm],
) -> Result<Vec<List<Use>>, OutOfMemory>
    ensures { IfOk result (λ made. made.items ≡ map (λ body. spec.uses_in known.now (tree body.now.kind)) bodies.now) }
{
    let mut made = Vec::new(alloc);
    for body in bodies {
        let mut uses = List::new(alloc);
        add_uses(known, &body.kind, &mut uses)?;
        made.push(uses)?;
    }
    Ok(made)
}
