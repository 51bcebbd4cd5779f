//! Types without names, made from written ones.

ghost use Rattle.std.specs.Prelude.{◌≡◌, ◌↔◌, ◌+◌, map, IfOk, IsTrue};
ghost use Rattle.xdg_domain.specs.Shapes.{shape, fields, no_field};
ghost use Rattle.xdg_typing.specs.Weights.{parts};
ghost use Rattle.xdg_types.specs.Written.{tree};
ghost use Rattle.xdg_ast.specs.Texts.{texts};
ghost use Rattle.xdg_typing.specs.Branches.{Naming, domain_meaning, field_meaning, attribute_meaning};
ghost use Rattle.xdg_typing.specs.Room.{HasRoom, field_types};
ghost use Rattle.xdg_typing.specs.Small.{all_parts};
ghost use Rattle.xdg_types.specs.Meaning.{meaning, as_domain, IsHead};
ghost use Rattle.xdg_types.specs.Table.{typed};
ghost use Rattle.xdg_typing.specs.Heads.{Knows};

use crate::definitions::Definitions;
use std::alloc::Global;
use xdg_ast::{Name, Pair, TypeKind, TypeTerm};
use xdg_base::{Boxed, List, OutOfMemory, Text};
use xdg_domain::Ty;

/// How many parts the types of a grammar may have together, names followed: above, the answer is want of memory.
pub(crate) const MOST_PARTS: u64 = 16_777_216;

/// The type without names, which has at most `room` parts. So it nests no deeper than that, and the recursion ends.
#[cycle(resolving)]
pub(crate) fn resolve<'a>(
    alloc: Global,
    definitions: &Definitions<'a>,
    ty: &'a TypeTerm,
    room: u64,
) -> Result<Ty, OutOfMemory>
    requires { HasRoom definitions.now.names (map (λ head. head.now) definitions.now.heads.items) (λ names. parts (meaning names (tree ty.now.kind))) room }
    ensures { (names : Naming) → Knows names definitions.now.names (map (λ head. head.now) definitions.now.heads.items)
        → IfOk result (λ made. shape made ≡ meaning names (tree ty.now.kind)) }
{
    resolve_form(alloc, definitions, &definitions.head(ty).kind, room - 1)
}

/// The same of what no name is, and has one part more.
#[cycle(resolving)]
fn resolve_form<'a>(
    alloc: Global,
    definitions: &Definitions<'a>,
    form: &'a TypeKind,
    room: u64,
) -> Result<Ty, OutOfMemory>
    requires { HasRoom definitions.now.names (map (λ head. head.now) definitions.now.heads.items) (λ names. parts (meaning names (tree form.now))) (room + 1) }
    ensures { (names : Naming) → Knows names definitions.now.names (map (λ head. head.now) definitions.now.heads.items) → IsHead names (tree form.now)
        → IfOk result (λ made. shape made ≡ meaning names (tree form.now)) }
{
    match form {
        TypeKind::Empty => Ok(Ty::Rec(List::new(alloc))),
        TypeKind::Domain(constants) => Ok(Ty::Domain(copies(alloc, constants.as_slice())?)),
        TypeKind::Rec(members) => {
            let made = resolve_members(alloc, definitions, members.as_slice(), room)?;
            Ok(Ty::Rec(made))
        }
        TypeKind::Tuple(types) => {
            let made = resolve_domains(alloc, definitions, types.as_slice(), room)?;
            Ok(Ty::Tuple(made))
        }
        TypeKind::Set(part) => {
            let made = resolve_domain(alloc, definitions, part.get(), room)?;
            Ok(Ty::Set(Boxed::new(alloc, made)?))
        }
        TypeKind::ISet(part) => {
            let made = resolve_domain(alloc, definitions, part.get(), room)?;
            Ok(Ty::ISet(Boxed::new(alloc, made)?))
        }
        TypeKind::Valency(part) => {
            let made = resolve_domain(alloc, definitions, part.get(), room)?;
            Ok(Ty::Valency(Boxed::new(alloc, made)?))
        }
        TypeKind::Map(key, value) => {
            let from = resolve_domain(alloc, definitions, key.get(), room)?;
            let to = resolve(alloc, definitions, value.get(), room)?;
            Ok(Ty::Map(Boxed::new(alloc, from)?, Boxed::new(alloc, to)?))
        }
        TypeKind::Card => Ok(Ty::Card),
        TypeKind::Bool => Ok(Ty::Bool),
        TypeKind::Int => Ok(Ty::Int),
        TypeKind::Str => Ok(Ty::Str),
        TypeKind::Named(_) => Ok(Ty::Bool),
    }
}

/// The type without names where a domain is wanted, so that empty braces are the domain without constants.
#[cycle(resolving)]
fn resolve_domain<'a>(
    alloc: Global,
    definitions: &Definitions<'a>,
    ty: &'a TypeTerm,
    room: u64,
) -> Result<Ty, OutOfMemory>
    requires { HasRoom definitions.now.names (map (λ head. head.now) definitions.now.heads.items) (λ names. parts (meaning names (tree ty.now.kind))) room }
    ensures { (names : Naming) → Knows names definitions.now.names (map (λ head. head.now) definitions.now.heads.items)
        → IfOk result (λ made. shape made ≡ as_domain (meaning names (tree ty.now.kind))) }
{
    let made = resolve(alloc, definitions, ty, room)?;
    if is_empty_record(&made) {
        return Ok(Ty::Domain(List::new(alloc)));
    }
    Ok(made)
}

/// The same of these types, in order.
#[cycle(resolving)]
fn resolve_domains<'a>(
    alloc: Global,
    definitions: &Definitions<'a>,
    types: &'a [TypeTerm],
    room: u64,
) -> Result<List<Ty>, OutOfMemory>
    requires { HasRoom definitions.now.names (map (λ head. head.now) definitions.now.heads.items) (λ names. all_parts names types.now) room }
    ensures { (names : Naming) → Knows names definitions.now.names (map (λ head. head.now) definitions.now.heads.items)
        → IfOk result (λ made. map shape made ≡ map (domain_meaning names) types.now) }
{
    let mut all = List::new(alloc);
    for ty in types {
        let made = resolve_domain(alloc, definitions, ty, room)?;
        all.push(made)?;
    }
    Ok(all)
}

/// The fields of a record, with their types without names.
#[cycle(resolving)]
pub(crate) fn resolve_members<'a>(
    alloc: Global,
    definitions: &Definitions<'a>,
    fields: &'a [Pair<TypeTerm>],
    room: u64,
) -> Result<List<(Text, Ty)>, OutOfMemory>
    requires { HasRoom definitions.now.names (map (λ head. head.now) definitions.now.heads.items) (λ names. all_parts names (field_types fields.now)) room }
    ensures { (names : Naming) → Knows names definitions.now.names (map (λ head. head.now) definitions.now.heads.items)
        → IfOk result (λ made. typed made ≡ map (field_meaning names) fields.now) }
{
    let mut all = List::new(alloc);
    for field in fields {
        let made = resolve(alloc, definitions, &field.value, room)?;
        all.push((field.key.text.copy(alloc)?, made))?;
    }
    Ok(all)
}

/// The same where each field is a domain or tuples, so that empty braces are the domain without constants.
pub(crate) fn resolve_attributes<'a>(
    alloc: Global,
    definitions: &Definitions<'a>,
    fields: &'a [Pair<TypeTerm>],
    room: u64,
) -> Result<List<(Text, Ty)>, OutOfMemory>
    requires { HasRoom definitions.now.names (map (λ head. head.now) definitions.now.heads.items) (λ names. all_parts names (field_types fields.now)) room }
    ensures { (names : Naming) → Knows names definitions.now.names (map (λ head. head.now) definitions.now.heads.items)
        → IfOk result (λ made. typed made ≡ map (attribute_meaning names) fields.now) }
{
    let mut all = List::new(alloc);
    for field in fields {
        let made = resolve_domain(alloc, definitions, &field.value, room)?;
        all.push((field.key.text.copy(alloc)?, made))?;
    }
    Ok(all)
}

/// Whether the type is the record without fields.
fn is_empty_record(ty: &Ty) -> bool
    ensures { IsTrue result ↔ (shape ty.now ≡ fields no_field) }
{
    match ty {
        Ty::Rec(members) => members.is_empty(),
        _ => false,
    }
}

/// Copies of the texts of names.
pub(crate) fn copies(alloc: Global, names: &[Name]) -> Result<List<Text>, OutOfMemory>
    ensures { IfOk result (λ made. made ≡ texts names.now) }
{
    let mut all = List::new(alloc);
    for name in names {
        all.push(name.text.copy(alloc)?)?;
    }
    Ok(all)
}
