//! Which attributes a dimension may have.

ghost use Rattle.std.specs.Prelude.{◌≡◌, ℕ, List, [], map, slice_get};
ghost use Rattle.xdg_ast.specs.declared.types.TypeKind.{out-TypeKind};
ghost use Rattle.xdg_domain.specs.Shapes.{Shape};
ghost use Rattle.xdg_names.specs.First.{first};
ghost use Rattle.xdg_types.specs.Written.{tree, member_names};
ghost use Rattle.xdg_types.specs.Meaning.{meaning, fields_meaning, IsHead};
ghost use Rattle.xdg_typing.specs.Heads.{Knows};
ghost use Rattle.xdg_typing.specs.KindFaults.{asked, members, form_tree, ninth_name_faults, has_other, wide_record_faults, other_faults, named_faults};
ghost use Rattle.xdg_typing.specs.KindFaults.{record_faults, attributes_faults};

use crate::definitions::Definitions;
use crate::wanted::{Wanted, is_attribute};
use xdg_ast::{Pair, TypeKind, TypeTerm};
use xdg_base::{Cause, Fault};
use xdg_names::earlier;

fn check_ninth(fields: &[Pair<TypeTerm>]) -> Option<Fault>
    ensures { result ≡ first (ninth_name_faults (slice_get (member_names (members fields.now)) 8)) }
{
    match fields.get(8) {
        Some(field) => Some(Fault {
            cause: Cause::TooWide,
            at: field.key.span.start,
            reached: 9,
        }),
        None => None,
    }
}

fn has_other<'a>(definitions: &Definitions<'a>, fields: &'a [Pair<TypeTerm>]) -> bool
    ensures { (names : List ℕ → Shape) → Knows names definitions.now.names (map (λ head. head.now) definitions.now.heads.items)
        → result ≡ has_other (fields_meaning names (members fields.now)) }
{
    for field in fields {
        if !is_attribute(definitions, &field.value) {
            return true;
        }
    }
    false
}

fn check_count(at: u32, count: usize) -> Option<Fault>
    ensures { result ≡ first (wide_record_faults at count) }
{
    if 8 < count {
        Some(Fault {
            cause: Cause::TooWide,
            at,
            reached: 9,
        })
    } else {
        None
    }
}

fn check_others(at: u32, others: bool) -> Option<Fault>
    ensures { result ≡ first (other_faults at others) }
{
    if others {
        Some(Fault::at(Cause::WrongKind, at))
    } else {
        None
    }
}

fn check_named<'a>(definitions: &Definitions<'a>, at: u32, head: &'a TypeKind) -> Option<Fault>
    ensures { (names : List ℕ → Shape) → Knows names definitions.now.names (map (λ head. head.now) definitions.now.heads.items)
        → IsHead names (tree head.now) → result ≡ first (named_faults at (meaning names (tree head.now))) }
{
    match head {
        TypeKind::Rec(fields) => earlier(
            check_count(at, fields.len()),
            check_others(at, has_other(definitions, fields.as_slice())),
        ),
        _ => None,
    }
}

fn check_record<'a>(definitions: &Definitions<'a>, ty: &'a TypeTerm) -> Option<Fault>
    ensures { (names : List ℕ → Shape) → Knows names definitions.now.names (map (λ head. head.now) definitions.now.heads.items)
        → result ≡ first (record_faults names ty.now.span.start (tree ty.now.kind)) }
{
    match &ty.kind {
        TypeKind::Rec(fields) => check_ninth(fields.as_slice()),
        TypeKind::Named(_) => check_named(definitions, ty.span.start, &definitions.head(ty).kind),
        _ => None,
    }
}

/// The record of the attributes has more than eight fields, or, given by name, a field that is no type of an attribute.
pub(crate) fn check_attributes<'a>(
    definitions: &Definitions<'a>,
    wanted: Wanted,
    ty: &'a TypeTerm,
) -> Option<Fault>
    ensures { (names : List ℕ → Shape) → Knows names definitions.now.names (map (λ head. head.now) definitions.now.heads.items)
        → result ≡ first (attributes_faults names (asked wanted) ty.now.span.start (tree ty.now.kind)) }
{
    match wanted {
        Wanted::Attributes => check_record(definitions, ty),
        _ => None,
    }
}
