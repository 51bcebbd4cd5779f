//! Of which kind a type is.

ghost use Rattle.std.specs.Prelude.{◌≡◌, ℕ, List, map, not};
ghost use Rattle.xdg_ast.specs.declared.types.TypeKind.{out-TypeKind};
ghost use Rattle.xdg_domain.specs.Shapes.{Shape};
ghost use Rattle.xdg_types.specs.Written.{tree};
ghost use Rattle.xdg_types.specs.Meaning.{meaning, domains_meaning, as_domain, IsHead};
ghost use Rattle.xdg_typing.specs.Heads.{Knows};
ghost use Rattle.xdg_types.specs.Kinds.{are_domains, has_empty_domain, has_no_tuple, is_attribute, is_of_kind};
ghost use Rattle.xdg_typing.specs.KindFaults.{asked, trees, domain_form, small_form, mapped_form, record_form, empty_form, fieldless_form};

use crate::definitions::Definitions;
use xdg_ast::{TypeKind, TypeTerm};

/// What is wanted where a type stands.
#[derive(Clone, Copy, Debug)]
pub(crate) enum Wanted {
    /// Any type.
    Anything,
    /// A domain.
    Domain,
    /// A domain or a tuple type.
    Small,
    /// What the values of a map may be: a set, a cardinality, a valency or a map.
    Mapped,
    /// A domain or a tuple type with a value, where that has a number of tuples.
    Attribute,
    /// The domain of the labels.
    Labels,
    /// The record of the attributes.
    Attributes,
    /// The record of the features.
    Features,
}

fn is_domain(head: &TypeKind) -> bool
    ensures { result ≡ domain_form (out-TypeKind head.now) }
{
    match head {
        TypeKind::Empty | TypeKind::Domain(_) => true,
        TypeKind::Rec(fields) => !(0 < fields.len()),
        _ => false,
    }
}

fn is_small(head: &TypeKind) -> bool
    ensures { result ≡ small_form (out-TypeKind head.now) }
{
    match head {
        TypeKind::Empty | TypeKind::Domain(_) | TypeKind::Tuple(_) => true,
        TypeKind::Rec(fields) => !(0 < fields.len()),
        _ => false,
    }
}

fn is_mapped(head: &TypeKind) -> bool
    ensures { result ≡ mapped_form (out-TypeKind head.now) }
{
    match head {
        TypeKind::Set(_)
        | TypeKind::ISet(_)
        | TypeKind::Valency(_)
        | TypeKind::Map(..)
        | TypeKind::Card => true,
        _ => false,
    }
}

fn is_record(head: &TypeKind) -> bool
    ensures { result ≡ record_form (out-TypeKind head.now) }
{
    match head {
        TypeKind::Empty | TypeKind::Rec(_) => true,
        _ => false,
    }
}

fn is_empty_domain(head: &TypeKind) -> bool
    ensures { result ≡ empty_form (out-TypeKind head.now) }
{
    match head {
        TypeKind::Empty => true,
        TypeKind::Domain(constants) => !(0 < constants.len()),
        TypeKind::Rec(fields) => !(0 < fields.len()),
        _ => false,
    }
}

/// Whether a type is a tuple type without fields.
pub(crate) fn has_no_field(kind: &TypeKind) -> bool
    ensures { result ≡ fieldless_form (out-TypeKind kind.now) }
{
    match kind {
        TypeKind::Tuple(types) => !(0 < types.len()),
        _ => false,
    }
}

fn are_domains<'a>(definitions: &Definitions<'a>, types: &'a [TypeTerm]) -> bool
    ensures { (names : List ℕ → Shape) → Knows names definitions.now.names (map (λ head. head.now) definitions.now.heads.items)
        → result ≡ are_domains (domains_meaning names (trees types.now)) }
{
    for ty in types {
        if !is_domain(&definitions.head(ty).kind) {
            return false;
        }
    }
    true
}

fn has_empty_domain<'a>(definitions: &Definitions<'a>, types: &'a [TypeTerm]) -> bool
    ensures { (names : List ℕ → Shape) → Knows names definitions.now.names (map (λ head. head.now) definitions.now.heads.items)
        → result ≡ has_empty_domain (domains_meaning names (trees types.now)) }
{
    for ty in types {
        if is_empty_domain(&definitions.head(ty).kind) {
            return true;
        }
    }
    false
}

/// Whether all fields of a tuple type are domains, and one is without constants.
fn has_no_tuple<'a>(definitions: &Definitions<'a>, types: &'a [TypeTerm]) -> bool
    ensures { (names : List ℕ → Shape) → Knows names definitions.now.names (map (λ head. head.now) definitions.now.heads.items)
        → result ≡ has_no_tuple (domains_meaning names (trees types.now)) }
{
    if are_domains(definitions, types) {
        has_empty_domain(definitions, types)
    } else {
        false
    }
}

fn is_attribute_head<'a>(definitions: &Definitions<'a>, head: &'a TypeKind) -> bool
    ensures { (names : List ℕ → Shape) → Knows names definitions.now.names (map (λ head. head.now) definitions.now.heads.items)
        → IsHead names (tree head.now) → result ≡ is_attribute (as_domain (meaning names (tree head.now))) }
{
    match head {
        TypeKind::Domain(constants) => 0 < constants.len(),
        TypeKind::Tuple(types) => !has_no_tuple(definitions, types.as_slice()),
        _ => false,
    }
}

/// Whether a type is one of an attribute: a domain with a constant, or a tuple type that isn't without tuples. Where a field
/// of a tuple type is no domain, only that field is wrong.
pub(crate) fn is_attribute<'a>(definitions: &Definitions<'a>, ty: &'a TypeTerm) -> bool
    ensures { (names : List ℕ → Shape) → Knows names definitions.now.names (map (λ head. head.now) definitions.now.heads.items)
        → result ≡ is_attribute (as_domain (meaning names (tree ty.now.kind))) }
{
    is_attribute_head(definitions, &definitions.head(ty).kind)
}

/// Whether a type is of the wanted kind.
pub(crate) fn is_of_kind<'a>(
    definitions: &Definitions<'a>,
    wanted: Wanted,
    ty: &'a TypeTerm,
) -> bool
    ensures { (names : List ℕ → Shape) → Knows names definitions.now.names (map (λ head. head.now) definitions.now.heads.items)
        → result ≡ is_of_kind (asked wanted) (meaning names (tree ty.now.kind)) }
{
    match wanted {
        Wanted::Anything => true,
        Wanted::Domain => is_domain(&definitions.head(ty).kind),
        Wanted::Small => is_small(&definitions.head(ty).kind),
        Wanted::Mapped => is_mapped(&definitions.head(ty).kind),
        Wanted::Attribute => is_attribute(definitions, ty),
        Wanted::Labels => is_domain(&definitions.head(ty).kind),
        Wanted::Attributes => is_record(&definitions.head(ty).kind),
        Wanted::Features => is_record(&definitions.head(ty).kind),
    }
}
