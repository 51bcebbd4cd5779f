//! How many constants, tuples and labels a type has.

ghost use Rattle.std.specs.Prelude.{◌≡◌, ℕ, ◌*◌, ◌-◌, ◌^◌, min, List, map};
ghost use Rattle.xdg_ast.specs.declared.types.TypeKind.{out-TypeKind};
ghost use Rattle.xdg_domain.specs.Shapes.{Shape, constants, sizes, product};
ghost use Rattle.xdg_names.specs.First.{first};
ghost use Rattle.xdg_types.specs.Written.{tree};
ghost use Rattle.xdg_ast.specs.Texts.{texts};
ghost use Rattle.xdg_types.specs.Meaning.{meaning, domains_meaning, as_domain};
ghost use Rattle.xdg_typing.specs.Heads.{Knows};
ghost use Rattle.xdg_typing.specs.KindFaults.{asked, trees, form_tree, form_constants, big_faults, label_faults, tuple_faults, wide_faults};

use crate::definitions::Definitions;
use crate::wanted::Wanted;
use xdg_ast::{Name, TypeKind, TypeTerm};
use xdg_base::{Cause, Fault};

fn constants(head: &TypeKind) -> &[Name]
    ensures { result.now ≡ form_constants (out-TypeKind head.now) }
{
    match head {
        TypeKind::Domain(names) => names.as_slice(),
        _ => &[],
    }
}

/// The constants of a type that is a domain; of another type none.
pub(crate) fn constants_of<'a>(definitions: &Definitions<'a>, ty: &'a TypeTerm) -> &'a [Name]
    ensures { (names : List ℕ → Shape) → Knows names definitions.now.names (map (λ head. head.now) definitions.now.heads.items)
        → texts result.now ≡ constants (as_domain (meaning names (tree ty.now.kind))) }
{
    constants(&definitions.head(ty).kind)
}

/// A domain that is written out has more than 64 constants.
pub(crate) fn check_size(ty: &TypeTerm) -> Option<Fault>
    ensures { result ≡ first (big_faults ty.now.span.start (form_tree (out-TypeKind ty.now.kind))) }
{
    match &ty.kind {
        TypeKind::Domain(names) => {
            if 64 < names.len() {
                Some(Fault {
                    cause: Cause::DomainTooBig,
                    at: ty.span.start,
                    reached: names.len() as u64,
                })
            } else {
                None
            }
        }
        _ => None,
    }
}

/// There are more than 32 labels.
pub(crate) fn check_labels(wanted: Wanted, at: u32, count: usize) -> Option<Fault>
    ensures { result ≡ first (label_faults (asked wanted) at count) }
{
    match wanted {
        Wanted::Labels => {
            if 32 < count {
                Some(Fault {
                    cause: Cause::TooWide,
                    at,
                    reached: count as u64,
                })
            } else {
                None
            }
        }
        _ => None,
    }
}

fn times(a: u64, b: u64) -> u64
    ensures { result ≡ min (a * b) (2 ^ 64 - 1) }
{
    a.saturating_mul(b)
}

fn tuples<'a>(definitions: &Definitions<'a>, types: &'a [TypeTerm]) -> u64
    ensures { (names : List ℕ → Shape) → Knows names definitions.now.names (map (λ head. head.now) definitions.now.heads.items)
        → result ≡ min (product (sizes (domains_meaning names (trees types.now)))) (2 ^ 64 - 1) }
{
    let mut product = 1;
    for ty in types {
        product = times(product, constants_of(definitions, ty).len() as u64);
    }
    product
}

fn check_tuples(at: u32, count: u64) -> Option<Fault>
    ensures { (all : ℕ) → count ≡ min all (2 ^ 64 - 1) → result ≡ first (tuple_faults at all) }
{
    if 1024 < count {
        Some(Fault {
            cause: Cause::TooWide,
            at,
            reached: count,
        })
    } else {
        None
    }
}

/// A tuple type has more than 1,024 tuples.
pub(crate) fn check_width<'a>(definitions: &Definitions<'a>, ty: &'a TypeTerm) -> Option<Fault>
    ensures { (names : List ℕ → Shape) → Knows names definitions.now.names (map (λ head. head.now) definitions.now.heads.items)
        → result ≡ first (wide_faults names ty.now.span.start (form_tree (out-TypeKind ty.now.kind))) }
{
    match &ty.kind {
        TypeKind::Tuple(types) => check_tuples(
            ty.span.start,
            tuples(definitions, types.as_slice()),
        ),
        _ => None,
    }
}
