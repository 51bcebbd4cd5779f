//! How many parts types have, names followed, counted before anything is made.
//!
//! The weight of a type is the number of the types and constants that stand in it, with itself. It stops at the greatest u64.

ghost use Rattle.std.specs.Prelude.{◌≡◌, ◌<◌, ℕ, List, map, length, slice_index_or, IfOk};
ghost use Rattle.xdg_domain.specs.Shapes.{Shape};
ghost use Rattle.xdg_typing.specs.Heads.{Agrees};
ghost use Rattle.xdg_typing.specs.Weights as spec;
ghost use Rattle.xdg_typing.specs.Weights.{UsesFirst, WeighedBefore};
ghost use Rattle.xdg_types.specs.Written.{tree};

use std::alloc::Global;
use xdg_ast::{Name, TypeKind, TypeTerm};
use xdg_base::OutOfMemory;
use xdg_names::Index;

/// The weight of a type without types and constants in it.
const LEAF: u64 = 1;

/// Of a name, given the weights of the definitions.
fn named_weight(names: &Index, weights: &[u64], name: &Name) -> u64
    ensures { result ≡ spec.named_weight names.now weights.now name.now }
{
    match names.find(name.text.as_str()) {
        None => LEAF,
        Some(number) => match weights.get(number) {
            None => LEAF,
            Some(weight) => *weight,
        },
    }
}

/// The weight of a type, given those of the definitions. It recurses as deep as the type is written, which is limited by the
/// brackets that may stand open.
#[tactic(auto, using(crate::proofs::Weighed::weight_steps))]
pub(crate) fn weigh(names: &Index, weights: &[u64], ty: &TypeKind) -> u64
    ensures { result ≡ spec.weighed (spec.named_weight names.now weights.now) (tree ty.now) }
{
    match ty {
        TypeKind::Named(name) => named_weight(names, weights, name),
        TypeKind::Domain(constants) => (constants.len() as u64).saturating_add(1),
        TypeKind::Set(part) | TypeKind::ISet(part) | TypeKind::Valency(part) => {
            weigh(names, weights, &part.get().kind).saturating_add(1)
        }
        TypeKind::Map(key, value) => {
            let key = weigh(names, weights, &key.get().kind);
            let value = weigh(names, weights, &value.get().kind);
            key.saturating_add(value).saturating_add(1)
        }
        TypeKind::Tuple(fields) => {
            let mut all = 0u64;
            for field in fields.as_slice() {
                all = all.saturating_add(weigh(names, weights, &field.kind));
            }
            all.saturating_add(1)
        }
        TypeKind::Rec(pairs) => {
            let mut all = 0u64;
            for pair in pairs.as_slice() {
                all = all.saturating_add(weigh(names, weights, &pair.value.kind));
            }
            all.saturating_add(1)
        }
        TypeKind::Empty | TypeKind::Card | TypeKind::Bool | TypeKind::Int | TypeKind::Str => LEAF,
    }
}

/// The weight of each definition, given an order in which each comes after those that it uses. The time is linear in
/// the text.
pub(crate) fn weights(
    alloc: Global,
    known: &Index,
    bodies: &[&TypeTerm],
    order: &[usize],
) -> Result<Vec<u64>, OutOfMemory>
    requires within { (i : ℕ) → i < length order.now → slice_index_or order.now i 0 < length bodies.now }
    requires first { UsesFirst known.now (map (λ body. body.now) bodies.now) order.now }
    ensures { IfOk result
        (λ made. (names : List ℕ → Shape) → Agrees names known.now (map (λ body. body.now) bodies.now)
        → WeighedBefore names known.now order.now (length order.now) made.items) }
{
    let mut weights = vec![in alloc; LEAF; bodies.len()]?;
    for i in 0..order.len() {
        let number = order[i];
        weights[number] = weigh(known, weights.as_slice(), &bodies[number].kind);
    }
    Ok(weights)
}
