//! Dimensions by their places among the used ones.

ghost use Rattle.std.specs.Prelude.{◌≡◌, ◌≤◌, ◌==◌, length, map, get_or, IfOk};
ghost use Rattle.std.specs.List.{list_any};
ghost use Rattle.xdg_base.specs.declared.ids.DimId.{DimId};
ghost use Rattle.xdg_problem.specs.Principles as rows;
ghost use Rattle.xdg_build.specs.Grammars as grammars;

use std::alloc::Global;
use xdg_base::{DimId, List, OutOfMemory};
use xdg_problem::{Principle, feature_dim};

/// Whether the dimension with that place among all is used.
pub(crate) fn is_used(used: &[usize], place: usize) -> bool
    ensures { result ≡ list_any (λ one. one == place) used.now }
{
    used.iter().any(|one| *one == place)
}

/// The place of a dimension among the used ones, and how many there are where it isn't used.
#[tactic(auto, using(crate::proofs::ListTurns::place_here, crate::proofs::ListTurns::place_passed))]
pub(crate) fn place_of_used(used: &[usize], place: usize) -> usize
    ensures place { result ≡ grammars.place_of_used used.now place }
    ensures within { result ≤ length used.now }
{
    for (at, one) in used.iter().enumerate() {
        if *one == place {
            return at;
        }
    }
    used.len()
}

/// The place among the used ones of the dimension that has the features of a principle with these dimensions.
pub(crate) fn feature_place(used: &[usize], principle: &Principle, dims: &[usize]) -> usize
    ensures { result ≡ grammars.place_of_used used.now (get_or dims.now (rows.feature_dim principle.now) 0) }
{
    match dims.get(feature_dim(principle)) {
        None => place_of_used(used, 0),
        Some(place) => place_of_used(used, *place),
    }
}

/// The same of each of these dimensions.
pub(crate) fn dims_in(
    alloc: Global,
    used: &[usize],
    places: &[usize],
) -> Result<List<DimId>, OutOfMemory>
    requires { length used.now ≤ 8 }
    ensures { IfOk result (λ made. made ≡ map (λ k. record { 0 = grammars.place_of_used used.now k }) places.now) }
{
    let mut made = List::new(alloc);
    for place in places {
        made.push(DimId(place_of_used(used, *place) as u8))?;
    }
    Ok(made)
}
