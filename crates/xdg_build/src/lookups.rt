//! Where what a rule names stands: dimensions, attributes and features in a table of types, and nodes among the names that are bound.
//! What stands nowhere has the place 0. The time of each is linear in their number.

ghost use Rattle.std.specs.Prelude.{◌≡◌, ◌<◌, ◌≤◌, length, map, get_or, bytes_eq};
ghost use Rattle.std.specs.List.{position};
ghost use Rattle.xdg_types.specs.Table.{IsTable, firsts};
ghost use Rattle.xdg_formula.specs.Tables.{no_dim, used_dims};
ghost use Rattle.xdg_build.specs.Formulas.{place_or_zero};
ghost use Rattle.xdg_build.specs.Places.{names_at};

use xdg_ast::Name;
use xdg_base::Text;
use xdg_domain::Ty;
use xdg_types::{DimType, TypeTable};

/// Where a name stands among those that are bound.
fn place_bound(bound: &[&str], name: &Name) -> Option<usize>
    ensures { result ≡ position (λ text. bytes_eq name.now.text text.now) bound.now }
{
    bound.iter().position(|text| name.text.as_str() == *text)
}

/// The number of a node's name: its place among the names that are bound.
pub(crate) fn node_number(bound: &[&str], name: &Name) -> u8
    requires { length bound.now ≤ 3 }
    ensures { result ≡ place_or_zero (map (λ text. text.now) bound.now) name.now.text }
{
    place_bound(bound, name).unwrap_or(0) as u8
}

/// Whether a name is that of the dimension with that place; where there is none it has no letters.
fn is_named(dims: &[DimType], place: usize, name: &Name) -> bool
    ensures { result ≡ bytes_eq name.now.text (get_or dims.now place no_dim).name }
{
    match dims.get(place) {
        Some(dim) => name.text.as_str() == dim.name.as_str(),
        None => name.text.as_str() == "",
    }
}

/// The place of a dimension among those with these places.
fn dim_place(dims: &[DimType], used: &[usize], name: &Name) -> Option<usize>
    ensures { result ≡ position (λ place. bytes_eq name.now.text (get_or dims.now place no_dim).name) used.now }
{
    used.iter().position(|place| is_named(dims, *place, name))
}

/// The number of a dimension: its place among the used ones.
pub(crate) fn dim_number(types: &TypeTable, name: &Name) -> u8
    ensures at { result ≡ place_or_zero (names_at types.now.dims types.now.used) name.now.text }
    ensures keeps { IsTable types.now }
{
    dim_place(types.dims(), types.used(), name).unwrap_or(0) as u8
}

/// The dimension with that number.
pub(crate) fn dim_type(types: &TypeTable, number: u8) -> &DimType
    requires { number < length (used_dims types.now) }
    ensures { result.now ≡ get_or (used_dims types.now) number no_dim }
{
    let place = types.used()[usize::from(number)];
    &types.dims()[place]
}

/// Where an attribute or a feature stands among those of its dimension.
fn place_typed(all: &[(Text, Ty)], name: &Name) -> Option<usize>
    ensures { result ≡ position (λ one. bytes_eq name.now.text one.0) all.now }
{
    all.iter()
        .position(|one| name.text.as_str() == one.0.as_str())
}

/// The place of an attribute or a feature.
pub(crate) fn type_place(all: &[(Text, Ty)], name: &Name) -> usize
    ensures { result ≡ place_or_zero (firsts all.now) name.now.text }
{
    place_typed(all, name).unwrap_or(0)
}
