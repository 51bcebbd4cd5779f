//! The names of dimensions, features and attributes by number.

ghost use Rattle.std.specs.Prelude.{◌≡◌, Some, IfOk};
ghost use Rattle.xdg_facts.specs.Membership.{Differ};
ghost use Rattle.xdg_types.specs.Table.{KeepDims, firsts};
ghost use Rattle.xdg_principles.specs.Lent as spec;
ghost use Rattle.xdg_principles.specs.Settings.{members_in};

use std::alloc::Global;
use xdg_base::{List, OutOfMemory, Text};
use xdg_domain::Ty;
use xdg_names::Index;
use xdg_problem::Sort;
use xdg_types::{DimType, TypeTable, index_dims};

/// Indexes of the names in a table of types, each by its place.
#[derive(Drop)]
pub(crate) struct Lookup {
    /// The dimensions.
    pub(crate) dims: Index,
    /// For each dimension its features.
    pub(crate) features: List<Index>,
    /// For each dimension its attributes.
    pub(crate) attributes: List<Index>,
}

impl Lookup {
    /// For each dimension its features or its attributes.
    pub(crate) fn names(&self, sort: Sort) -> &[Index]
        ensures { result.now ≡ spec.names_by self.now sort }
    {
        match sort {
            Sort::Feature => self.features.as_slice(),
            Sort::Attribute => self.attributes.as_slice(),
        }
    }
}

/// The features or the attributes of a dimension, with their types.
pub(crate) fn members(dim: &DimType, sort: Sort) -> &[(Text, Ty)]
    ensures { result.now ≡ members_in sort (Some dim.now) }
{
    match sort {
        Sort::Feature => dim.fields.as_slice(),
        Sort::Attribute => dim.attrs.as_slice(),
    }
}

/// The indexes of a table. Its time is linear in the number of names.
#[tactic(auto, using(crate::proofs::Lookups::knows))]
pub(crate) fn index_names(alloc: Global, table: &TypeTable) -> Result<Lookup, OutOfMemory>
    ensures { IfOk result (λ made. spec.Knows table.now.dims made) }
{
    let dims = table.dims();
    Ok(Lookup {
        dims: index_dims(alloc, dims)?,
        features: all_names(alloc, dims, Sort::Feature)?,
        attributes: all_names(alloc, dims, Sort::Attribute)?,
    })
}

/// The names of the features or the attributes of each dimension.
fn all_names(alloc: Global, dims: &[DimType], sort: Sort) -> Result<List<Index>, OutOfMemory>
    requires { KeepDims dims.now }
    ensures { IfOk result (λ made. made ≡ spec.member_names sort dims.now) }
{
    let mut all = List::new(alloc);
    for dim in dims {
        all.push(names_of(alloc, members(dim, sort))?)?;
    }
    Ok(all)
}

fn names_of(alloc: Global, members: &[(Text, Ty)]) -> Result<Index, OutOfMemory>
    requires { Differ (firsts members.now) }
    ensures { IfOk result (λ made. made ≡ firsts members.now) }
{
    let mut all = Index::new(alloc);
    for member in members {
        all.add(alloc, member.0.as_str())?;
    }
    Ok(all)
}
