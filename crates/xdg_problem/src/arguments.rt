//! The arguments of a principle use.

ghost use Rattle.std.specs.Prelude.{◌≡◌};
ghost use Rattle.xdg_problem.specs.Arguments.{attr_of, dim_of, truth_of};

use crate::parts::Group;
use xdg_base::{AttrId, DimId};

/// The dimension that a dimension argument names. It is 0 where the principle use has no such argument.
#[tactic(auto, using(xdg_facts::proofs::Lookups::read_none))]
pub fn dim_of(group: &Group, argument: usize) -> DimId
    ensures { result.0 ≡ dim_of group.now argument }
{
    match group.dims.get(argument) {
        Some(dim) => *dim,
        None => DimId(0),
    }
}

/// The attribute that an attribute argument names. It is 0 where the principle use has no such argument.
#[tactic(auto, using(xdg_facts::proofs::Lookups::read_none))]
pub fn attr_of(group: &Group, argument: usize) -> AttrId
    ensures { result.0 ≡ attr_of group.now argument }
{
    match group.attrs.get(argument) {
        Some(attr) => *attr,
        None => AttrId(0),
    }
}

/// A truth value. It is false where the principle use has no such argument.
#[tactic(auto, using(xdg_facts::proofs::Lookups::read_none))]
pub fn truth_of(group: &Group, argument: usize) -> bool
    ensures { result ≡ truth_of group.now.truths argument }
{
    match group.truths.get(argument) {
        Some(truth) => *truth,
        None => false,
    }
}
