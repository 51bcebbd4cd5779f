//! The types of features.

ghost use Rattle.std.specs.Prelude.{◌≡◌, map, IfOk};
ghost use Rattle.xdg_classes.specs.Collected.{feature_of, shape_of};
ghost use Rattle.xdg_classes.specs.Wants.{feature_shape, type_named};

use std::alloc::Global;
use xdg_base::{OutOfMemory, Text};
use xdg_domain::Ty;
use xdg_names::Index;
use xdg_types::{DimType, TypeTable};

/// The dimensions of a grammar by name.
#[derive(Drop)]
pub(crate) struct Features<'a> {
    /// The dimensions, in the order of the text.
    pub(crate) dims: &'a [DimType],
    /// Their names.
    pub(crate) names: Index,
}

impl<'a> Features<'a> {
    /// Of a grammar with this table.
    pub(crate) fn new(alloc: Global, table: &'a TypeTable) -> Result<Features<'a>, OutOfMemory>
        ensures dims { IfOk result (λ made. made.dims.now ≡ table.now.dims) }
        ensures names { IfOk result (λ made. made.names ≡ map (λ dim. dim.name) table.now.dims) }
    {
        let dims = table.dims();
        let mut names = Index::new(alloc);
        for dim in dims {
            if !names.add(alloc, dim.name.as_str())? {
                return Err(OutOfMemory);
            }
        }
        Ok(Features { dims, names })
    }

    /// The type of a feature of a dimension, where both are there.
    pub(crate) fn get(&self, dim: &str, name: &str) -> Option<&'a Ty>
        ensures { shape_of result ≡ feature_of self.now dim.now name.now }
    {
        match self.names.find(dim) {
            None => None,
            Some(at) => match self.dims.get(at) {
                None => None,
                Some(dim) => type_of(dim.fields.as_slice(), name),
            },
        }
    }
}

/// The type of the field with that name.
fn type_of<'a>(fields: &'a [(Text, Ty)], name: &str) -> Option<&'a Ty>
    ensures { shape_of result ≡ type_named fields.now name.now }
{
    for (key, ty) in fields {
        if key.as_str() == name {
            return Some(ty);
        }
    }
    None
}
