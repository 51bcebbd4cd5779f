//! The table of a grammar's dimensions and types.

ghost use Rattle.std.specs.Prelude.{◌≡◌};
ghost use Rattle.xdg_types.specs.Table.{IsTable};

use std::marker::Model;
use xdg_base::{List, Text};
use xdg_domain::Ty;

/// A dimension with its types.
#[derive(Debug, Drop)]
pub struct DimType {
    /// Its name.
    pub name: Text,
    /// Its edge labels, in the order of their type: at most 32, all different.
    pub labels: List<Text>,
    /// Its attributes with their types, in the order of their record: at most 8, of different names. Each type is a
    /// domain or a tuple type with at least one value.
    pub attrs: List<(Text, Ty)>,
    /// Its features with their types, in the order of their record, of different names.
    pub fields: List<(Text, Ty)>,
}

/// The dimensions of a grammar with their types, and which of them are used.
#[derive(Debug, Drop)]
pub struct TypeTable {
    // The dimensions, in the order of the text.
    dims: List<DimType>,
    // The places of the used ones, in the order of their uses.
    used: List<usize>,
}

impl Model for TypeTable {
    ghost use Rattle.xdg_types.specs.Table.{Table, IsTable};
    ghost use Rattle.xdg_domain.specs.contracts.types.Ty as ty;
    ghost use Rattle.std.specs.Coded.{codes};

    ghost Value = { Table };

    ghost coded = { Prim.hlevel (codes, ty.the_row.coded) };

    ghost view = { λ made. record { dims = made.dims; used = made.used } };

    ghost invariant = { λ made. IsTable (record { dims = made.dims; used = made.used }) };
}

impl TypeTable {
    /// The table of these dimensions, of which those at these places are used.
    pub fn new(dims: List<DimType>, used: List<usize>) -> TypeTable
        requires { IsTable (record { dims = dims; used = used }) }
        ensures { result ≡ record { dims = dims; used = used } }
    {
        TypeTable { dims, used }
    }

    /// The dimensions in the order of the text, used or not, lent.
    pub fn dims(&self) -> &[DimType]
        ensures same { result.now ≡ self.now.dims }
        ensures keeps { IsTable self.now }
    {
        self.dims.as_slice()
    }

    /// The places of the used dimensions among all, from 0, in the order of their uses, lent.
    pub fn used(&self) -> &[usize]
        ensures same { result.now ≡ self.now.used }
        ensures keeps { IsTable self.now }
    {
        self.used.as_slice()
    }
}
