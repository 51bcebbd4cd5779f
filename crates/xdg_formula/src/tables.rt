//! Dimensions, labels, attributes and features of a table, by their names. The time of each is linear in their number.

ghost use Rattle.std.specs.Prelude.{◌≡◌, ◌<◌, length, All, option_map};
ghost use Rattle.std.specs.Option.{option_copied};
ghost use Rattle.xdg_domain.specs.Shapes.{shape};
ghost use Rattle.xdg_formula.specs.Tables as spec;
ghost use Rattle.xdg_types.specs.Table.{dim_named};

use xdg_base::Text;
use xdg_domain::Ty;
use xdg_types::{DimType, TypeTable};

/// The dimension of that name, of those with these places.
fn dim_among<'a>(dims: &'a [DimType], used: &[usize], name: &str) -> Option<&'a DimType>
    requires { All (λ k. k < length dims.now) used.now }
    ensures { option_copied result ≡ dim_named (spec.dims_at dims.now used.now) name.now }
{
    for place in used {
        let dim = &dims[*place];
        if dim.name.as_str() == name {
            return Some(dim);
        }
    }
    None
}

/// The used dimension of that name.
pub(crate) fn dim_named<'a>(types: &'a TypeTable, name: &str) -> Option<&'a DimType>
    ensures { option_copied result ≡ dim_named (spec.used_dims types.now) name.now }
{
    dim_among(types.dims(), types.used(), name)
}

/// The type of that name, of an attribute or a feature.
pub(crate) fn type_named<'a>(all: &'a [(Text, Ty)], name: &str) -> Option<&'a Ty>
    ensures { option_copied result ≡ spec.type_named all.now name.now }
{
    for one in all {
        if one.0.as_str() == name {
            return Some(&one.1);
        }
    }
    None
}

/// The type of the values that a feature of a type may have, or may have as a member.
pub(crate) fn member_type(ty: &Ty) -> Option<&Ty>
    ensures { option_map shape (option_copied result) ≡ spec.member_shape (shape ty.now) }
{
    match ty {
        Ty::Domain(_) => Some(ty),
        Ty::Tuple(_) => Some(ty),
        Ty::Set(of) => Some(of.get()),
        Ty::ISet(of) => Some(of.get()),
        _ => None,
    }
}
