//! Atoms.

ghost use Rattle.std.specs.Prelude.{◌≡◌, ◌≢◌, ◌≤◌, length, map, None, Some, IfOk};
ghost use Rattle.xdg_domain.specs.Shapes.{shape};
ghost use Rattle.xdg_formula.specs.Tables.{member_shape, used_dims};
ghost use Rattle.xdg_formula.specs.Written as w;
ghost use Rattle.xdg_build.specs.Formulas.{formula_in};
ghost use Rattle.xdg_build.specs.Problems.{IsFor};
ghost use Rattle.xdg_build.specs.Right.{IsRight};

use crate::feats::feat_table;
use crate::lookups::{dim_number, dim_type, node_number, type_place};
use crate::values::value_number;
use std::alloc::Global;
use xdg_ast::{Name, Term};
use xdg_base::{AttrId, DimId, LabelId, OutOfMemory};
use xdg_domain::Ty;
use xdg_packed::Packed;
use xdg_problem::{Formula, Problem};
use xdg_types::{TypeTable, label_number};

/// An edge of a dimension, from a node, with a label, to a node.
pub(crate) fn edge(
    types: &TypeTable,
    packed: &Packed,
    problem: &Problem,
    bound: &[&str],
    dim: &Name,
    mother: &Name,
    label: &Name,
    daughter: &Name,
) -> Formula
    requires right { IsRight (used_dims types.now) (map (λ text. text.now) bound.now) (w.edge dim.now mother.now label.now daughter.now) }
    requires few { length bound.now ≤ 3 }
    ensures { result ≡ formula_in types.now packed.now problem.now (map (λ text. text.now) bound.now)
        (w.edge dim.now mother.now label.now daughter.now) }
{
    let place = dim_number(types, dim);
    let labels = dim_type(types, place).labels.as_slice();
    Formula::Edge(
        DimId(place),
        node_number(bound, mother),
        LabelId(label_number(labels, label)),
        node_number(bound, daughter),
    )
}

/// A path on a dimension from a node to a node.
pub(crate) fn above(
    types: &TypeTable,
    packed: &Packed,
    problem: &Problem,
    bound: &[&str],
    dim: &Name,
    upper: &Name,
    lower: &Name,
) -> Formula
    requires { length bound.now ≤ 3 }
    ensures { result ≡ formula_in types.now packed.now problem.now (map (λ text. text.now) bound.now) (w.above dim.now upper.now lower.now) }
{
    let place = dim_number(types, dim);
    Formula::Above(
        DimId(place),
        node_number(bound, upper),
        node_number(bound, lower),
    )
}

/// An attribute of a node with its value.
pub(crate) fn attr(
    alloc: Global,
    types: &TypeTable,
    packed: &Packed,
    problem: &Problem,
    bound: &[&str],
    node: &Name,
    dim: &Name,
    attribute: &Name,
    value: &Term,
) -> Result<Formula, OutOfMemory>
    requires right { IsRight (used_dims types.now) (map (λ text. text.now) bound.now) (w.attr node.now dim.now attribute.now value.now) }
    requires few { length bound.now ≤ 3 }
    ensures { IfOk result (λ made. made ≡ formula_in types.now packed.now problem.now (map (λ text. text.now) bound.now)
        (w.attr node.now dim.now attribute.now value.now)) }
{
    let place = dim_number(types, dim);
    let attrs = dim_type(types, place).attrs.as_slice();
    let own = type_place(attrs, attribute);
    let number = value_number(alloc, &attrs[own].1, value)?;
    Ok(Formula::Attr(
        node_number(bound, node),
        DimId(place),
        AttrId(own as u8),
        number,
    ))
}

/// The type of the members of a set, or of a single value.
fn member_type(ty: &Ty) -> &Ty
    ensures { member_shape (shape ty.now) ≢ None → member_shape (shape ty.now) ≡ Some (shape result.now) }
{
    match ty {
        Ty::Set(of) => of.get(),
        Ty::ISet(of) => of.get(),
        _ => ty,
    }
}

/// A feature of a node's entry with its value, or one of its members.
pub(crate) fn feat(
    alloc: Global,
    types: &TypeTable,
    packed: &Packed,
    problem: &Problem,
    bound: &[&str],
    node: &Name,
    dim: &Name,
    feature: &Name,
    value: &Term,
) -> Result<Formula, OutOfMemory>
    requires fits { IsFor types.now packed.now problem.now }
    requires right { IsRight (used_dims types.now) (map (λ text. text.now) bound.now) (w.feat node.now dim.now feature.now value.now) }
    requires few { length bound.now ≤ 3 }
    ensures { IfOk result (λ made. made ≡ formula_in types.now packed.now problem.now (map (λ text. text.now) bound.now)
        (w.feat node.now dim.now feature.now value.now)) }
{
    let place = dim_number(types, dim);
    let fields = dim_type(types, place).fields.as_slice();
    let own = type_place(fields, feature);
    let number = value_number(alloc, member_type(&fields[own].1), value)?;
    let candidates = problem.parts().candidates.as_slice();
    let table = feat_table(alloc, packed, candidates, usize::from(place), own, number)?;
    Ok(Formula::Feat(node_number(bound, node), table))
}
