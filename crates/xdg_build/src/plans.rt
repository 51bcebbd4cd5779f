//! The used dimensions, compiled.

ghost use Rattle.std.specs.Prelude.{◌≡◌, ◌<◌, length, map, All, IfOk};
ghost use Rattle.std.specs.List.{list_any};
ghost use Rattle.xdg_build.specs.Plans as spec;
ghost use Rattle.xdg_check.specs.Checked.{IsChecked};
ghost use Rattle.xdg_domain.specs.Shapes.{shape, IsSmall};
ghost use Rattle.xdg_build.specs.Grammars.{grammar_of};
ghost use Rattle.xdg_packed.specs.Lexicon.{Lexicon};
ghost use Rattle.xdg_types.specs.Table.{typed, AreAttributes, KeepDims};

use crate::shown::shown;
use std::alloc::Global;
use xdg_base::{List, OutOfMemory, Text};
use xdg_check::{Checked, PrincipleUse};
use xdg_domain::{Ty, count};
use xdg_problem::{AttrPlan, DimPlan, Principle};
use xdg_types::{DimType, TypeTable};

fn copied(alloc: Global, texts: &[Text]) -> Result<List<Text>, OutOfMemory>
    ensures { IfOk result (λ made. made ≡ texts.now) }
{
    let mut made = List::new(alloc);
    for text in texts {
        made.push(text.copy(alloc)?)?;
    }
    Ok(made)
}

/// An attribute with the values of its type.
#[tactic(auto, using(crate::proofs::Turns::values_more))]
fn attr_plan(alloc: Global, name: &Text, ty: &Ty) -> Result<AttrPlan, OutOfMemory>
    requires { IsSmall (shape ty.now) }
    ensures { IfOk result (λ made. made ≡ spec.attr_plan name.now (shape ty.now)) }
{
    let mut values = List::new(alloc);
    for number in 0..count(ty) {
        values.push(shown(alloc, ty, number)?)?;
    }
    Ok(AttrPlan {
        name: name.copy(alloc)?,
        values,
    })
}

fn attr_plans(alloc: Global, attrs: &[(Text, Ty)]) -> Result<List<AttrPlan>, OutOfMemory>
    requires { AreAttributes (typed attrs.now) }
    ensures { IfOk result (λ made. made ≡ spec.attr_plans (typed attrs.now)) }
{
    let mut made = List::new(alloc);
    for attr in attrs {
        made.push(attr_plan(alloc, &attr.0, &attr.1)?)?;
    }
    Ok(made)
}

/// Whether it is the principle graph.
fn is_graph(principle: &Principle) -> bool
    ensures { result ≡ spec.is_graph principle.now }
{
    match principle {
        Principle::Graph => true,
        _ => false,
    }
}

/// Whether the use stands in a used dimension, and is of the principle graph on the dimension with that place.
fn makes_graph(types: &TypeTable, place: usize, one: &PrincipleUse) -> bool
    ensures { result ≡ spec.makes_graph types.now place one.now }
{
    types.used().contains(&one.home)
        && is_graph(&one.principle)
        && one.dims.as_slice().contains(&place)
}

/// Whether the dimension with that place has edges.
fn has_graph(checked: &Checked, place: usize) -> bool
    ensures { result ≡ list_any (spec.makes_graph checked.now.types place) checked.now.principles }
{
    let types = checked.types();
    checked
        .principles()
        .iter()
        .any(|one| makes_graph(types, place, one))
}

/// The dimension with that place among all.
fn dim_plan(
    alloc: Global,
    checked: &Checked,
    place: usize,
    dim: &DimType,
) -> Result<DimPlan, OutOfMemory>
    requires { AreAttributes (typed dim.now.attrs) }
    ensures { IfOk result (λ made. (lexicon : Lexicon) → made ≡ spec.dim_plan (grammar_of checked.now lexicon) place dim.now) }
{
    Ok(DimPlan {
        name: dim.name.copy(alloc)?,
        labels: copied(alloc, dim.labels.as_slice())?,
        attrs: attr_plans(alloc, dim.attrs.as_slice())?,
        graph: has_graph(checked, place),
    })
}

/// The dimensions with these places, in their order.
fn plans_of(
    alloc: Global,
    checked: &Checked,
    dims: &[DimType],
    used: &[usize],
) -> Result<List<DimPlan>, OutOfMemory>
    requires dims { KeepDims dims.now }
    requires used { All (λ k. k < length dims.now) used.now }
    ensures { IfOk result (λ made. (lexicon : Lexicon) → made ≡ map (spec.plan_at (grammar_of checked.now lexicon) dims.now) used.now) }
{
    let mut made = List::new(alloc);
    for place in used {
        made.push(dim_plan(alloc, checked, *place, &dims[*place])?)?;
    }
    Ok(made)
}

/// The used dimensions, in the order of their uses. They don't go by the lexicon.
pub(crate) fn plans(alloc: Global, checked: &Checked) -> Result<List<DimPlan>, OutOfMemory>
    ensures plans { IfOk result (λ made. (lexicon : Lexicon) → made ≡ spec.plans (grammar_of checked.now lexicon)) }
    ensures keeps { IsChecked checked.now }
{
    let types = checked.types();
    plans_of(alloc, checked, types.dims(), types.used())
}
