//! One propagator for each principle use.

ghost use Rattle.std.specs.Prelude.{◌≡◌, ◌<◌, IfOk, length};
ghost use Rattle.xdg_problem.specs.Principles.{IsOf};
ghost use Rattle.xdg_propcore.specs.Uses.{AllStandIn, StandsFor, use_at};
ghost use Rattle.xdg_engine.specs.Standing.{AreInOrder, stands_for};

use crate::any_prop::AnyProp;
use crate::cost_prop::CostProp;
use std::alloc::Global;
use xdg_base::{List, OutOfMemory};
use xdg_formula_value::RuleProp;
use xdg_pagree::AgreeProp;
use xdg_pgraph::GraphProp;
use xdg_plink::LinkProp;
use xdg_pmulti::MultiProp;
use xdg_porder::OrderProp;
use xdg_problem::{PrincipleFamily, Problem, family_of};

/// The family of the principle of a principle use, by its number from 0.
fn family_at(problem: &Problem, group: usize) -> PrincipleFamily
    requires { group < length problem.now.groups }
    ensures { IsOf result (use_at problem.now group).principle }
{
    family_of(&problem.parts().groups.as_slice()[group].principle)
}

/// The propagator of a principle use, by its number from 0.
fn prop_of(alloc: Global, problem: &Problem, group: usize) -> Result<AnyProp, OutOfMemory>
    requires { group < length problem.now.groups }
    ensures { IfOk result (λ p. StandsFor (stands_for p) problem.now group) }
{
    match family_at(problem, group) {
        PrincipleFamily::Graph => Ok(AnyProp::Graph(GraphProp::of(alloc, problem, group)?)),
        PrincipleFamily::Order => Ok(AnyProp::Order(OrderProp::of(alloc, problem, group)?)),
        PrincipleFamily::Agree => Ok(AnyProp::Agree(AgreeProp::of(alloc, problem, group)?)),
        PrincipleFamily::Multi => Ok(AnyProp::Multi(MultiProp::of(alloc, problem, group)?)),
        PrincipleFamily::Link => Ok(AnyProp::Link(LinkProp::of(alloc, problem, group)?)),
        PrincipleFamily::Rule => Ok(AnyProp::Rule(RuleProp::of(problem, group)?)),
        PrincipleFamily::Bound => Ok(AnyProp::Cost(CostProp::of(alloc, problem, group)?)),
    }
}

/// The propagators of a sentence: one for each principle use, in the order of the uses.
pub fn props(alloc: Global, problem: &Problem) -> Result<List<AnyProp>, OutOfMemory>
    ensures order { IfOk result (λ props. AreInOrder problem.now (length problem.now.groups) props) }
    ensures stand { IfOk result (λ props. AllStandIn stands_for props problem.now) }
{
    let mut props = List::new(alloc);
    for number in 0..problem.parts().groups.len() {
        props.push(prop_of(alloc, problem, number)?)?;
    }
    Ok(props)
}
