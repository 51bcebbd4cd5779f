//! A propagator of any family.

ghost use Rattle.std.specs.Prelude.{◌≡◌, ◌<◌, ◌+◌, ◌-◌, ◌^◌, ◌↔◌, ℕ, Bool, List, length, min};
ghost use Rattle.xdg_propcore.specs.Uses.{IsClosedBy};
ghost use Rattle.xdg_engine.specs.Standing.{stands_for};
ghost use Rattle.xdg_engine.specs.declared.any_prop.AnyProp.TheVariants as any;

use crate::cost_prop::CostProp;
use xdg_formula_value::RuleProp;
use xdg_pagree::AgreeProp;
use xdg_pgraph::GraphProp;
use xdg_plink::LinkProp;
use xdg_pmulti::MultiProp;
use xdg_porder::OrderProp;
use xdg_propcore::{Moved, Propagator, Wake};
use xdg_store::{Mark, Store};

/// The propagator of a principle use of any principle.
#[derive(Debug, Drop)]
pub enum AnyProp {
    /// One of graph, entries, tree, dag or valency.
    Graph(GraphProp),
    /// One of order or projectivity.
    Order(OrderProp),
    /// One of agr, agreement or government.
    Agree(AgreeProp),
    /// One of climbing or barriers.
    Multi(MultiProp),
    /// One of a linking principle.
    Link(LinkProp),
    /// One of a rule.
    Rule(RuleProp),
    /// One of a bound.
    Cost(CostProp),
}

impl Propagator for AnyProp {
    ghost stands = { stands_for };

    ghost still = { λ p parts box. IsClosedBy (stands_for p) parts box };

    ghost kinds = { elim [
      | any.Graph p ↦ ⟦<GraphProp as Propagator>⟧.kinds p
      | any.Order p ↦ ⟦<OrderProp as Propagator>⟧.kinds p
      | any.Agree p ↦ ⟦<AgreeProp as Propagator>⟧.kinds p
      | any.Multi p ↦ ⟦<MultiProp as Propagator>⟧.kinds p
      | any.Link p ↦ ⟦<LinkProp as Propagator>⟧.kinds p
      | any.Rule p ↦ ⟦<RuleProp as Propagator>⟧.kinds p
      | any.Cost p ↦ ⟦<CostProp as Propagator>⟧.kinds p
    ] };

    fn wakes(&self) -> Wake {
        match self {
            AnyProp::Graph(p) => p.wakes(),
            AnyProp::Order(p) => p.wakes(),
            AnyProp::Agree(p) => p.wakes(),
            AnyProp::Multi(p) => p.wakes(),
            AnyProp::Link(p) => p.wakes(),
            AnyProp::Rule(p) => p.wakes(),
            AnyProp::Cost(p) => p.wakes(),
        }
    }

    fn step(&self, store: &mut Store) -> Moved {
        match self {
            AnyProp::Graph(p) => p.step(store),
            AnyProp::Order(p) => p.step(store),
            AnyProp::Agree(p) => p.step(store),
            AnyProp::Multi(p) => p.step(store),
            AnyProp::Link(p) => p.step(store),
            AnyProp::Rule(p) => p.step(store),
            AnyProp::Cost(p) => p.step(store),
        }
    }

    fn step_since(&self, store: &mut Store, since: Mark) -> Moved {
        match self {
            AnyProp::Graph(p) => p.step_since(store, since),
            AnyProp::Order(p) => p.step_since(store, since),
            AnyProp::Agree(p) => p.step_since(store, since),
            AnyProp::Multi(p) => p.step_since(store, since),
            AnyProp::Link(p) => p.step_since(store, since),
            AnyProp::Rule(p) => p.step_since(store, since),
            AnyProp::Cost(p) => p.step_since(store, since),
        }
    }

    fn laws() {
        GraphProp::laws();
        OrderProp::laws();
        AgreeProp::laws();
        MultiProp::laws();
        LinkProp::laws();
        RuleProp::laws();
        CostProp::laws();
    }
}
