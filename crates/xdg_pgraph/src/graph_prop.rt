//! The family.

ghost use Rattle.std.specs.Prelude.{◌≡◌};
ghost use Rattle.xdg_problem.specs.declared.parts.Principle.TheVariants as principles;
ghost use Rattle.xdg_problem.specs.Arguments.{first_dim, label_count};
ghost use Rattle.xdg_problem.specs.Problems.{IsGroup};
ghost use Rattle.xdg_rules.specs.Rules.{IsClosedFor};
ghost use Rattle.xdg_store.specs.States.{Known};
ghost use Rattle.xdg_propcore.specs.Standing.{HeldIf};
ghost use Rattle.xdg_propcore.specs.Sweeps.{Sweeps};
ghost use Rattle.xdg_pgraph.specs.Allowances.{AreAllowances};
ghost use Rattle.xdg_pgraph.specs.Bundles.{AreLabelsDone};
ghost use Rattle.xdg_pgraph.specs.Family.{IsOfFamily, KeepsAllowances};
ghost use Rattle.xdg_pgraph.specs.Planes.{IsPlane};

use crate::allowances::Allowances;
use crate::label::{take_dag, take_others, take_tree};
use crate::lasting::daughters_since;
use crate::plane::{Plane, label_count};
use crate::valency::take_valency;
use std::alloc::Global;
use xdg_base::OutOfMemory;
use xdg_problem::{Group, Parts, Principle, Problem, truth_of};
use xdg_propcore::{Family, Pass, Touched, UseProp};
use xdg_store::{Mark, Store};

/// The family of graph, entries, tree, dag and valency. The first two take nothing. Of a use of valency it keeps what the entries allow.
#[derive(Debug, Drop)]
pub struct Graph {
    allowances: Allowances,
}

/// The propagator of a use of graph, entries, tree, dag or valency.
pub type GraphProp = UseProp<Graph>;

/// Takes what valency takes, which was still at a mark, if there is one, on a dimension with so many labels.
fn take_counts(
    store: &mut Store,
    pass: &mut Pass,
    plane: &Plane,
    group: &Group,
    allowances: &Allowances,
    since: &Option<Mark>,
    labels: u8,
)
    requires plane { IsPlane store.old.parts plane.now }
    requires dim { plane.now.dim.0 ≡ first_dim group.now }
    requires known { Known store.old }
    requires group { IsGroup store.old.parts group.now }
    requires principle { group.now.principle ≡ principles.Valency }
    requires fits { AreAllowances store.old.parts group.now allowances.now }
    requires labels { labels ≡ label_count store.old.parts plane.now.dim.0 }
    requires held { HeldIf (λ parts box. IsClosedFor parts group.now box) store.old since.now }
    ensures { Sweeps group.now (AreLabelsDone labels store.old.parts group.now) pass.old store.old pass.new store.new }
{
    match *since {
        Some(mark) => {
            let mut touched = Touched::none();
            touched.gather(store, mark, plane.dim);
            take_valency(store, pass, plane, group, allowances, &touched, labels);
        }
        None => {
            let touched = Touched::all();
            take_valency(store, pass, plane, group, allowances, &touched, labels);
        }
    }
}

/// Takes what a principle use takes, which was still at a mark, if there is one.
fn take_all(
    store: &mut Store,
    pass: &mut Pass,
    parts: &Parts,
    group: &Group,
    allowances: &Allowances,
    since: &Option<Mark>,
)
    requires parts { parts.now ≡ store.old.parts }
    requires known { Known store.old }
    requires group { IsGroup store.old.parts group.now }
    requires family { IsOfFamily group.now.principle }
    requires fits { AreAllowances store.old.parts group.now allowances.now }
    requires held { HeldIf (λ parts box. IsClosedFor parts group.now box) store.old since.now }
    ensures { Sweeps group.now (IsClosedFor store.old.parts group.now) pass.old store.old pass.new store.new }
{
    let plane = Plane::of(parts, group);
    match &group.principle {
        Principle::Tree => match daughters_since(store, group, plane.dim, since) {
            Some(daughters) => take_others(store, pass, &plane, true, daughters),
            None => take_tree(store, pass, &plane),
        },
        Principle::Dag => {
            let rooted = truth_of(group, 0);
            match daughters_since(store, group, plane.dim, since) {
                Some(daughters) => take_others(store, pass, &plane, rooted, daughters),
                None => take_dag(store, pass, &plane, rooted, truth_of(group, 1)),
            }
        }
        Principle::Valency => {
            let labels = label_count(parts, &plane);
            take_counts(store, pass, &plane, group, allowances, since, labels);
        }
        _ => {}
    }
}

impl Family for Graph {
    ghost holds = { IsOfFamily };

    ghost fits = { KeepsAllowances };

    fn of(alloc: Global, problem: &Problem, group: &Group) -> Result<Graph, OutOfMemory> {
        let allowances = match &group.principle {
            Principle::Valency => Allowances::of(alloc, problem.parts(), group)?,
            _ => Allowances::none(alloc),
        };
        Ok(Graph { allowances })
    }

    fn sweep(&self, store: &mut Store, pass: &mut Pass, group: &Group, since: &Option<Mark>) {
        let parts = store.problem().parts();
        take_all(store, pass, parts, group, &self.allowances, since);
    }

    fn stays() {}
}
