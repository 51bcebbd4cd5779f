//! What order takes, and what projectivity takes.

ghost use Rattle.std.specs.Prelude.{◌≡◌, true};
ghost use Rattle.xdg_problem.specs.declared.parts.Principle.TheVariants as principles;
ghost use Rattle.xdg_rules.specs.Rules.{FailsTest, IsClosedFor};
ghost use Rattle.xdg_propcore.specs.Standing.{HeldIf};
ghost use Rattle.xdg_propcore.specs.Sweeps.{Sweeps};
ghost use Rattle.xdg_problem.specs.Arguments.{truth_of};
ghost use Rattle.xdg_porder.specs.Items.{AreOthersDone, IsOrdering, IsReady};

use crate::across::take_across;
use crate::failing::fails_test;
use crate::sides::take_nodes;
use xdg_graph::{Which, note_above};
use xdg_nodeset::NodeSet;
use xdg_problem::{Group, dim_of, truth_of};
use xdg_propcore::{Pass, Touched};
use xdg_store::{Mark, Store};

/// Takes all, where yields are taken along and a test is decided and fails.
fn take_failing(store: &mut Store, pass: &mut Pass, group: &Group)
    requires { IsOrdering group.now store.old }
    ensures { Sweeps group.now (λ box. truth_of group.now.truths 0 ≡ true → FailsTest store.old.parts group.now box → ⊥) pass.old store.old pass.new store.new }
{
    if !truth_of(group, 0) {
        return;
    }
    if !fails_test(store, group) {
        return;
    }
    pass.fail(store);
}

/// The nodes at which order may have something to take, where it was still at a mark, if there is one.
fn touched_since(store: &Store, group: &Group, since: &Option<Mark>) -> NodeSet
    requires at { IsOrdering group.now store.now }
    requires held { HeldIf (λ parts box. IsClosedFor parts group.now box) store.now since.now }
    ensures { AreOthersDone result store.now.parts group.now store.now.now }
{
    match *since {
        Some(mark) => {
            let mut touched = Touched::none();
            touched.gather(store, mark, dim_of(group, 0));
            touched.mothers.union(&touched.attrs)
        }
        None => Touched::all().mothers,
    }
}

/// Takes what an order takes.
pub(crate) fn take_order(store: &mut Store, pass: &mut Pass, group: &Group, since: &Option<Mark>)
    requires at { IsOrdering group.now store.old }
    requires held { HeldIf (λ parts box. IsClosedFor parts group.now box) store.old since.now }
    ensures { Sweeps group.now (IsClosedFor store.old.parts group.now) pass.old store.old pass.new store.new }
{
    let touched = touched_since(store, group, since);
    take_nodes(store, pass, group, touched);
    take_failing(store, pass, group);
}

/// Takes what a projectivity takes.
pub(crate) fn take_projective(store: &mut Store, pass: &mut Pass, group: &Group)
    requires ready { IsReady group.now store.old }
    requires projective { group.now.principle ≡ principles.Projectivity }
    ensures { Sweeps group.now (IsClosedFor store.old.parts group.now) pass.old store.old pass.new store.new }
{
    let mut table = [NodeSet::empty(); 128];
    note_above(&mut table, store, Which::May, dim_of(group, 0));
    take_across(store, pass, group, &table);
}
