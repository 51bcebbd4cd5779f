//! The family.

ghost use Rattle.xdg_propcore.specs.Families.{KeepsNothing};
ghost use Rattle.xdg_porder.specs.Family.{IsOfFamily};

use crate::lasting::rests;
use crate::reads::is_order;
use crate::sweep::{take_order, take_projective};
use std::alloc::Global;
use xdg_base::OutOfMemory;
use xdg_problem::{Group, Problem};
use xdg_propcore::{Family, Pass, UseProp};
use xdg_store::{Mark, Store};

/// The family of order and projectivity.
#[derive(Debug, Drop)]
pub struct Order;

/// The propagator of a use of order or projectivity.
pub type OrderProp = UseProp<Order>;

impl Family for Order {
    ghost holds = { IsOfFamily };

    ghost fits = { KeepsNothing };

    fn of(_alloc: Global, _problem: &Problem, _group: &Group) -> Result<Order, OutOfMemory> {
        Ok(Order)
    }

    fn sweep(&self, store: &mut Store, pass: &mut Pass, group: &Group, since: &Option<Mark>) {
        if is_order(group) {
            take_order(store, pass, group, since);
            return;
        }
        if rests(store, group, since) {
            return;
        }
        take_projective(store, pass, group);
    }

    fn stays() {}
}
