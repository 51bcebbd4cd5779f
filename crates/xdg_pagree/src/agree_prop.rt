//! The family.

ghost use Rattle.xdg_propcore.specs.Families.{KeepsNothing};
ghost use Rattle.xdg_pagree.specs.Family.{IsOfFamily};

use crate::nodes::sweep_nodes;
use crate::touched::gather_lost;
use std::alloc::Global;
use xdg_base::OutOfMemory;
use xdg_problem::{Group, Problem};
use xdg_propcore::{Family, Pass, Touched, UseProp};
use xdg_store::{Mark, Store};

/// The family of agr, agreement and government.
#[derive(Debug, Drop)]
pub struct Agree;

/// The propagator of a use of agr, agreement or government.
pub type AgreeProp = UseProp<Agree>;

impl Family for Agree {
    ghost holds = { IsOfFamily };

    ghost fits = { KeepsNothing };

    fn of(_alloc: Global, _problem: &Problem, _group: &Group) -> Result<Agree, OutOfMemory> {
        Ok(Agree)
    }

    fn sweep(&self, store: &mut Store, pass: &mut Pass, group: &Group, since: &Option<Mark>) {
        let mut touched = Touched::none();
        gather_lost(&mut touched, store, group, since);
        sweep_nodes(store, pass, group, &touched);
    }

    fn stays() {}
}
