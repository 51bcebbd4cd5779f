//! The family.

ghost use Rattle.xdg_propcore.specs.Families.{KeepsNothing};
ghost use Rattle.xdg_pmulti.specs.Family.{IsOfFamily};

use crate::barriers::take_barriers;
use crate::climbing::take_climbing;
use crate::reads::is_climbing;
use std::alloc::Global;
use xdg_base::OutOfMemory;
use xdg_problem::{Group, Problem};
use xdg_propcore::{Family, Pass, UseProp};
use xdg_store::{Mark, Store};

/// The family of climbing and barriers.
#[derive(Debug, Drop)]
pub struct Multi;

/// The propagator of a use of climbing or of barriers.
pub type MultiProp = UseProp<Multi>;

impl Family for Multi {
    ghost holds = { IsOfFamily };

    ghost fits = { KeepsNothing };

    fn of(_alloc: Global, _problem: &Problem, _group: &Group) -> Result<Multi, OutOfMemory> {
        Ok(Multi)
    }

    fn sweep(&self, store: &mut Store, pass: &mut Pass, group: &Group, _since: &Option<Mark>) {
        if is_climbing(group) {
            take_climbing(store, pass, group);
            return;
        }
        take_barriers(store, pass, group);
    }

    fn stays() {}
}
