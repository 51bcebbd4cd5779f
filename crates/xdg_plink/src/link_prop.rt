//! The family.

ghost use Rattle.xdg_propcore.specs.Families.{KeepsNothing};
ghost use Rattle.xdg_plink.specs.Family.{IsLinking};

use crate::near::near_since;
use crate::reach::table_for;
use crate::taking::take_all;
use crate::way::way_of;
use std::alloc::Global;
use xdg_base::OutOfMemory;
use xdg_problem::{Group, Problem, dim_of};
use xdg_propcore::{Family, Pass, UseProp};
use xdg_store::{Mark, Store};

/// The family of the linking principles.
#[derive(Debug, Drop)]
pub struct Link;

/// The propagator of a linking principle use.
pub type LinkProp = UseProp<Link>;

impl Family for Link {
    ghost holds = { IsLinking };

    ghost fits = { KeepsNothing };

    fn of(_alloc: Global, _problem: &Problem, _group: &Group) -> Result<Link, OutOfMemory> {
        Ok(Link)
    }

    fn sweep(&self, store: &mut Store, pass: &mut Pass, group: &Group, since: &Option<Mark>) {
        let near = near_since(store, group, since);
        if near.is_empty() {
            return;
        }
        let table = table_for(store, dim_of(group, 1), way_of(&group.principle));
        take_all(store, pass, group, &near, &table);
    }

    fn stays() {}
}
