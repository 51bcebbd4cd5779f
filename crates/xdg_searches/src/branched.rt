//! The search by branches.

ghost use Rattle.std.specs.Prelude.{◌≡◌, ◌≢◌, ◌≤◌, ◌⊎◌};
ghost use Rattle.xdg_searches.specs.Branched.{CanBranch};
ghost use Rattle.xdg_io.specs.Rose.{Rose};
ghost use Rattle.xdg_inputs.specs.Runs.{Leaves};
ghost use Rattle.xdg_searches.specs.Outcomes.{SearchedBranches};

use crate::branch_printing::print_branches;
use crate::printing::status_of;
use std::alloc::Global;
use std::thread::Threads;
use xdg_inputs::Status;
use xdg_io::Sink;
use xdg_problem::Problem;
use xdg_split::Printed;
use xdg_text::Form;

/// Prints the analyses of a sentence, searched by the branches of its first word's entries.
pub(crate) fn search_branches<R: Threads + Sync, K: Sink>(
    rt: &R,
    alloc: Global,
    problem: &Problem,
    budget: u64,
    first: Option<u64>,
    form: Form,
    out: &mut K,
) -> Status
    requires { CanBranch budget first }
    ensures leaves { Leaves (SearchedBranches form budget first problem.now) result (K.held out.old) (K.held out.new) }
    ensures write_fault { result ≡ Status.WriteFault → Rose (K.faults out.old) (K.faults out.new) }
    ensures out_lasting { K.faults out.old ≤ K.faults out.new }
    ensures out_quiet { result ≢ Status.WriteFault → K.faults out.new ≡ K.faults out.old }
    ensures ends { (result ≡ Status.Done) ⊎ ((result ≡ Status.Spent) ⊎ ((result ≡ Status.WriteFault) ⊎ (result ≡ Status.OutOfMemory))) }
{
    match print_branches(rt, alloc, problem, budget, first, form, out) {
        Printed::Ended(ending) => status_of(ending),
        Printed::Failed => Status::WriteFault,
        Printed::OutOfMemory => Status::OutOfMemory,
    }
}
