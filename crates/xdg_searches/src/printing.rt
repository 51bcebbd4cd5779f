//! Searching a problem, and printing what is found.

ghost use Rattle.std.specs.Prelude.{◌≡◌, ◌≢◌, ◌≤◌, ◌⊎◌};
ghost use Rattle.std.specs.Option.{option_copied};
ghost use Rattle.xdg_split.specs.Written.{IsSome};
ghost use Rattle.xdg_searches.specs.Branched.{CanBranch};
ghost use Rattle.xdg_io.specs.Rose.{Rose};
ghost use Rattle.xdg_inputs.specs.Runs.{Leaves};
ghost use Rattle.xdg_searches.specs.Outcomes.{Parsed, Searched};
ghost use Rattle.xdg_searches.specs.Outcomes as spec;
ghost use Rattle.xdg_stream.specs.Streamed.{IsStart, start_vector};

use crate::branched::search_branches;
use std::alloc::Global;
use std::thread::Threads;
use xdg_command::ParseOptions;
use xdg_engine::props;
use xdg_facts::Ending;
use xdg_inputs::Status;
use xdg_io::Sink;
use xdg_problem::{Analysis, Problem};
use xdg_split::{Printed, print_analyses};
use xdg_text::Form;

/// The status of a search that ended so.
pub(crate) fn status_of(ending: Ending) -> Status
    ensures is { result ≡ spec.status_of ending }
    ensures ends { (result ≡ Status.Done) ⊎ (result ≡ Status.Spent) }
{
    match ending {
        Ending::Complete => Status::Done,
        Ending::First => Status::Done,
        Ending::Spent => Status::Spent,
    }
}

/// Makes the propagators of a sentence, and prints its analyses from behind a given one on, or from the first of all.
pub(crate) fn search<K: Sink>(
    alloc: Global,
    problem: &Problem,
    after: Option<&Analysis>,
    budget: u64,
    first: Option<u64>,
    form: Form,
    out: &mut K,
) -> Status
    requires fits { IsStart problem.now (option_copied after) }
    requires some { IsSome first }
    ensures leaves { Leaves (Searched form budget first problem.now (start_vector problem.now (option_copied after.entry))) result (K.held out.old)
        (K.held out.new) }
    ensures write_fault { result ≡ Status.WriteFault → Rose (K.faults out.old) (K.faults out.new) }
    ensures out_lasting { K.faults out.old ≤ K.faults out.new }
    ensures out_quiet { result ≢ Status.WriteFault → K.faults out.new ≡ K.faults out.old }
    ensures ends { (result ≡ Status.Done) ⊎ ((result ≡ Status.Spent) ⊎ ((result ≡ Status.WriteFault) ⊎ (result ≡ Status.OutOfMemory))) }
{
    let Ok(propagators) = props(alloc, problem) else {
        return Status::OutOfMemory;
    };
    match print_analyses(
        alloc,
        problem,
        propagators.as_slice(),
        budget,
        after,
        first,
        form,
        out,
    ) {
        Printed::Ended(ending) => status_of(ending),
        Printed::Failed => Status::WriteFault,
        Printed::OutOfMemory => Status::OutOfMemory,
    }
}

/// Prints the analyses of a sentence from the first of all on, searched as is asked.
pub(crate) fn search_asked<R: Threads + Sync, K: Sink>(
    rt: &R,
    alloc: Global,
    options: &ParseOptions,
    problem: &Problem,
    out: &mut K,
) -> Status
    requires range { CanBranch options.now.budget options.now.first }
    ensures leaves { Leaves (Parsed options.now problem.now) result (K.held out.old) (K.held out.new) }
    ensures write_fault { result ≡ Status.WriteFault → Rose (K.faults out.old) (K.faults out.new) }
    ensures out_lasting { K.faults out.old ≤ K.faults out.new }
    ensures out_quiet { result ≢ Status.WriteFault → K.faults out.new ≡ K.faults out.old }
    ensures ends { (result ≡ Status.Done) ⊎ ((result ≡ Status.Spent) ⊎ ((result ≡ Status.WriteFault) ⊎ (result ≡ Status.OutOfMemory))) }
{
    let (budget, first, form) = (options.budget, options.first, options.text);
    if options.split {
        return search_branches(rt, alloc, problem, budget, first, form, out);
    }
    search(alloc, problem, None, budget, first, form, out)
}
