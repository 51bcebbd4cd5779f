//! Searching by branches, and printing what is found.

ghost use Rattle.std.specs.Prelude.{◌≡◌, ◌≢◌, ◌≤◌, ◌++◌, All, length};
ghost use Rattle.xdg_split.specs.Printed.{blocks, last_line};
ghost use Rattle.xdg_searches.specs.Branched.{CanBranch};
ghost use Rattle.xdg_searches.specs.Laws.{BranchedLaws};
ghost use Rattle.xdg_searches.specs.Written.{WritesBranches};
ghost use Rattle.xdg_io.specs.Rose.{Rose};
ghost use Rattle.xdg_io.specs.Texts.{WritesText};
ghost use Rattle.xdg_problem.specs.Analyses.{IsAnalysis};

use crate::searching::search;
use std::alloc::Global;
use std::thread::Threads;
use xdg_facts::Ending;
use xdg_io::{Failed, Sink};
use xdg_problem::{Analysis, Problem};
use xdg_split::{Printed, write_last};
use xdg_text::{Form, write_analysis};

/// Searches a sentence by the branches of its first word's entries, each with the whole budget, and then prints each solution that was
/// found, in their order, and the last line. Where a number of analyses is asked for, at least one, it prints so many. Four branches are
/// made and searched at a time, side by side. Nothing is written before all is found, and what is found is kept so long. The budget is 1
/// to 1,000,000,000 boxed prefixes.
pub fn print_branches<R: Threads + Sync, K: Sink>(
    rt: &R,
    alloc: Global,
    problem: &Problem,
    budget: u64,
    first: Option<u64>,
    form: Form,
    sink: &mut K,
) -> Printed
    requires { CanBranch budget first }
    ensures written { WritesBranches result form budget first problem.now (K.held sink.old) (K.held sink.new) }
    ensures laws { BranchedLaws form budget first problem.now }
    ensures cause { result ≡ Printed.Failed → Rose (K.faults sink.old) (K.faults sink.new) }
    ensures lasting { K.faults sink.old ≤ K.faults sink.new }
    ensures quiet { result ≢ Printed.Failed → K.faults sink.new ≡ K.faults sink.old }
{
    let _parts = problem.parts();
    let Ok(answer) = search(rt, alloc, problem, budget, first) else {
        return Printed::OutOfMemory;
    };
    let written = print_found(form, problem, answer.found.as_slice(), answer.ending, sink);
    if written.is_err() {
        return Printed::Failed;
    }
    Printed::Ended(answer.ending)
}

/// Prints analyses of a sentence, numbered from 1, and the last line behind them.
fn print_found<K: Sink>(
    form: Form,
    problem: &Problem,
    found: &[Analysis],
    ending: Ending,
    sink: &mut K,
) -> Result<(), Failed>
    requires { All (IsAnalysis problem.now) found.now }
    ensures { WritesText result (K.held sink.old) (K.held sink.new) (K.faults sink.old) (K.faults sink.new)
        (blocks form problem.now 1 found.now ++ last_line ending (length found.now)) }
{
    write_blocks(form, problem, found, sink)?;
    write_last(ending, found.len() as u64, sink)
}

/// Writes analyses of a sentence, numbered from 1.
#[tactic(auto, using(xdg_io::proofs::Parts::start))]
fn write_blocks<K: Sink>(
    form: Form,
    problem: &Problem,
    found: &[Analysis],
    sink: &mut K,
) -> Result<(), Failed>
    requires { All (IsAnalysis problem.now) found.now }
    ensures { WritesText result (K.held sink.old) (K.held sink.new) (K.faults sink.old) (K.faults sink.new) (blocks form problem.now 1 found.now) }
{
    for (place, analysis) in found.iter().enumerate() {
        write_analysis(form, problem, place as u64 + 1, analysis, sink)?;
    }
    Ok(())
}
