//! Searching, and printing what is found.

ghost use Rattle.std.specs.Prelude.{◌≡◌, ◌≢◌, ◌≤◌, ◌<◌, ◌^◌, [], None};
ghost use Rattle.std.specs.Option.{option_copied};
ghost use Rattle.xdg_split.specs.Printed.{IsOnePrint, last_line};
ghost use Rattle.xdg_split.specs.Written.{EndsLine, IsSome, Writes};
ghost use Rattle.xdg_io.specs.Rose.{Rose};
ghost use Rattle.xdg_io.specs.Texts.{WritesText};
ghost use Rattle.xdg_problem.specs.Problems.{IsProblem};
ghost use Rattle.xdg_propcore.specs.Uses.{AllStandIn};
ghost use Rattle.xdg_stream.specs.Streamed.{IsCharged, IsStart, start_vector};

use std::alloc::Global;
use xdg_facts::Ending;
use xdg_io::{Failed, Sink};
use xdg_problem::{Analysis, Problem};
use xdg_propcore::Propagator;
use xdg_stream::{Step, Stream};
use xdg_text::{Form, write_complete, write_first, write_parts, write_spent};

/// What printing the analyses of a sentence came to.
#[derive(Clone, Copy, Debug)]
pub enum Printed {
    /// The whole text was written: to the last analysis, to the last that was asked for, or to the end of the budget.
    Ended(Ending),
    /// The sink failed.
    Failed,
    /// Memory was wanting, and nothing was written.
    OutOfMemory,
}

/// Searches with a budget, and prints each solution when it is found, and then the last line. It begins right behind an analysis,
/// which need not be a solution, or with the first of all. Where a number of analyses is asked for, at least one, it stops behind so
/// many. All memory is taken before the first byte is written. The propagators stand for the principle uses of the sentence.
pub fn print_analyses<P: Propagator, K: Sink>(
    alloc: Global,
    problem: &Problem,
    props: &[P],
    budget: u64,
    after: Option<&Analysis>,
    first: Option<u64>,
    form: Form,
    sink: &mut K,
) -> Printed
    requires stand { AllStandIn P.stands props.now problem.now }
    requires fits { IsStart problem.now (option_copied after) }
    requires some { IsSome first }
    ensures written { Writes result form budget first problem.now (start_vector problem.now (option_copied after.entry)) (K.held sink.old) (K.held sink.new) }
    ensures one { IsOnePrint form budget first problem.now (start_vector problem.now (option_copied after.entry)) }
    ensures cause { result ≡ Printed.Failed → Rose (K.faults sink.old) (K.faults sink.new) }
    ensures lasting { K.faults sink.old ≤ K.faults sink.new }
    ensures quiet { result ≢ Printed.Failed → K.faults sink.new ≡ K.faults sink.old }
{
    let _parts = problem.parts();
    let Ok(mut stream) = Stream::start(alloc, problem, props, budget, after) else {
        return Printed::OutOfMemory;
    };
    print_found(problem, &mut stream, first, form, sink)
}

/// Prints what a stream that has just started finds.
fn print_found<P: Propagator, K: Sink>(
    problem: &Problem,
    stream: &mut Stream<'_, P>,
    first: Option<u64>,
    form: Form,
    sink: &mut K,
) -> Printed
    requires parts { IsProblem problem.now }
    requires some { IsSome first }
    requires given { stream.old.parts ≡ problem.now }
    requires fresh { stream.old.ended ≡ None }
    requires small { stream.old.budget < 2 ^ 64 }
    requires charged { IsCharged stream.old [] }
    ensures written { Writes result form stream.old.budget first problem.now stream.old.start (K.held sink.old) (K.held sink.new) }
    ensures cause { result ≡ Printed.Failed → Rose (K.faults sink.old) (K.faults sink.new) }
    ensures lasting { K.faults sink.old ≤ K.faults sink.new }
    ensures quiet { result ≢ Printed.Failed → K.faults sink.new ≡ K.faults sink.old }
{
    let mut count: u64 = 0;
    'draw: loop {
        match stream.advance() {
            Step::Found => {
                count += 1;
                let written = write_parts(
                    form,
                    problem,
                    count,
                    stream.entries(),
                    stream.attrs(),
                    stream.edges(),
                    sink,
                );
                if written.is_err() {
                    return Printed::Failed;
                }
                if first == Some(count) {
                    return print_last(Ending::First, count, sink);
                }
            }
            Step::End => return print_last(Ending::Complete, count, sink),
            Step::Spent => return print_last(Ending::Spent, count, sink),
        }
    }
}

/// Prints the last line behind so many analyses.
fn print_last<K: Sink>(ending: Ending, count: u64, sink: &mut K) -> Printed
    ensures written { EndsLine result ending (K.held sink.old) (K.held sink.new) (last_line ending count) }
    ensures cause { result ≡ Printed.Failed → Rose (K.faults sink.old) (K.faults sink.new) }
    ensures lasting { K.faults sink.old ≤ K.faults sink.new }
    ensures quiet { result ≢ Printed.Failed → K.faults sink.new ≡ K.faults sink.old }
{
    match write_last(ending, count, sink) {
        Ok(()) => Printed::Ended(ending),
        Err(Failed) => Printed::Failed,
    }
}

/// Writes the last line of a search behind so many analyses: `complete`, `first` or `spent`, and the number.
///
/// # Errors
///
/// The sink failed, and a front of the line was written.
pub fn write_last<K: Sink>(ending: Ending, count: u64, sink: &mut K) -> Result<(), Failed>
    ensures { WritesText result (K.held sink.old) (K.held sink.new) (K.faults sink.old) (K.faults sink.new) (last_line ending count) }
{
    match ending {
        Ending::Complete => write_complete(count, sink),
        Ending::First => write_first(count, sink),
        Ending::Spent => write_spent(count, sink),
    }
}
