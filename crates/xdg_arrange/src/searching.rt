//! The search of an arrangement, printed as analyses are found.

ghost use Rattle.std.specs.Prelude.{◌≡◌, ◌≢◌, ◌≤◌, ◌<◌, ◌∷◌, ◌==◌, ◌^◌, [], None, codes, cond, decimal, map, IfOk};
ghost use Rattle.xdg_arrange.specs.Found.{IsOneFind, Writes, arrangement_line, led_block};
ghost use Rattle.xdg_io.specs.Rose.{Rose};
ghost use Rattle.xdg_io.specs.Texts.{WritesText};
ghost use Rattle.xdg_problem.specs.Analyses.{IsAnalysis};
ghost use Rattle.xdg_problem.specs.Problems.{IsProblem};
ghost use Rattle.xdg_propcore.specs.Uses.{AllStandIn};
ghost use Rattle.xdg_stream.specs.Streamed.{IsCharged};
ghost use Rattle.xdg_text.specs.Constants.{quoted};
ghost use Rattle.xdg_text.specs.Lines.{line};
ghost use Rattle.xdg_text.specs.Words.{word_text};

use std::alloc::Global;
use xdg_base::{EntryNo, OutOfMemory};
use xdg_engine::props;
use xdg_io::{Failed, Sink};
use xdg_problem::{Edge, Problem, SentenceWord};
use xdg_propcore::Propagator;
use xdg_stream::{Step, Stream};
use xdg_text::{Form, Word, write_line, write_parts};

/// What the search of an arrangement came to.
#[derive(Clone, Copy, Debug)]
pub(crate) enum Searched {
    /// It found all analyses, so many, and they are written.
    Whole(u64),
    /// The budget was spent, and the analyses that were found before, so many, are written.
    Spent(u64),
    /// The sink failed.
    Failed,
    /// Memory was wanting, and nothing was written.
    OutOfMemory,
}

/// The words of the line that leads the blocks of an arrangement.
fn lead_of<'a>(
    alloc: Global,
    number: u64,
    words: &'a [SentenceWord],
) -> Result<Vec<Word<'a>>, OutOfMemory>
    ensures { IfOk result (λ made. map word_text made.items ≡ decimal number ∷ map (λ word. quoted word.text) words.entry.now) }
{
    let mut made = Vec::new(alloc);
    made.push(Word::Number(number))?;
    for word in words {
        made.push(Word::Quoted(word.text.as_str()))?;
    }
    Ok(made)
}

/// Writes the line of an arrangement before its first analysis, and nothing before another.
fn write_lead<K: Sink>(lead: &[Word], count: u64, out: &mut K) -> Result<(), Failed>
    ensures { WritesText result (K.held out.old) (K.held out.new) (K.faults out.old) (K.faults out.new)
        (cond (count == 1) (line (codes "arrangement") (map word_text lead.now)) []) }
{
    if count == 1 {
        write_line("arrangement", lead, out)
    } else {
        Ok(())
    }
}

/// Writes an analysis with its number, and before the first one the line of its arrangement.
fn write_found<K: Sink>(
    problem: &Problem,
    lead: &[Word],
    count: u64,
    entries: &[EntryNo],
    attrs: &[u16],
    edges: &[Edge],
    out: &mut K,
) -> Result<(), Failed>
    requires { IsAnalysis problem.now (record { entries = entries.now; attrs = attrs.now; edges = edges.now }) }
    ensures { WritesText result (K.held out.old) (K.held out.new) (K.faults out.old) (K.faults out.new)
        (led_block (line (codes "arrangement") (map word_text lead.now)) problem.now count
        (record { entries = entries.now; attrs = attrs.now; edges = edges.now })) }
{
    write_lead(lead, count, out)?;
    write_parts(Form::One, problem, count, entries, attrs, edges, out)
}

/// Prints what a stream that has just started finds.
fn print_found<P: Propagator, K: Sink>(
    problem: &Problem,
    lead: &[Word],
    stream: &mut Stream<'_, P>,
    out: &mut K,
) -> Searched
    requires parts { IsProblem problem.now }
    requires given { stream.old.parts ≡ problem.now }
    requires begun { stream.old.start ≡ [] }
    requires fresh { stream.old.ended ≡ None }
    requires small { stream.old.budget < 2 ^ 64 }
    requires charged { IsCharged stream.old [] }
    ensures written { Writes result stream.old.budget problem.now (line (codes "arrangement") (map word_text lead.now)) (K.held out.old) (K.held out.new) }
    ensures cause { result ≡ Searched.Failed → Rose (K.faults out.old) (K.faults out.new) }
    ensures lasting { K.faults out.old ≤ K.faults out.new }
    ensures quiet { result ≢ Searched.Failed → K.faults out.new ≡ K.faults out.old }
{
    let mut count: u64 = 0;
    'draw: loop {
        match stream.advance() {
            Step::Found => {
                count += 1;
                let written = write_found(
                    problem,
                    lead,
                    count,
                    stream.entries(),
                    stream.attrs(),
                    stream.edges(),
                    out,
                );
                if written.is_err() {
                    return Searched::Failed;
                }
            }
            Step::End => {
                return Searched::Whole(count);
            }
            Step::Spent => {
                return Searched::Spent(count);
            }
        }
    }
}

/// Searches an arrangement by propagators that stand for its principle uses.
#[tactic(auto, using(crate::proofs::Finding::one_find))]
fn print_searched<P: Propagator, K: Sink>(
    alloc: Global,
    problem: &Problem,
    props: &[P],
    budget: u64,
    number: u64,
    out: &mut K,
) -> Searched
    requires stand { AllStandIn P.stands props.now problem.now }
    ensures written { Writes result budget problem.now (arrangement_line number problem.now.words) (K.held out.old) (K.held out.new) }
    ensures one { result ≢ Searched.OutOfMemory → IsOneFind budget problem.now }
    ensures cause { result ≡ Searched.Failed → Rose (K.faults out.old) (K.faults out.new) }
    ensures lasting { K.faults out.old ≤ K.faults out.new }
    ensures quiet { result ≢ Searched.Failed → K.faults out.new ≡ K.faults out.old }
{
    let words = problem.parts().words.as_slice();
    let Ok(lead) = lead_of(alloc, number, words) else {
        return Searched::OutOfMemory;
    };
    let Ok(mut stream) = Stream::start(alloc, problem, props, budget, None) else {
        return Searched::OutOfMemory;
    };
    print_found(problem, lead.as_slice(), &mut stream, out)
}

/// Searches an arrangement with a budget of its own, and prints each analysis when it is found, the first one behind a line with the
/// arrangement's number and words. All memory is taken before the first byte is written.
pub(crate) fn print_arrangement<K: Sink>(
    alloc: Global,
    problem: &Problem,
    budget: u64,
    number: u64,
    out: &mut K,
) -> Searched
    ensures written { Writes result budget problem.now (arrangement_line number problem.now.words) (K.held out.old) (K.held out.new) }
    ensures one { result ≢ Searched.OutOfMemory → IsOneFind budget problem.now }
    ensures cause { result ≡ Searched.Failed → Rose (K.faults out.old) (K.faults out.new) }
    ensures lasting { K.faults out.old ≤ K.faults out.new }
    ensures quiet { result ≢ Searched.Failed → K.faults out.new ≡ K.faults out.old }
{
    match props(alloc, problem) {
        Ok(propagators) => {
            print_searched(alloc, problem, propagators.as_slice(), budget, number, out)
        }
        Err(OutOfMemory) => Searched::OutOfMemory,
    }
}
