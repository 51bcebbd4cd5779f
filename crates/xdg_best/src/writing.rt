//! The text of a search for the cheapest analysis.

ghost use Rattle.std.specs.Prelude.{◌++◌};
ghost use Rattle.xdg_best.specs.CheapestTexts.{answer_text, cost_line, found_text, last_text};
ghost use Rattle.xdg_io.specs.Texts.{WritesText};
ghost use Rattle.xdg_problem.specs.Analyses.{IsAnalysis};
ghost use Rattle.xdg_stream.specs.Streamed.{IsStart};
ghost use Rattle.xdg_text.specs.Blocks.{block};

use crate::rounds::BestAnswer;
use xdg_io::{Failed, Sink};
use xdg_problem::{Analysis, Problem};
use xdg_text::{Word, write, write_line};

/// Writes an analysis as block 1, and its cost.
fn write_find<K: Sink>(
    problem: &Problem,
    analysis: &Analysis,
    cost: u64,
    sink: &mut K,
) -> Result<(), Failed>
    requires { IsAnalysis problem.now analysis.now }
    ensures { WritesText result (K.held sink.old) (K.held sink.new) (K.faults sink.old) (K.faults sink.new)
        (block problem.now 1 analysis.now ++ cost_line cost) }
{
    write(problem, 1, analysis, sink)?;
    write_line("cost", &[Word::Number(cost)], sink)
}

/// Writes what was found, if something was.
fn write_found<K: Sink>(problem: &Problem, answer: &BestAnswer, sink: &mut K) -> Result<(), Failed>
    requires { IsStart problem.now answer.now.found }
    ensures { WritesText result (K.held sink.old) (K.held sink.new) (K.faults sink.old) (K.faults sink.new) (found_text problem.now answer.now) }
{
    match &answer.found {
        None => Ok(()),
        Some(analysis) => write_find(problem, analysis, answer.cost, sink),
    }
}

/// Writes the line that says that the budget was spent, or that there is no analysis; where neither is so, nothing.
fn write_last<K: Sink>(answer: &BestAnswer, sink: &mut K) -> Result<(), Failed>
    ensures { WritesText result (K.held sink.old) (K.held sink.new) (K.faults sink.old) (K.faults sink.new) (last_text answer.now) }
{
    if answer.spent {
        return write_line("spent", &[], sink);
    }
    match &answer.found {
        None => write_line("none", &[], sink),
        Some(_) => Ok(()),
    }
}

/// Writes what a search for the cheapest analysis came to.
pub(crate) fn write_answer<K: Sink>(
    problem: &Problem,
    answer: &BestAnswer,
    sink: &mut K,
) -> Result<(), Failed>
    requires { IsStart problem.now answer.now.found }
    ensures { WritesText result (K.held sink.old) (K.held sink.new) (K.faults sink.old) (K.faults sink.new) (answer_text problem.now answer.now) }
{
    write_found(problem, answer, sink)?;
    write_last(answer, sink)
}
