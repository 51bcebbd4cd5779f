//! The analysis that a text shows.

ghost use Rattle.std.specs.Prelude.{◌≡◌, ◌<◌, length, map, Result};
ghost use Rattle.xdg_base.specs.Told as told;
ghost use Rattle.xdg_base.specs.declared.faults.Fault as faults;
ghost use Rattle.xdg_base.specs.declared.faults.Stop.TheVariants as stops;
ghost use Rattle.xdg_base.specs.declared.faults.Cause.TheVariants as causes;
ghost use Rattle.xdg_problem.specs.declared.analysis.Analysis as analyses;
ghost use Rattle.xdg_problem.specs.Problems.{IsProblem};
ghost use Rattle.xdg_reading.specs.Fits.{Tells, IsAnswer, behind_attrs};
ghost use Rattle.xdg_reading.specs.Fits as answers;
ghost use Rattle.xdg_reading.specs.Fitted.{fitted, Gives};

use crate::attrs::said_values;
use crate::edges::said_edges;
use crate::refused::Refused;
use crate::slots::slots;
use crate::texts::AnalysisText;
use crate::word_entries::words_fault;
use std::alloc::Global;
use xdg_base::{Cause, Fault, List, Stop};
use xdg_problem::{Analysis, Parts, Problem};

/// Where the line behind the last attribute begins.
fn behind_attrs(text: &AnalysisText) -> u32
    ensures { result ≡ behind_attrs text.now text.now.edges }
{
    match text.edges.as_slice().split_first() {
        Some((line, _)) => line.at,
        None => text.end,
    }
}

/// What the lines say, or the first that offends.
#[tactic(auto, unfolding(crate::specs::Fitted::fitted))]
fn fitted(alloc: Global, parts: &Parts, text: &AnalysisText) -> Result<Analysis, Refused>
    requires problem { IsProblem parts.now }
    requires words { length parts.now.words ≡ length text.now.words }
    requires entries { length text.now.entries ≡ length text.now.words }
    ensures { Gives (fitted parts.now text.now) result }
{
    let fault = words_fault(
        parts.candidates.as_slice(),
        text.words.as_slice(),
        text.entries.as_slice(),
    );
    if let Some(at) = fault {
        return Err(Refused::At(at));
    }
    let slots = slots(alloc, parts.words.len(), parts.dims.as_slice())?;
    let attrs = said_values(
        alloc,
        slots.as_slice(),
        text.attrs.as_slice(),
        behind_attrs(text),
    )?;
    let edges = said_edges(alloc, parts, text.edges.as_slice())?;
    let entries = List::from_slice(alloc, text.entries.as_slice())?;
    Ok(Analysis {
        entries,
        attrs,
        edges,
    })
}

/// The analysis of the problem's sentence whose lines are those of the text.
///
/// Every other text is refused by [`Cause::NotAnalysis`] at the start of the first line that offends: each entry is one of its
/// word's, the lines of attributes are those of the problem in their order with one of their values, and the edges stand at
/// places of the problem and rise strictly. Where a line of an attribute is missing, the line in its place offends.
///
/// The time is linear in the number of lines, each of which is compared with the names and the values of the problem.
pub fn fit(alloc: Global, problem: &Problem, text: &AnalysisText) -> Result<Analysis, Stop>
    requires words { map (λ word. word.text) text.now.words ≡ map (λ word. word.text) problem.now.words }
    requires entries { length text.now.entries ≡ length text.now.words }
    ensures tells { Tells problem.now text.now result }
    ensures only { (answer : Result analyses.Analysis faults.Fault) → IsAnswer problem.now text.now answer → told.Gives answer result }
{
    match fitted(alloc, problem.parts(), text) {
        Ok(analysis) => Ok(analysis),
        Err(Refused::Memory) => Err(Stop::OutOfMemory),
        Err(Refused::At(at)) => Err(Stop::Fault(Fault::at(Cause::NotAnalysis, at))),
    }
}
