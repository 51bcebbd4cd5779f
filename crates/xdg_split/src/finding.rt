//! The analyses that a stream finds.

ghost use Rattle.std.specs.Prelude.{◌≡◌, ◌<◌, ◌^◌, ◌++◌, [], ◌∷◌, None, IfOk, OnOk};
ghost use Rattle.xdg_split.specs.Written.{IsSome};
ghost use Rattle.xdg_problem.specs.Vectors.{analysis_of};
ghost use Rattle.xdg_split.specs.Finds.{AreFound};
ghost use Rattle.xdg_stream.specs.Streamed.{IsCharged};

use crate::found::Found;
use std::alloc::Global;
use xdg_base::{List, OutOfMemory};
use xdg_facts::Ending;
use xdg_problem::Analysis;
use xdg_propcore::Propagator;
use xdg_stream::{Step, Stream};

/// The analysis that a stream found last, in memory of its own.
#[tactic(auto, using(crate::proofs::FoundSoFar::analysis_is))]
pub fn last_analysis<P: Propagator>(
    alloc: Global,
    stream: &Stream<'_, P>,
) -> Result<Analysis, OutOfMemory>
    ensures { IfOk result (λ made. made ≡ analysis_of stream.now.parts stream.now.last) }
{
    let entries = List::from_slice(alloc, stream.entries())?;
    let attrs = List::from_slice(alloc, stream.attrs())?;
    let edges = List::from_slice(alloc, stream.edges())?;
    Ok(Analysis {
        entries,
        attrs,
        edges,
    })
}

/// Keeps the analysis that a stream found last, behind others.
fn keep_last<P: Propagator>(
    alloc: Global,
    stream: &Stream<'_, P>,
    found: &mut Vec<Analysis>,
) -> Result<(), OutOfMemory>
    ensures { OnOk result (found.new.items ≡ found.old.items ++ analysis_of stream.now.parts stream.now.last ∷ []) }
{
    let analysis = last_analysis(alloc, stream)?;
    found.push(analysis)?;
    Ok(())
}

/// Keeps what a stream finds that has just started, until as many are found as are wanted.
pub(crate) fn find<P: Propagator>(
    alloc: Global,
    stream: &mut Stream<'_, P>,
    first: Option<u64>,
) -> Result<Found, OutOfMemory>
    requires some { IsSome first }
    requires begun { stream.old.start ≡ [] }
    requires fresh { stream.old.ended ≡ None }
    requires small { stream.old.budget < 2 ^ 64 }
    requires charged { IsCharged stream.old [] }
    ensures { IfOk result (λ found. AreFound stream.old.parts stream.old.budget first found.ending found.found.items) }
{
    let mut found = Vec::new(alloc);
    'draw: loop {
        match stream.advance() {
            Step::Found => {
                keep_last(alloc, stream, &mut found)?;
                if first == Some(found.len() as u64) {
                    return Ok(Found {
                        found,
                        ending: Ending::First,
                    });
                }
            }
            Step::End => {
                return Ok(Found {
                    found,
                    ending: Ending::Complete,
                });
            }
            Step::Spent => {
                return Ok(Found {
                    found,
                    ending: Ending::Spent,
                });
            }
        }
    }
}
