//! The verdicts on what a stream found last.

ghost use Rattle.std.specs.Prelude.{◌≡◌, IfOk};
ghost use Rattle.xdg_searches.specs.Broken.{IsJudged};
ghost use Rattle.xdg_searches.specs.Broken as spec;
ghost use Rattle.xdg_problem.specs.Analyses.{IsAnalysis};
ghost use Rattle.xdg_problem.specs.Vectors.{analysis_of};

use std::alloc::Global;
use xdg_base::OutOfMemory;
use xdg_judge::{Verdict, explain};
use xdg_problem::Problem;
use xdg_propcore::Propagator;
use xdg_split::last_analysis;
use xdg_stream::Stream;

/// Whether the verdict names a broken condition.
fn is_broken(verdict: &Verdict) -> bool
    ensures { result ≡ spec.is_broken verdict.now }
{
    match verdict {
        Verdict::Kept => false,
        Verdict::Broken { .. } => true,
    }
}

/// Whether one of the verdicts does.
fn has_broken(verdicts: &[Verdict]) -> bool
    ensures { result ≡ spec.has_broken verdicts.now }
{
    verdicts.iter().any(|verdict| is_broken(verdict))
}

/// Whether the analysis that a stream found last has a broken verdict.
pub(crate) fn is_last_broken<P: Propagator>(
    alloc: Global,
    problem: &Problem,
    stream: &Stream<'_, P>,
) -> Result<bool, OutOfMemory>
    requires given { stream.now.parts ≡ problem.now }
    requires fits { IsAnalysis problem.now (analysis_of problem.now stream.now.last) }
    ensures { IfOk result (IsJudged problem.now (analysis_of problem.now stream.now.last)) }
{
    let analysis = last_analysis(alloc, stream)?;
    let verdicts = explain(alloc, problem, &analysis)?;
    Ok(has_broken(verdicts.as_slice()))
}
