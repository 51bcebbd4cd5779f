//! Blocks in memory.

ghost use Rattle.std.specs.Prelude.{◌≡◌, ◌++◌, OnOk, OnErr};
ghost use Rattle.xdg_problem.specs.Analyses.{IsAnalysis};
ghost use Rattle.xdg_text.specs.Blocks.{block};

use crate::blocks::write;
use crate::kept::Kept;
use std::alloc::Global;
use xdg_base::{Bytes, OutOfMemory};
use xdg_problem::{Analysis, Problem};

/// Adds the bytes of a block, as [`write`] writes them. On want of memory the bytes stay as they were.
///
/// No command calls it: it is for those who keep texts in memory.
pub fn push(
    alloc: Global,
    bytes: &mut Bytes,
    problem: &Problem,
    number: u64,
    analysis: &Analysis,
) -> Result<(), OutOfMemory>
    requires { IsAnalysis problem.now analysis.now }
    ensures ok { OnOk result (bytes.new ≡ bytes.old ++ block problem.now number analysis.now) }
    ensures err { OnErr result (bytes.new ≡ bytes.old) }
{
    let mut sink = Kept::new(alloc);
    match write(problem, number, analysis, &mut sink) {
        Ok(()) => {
            let written = sink.into_bytes();
            bytes.extend(written.as_slice())?;
            Ok(())
        }
        Err(_) => Err(OutOfMemory),
    }
}
