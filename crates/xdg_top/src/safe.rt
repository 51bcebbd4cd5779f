//! A run over devices that never fail.

ghost use Rattle.std.specs.Prelude.{◌≢◌};

use crate::running::run;
use std::alloc::Global;
use std::thread::Threads;
use xdg_inputs::Status;
use xdg_io::{NullSink, SafeShelf, SafeSource};

/// Runs the command that the words after the program's name are, over files and an input in memory, and drops what it writes. Whatever
/// the command, its status says neither that a read failed nor that a write did.
///
/// Called by no program: it states a law of `run`.
#[tactic(auto, using(crate::proofs::Safely::no_read, crate::proofs::Safely::no_write))]
pub fn run_safely<R: Threads + Sync>(
    rt: &R,
    alloc: Global,
    words: &[String],
    shelf: &mut SafeShelf,
    input: &mut SafeSource,
) -> Status
    ensures read { result ≢ Status.ReadFault }
    ensures written { result ≢ Status.WriteFault }
{
    run(rt, alloc, words, shelf, input, &mut NullSink::new())
}
