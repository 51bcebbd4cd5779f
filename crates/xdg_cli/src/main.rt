//! The program `xdg`: it gives `run` the words of the command line, the files, the standard input and the standard
//! output, and ends with the status that `run` answers.
#![tactic(auto)]

use std::alloc::Global;
use std::io::{Input, Print};
use std::process::ExitCode;
use std::rt::{Env, Files};
use std::thread::{Builder, Threads};
use std::{env, io};
use xdg_base::OutOfMemory;
use xdg_io::{FileShelf, StdinSource, StdoutSink};
use xdg_top::{Status, run};

/// The sizes of the stack, in bytes, the first of which the system gives is taken. A stack takes only as much memory as it is used. The types of
/// a grammar are walked by recursion, and a text has room for a million types inside one another: each takes about 1 KB.
const STACKS: [usize; 5] = [
    2_147_483_648,
    1_073_741_824,
    536_870_912,
    134_217_728,
    8_388_608,
];

/// The words after the program's name. Where one is not UTF-8 there are none, which is no command either.
fn command_words<R: Env + Alloc<A = Global>>(rt: &R) -> Result<Vec<String>, OutOfMemory> {
    match env::args(rt) {
        Ok(words) => words.skip(1).collect(rt.alloc()),
        Err(error) => match error.kind() {
            io::ErrorKind::InvalidData => Ok(Vec::new(rt.alloc())),
            _ => Err(OutOfMemory),
        },
    }
}

/// What the command of these words does, and how it ends.
fn status<R: Env + Files + Input + Print + Threads + Sync + Alloc<A = Global>>(rt: &R) -> Status {
    let Ok(words) = command_words(rt) else {
        return Status::OutOfMemory;
    };
    let mut shelf = FileShelf::new(rt);
    let mut input = StdinSource::new(rt);
    let mut out = StdoutSink::new(rt);
    run(rt, rt.alloc(), &words, &mut shelf, &mut input, &mut out)
}

fn main(rt: HostRuntime) -> ExitCode {
    for size in STACKS {
        match Builder::new()
            .stack_size(size)
            .spawn(&rt, move || status(&rt))
        {
            Ok(thread) => return ExitCode::from(thread.join(&rt).code()),
            Err(_) => {}
        }
    }
    ExitCode::from(Status::OutOfMemory.code())
}
