//! The program `xdg_rows`: it reads a table of rows from the standard input, does what each row says over files, an input and
//! an output in memory, and prints how many rows of each group give what they want, and each row that doesn't.
//!
//! `rows/README.md` says how a table is written.
#![tactic(auto)]

mod content;
mod counted;
mod repeated;
mod row;
mod running;
mod table;
mod telling;
mod trial;

use crate::table::Table;
use std::alloc::Global;
use std::io;
use std::thread::Threads;
use xdg_base::OutOfMemory;

/// What is told of the rows of a table.
fn told<R: Threads + Sync>(rt: &R, alloc: Global, text: &str) -> Result<String, OutOfMemory> {
    let mut table = Table::new(alloc);
    for line in text.split('\n') {
        table.read(rt, alloc, line)?;
    }
    table.into_told(rt, alloc)
}

fn main(rt: HostRuntime) -> io::Result<()> {
    let text = io::read_to_string(rt.alloc(), rt.reader())?;
    let told = told(&rt, rt.alloc(), text.as_str())?;
    rt.print(told.as_str())
}
