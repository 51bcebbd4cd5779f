//! Analysis texts are read line by line.

ghost use Rattle.std.specs.Prelude.{◌≡◌, [], ◌<◌, ◌+◌, ◌^◌, length, chars, OnOk, Result, IfOk};
ghost use Rattle.xdg_base.specs.declared.faults.Fault as faults;
ghost use Rattle.xdg_reading.specs.declared.texts.AnalysisText as trees;
ghost use Rattle.xdg_reading.specs.Gathered.{Adds, Answers};
ghost use Rattle.xdg_reading.specs.Texts.{Tells, IsAnswer};
ghost use Rattle.xdg_base.specs.Told.{Gives};
ghost use Rattle.xdg_base.specs.declared.faults.Stop.TheVariants as stops;

use crate::cursor::{Cursor, Why};
use crate::line::{Line, read_line};
use crate::refused::Refused;
use crate::stage::{Stage, has_ended, next};
use crate::texts::AnalysisText;
use std::alloc::Global;
use std::str;
use xdg_base::{Cause, Fault, List, OutOfMemory, Stop};

/// A text without lines.
fn empty(alloc: Global) -> AnalysisText
    ensures { result ≡ record { words = []; entries = []; attrs = []; edges = []; end = 0 } }
{
    AnalysisText {
        words: List::new(alloc),
        entries: List::new(alloc),
        attrs: List::new(alloc),
        edges: List::new(alloc),
        end: 0,
    }
}

/// Adds what a line says.
fn add(text: &mut AnalysisText, line: Line) -> Result<(), OutOfMemory>
    ensures { OnOk result (Adds text.old text.new line) }
{
    match line {
        Line::Word(_, word, entry) => {
            text.words.push(word)?;
            text.entries.push(entry)?;
        }
        Line::Attr(attr) => text.attrs.push(attr)?,
        Line::Edge(edge) => text.edges.push(edge)?,
        _ => {}
    }
    Ok(())
}

/// What the lines of a text say, or the first line that offends.
fn read_lines(alloc: Global, text: &str) -> Result<AnalysisText, Refused>
    requires { length text.now < 2 ^ 32 }
    ensures { Answers text.now result }
{
    let mut cursor = Cursor::new(text);
    let mut stage = Stage::Start;
    let mut read = empty(alloc);
    'lines: loop {
        let at = (text.len() - cursor.len()) as u32;
        let line = match read_line(alloc, &mut cursor, at) {
            Ok(line) => line,
            Err(Why::Memory) => return Err(Refused::Memory),
            Err(Why::Offends) => return Err(Refused::At(at)),
        };
        match next(stage, &line) {
            None => return Err(Refused::At(at)),
            Some(later) => {
                if has_ended(later) {
                    if cursor.len() == 0 {
                        read.end = at;
                        return Ok(read);
                    }
                    return Err(Refused::At((text.len() - cursor.len()) as u32));
                }
                add(&mut read, line)?;
                stage = later;
            }
        }
    }
}

/// What a text says, or its refusal.
#[tactic(auto, using(crate::proofs::Only::lines_told, crate::proofs::Only::line_told, crate::proofs::Only::bytes_told))]
fn read_bytes(alloc: Global, bytes: &[u8]) -> Result<AnalysisText, Stop>
    requires { length bytes.now < 2 ^ 32 }
    ensures { Tells bytes.now result }
{
    match str::from_utf8(bytes) {
        Ok(text) => match read_lines(alloc, text) {
            Ok(read) => Ok(read),
            Err(Refused::At(at)) => Err(Stop::Fault(Fault::at(Cause::NotAnalysis, at))),
            Err(Refused::Memory) => Err(Stop::OutOfMemory),
        },
        Err(error) => Err(Stop::Fault(Fault::at(Cause::BadUtf8, error.valid_up_to() as u32))),
    }
}

/// What an analysis text says, line by line. Nothing is asked here that needs a grammar. The refusals are
///
/// - [`Cause::BadUtf8`] at the first byte that belongs to no whole character, before all others;
/// - [`Cause::NotAnalysis`] at the start of the first line that offends, or behind the last byte where a line is missing.
///
/// A text whose first line is `xdg 2` is text 2, and every other one is text 1. Each line has one spelling: a number has no
/// leading zeros, a constant is a name where it can be one, a word is quoted, and one space stands between two words. A line
/// feed in a quoted text ends no line.
///
/// The time is linear in the length of the text.
#[tactic(auto, using(crate::proofs::Only::only_answer))]
pub fn read(alloc: Global, bytes: &[u8]) -> Result<AnalysisText, Stop>
    requires { length bytes.now < 2 ^ 32 }
    ensures tells { Tells bytes.now result }
    ensures only { (answer : Result trees.AnalysisText faults.Fault) → IsAnswer bytes.now answer → Gives answer result }
{
    read_bytes(alloc, bytes)
}
