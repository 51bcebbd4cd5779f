//! What is told of rows that don't give what they want.

use crate::row::Row;
use crate::running::{Difference, Outcome};
use std::str;
use xdg_base::OutOfMemory;

/// How many lines of a text are shown before and behind the first one that differs.
const AROUND: usize = 12;

/// Adds a line of bytes, with marks in place of those that are no characters to be shown.
fn tell_line(told: &mut String, line: &[u8]) -> Result<(), OutOfMemory> {
    told.push_str("  | ")?;
    match str::from_utf8(line) {
        Ok(text) => told.push_str(text)?,
        Err(_) => {
            for byte in line {
                if (32..127).contains(byte) {
                    told.push(char::from(*byte))?;
                } else {
                    write!(told, "\\x{:02x}", *byte)?;
                }
            }
        }
    }
    told.push('\n')
}

/// The number of the first line, from 0, in which two texts differ.
fn first_line_apart(one: &[u8], other: &[u8]) -> usize {
    let mut line: usize = 0;
    for (byte, same) in one.iter().zip(other.iter()) {
        if *byte != *same {
            break;
        }
        if *byte == b'\n' {
            line = line.saturating_add(1);
        }
    }
    line
}

/// Adds the status and the text of an outcome, of which no more than the lines around a given one.
fn tell_outcome(told: &mut String, outcome: &Outcome, around: usize) -> Result<(), OutOfMemory> {
    let status = outcome.status;
    let size = outcome.bytes.len();
    writeln!(told, " status {status}, {size} bytes")?;
    let first = around.saturating_sub(AROUND);
    for line in outcome
        .bytes
        .as_slice()
        .split(|byte| *byte == b'\n')
        .skip(first)
        .take(2 * AROUND)
    {
        tell_line(told, line)?;
    }
    Ok(())
}

/// Adds which row it is: its group, the line at which it begins, its name and the words of its command.
pub fn tell_row(told: &mut String, group: &str, row: &Row) -> Result<(), OutOfMemory> {
    let line = row.line;
    let name = row.name.as_str();
    write!(told, "{group} line {line} {name}: xdg")?;
    for word in row.words.as_slice() {
        let word = word.as_str();
        write!(told, " {word}")?;
    }
    told.push('\n')
}

/// Adds what was wanted of a row and what it gave.
pub fn tell_difference(told: &mut String, apart: &Difference) -> Result<(), OutOfMemory> {
    let Some(given) = &apart.given else {
        return told.push_str(" two of its files have one name\n");
    };
    if let Some(failing) = &apart.trial.failing {
        let call = failing.call[0];
        let device = failing.device.name();
        writeln!(told, " with call {call} of the {device} failing,")?;
    }
    let room = apart.trial.room;
    let around = first_line_apart(apart.wanted.bytes.as_slice(), given.bytes.as_slice());
    writeln!(
        told,
        " in a room of {room} bytes, from line {} on",
        around.saturating_add(1)
    )?;
    told.push_str(" wanted")?;
    tell_outcome(told, &apart.wanted, around)?;
    told.push_str(" given")?;
    tell_outcome(told, given, around)
}
