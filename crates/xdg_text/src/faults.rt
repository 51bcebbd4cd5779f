//! The lines of faults, and those that end a run.

ghost use Rattle.xdg_io.specs.Texts.{WritesText};
ghost use Rattle.xdg_text.specs.Lines.{fault_text, complete_line, spent_line, first_line, usage_line};

use crate::lines::{Word, write_line};
use xdg_base::{Fault, LineColumn, number};
use xdg_io::{Failed, Sink, write_all};

/// Writes the line of a fault, whose place in its text is a line and a column. Where a limit was passed it
/// tells the number reached.
pub fn fault_line<K: Sink>(fault: &Fault, place: LineColumn, sink: &mut K) -> Result<(), Failed>
    ensures { WritesText result (K.held sink.old) (K.held sink.new) (K.faults sink.old) (K.faults sink.new) (fault_text fault.now place) }
{
    let words = [
        Word::Number(number(fault.cause) as u64),
        Word::Plain(fault.cause.name()),
        Word::Plain("line"),
        Word::Number(place.line),
        Word::Plain("column"),
        Word::Number(place.column),
        Word::Plain("reached"),
        Word::Number(fault.reached),
    ];
    if fault.cause.tells_reached() {
        write_line("fault", &words, sink)
    } else {
        write_line("fault", &words[..6], sink)
    }
}

/// Writes the line that ends a run where all analyses were printed, `count` of them.
pub fn write_complete<K: Sink>(count: u64, sink: &mut K) -> Result<(), Failed>
    ensures { WritesText result (K.held sink.old) (K.held sink.new) (K.faults sink.old) (K.faults sink.new) (complete_line count) }
{
    write_line("complete", &[Word::Number(count)], sink)
}

/// Writes the line that ends a run where the budget is spent, after `count` analyses.
pub fn write_spent<K: Sink>(count: u64, sink: &mut K) -> Result<(), Failed>
    ensures { WritesText result (K.held sink.old) (K.held sink.new) (K.faults sink.old) (K.faults sink.new) (spent_line count) }
{
    write_line("spent", &[Word::Number(count)], sink)
}

/// Writes the line that ends a run where as many analyses were printed as were asked for, `count`.
pub fn write_first<K: Sink>(count: u64, sink: &mut K) -> Result<(), Failed>
    ensures { WritesText result (K.held sink.old) (K.held sink.new) (K.faults sink.old) (K.faults sink.new) (first_line count) }
{
    write_line("first", &[Word::Number(count)], sink)
}

/// Writes how the program is called.
pub fn write_usage<K: Sink>(sink: &mut K) -> Result<(), Failed>
    ensures { WritesText result (K.held sink.old) (K.held sink.new) (K.faults sink.old) (K.faults sink.new) usage_line }
{
    write_all(
        sink,
        b"usage: xdg COMMAND FILE [FILE] [--budget N] [--first N] [--segment]\n",
    )
}
