//! Words behind others, each with a space before it.

ghost use Rattle.std.specs.Prelude.{decimal};
ghost use Rattle.xdg_io.specs.Texts.{WritesText};
ghost use Rattle.xdg_text.specs.Constants.{constant};
ghost use Rattle.xdg_reports.specs.VerdictsText.{behind};

use itoa::Buffer;
use xdg_io::{Failed, Sink, write_all};
use xdg_text::write_constant;

/// Writes a word as it stands.
pub(crate) fn write_word<K: Sink>(word: &str, sink: &mut K) -> Result<(), Failed>
    ensures { WritesText result (K.held sink.old) (K.held sink.new) (K.faults sink.old) (K.faults sink.new) (behind word.now) }
{
    sink.keep(b' ')?;
    write_all(sink, word.as_bytes())
}

/// Writes a constant, as a name where it can be, and else quoted.
pub(crate) fn write_constant_behind<K: Sink>(text: &str, sink: &mut K) -> Result<(), Failed>
    ensures { WritesText result (K.held sink.old) (K.held sink.new) (K.faults sink.old) (K.faults sink.new) (behind (constant text.now)) }
{
    sink.keep(b' ')?;
    write_constant(text, sink)
}

/// Writes a number in decimal digits.
pub(crate) fn write_number<K: Sink>(number: u64, sink: &mut K) -> Result<(), Failed>
    ensures { WritesText result (K.held sink.old) (K.held sink.new) (K.faults sink.old) (K.faults sink.new) (behind (decimal number)) }
{
    let mut buffer = Buffer::new();
    write_word(buffer.format(number), sink)
}

/// Writes the number that a line begins with.
pub(crate) fn write_first<K: Sink>(number: u64, sink: &mut K) -> Result<(), Failed>
    ensures { WritesText result (K.held sink.old) (K.held sink.new) (K.faults sink.old) (K.faults sink.new) (decimal number) }
{
    let mut buffer = Buffer::new();
    write_all(sink, buffer.format(number).as_bytes())
}
