//! Printed lines.

ghost use Rattle.std.specs.Prelude.{◌++◌, decimal, map};
ghost use Rattle.std.specs.List.{flat_map};
ghost use Rattle.xdg_io.specs.Texts.{WritesText};
ghost use Rattle.xdg_text.specs.Lines.{line};
ghost use Rattle.xdg_text.specs.Words.{word_text, led_word};

use crate::constants::{write_constant, write_quoted};
use crate::values::write_value;
use itoa::Buffer;
use xdg_io::{Failed, Sink, write_all};
use xdg_problem::Shown;

/// A word of a line.
#[derive(Clone, Copy, Debug)]
pub enum Word<'a> {
    /// Characters that stand as they are.
    Plain(&'a str),
    /// A number in decimal digits.
    Number(u64),
    /// A constant, as a name where it can be, and else between quotation marks.
    Constant(&'a str),
    /// A text between quotation marks.
    Quoted(&'a str),
    /// A value of an attribute.
    Value(&'a Shown),
}

/// Writes characters as they stand.
fn write_plain<K: Sink>(text: &str, sink: &mut K) -> Result<(), Failed>
    ensures { WritesText result (K.held sink.old) (K.held sink.new) (K.faults sink.old) (K.faults sink.new) (text.now) }
{
    write_all(sink, text.as_bytes())
}

/// Writes a number in decimal digits, behind which more of the line is written: so a single digit is kept.
#[tactic(auto, using(std::proofs::lemmas::Fmt::decimal_digit))]
fn write_number<K: Sink>(number: u64, sink: &mut K) -> Result<(), Failed>
    ensures { WritesText result (K.held sink.old) (K.held sink.new) (K.faults sink.old) (K.faults sink.new) (decimal number) }
{
    if number < 10 {
        return sink.keep(b'0' + number as u8);
    }
    let mut buffer = Buffer::new();
    write_all(sink, buffer.format(number).as_bytes())
}

/// Writes a word.
fn write_word<K: Sink>(word: &Word, sink: &mut K) -> Result<(), Failed>
    ensures { WritesText result (K.held sink.old) (K.held sink.new) (K.faults sink.old) (K.faults sink.new) (word_text word.now) }
{
    match word {
        Word::Plain(text) => write_plain(text, sink),
        Word::Number(number) => write_number(*number, sink),
        Word::Constant(text) => write_constant(text, sink),
        Word::Quoted(text) => write_quoted(text, sink),
        Word::Value(value) => write_value(value, sink),
    }
}

/// Writes a word with a space before it.
fn write_led_word<K: Sink>(word: &Word, sink: &mut K) -> Result<(), Failed>
    ensures { WritesText result (K.held sink.old) (K.held sink.new) (K.faults sink.old) (K.faults sink.new) (led_word word.now) }
{
    sink.keep(b' ')?;
    write_word(word, sink)
}

/// Writes words with a space before each.
#[tactic(auto, using(xdg_io::proofs::Parts::loop_steps))]
fn write_led_words<K: Sink>(words: &[Word], sink: &mut K) -> Result<(), Failed>
    ensures { WritesText result (K.held sink.old) (K.held sink.new) (K.faults sink.old) (K.faults sink.new) (flat_map led_word words.now) }
{
    for word in words {
        write_led_word(word, sink)?;
    }
    Ok(())
}

/// Writes the words of a line with a space between two.
fn write_words<K: Sink>(first: &str, others: &[Word], sink: &mut K) -> Result<(), Failed>
    ensures { WritesText result (K.held sink.old) (K.held sink.new) (K.faults sink.old) (K.faults sink.new) (first.now ++ flat_map led_word others.now) }
{
    write_plain(first, sink)?;
    write_led_words(others, sink)
}

/// Writes a line behind which another one is written at once.
pub(crate) fn write_inner_line<K: Sink>(
    first: &str,
    others: &[Word],
    sink: &mut K,
) -> Result<(), Failed>
    ensures { WritesText result (K.held sink.old) (K.held sink.new) (K.faults sink.old) (K.faults sink.new) (line first.now (map word_text others.now)) }
{
    write_words(first, others, sink)?;
    sink.keep(b'\n')
}

/// Writes a line: its words with a space between two, and a line feed.
pub fn write_line<K: Sink>(first: &str, others: &[Word], sink: &mut K) -> Result<(), Failed>
    ensures { WritesText result (K.held sink.old) (K.held sink.new) (K.faults sink.old) (K.faults sink.new) (line first.now (map word_text others.now)) }
{
    write_words(first, others, sink)?;
    write_all(sink, b"\n")
}
