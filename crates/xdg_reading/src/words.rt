//! The words of a line.

ghost use Rattle.std.specs.Prelude.{◌≡◌, ◌<◌, ◌≤◌, ◌-◌, ◌*◌, ◌^◌, length, chars, min, IfOk, IfSome};
ghost use Rattle.xdg_reading.specs.Pieces.{Reads, value_from, value_of, number_of, number_at, ordinal_at, quoted_at, name_at, quoted_constant_at, constant_at};
ghost use Rattle.xdg_reading.specs.Pieces.{element_at, constants_at, tuple_at, value_at};

use crate::cursor::{Cursor, Why};
use itoa::Buffer;
use std::alloc::Global;
use xdg_base::{List, Text};
use xdg_problem::Shown;
use xdg_text::is_name;

/// The number that digits write, at most the greatest of its type.
#[tactic(auto, unfolding(crate::specs::Pieces::value_of))]
fn value(digits: &str) -> u64
    ensures { result ≡ value_of digits.now }
{
    let mut value: u64 = 0;
    for digit in digits.as_bytes() {
        value = value
            .saturating_mul(10)
            .saturating_add(u64::from(digit.saturating_sub(48)));
    }
    value
}

/// The number that is written so, from `least` to `most`, if one is.
#[tactic(auto, unfolding(crate::specs::Pieces::number_of))]
fn number_from(digits: &str, least: u64, most: u64) -> Option<u64>
    ensures is { result ≡ number_of least most digits.now }
    ensures within { IfSome result (λ value. (least ≤ value) × (value ≤ most)) }
{
    let value = value(digits);
    let mut buffer = Buffer::new();
    if buffer.format(value) == digits && least <= value && value <= most {
        Some(value)
    } else {
        None
    }
}

/// A number from `least` to `most`, up to an end.
#[tactic(auto, unfolding(crate::specs::Pieces::number_at))]
pub(crate) fn number(cursor: &mut Cursor<'_>, end: char, least: u64, most: u64) -> Result<u64, Why>
    requires { end < 128 }
    ensures reads { Reads (number_at end least most cursor.old) result cursor.new }
    ensures within { IfOk result (λ value. (least ≤ value) × (value ≤ most)) }
{
    match cursor.until(end) {
        Some(digits) => match number_from(digits, least, most) {
            Some(value) => Ok(value),
            None => Err(Why::Offends),
        },
        None => Err(Why::Offends),
    }
}

/// A number from 1 to `most`, up to an end, told as it counts from 0.
#[tactic(auto, unfolding(crate::specs::Pieces::ordinal_at))]
pub(crate) fn ordinal(cursor: &mut Cursor<'_>, end: char, most: u64) -> Result<u64, Why>
    requires { end < 128 }
    ensures reads { Reads (ordinal_at end most cursor.old) result cursor.new }
    ensures within { IfOk result (λ value. value < most) }
{
    let value = number(cursor, end, 1, most)?;
    Ok(value - 1)
}

/// A quoted text, and an end behind it.
#[tactic(auto, unfolding(crate::specs::Pieces::quoted_at))]
pub(crate) fn quoted(alloc: Global, cursor: &mut Cursor<'_>, end: char) -> Result<Text, Why>
    requires ascii { end < 128 }
    requires some { 0 < end }
    ensures { Reads (quoted_at end cursor.old) result cursor.new }
{
    if !cursor.skip("\"") {
        return Err(Why::Offends);
    }
    let text = cursor.inside(alloc)?;
    if cursor.end(end) {
        Ok(text)
    } else {
        Err(Why::Offends)
    }
}

/// A name, and an end behind it.
#[tactic(auto, unfolding(crate::specs::Pieces::name_at))]
fn name(alloc: Global, cursor: &mut Cursor<'_>, end: char) -> Result<Text, Why>
    requires { end < 128 }
    ensures { Reads (name_at end cursor.old) result cursor.new }
{
    match cursor.until(end) {
        Some(text) => {
            if is_name(text) {
                Ok(Text::from_str(alloc, text)?)
            } else {
                Err(Why::Offends)
            }
        }
        None => Err(Why::Offends),
    }
}

/// A quoted text that is no name, and an end behind it.
#[tactic(auto, unfolding(crate::specs::Pieces::quoted_constant_at))]
fn quoted_constant(alloc: Global, cursor: &mut Cursor<'_>, end: char) -> Result<Text, Why>
    requires ascii { end < 128 }
    requires some { 0 < end }
    ensures { Reads (quoted_constant_at end cursor.old) result cursor.new }
{
    let text = quoted(alloc, cursor, end)?;
    if is_name(text.as_str()) {
        Err(Why::Offends)
    } else {
        Ok(text)
    }
}

/// A constant, and an end behind it: a name where it can be one, and else a quoted text.
#[tactic(auto, unfolding(crate::specs::Pieces::constant_at))]
pub(crate) fn constant(alloc: Global, cursor: &mut Cursor<'_>, end: char) -> Result<Text, Why>
    requires ascii { end < 128 }
    requires some { 0 < end }
    ensures { Reads (constant_at end cursor.old) result cursor.new }
{
    if cursor.is_quoted() {
        quoted_constant(alloc, cursor, end)
    } else {
        name(alloc, cursor, end)
    }
}

/// A constant in brackets, and whether another follows.
#[tactic(auto, unfolding(crate::specs::Pieces::element_at))]
fn element(alloc: Global, cursor: &mut Cursor<'_>) -> Result<(Text, bool), Why>
    ensures { Reads (element_at cursor.old) result cursor.new }
{
    let mut ahead = cursor.copy();
    match constant(alloc, &mut ahead, ' ') {
        Ok(text) => {
            *cursor = ahead;
            Ok((text, true))
        }
        Err(Why::Memory) => Err(Why::Memory),
        Err(Why::Offends) => {
            let text = constant(alloc, cursor, ']')?;
            Ok((text, false))
        }
    }
}

/// Constants with a space between two, up to a closing bracket.
fn constants(alloc: Global, cursor: &mut Cursor<'_>) -> Result<List<Text>, Why>
    ensures { Reads (constants_at (length cursor.old) cursor.old) result cursor.new }
{
    let mut texts = List::new(alloc);
    for _ in 0..cursor.len() {
        let (text, more) = element(alloc, cursor)?;
        texts.push(text)?;
        if !more {
            return Ok(texts);
        }
    }
    Err(Why::Offends)
}

/// A tuple of at least one constant in brackets, behind the opening one, up to the end of its line.
#[tactic(auto, unfolding(crate::specs::Pieces::tuple_at))]
fn tuple(alloc: Global, cursor: &mut Cursor<'_>) -> Result<Shown, Why>
    ensures { Reads (tuple_at cursor.old) result cursor.new }
{
    let texts = constants(alloc, cursor)?;
    if cursor.end('\n') {
        Ok(Shown::Many(texts))
    } else {
        Err(Why::Offends)
    }
}

/// A value of an attribute, up to the end of its line.
#[tactic(auto, unfolding(crate::specs::Pieces::value_at))]
pub(crate) fn shown(alloc: Global, cursor: &mut Cursor<'_>) -> Result<Shown, Why>
    ensures { Reads (value_at cursor.old) result cursor.new }
{
    if cursor.skip("[") {
        return tuple(alloc, cursor);
    }
    let text = constant(alloc, cursor, '\n')?;
    Ok(Shown::One(text))
}
