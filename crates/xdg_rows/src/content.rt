//! The lines of a table that say bytes: of a named text, of a file, of an input, and of what is wanted.

use crate::row::Named;
use xdg_base::OutOfMemory;

/// Adds what a line says that stands behind one of the marks `|`, `.`, `\` and `=`. Whether it could be read.
pub fn add_content(
    bytes: &mut Vec<u8>,
    mark: &str,
    said: &str,
    texts: &[Named],
) -> Result<bool, OutOfMemory> {
    match mark {
        "|" => {
            bytes.extend_from_slice(said.as_bytes())?;
            bytes.push(b'\n')?;
            Ok(true)
        }
        "." => {
            bytes.extend_from_slice(said.as_bytes())?;
            Ok(true)
        }
        "\\" => add_escaped(bytes, said),
        "=" => add_named(bytes, said, texts),
        _ => Ok(false),
    }
}

/// The value of a digit of a number in base 16.
fn digit(byte: u8) -> Option<u8> {
    match byte {
        b'0'..=b'9' => Some(byte - b'0'),
        b'a'..=b'f' => Some(byte - b'a' + 10),
        _ => None,
    }
}

/// The byte that two digits say.
fn byte_of(high: u8, low: u8) -> Option<u8> {
    let high = digit(high)?;
    let low = digit(low)?;
    high.checked_mul(16)?.checked_add(low)
}

/// The byte that stands for what a text begins with, a backslash having gone before, and what follows it: `n`, `r`, `t` or `x`
/// with two digits.
fn escaped(text: &[u8]) -> Option<(u8, &[u8])> {
    match text {
        [b'n', rest @ ..] => Some((b'\n', rest)),
        [b'r', rest @ ..] => Some((b'\r', rest)),
        [b't', rest @ ..] => Some((b'\t', rest)),
        [b'x', high, low, rest @ ..] => Some((byte_of(*high, *low)?, rest)),
        _ => None,
    }
}

/// Adds a text in which a backslash begins what stands for a byte. Whether it could be read.
fn add_escaped(bytes: &mut Vec<u8>, said: &str) -> Result<bool, OutOfMemory> {
    for (number, part) in said.split('\\').enumerate() {
        if number == 0 {
            bytes.extend_from_slice(part.as_bytes())?;
            continue;
        }
        let Some((byte, rest)) = escaped(part.as_bytes()) else {
            return Ok(false);
        };
        bytes.push(byte)?;
        bytes.extend_from_slice(rest)?;
    }
    Ok(true)
}

/// The bytes of a named text.
pub fn find<'a>(texts: &'a [Named], name: &str) -> Option<&'a [u8]> {
    for text in texts {
        if text.0.as_str() == name {
            return Some(text.1.as_slice());
        }
    }
    None
}

/// Adds a named text, or some of its lines where a first and a last one are said, as `plain 1..10`. Whether there is such a
/// text with such lines.
fn add_named(bytes: &mut Vec<u8>, said: &str, texts: &[Named]) -> Result<bool, OutOfMemory> {
    let Some((name, range)) = said.split_once(' ') else {
        return match find(texts, said) {
            Some(text) => {
                bytes.extend_from_slice(text)?;
                Ok(true)
            }
            None => Ok(false),
        };
    };
    let Some((first, last)) = range.split_once("..") else {
        return Ok(false);
    };
    let (Ok(first), Ok(last)) = (first.parse::<usize>(), last.parse::<usize>()) else {
        return Ok(false);
    };
    match find(texts, name) {
        Some(text) => add_lines(bytes, text, first, last),
        None => Ok(false),
    }
}

/// Adds the lines of a text from the first to the last. Whether it has them.
fn add_lines(
    bytes: &mut Vec<u8>,
    text: &[u8],
    first: usize,
    last: usize,
) -> Result<bool, OutOfMemory> {
    let mut line: usize = 1;
    for byte in text {
        if first <= line && line <= last {
            bytes.push(*byte)?;
        }
        if *byte == b'\n' {
            line = line.saturating_add(1);
        }
    }
    Ok(0 < first && first <= last && last < line)
}
