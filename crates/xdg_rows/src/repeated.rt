//! Lines of a table that say bytes many times.
//!
//! Such a line is `*`, how often, and a line of content: `* 128 . w` for so many times the same, and `* K=1..70 | class <K-1>`
//! with a running number. Several running numbers go through all that they can be together, the last one fastest, and
//! `M!=N` leaves out those in which both are the same.

use crate::content::add_content;
use crate::row::Named;
use std::alloc::Global;
use xdg_base::OutOfMemory;

/// How often a line can be repeated.
const MOST: u64 = 1_000_000;

/// A running number: how it is called, what it is first, and how many it goes through.
#[derive(Drop)]
struct Running<'a> {
    name: &'a str,
    first: u64,
    size: u64,
}

/// How a line is repeated, and the line.
#[derive(Drop)]
struct Repeated<'a> {
    running: Vec<Running<'a>>,
    apart: Option<(&'a str, &'a str)>,
    mark: &'a str,
    said: &'a str,
}

/// A running number that a word says, as `K=1..70` or `128`.
fn running_of(word: &str) -> Option<Running<'_>> {
    let Some((name, range)) = word.split_once('=') else {
        let size = word.parse::<u64>().ok()?;
        return Some(Running {
            name: "",
            first: 1,
            size,
        });
    };
    let (first, last) = range.split_once("..")?;
    let first = first.parse::<u64>().ok()?;
    let last = last.parse::<u64>().ok()?;
    let size = last.checked_sub(first)?.checked_add(1)?;
    Some(Running { name, first, size })
}

/// How a line is repeated, where it can be read.
fn repeated_of(alloc: Global, line: &str) -> Result<Option<Repeated<'_>>, OutOfMemory> {
    let mut running = Vec::new(alloc);
    let mut apart = None;
    let mut left = line;
    for _ in 0..5 {
        let (word, rest) = left.split_once(' ').unwrap_or((left, ""));
        left = rest;
        if matches!(word, "|" | "." | "\\" | "=") {
            return Ok(Some(Repeated {
                running,
                apart,
                mark: word,
                said: rest,
            }));
        }
        if let Some(pair) = word.split_once("!=") {
            apart = Some(pair);
            continue;
        }
        let Some(one) = running_of(word) else {
            return Ok(None);
        };
        running.push(one)?;
    }
    Ok(None)
}

/// The value of a running number at a turn.
fn value_at(running: &[Running<'_>], name: &str, turn: u64) -> Option<u64> {
    let mut left = turn;
    for one in running.iter().rev() {
        if one.size == 0 {
            return None;
        }
        if one.name == name {
            return one.first.checked_add(left % one.size);
        }
        left /= one.size;
    }
    None
}

/// The number that stands for `K`, `K-1` or `K+1` at a turn.
fn number_at(running: &[Running<'_>], text: &str, turn: u64) -> Option<u64> {
    if let Some((name, less)) = text.split_once('-') {
        return value_at(running, name, turn)?.checked_sub(less.parse::<u64>().ok()?);
    }
    if let Some((name, more)) = text.split_once('+') {
        return value_at(running, name, turn)?.checked_add(more.parse::<u64>().ok()?);
    }
    value_at(running, text, turn)
}

/// The line of a turn: in each pair of brackets stands the number in place of its name. Nothing where there is none.
fn line_at(alloc: Global, one: &Repeated<'_>, turn: u64) -> Result<Option<String>, OutOfMemory> {
    let mut line = String::new(alloc);
    for (number, part) in one.said.split('<').enumerate() {
        if number == 0 {
            line.push_str(part)?;
            continue;
        }
        let (name, rest) = part.split_once('>').unwrap_or(("", ""));
        let Some(value) = number_at(one.running.as_slice(), name, turn) else {
            return Ok(None);
        };
        write!(line, "{value}{rest}")?;
    }
    Ok(Some(line))
}

/// Whether a turn is left out.
fn is_left_out(one: &Repeated<'_>, turn: u64) -> bool {
    let Some((name, other)) = one.apart else {
        return false;
    };
    let running = one.running.as_slice();
    value_at(running, name, turn) == value_at(running, other, turn)
}

/// How often a line is repeated, where that is not too often.
fn count(running: &[Running<'_>]) -> Option<u64> {
    let mut count: u64 = 1;
    for one in running {
        count = count.checked_mul(one.size)?;
    }
    if count > MOST { None } else { Some(count) }
}

/// Adds what a line says behind the mark `*`. Whether it could be read.
pub fn add_repeated(
    alloc: Global,
    bytes: &mut Vec<u8>,
    said: &str,
    texts: &[Named],
) -> Result<bool, OutOfMemory> {
    let Some(one) = repeated_of(alloc, said)? else {
        return Ok(false);
    };
    let Some(turns) = count(one.running.as_slice()) else {
        return Ok(false);
    };
    for turn in 0..turns {
        if is_left_out(&one, turn) {
            continue;
        }
        let Some(line) = line_at(alloc, &one, turn)? else {
            return Ok(false);
        };
        if !add_content(bytes, one.mark, line.as_str(), texts)? {
            return Ok(false);
        }
    }
    Ok(true)
}
