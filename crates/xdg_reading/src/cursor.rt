//! A place in a text, and the pieces that stand there.

ghost use Rattle.std.specs.Prelude.{◌≡◌, ◌<◌, ◌≤◌, ◌++◌, [], ◌∷◌, length, chars, false};
ghost use Rattle.std.specs.List.{prefix_len};
ghost use Rattle.xdg_reading.specs.Pieces.{Skips, Reads, Takes, GoesPlain, begins_quoted, is_plain, until, inside};

use std::alloc::Global;
use std::marker::Model;
use xdg_base::{OutOfMemory, Text};

/// Why reading a line stops.
#[derive(Clone, Copy, Debug)]
pub(crate) enum Why {
    /// No memory was to be had.
    Memory,
    /// What stands there is not of the wanted form.
    Offends,
}

impl From<OutOfMemory> for Why {
    ghost use Rattle.xdg_reading.specs.declared.cursor.Why.TheVariants.{Memory};

    ghost from_gives = { λ _ why. why ≡ Memory };

    fn from(_: OutOfMemory) -> Why {
        Why::Memory
    }
}

/// What is left of a text.
#[derive(Drop)]
pub(crate) struct Cursor<'a> {
    left: &'a str,
}

impl<'a> Model for Cursor<'a> {
    ghost use Rattle.std.specs.Prelude.{List, ℕ};

    ghost Value = { List ℕ };

    ghost view = { λ cursor. cursor.left.now };
}

impl<'a> Cursor<'a> {
    /// At the start of a text.
    pub(crate) fn new(text: &'a str) -> Cursor<'a>
        ensures { result ≡ text.now }
    {
        Cursor { left: text }
    }

    /// How many bytes are left.
    pub(crate) fn len(&self) -> usize
        ensures { result ≡ length self.now }
    {
        self.left.len()
    }

    /// The same place.
    pub(crate) fn copy(&self) -> Cursor<'a>
        ensures { result ≡ self.now }
    {
        Cursor { left: self.left }
    }

    /// Whether a quotation mark stands there.
    pub(crate) fn is_quoted(&self) -> bool
        ensures { result ≡ begins_quoted self.now }
    {
        match self.left.as_bytes().first() {
            Some(byte) => *byte == b'"',
            None => false,
        }
    }

    /// Goes past a text, if it stands there.
    #[tactic(auto, using(crate::proofs::Fronts::stripped, crate::proofs::Fronts::not_stripped))]
    pub(crate) fn skip(&mut self, word: &str) -> bool
        ensures { Skips word.now self.old result self.new }
    {
        match self.left.strip_prefix(word) {
            Some(rest) => {
                self.left = rest;
                true
            }
            None => false,
        }
    }

    /// Goes past a character, if it stands there.
    pub(crate) fn end(&mut self, end: char) -> bool
        requires ascii { end < 128 }
        requires some { 0 < end }
        ensures { Skips (end ∷ []) self.old result self.new }
    {
        match self.left.strip_prefix(end) {
            Some(rest) => {
                self.left = rest;
                true
            }
            None => false,
        }
    }

    /// What stands before the next character of this kind, which is gone past.
    #[tactic(auto, using(crate::proofs::Fronts::split_some, crate::proofs::Fronts::split_none))]
    pub(crate) fn until(&mut self, end: char) -> Option<&'a str>
        requires { end < 128 }
        ensures { Takes (until end self.old) result self.new }
    {
        match self.left.split_once(end) {
            Some((piece, rest)) => {
                self.left = rest;
                Some(piece)
            }
            None => None,
        }
    }

    /// What stands before the next quotation mark or backslash, or all that is left.
    #[tactic(auto, using(crate::proofs::Insides::plain_boundary, crate::proofs::Insides::plain_goes))]
    fn plain(&mut self) -> &'a str
        ensures { GoesPlain self.old result.now self.new }
    {
        let length = plain_length(self.left);
        let (piece, rest) = self.left.split_at(length);
        self.left = rest;
        piece
    }

    /// The inside of a quoted text up to its closing mark, its escapes undone: `\"` and `\\` stand for `"` and `\`.
    pub(crate) fn inside(&mut self, alloc: Global) -> Result<Text, Why>
        ensures { Reads (inside false self.old) result self.new }
    {
        let mut text = Text::new(alloc);
        'pieces: loop {
            let piece = self.plain();
            text.push_str(piece)?;
            if self.skip("\"") {
                return Ok(text);
            }
            if self.skip("\\\"") {
                text.push_str("\"")?;
            } else if self.skip("\\\\") {
                text.push_str("\\")?;
            } else {
                return Err(Why::Offends);
            }
        }
    }
}

/// How many bytes stand before the first quotation mark or backslash.
fn plain_length(text: &str) -> usize
    ensures { result ≡ prefix_len is_plain text.now }
{
    text.as_bytes()
        .iter()
        .take_while(|byte| **byte != b'"' && **byte != b'\\')
        .count()
}
