//! The tokens of a text.

ghost use Rattle.std.specs.Prelude.{◌≡◌, ◌≤◌, ◌<◌, ◌+◌, ◌-◌, ◌^◌, length, chars, IfOk, IfErr};
ghost use Rattle.xdg_base.specs.Told.{Gives, answer_of};
ghost use Rattle.xdg_lex.specs.Lexed.{Lexed, lexed_characters, Adds};
ghost use Rattle.xdg_ast.specs.Lexemes.{lexemes_of};
ghost use Rattle.xdg_lex.specs.Spans.{StandFrom};
ghost use Rattle.xdg_lex.specs.Offends.{Tells, IsAnswer, StandsWithin};
ghost use Rattle.xdg_lex.specs.Pieces.{ends};

use crate::pieces::{Mode, Turn, begins, ends, goes_on};
use std::alloc::Global;
use std::str;
use xdg_ast::{Token, refined};
use xdg_base::{Cause, Fault, List, Span, Stop};

/// Adds the token that a piece is, if it is one.
fn add_piece<'a>(
    tokens: &mut List<Token<'a>>,
    mode: Mode,
    text: &'a str,
    span: Span,
) -> Result<(), Stop>
    requires { span.start + length text.now ≡ span.end }
    ensures { Adds (ends mode span.start (length text.now)) span.start text.now tokens.old result tokens.new }
{
    match ends(mode, span) {
        Err(fault) => Err(Stop::Fault(fault)),
        Ok(None) => Ok(()),
        Ok(Some(kind)) => {
            let kind = refined(kind, text);
            tokens.push(Token { kind, text, span })?;
            Ok(())
        }
    }
}

/// The tokens of a text.
fn read<'a>(alloc: Global, text: &'a str) -> Result<List<Token<'a>>, Stop>
    requires { length text.now < 2 ^ 32 }
    ensures { Gives (lexed_characters (chars text.now)) (answer_of lexemes_of result) }
{
    let mut tokens = List::new(alloc);
    let mut left = text;
    let mut start: u32 = 0;
    let mut at: u32 = 0;
    let mut mode = Mode::Between;
    for c in text.chars() {
        match goes_on(mode, at, c) {
            Turn::GoesOn(next) => mode = next,
            Turn::Refused(fault) => return Err(Stop::Fault(fault)),
            Turn::Ends => {
                let (piece, behind) = left.split_at((at - start) as usize);
                add_piece(&mut tokens, mode, piece, Span { start, end: at })?;
                match begins(at, c) {
                    Ok(next) => mode = next,
                    Err(fault) => return Err(Stop::Fault(fault)),
                }
                left = behind;
                start = at;
            }
        }
        at += c.len_utf8() as u32;
    }
    add_piece(&mut tokens, mode, left, Span { start, end: at })?;
    Ok(tokens)
}

/// The tokens of bytes, if they are a text.
fn read_bytes<'a>(alloc: Global, bytes: &'a [u8]) -> Result<List<Token<'a>>, Stop>
    requires { length bytes.now < 2 ^ 32 }
    ensures { Tells bytes.now result }
{
    match str::from_utf8(bytes) {
        Ok(text) => read(alloc, text),
        Err(error) => Err(Stop::Fault(Fault::at(Cause::BadUtf8, error.valid_up_to() as u32))),
    }
}

/// The tokens of a text in UTF-8, without the white space and the comments between them, or the first refusal.
///
/// White space is what [`char::is_whitespace`] says. A comment runs from `%` to the end of its line or from `/*` to
/// the next `*/`. Names and numbers are as long as possible. The refusals are
///
/// - [`Cause::BadUtf8`] at the first byte that belongs to no whole character, before all others;
/// - [`Cause::BadChar`] at a character that begins no token, at a backslash in a quoted text that neither a quotation
///   mark nor a backslash follows, and at the digit with which a number passes 4,294,967,295;
/// - [`Cause::OpenText`] where a quoted text or a comment begins that isn't closed;
/// - [`Cause::TooLong`] at a name or a quoted text with more than 127 bytes of content.
///
/// The time is linear in the length of the text.
pub fn tokens<'a>(alloc: Global, bytes: &'a [u8]) -> Result<List<Token<'a>>, Stop>
    requires { length bytes.now < 2 ^ 32 }
    ensures tells { Tells bytes.now result }
    ensures stand { IfOk result (λ tokens. StandFrom bytes.now 0 (lexemes_of tokens)) }
    ensures within { IfErr result (StandsWithin bytes.now) }
    ensures only { (answer : Lexed) → IsAnswer bytes.now answer → Gives answer (answer_of lexemes_of result) }
{
    read_bytes(alloc, bytes)
}
