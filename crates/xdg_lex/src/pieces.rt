//! The pieces of a text, tokens, comments and white space, character by character.

ghost use Rattle.std.specs.Prelude.{◌≡◌, ◌≤◌, ◌+◌, ◌-◌, unwrap_or};
ghost use Rattle.std.specs.Char.{len_utf8};
ghost use Rattle.xdg_lex.specs.Pieces.{digit_goes_on, quoted_goes_on, escape_goes_on, line_goes_on, comment_goes_on, star_goes_on};
ghost use Rattle.xdg_lex.specs.Pieces.{goes_on, begins, ends, ends_quoted};
ghost use Rattle.xdg_lex.specs.Pieces.{counted, counted_after};

use xdg_ast::{Kind, sign_of};
use xdg_base::{Cause, Fault, Span, begins_name, continues_name};

/// How many bytes of content a name and a quoted text may have.
const LONGEST: u32 = 127;

/// What was read of a quoted text.
#[derive(Clone, Copy, Debug)]
pub(crate) struct Inside {
    /// How many bytes it stands for so far.
    pub(crate) content: u64,
    /// The first backslash that nothing follows that it may stand before.
    pub(crate) wrong: Option<u32>,
}

/// What the characters of a piece make it, so far.
#[derive(Clone, Copy, Debug)]
pub(crate) enum Mode {
    /// White space, a comment that has ended, or nothing.
    Between,
    Name,
    Number(u32),
    Quoted(Inside),
    /// A quoted text, after the backslash at this place.
    Escape(Inside, u32),
    /// A quoted text with its last quotation mark.
    Closed(Inside),
    Sign(Kind),
    /// A comment up to the end of its line.
    LineComment,
    /// The first character of what opens a comment.
    Slash,
    Comment,
    /// A comment, after a star.
    CommentStar,
}

/// What a character does to a piece.
#[derive(Clone, Copy, Debug)]
pub(crate) enum Turn {
    /// It belongs to the piece.
    GoesOn(Mode),
    /// It belongs to the next piece.
    Ends,
    Refused(Fault),
}

#[tactic(auto, unfolding(crate::specs::Pieces::digit_goes_on))]
fn digit_goes_on(value: u32, at: u32, c: char) -> Turn
    ensures { result ≡ digit_goes_on value at c }
{
    if !c.is_ascii_digit() {
        return Turn::Ends;
    }
    let value = value as u64 * 10 + (c as u64 - 48);
    if value > 4_294_967_295 {
        return Turn::Refused(Fault::at(Cause::BadChar, at));
    }
    Turn::GoesOn(Mode::Number(value as u32))
}

#[tactic(auto, unfolding(crate::specs::Pieces::quoted_goes_on))]
fn quoted_goes_on(inside: Inside, at: u32, c: char) -> Turn
    requires { inside.content ≤ at }
    ensures { result ≡ quoted_goes_on inside at c }
{
    match c {
        '"' => Turn::GoesOn(Mode::Closed(inside)),
        '\\' => Turn::GoesOn(Mode::Escape(inside, at)),
        _ => Turn::GoesOn(Mode::Quoted(Inside {
            content: inside.content + c.len_utf8() as u64,
            wrong: inside.wrong,
        })),
    }
}

/// The earlier of two places, of which one is later.
fn first_of(earlier: Option<u32>, later: u32) -> u32
    ensures { result ≡ unwrap_or earlier later }
{
    match earlier {
        Some(place) => place,
        None => later,
    }
}

#[tactic(auto, unfolding(crate::specs::Pieces::escape_goes_on))]
fn escape_goes_on(inside: Inside, backslash: u32, at: u32, c: char) -> Turn
    requires { inside.content ≤ at }
    ensures { result ≡ escape_goes_on inside backslash c }
{
    if c == '"' || c == '\\' {
        return Turn::GoesOn(Mode::Quoted(Inside {
            content: inside.content + 1,
            wrong: inside.wrong,
        }));
    }
    Turn::GoesOn(Mode::Quoted(Inside {
        content: inside.content + 1 + c.len_utf8() as u64,
        wrong: Some(first_of(inside.wrong, backslash)),
    }))
}

fn line_goes_on(c: char) -> Mode
    ensures { result ≡ line_goes_on c }
{
    if c == '\n' {
        Mode::Between
    } else {
        Mode::LineComment
    }
}

fn comment_goes_on(c: char) -> Mode
    ensures { result ≡ comment_goes_on c }
{
    if c == '*' {
        Mode::CommentStar
    } else {
        Mode::Comment
    }
}

fn star_goes_on(c: char) -> Mode
    ensures { result ≡ star_goes_on c }
{
    if c == '/' {
        return Mode::Between;
    }
    comment_goes_on(c)
}

/// What the character at a place does to a piece.
#[tactic(auto, unfolding(crate::specs::Pieces::goes_on))]
pub(crate) fn goes_on(mode: Mode, at: u32, c: char) -> Turn
    requires { counted mode ≤ at }
    ensures { result ≡ goes_on mode at c }
{
    match mode {
        Mode::Between | Mode::Closed(_) | Mode::Sign(_) => Turn::Ends,
        Mode::Name => {
            if continues_name(c) {
                Turn::GoesOn(Mode::Name)
            } else {
                Turn::Ends
            }
        }
        Mode::Number(value) => digit_goes_on(value, at, c),
        Mode::Quoted(inside) => quoted_goes_on(inside, at, c),
        Mode::Escape(inside, backslash) => escape_goes_on(inside, backslash, at, c),
        Mode::LineComment => Turn::GoesOn(line_goes_on(c)),
        Mode::Slash => {
            if c == '*' {
                Turn::GoesOn(Mode::Comment)
            } else {
                Turn::Ends
            }
        }
        Mode::Comment => Turn::GoesOn(comment_goes_on(c)),
        Mode::CommentStar => Turn::GoesOn(star_goes_on(c)),
    }
}

/// The piece that begins with the character at a place.
#[tactic(auto, unfolding(crate::specs::Pieces::begins))]
pub(crate) fn begins(at: u32, c: char) -> Result<Mode, Fault>
    ensures { result ≡ begins at c }
{
    if c.is_whitespace() {
        return Ok(Mode::Between);
    }
    if c == '%' {
        return Ok(Mode::LineComment);
    }
    if c == '/' {
        return Ok(Mode::Slash);
    }
    if c == '"' {
        return Ok(Mode::Quoted(Inside {
            content: 0,
            wrong: None,
        }));
    }
    if begins_name(c) {
        return Ok(Mode::Name);
    }
    if c.is_ascii_digit() {
        return Ok(Mode::Number(c as u32 - 48));
    }
    match sign_of(c) {
        Some(sign) => Ok(Mode::Sign(sign)),
        None => Err(Fault::at(Cause::BadChar, at)),
    }
}

/// What a quoted text is that begins at a place, once it is closed.
#[tactic(auto, unfolding(crate::specs::Pieces::ends_quoted))]
fn ends_quoted(start: u32, inside: Inside) -> Result<Option<Kind>, Fault>
    ensures { result ≡ ends_quoted start inside }
{
    if inside.content > LONGEST as u64 {
        return Err(Fault {
            cause: Cause::TooLong,
            at: start,
            reached: inside.content,
        });
    }
    match inside.wrong {
        Some(backslash) => Err(Fault::at(Cause::BadChar, backslash)),
        None => Ok(Some(Kind::Quoted)),
    }
}

/// What a piece is that ends. A keyword counts as a name.
#[tactic(auto, unfolding(crate::specs::Pieces::ends))]
pub(crate) fn ends(mode: Mode, span: Span) -> Result<Option<Kind>, Fault>
    requires { span.start ≤ span.end }
    ensures { result ≡ ends mode span.start (span.end - span.start) }
{
    match mode {
        Mode::Between | Mode::LineComment => Ok(None),
        Mode::Name => {
            let length = span.end - span.start;
            if length > LONGEST {
                return Err(Fault {
                    cause: Cause::TooLong,
                    at: span.start,
                    reached: length as u64,
                });
            }
            Ok(Some(Kind::Name))
        }
        Mode::Number(_) => Ok(Some(Kind::Number)),
        Mode::Sign(sign) => Ok(Some(sign)),
        Mode::Closed(inside) => ends_quoted(span.start, inside),
        Mode::Slash => Err(Fault::at(Cause::BadChar, span.start)),
        Mode::Quoted(_) | Mode::Escape(_, _) | Mode::Comment | Mode::CommentStar => {
            Err(Fault::at(Cause::OpenText, span.start))
        }
    }
}
