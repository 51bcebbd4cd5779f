//! The statements of a costs text, and what the next token makes of a statement that has begun.

ghost use Rattle.std.specs.Prelude.{◌≡◌, IfOk, codes};
ghost use Rattle.xdg_ast.specs.Lexemes.{lexeme_of};
ghost use Rattle.xdg_ast.specs.Grammar.{num_of};
ghost use Rattle.xdg_best.specs.Statements.{is_number, is_constant, is_word};
ghost use Rattle.xdg_best.specs.Turns.{turn_of, begun, is_nothing};

use std::alloc::Global;
use xdg_ast::{Kind, Name, Num, Token};
use xdg_base::OutOfMemory;
use xdg_lex::value;
use xdg_parse::name_from;

/// A statement of a costs text.
#[derive(Debug, Drop)]
pub(crate) enum Statement {
    /// The entry with a number, which counts from 1, and its cost.
    Entry(Num, u32),
    /// A dimension and a label, and what an edge of that dimension with that label costs.
    Edge(Name, Name, u32),
}

/// What has been read of a statement.
#[derive(Debug, Drop)]
pub(crate) enum Open {
    /// Nothing: the next one may begin.
    Nothing,
    /// The word `entry`.
    Entry,
    /// And a number.
    Number(Num),
    /// The word `edge`.
    Edge,
    /// And a dimension.
    Dim(Name),
    /// And a label.
    Label(Name, Name),
}

/// What the next token makes of a statement that has begun.
#[derive(Debug, Drop)]
pub(crate) enum Turn {
    /// The statement goes on.
    GoesOn(Open),
    /// It is whole.
    Says(Statement),
    /// No statement goes on so.
    Refused,
}

/// Whether a token is a number.
fn is_number(kind: Kind) -> bool
    ensures { result ≡ is_number kind }
{
    match kind {
        Kind::Number => true,
        _ => false,
    }
}

/// Whether a token is a constant.
fn is_constant(kind: Kind) -> bool
    ensures { result ≡ is_constant kind }
{
    match kind {
        Kind::Name | Kind::Quoted => true,
        _ => false,
    }
}

/// Whether a token is a word, without quotation marks.
fn is_word(word: &str, token: &Token) -> bool
    ensures { result ≡ is_word word.now (lexeme_of token.now) }
{
    match token.kind {
        Kind::Name => token.text == word,
        _ => false,
    }
}

/// A number.
fn num_from(token: &Token) -> Num
    ensures { result ≡ num_of (lexeme_of token.now) }
{
    Num {
        value: value(token),
        span: token.span,
    }
}

/// What the first token of a statement makes.
fn begun(token: &Token) -> Turn
    ensures { result ≡ begun (lexeme_of token.now) }
{
    if is_word("entry", token) {
        return Turn::GoesOn(Open::Entry);
    }
    if is_word("edge", token) {
        return Turn::GoesOn(Open::Edge);
    }
    Turn::Refused
}

/// What the next token makes of a statement. The error is want of memory.
pub(crate) fn next_turn(alloc: Global, so_far: Open, token: &Token) -> Result<Turn, OutOfMemory>
    ensures { IfOk result (λ turn. turn ≡ turn_of so_far (lexeme_of token.now)) }
{
    match so_far {
        Open::Nothing => Ok(begun(token)),
        Open::Entry => {
            if !is_number(token.kind) {
                return Ok(Turn::Refused);
            }
            Ok(Turn::GoesOn(Open::Number(num_from(token))))
        }
        Open::Number(number) => {
            if !is_number(token.kind) {
                return Ok(Turn::Refused);
            }
            Ok(Turn::Says(Statement::Entry(number, value(token))))
        }
        Open::Edge => {
            if !is_constant(token.kind) {
                return Ok(Turn::Refused);
            }
            Ok(Turn::GoesOn(Open::Dim(name_from(alloc, token)?)))
        }
        Open::Dim(dim) => {
            if !is_constant(token.kind) {
                return Ok(Turn::Refused);
            }
            Ok(Turn::GoesOn(Open::Label(dim, name_from(alloc, token)?)))
        }
        Open::Label(dim, label) => {
            if !is_number(token.kind) {
                return Ok(Turn::Refused);
            }
            Ok(Turn::Says(Statement::Edge(dim, label, value(token))))
        }
    }
}

impl Open {
    /// Whether no statement has begun.
    pub(crate) fn is_nothing(&self) -> bool
        ensures { result ≡ is_nothing self.now }
    {
        match self {
            Open::Nothing => true,
            _ => false,
        }
    }
}
