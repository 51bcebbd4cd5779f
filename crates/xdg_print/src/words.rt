//! Words as they are written.

ghost use Rattle.std.specs.Prelude.{◌≡◌, ◌++◌, OnOk};
ghost use Rattle.std.specs.Char.{encode_utf8};
ghost use Rattle.std.specs.List.{flat_map};
ghost use Rattle.xdg_base.specs.Spelling.{escaped};
ghost use Rattle.xdg_ast.specs.Words.{mark};
ghost use Rattle.xdg_ast.specs.Canon.{spelling, is_tight_behind, is_tight_before, takes_types, is_tight};

use xdg_ast::Kind;
use xdg_base::{OutOfMemory, Text};

/// How a keyword or a sign is spelled, and a constant or a number that says nothing.
#[tactic(auto, unfolding(xdg_ast::specs::Canon::spelling))]
pub(crate) fn mark_text(kind: Kind) -> &'static str
    ensures { result.now ≡ spelling (mark kind) }
{
    match kind {
        Kind::Name => "",
        Kind::Quoted => "\"\"",
        Kind::Number => "0",
        Kind::LeftBrace => "{",
        Kind::RightBrace => "}",
        Kind::LeftParenthesis => "(",
        Kind::RightParenthesis => ")",
        Kind::LeftBracket => "[",
        Kind::RightBracket => "]",
        Kind::Colon => ":",
        Kind::Ampersand => "&",
        Kind::Bar => "|",
        Kind::Dollar => "$",
        Kind::Hash => "#",
        Kind::Exclamation => "!",
        Kind::Question => "?",
        Kind::Star => "*",
        Kind::Plus => "+",
        _ => kind.keyword(),
    }
}

/// Whether no space stands behind such a word.
fn is_tight_behind(kind: Kind) -> bool
    ensures { result ≡ is_tight_behind kind }
{
    matches!(
        kind,
        Kind::LeftBrace | Kind::LeftParenthesis | Kind::LeftBracket | Kind::Hash
    )
}

/// Whether no space stands before such a word.
fn is_tight_before(kind: Kind) -> bool
    ensures { result ≡ is_tight_before kind }
{
    matches!(
        kind,
        Kind::RightBrace
            | Kind::RightParenthesis
            | Kind::RightBracket
            | Kind::Colon
            | Kind::Exclamation
            | Kind::Question
            | Kind::Star
            | Kind::Plus
    )
}

/// Whether it is the word of a type before its brackets.
fn takes_types(kind: Kind) -> bool
    ensures { result ≡ takes_types kind }
{
    matches!(
        kind,
        Kind::Tuple | Kind::Set | Kind::ISet | Kind::Valency | Kind::Map
    )
}

/// Whether no space stands between the two.
pub(crate) fn is_tight(one: Kind, other: Kind) -> bool
    ensures { result ≡ is_tight one other }
{
    is_tight_behind(one)
        || is_tight_before(other)
        || (takes_types(one) && matches!(other, Kind::LeftParenthesis))
}

/// Adds a character, with a backslash before it if it is a quotation mark or a backslash.
fn push_character(text: &mut Text, c: char) -> Result<(), OutOfMemory>
    ensures { OnOk result (text.new ≡ text.old ++ flat_map escaped (encode_utf8 c)) }
{
    if c == '"' {
        return text.push_str("\\\"");
    }
    if c == '\\' {
        return text.push_str("\\\\");
    }
    let mut buffer = [0; 4];
    text.push_str(c.encode_utf8(&mut buffer))
}

/// Adds a text with a backslash before each quotation mark and each backslash.
pub(crate) fn push_escaped(text: &mut Text, characters: &str) -> Result<(), OutOfMemory>
    ensures { OnOk result (text.new ≡ text.old ++ flat_map escaped characters.now) }
{
    for c in characters.chars() {
        push_character(text, c)?;
    }
    Ok(())
}
