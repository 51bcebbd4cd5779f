//! What tokens stand for.

ghost use Rattle.std.specs.Prelude.{◌≡◌, IfOk};
ghost use Rattle.std.specs.String.{string_bytes};
ghost use Rattle.xdg_ast.specs.Contents.{unquoted, content_of, value_of};

use std::alloc::Global;
use xdg_ast::{Kind, Token};
use xdg_base::{OutOfMemory, Text};

/// A quoted text without its marks, its escapes undone.
fn unquoted(alloc: Global, text: &str) -> Result<String, OutOfMemory>
    ensures { IfOk result (λ made. string_bytes made ≡ unquoted text.now) }
{
    let mut made = String::new(alloc);
    let mut escaped = false;
    for c in text.chars() {
        if escaped {
            made.push(c)?;
            escaped = false;
        } else if c == '\\' {
            escaped = true;
        } else if c != '"' {
            made.push(c)?;
        }
    }
    Ok(made)
}

/// What a token stands for: the inside of a quoted text, where `\"` and `\\` are `"` and `\`, and any other token as it
/// is spelled. So a name and the quoted text of the same characters have the same content.
pub fn content(alloc: Global, token: &Token) -> Result<Text, OutOfMemory>
    ensures { IfOk result (λ text. text ≡ content_of token.now.kind token.now.text.now) }
{
    match token.kind {
        Kind::Quoted => {
            let inside = unquoted(alloc, token.text)?;
            Text::from_str(alloc, inside.as_str())
        }
        _ => Text::from_str(alloc, token.text),
    }
}

/// The value of a number, at most 4,294,967,295. It is of use for tokens of the kind [`Kind::Number`] alone.
#[tactic(auto, unfolding(xdg_ast::specs::Contents::value_of))]
pub fn value(token: &Token) -> u32
    ensures { result ≡ value_of token.now.text.now }
{
    let mut value: u32 = 0;
    for digit in token.text.as_bytes() {
        value = value
            .saturating_mul(10)
            .saturating_add(u32::from(digit.saturating_sub(48)));
    }
    value
}
