//! The tokens of a rules text, each with the kind that it has in rules.
//!
//! The words of rules, such as `rule`, are names of grammar texts, and the keywords of grammars mean nothing in rules. So the kind of a
//! keyword stands for each word here, and each keyword has the kind of a number, which no rule takes.

ghost use Rattle.std.specs.Prelude.{◌≡◌, IfOk};
ghost use Rattle.xdg_ast.specs.Lexemes.{lexemes_of};
ghost use Rattle.xdg_formula.specs.Words.{word_of, kind_in_rules, seen_all};

use std::alloc::Global;
use xdg_ast::{Kind, Token};
use xdg_base::{List, OutOfMemory};

/// The kind of the word `rule`.
pub(crate) const RULE: Kind = Kind::DefEntry;
/// The kind of the word `all`.
pub(crate) const ALL: Kind = Kind::Set;
/// The kind of the word `some`.
pub(crate) const SOME: Kind = Kind::ISet;
/// The kind of the word `edge`.
pub(crate) const EDGE: Kind = Kind::Dim;
/// The kind of the word `above`.
pub(crate) const ABOVE: Kind = Kind::UseDim;
/// The kind of the word `left`.
pub(crate) const LEFT: Kind = Kind::Tuple;
/// The kind of the word `same`.
pub(crate) const SAME: Kind = Kind::Map;
/// The kind of the word `attr`.
pub(crate) const ATTR: Kind = Kind::DefAttrsType;
/// The kind of the word `feat`.
pub(crate) const FEAT: Kind = Kind::DefEntryType;
/// The kind of a keyword, which no rule takes.
const NO_WORD: Kind = Kind::Number;

/// The kind of a name in rules.
#[tactic(auto, unfolding(crate::specs::Words::word_of))]
fn word_of(name: &str) -> Kind
    ensures { result ≡ word_of name.now }
{
    match name {
        "rule" => RULE,
        "all" => ALL,
        "some" => SOME,
        "edge" => EDGE,
        "above" => ABOVE,
        "left" => LEFT,
        "same" => SAME,
        "attr" => ATTR,
        "feat" => FEAT,
        _ => Kind::Name,
    }
}

/// The kind of a token in rules, by its kind and its text.
#[tactic(auto, unfolding(crate::specs::Words::kind_in_rules))]
fn kind_in_rules(kind: Kind, text: &str) -> Kind
    ensures { result ≡ kind_in_rules kind text.now }
{
    match kind {
        Kind::Name => word_of(text),
        Kind::Quoted => Kind::Quoted,
        Kind::Number => Kind::Number,
        Kind::LeftBrace => Kind::LeftBrace,
        Kind::RightBrace => Kind::RightBrace,
        Kind::LeftParenthesis => Kind::LeftParenthesis,
        Kind::RightParenthesis => Kind::RightParenthesis,
        Kind::LeftBracket => Kind::LeftBracket,
        Kind::RightBracket => Kind::RightBracket,
        Kind::Colon => Kind::Colon,
        Kind::Ampersand => Kind::Ampersand,
        Kind::Bar => Kind::Bar,
        Kind::Dollar => Kind::Dollar,
        Kind::Hash => Kind::Hash,
        Kind::Exclamation => Kind::Exclamation,
        Kind::Question => Kind::Question,
        Kind::Star => Kind::Star,
        Kind::Plus => Kind::Plus,
        _ => NO_WORD,
    }
}

/// The tokens as they are seen in rules. The error is want of memory.
#[tactic(auto, using(crate::proofs::SeenTokens::next_seen))]
pub(crate) fn seen_all<'a>(
    alloc: Global,
    tokens: &[Token<'a>],
) -> Result<List<Token<'a>>, OutOfMemory>
    ensures { IfOk result (λ seen. lexemes_of seen ≡ seen_all (lexemes_of tokens.now)) }
{
    let mut seen = List::new(alloc);
    for token in tokens {
        seen.push(Token {
            kind: kind_in_rules(token.kind, token.text),
            text: token.text,
            span: token.span,
        })?;
    }
    Ok(seen)
}
