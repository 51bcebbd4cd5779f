//! Tokens and their kinds.

ghost use Rattle.std.specs.Prelude.{◌≡◌};
ghost use Rattle.xdg_ast.specs.Kinds.{sign_of, keyword_of, refined};
ghost use Rattle.xdg_ast.specs.Canon.{keyword_text};

use xdg_base::{Span, keyword_at, keyword_place};

/// What a token is.
#[derive(Clone, Copy, Debug, PartialEq, Eq)]
pub enum Kind {
    /// A name that is no keyword.
    Name,
    /// A text between quotation marks, which may hold any character.
    Quoted,
    /// A run of digits, at most 4,294,967,295.
    Number,
    /// The keyword `defdim`.
    DefDim,
    /// The keyword `deftype`.
    DefType,
    /// The keyword `deflabeltype`.
    DefLabelType,
    /// The keyword `defattrstype`.
    DefAttrsType,
    /// The keyword `defentrytype`.
    DefEntryType,
    /// The keyword `useprinciple`.
    UsePrinciple,
    /// The keyword `dims`.
    Dims,
    /// The keyword `args`.
    Args,
    /// The keyword `output`.
    Output,
    /// The keyword `useoutput`.
    UseOutput,
    /// The keyword `defclass`.
    DefClass,
    /// The keyword `defentry`.
    DefEntry,
    /// The keyword `dim`.
    Dim,
    /// The keyword `usedim`.
    UseDim,
    /// The keyword `tuple`.
    Tuple,
    /// The keyword `set`.
    Set,
    /// The keyword `iset`.
    ISet,
    /// The keyword `valency`.
    Valency,
    /// The keyword `map`.
    Map,
    /// The keyword `card`.
    Card,
    /// The keyword `bool`.
    Bool,
    /// The keyword `int`.
    Int,
    /// The keyword `string`.
    String,
    /// The sign `{`.
    LeftBrace,
    /// The sign `}`.
    RightBrace,
    /// The sign `(`.
    LeftParenthesis,
    /// The sign `)`.
    RightParenthesis,
    /// The sign `[`.
    LeftBracket,
    /// The sign `]`.
    RightBracket,
    /// The sign `:`.
    Colon,
    /// The sign `&`.
    Ampersand,
    /// The sign `|`.
    Bar,
    /// The sign `$`.
    Dollar,
    /// The sign `#`.
    Hash,
    /// The sign `!`.
    Exclamation,
    /// The sign `?`.
    Question,
    /// The sign `*`.
    Star,
    /// The sign `+`.
    Plus,
}

/// A piece of a text that means something by itself.
#[derive(Clone, Copy, Debug)]
pub struct Token<'a> {
    /// What it is.
    pub kind: Kind,
    /// How it is spelled: the text at its span, with the quotation marks of a quoted text.
    pub text: &'a str,
    /// Where it stands, in bytes from the start of the text.
    pub span: Span,
}

/// The sign that a character is.
#[tactic(auto, unfolding(crate::specs::Kinds::sign_of))]
pub fn sign_of(c: char) -> Option<Kind>
    ensures { result ≡ sign_of c }
{
    match c {
        '{' => Some(Kind::LeftBrace),
        '}' => Some(Kind::RightBrace),
        '(' => Some(Kind::LeftParenthesis),
        ')' => Some(Kind::RightParenthesis),
        '[' => Some(Kind::LeftBracket),
        ']' => Some(Kind::RightBracket),
        ':' => Some(Kind::Colon),
        '&' => Some(Kind::Ampersand),
        '|' => Some(Kind::Bar),
        '$' => Some(Kind::Dollar),
        '#' => Some(Kind::Hash),
        '!' => Some(Kind::Exclamation),
        '?' => Some(Kind::Question),
        '*' => Some(Kind::Star),
        '+' => Some(Kind::Plus),
        _ => None,
    }
}

/// The kinds of the keywords, in the order of the table of keywords.
const KEYWORD_KINDS: [Kind; 23] = [
    Kind::DefDim,
    Kind::DefType,
    Kind::DefLabelType,
    Kind::DefAttrsType,
    Kind::DefEntryType,
    Kind::UsePrinciple,
    Kind::Dims,
    Kind::Args,
    Kind::Output,
    Kind::UseOutput,
    Kind::DefClass,
    Kind::DefEntry,
    Kind::Dim,
    Kind::UseDim,
    Kind::Tuple,
    Kind::Set,
    Kind::ISet,
    Kind::Valency,
    Kind::Map,
    Kind::Card,
    Kind::Bool,
    Kind::Int,
    Kind::String,
];

/// The keyword that a name is.
pub fn keyword_of(name: &str) -> Option<Kind>
    ensures { result ≡ keyword_of name.now }
{
    match keyword_place(name) {
        Some(place) => Some(KEYWORD_KINDS[place]),
        None => None,
    }
}

impl Kind {
    /// How a keyword is spelled. Of other kinds it tells nothing.
    pub fn keyword(self) -> &'static str
        ensures { result.now ≡ keyword_text self }
    {
        let place = (self as usize).wrapping_sub(Kind::DefDim as usize);
        if place < KEYWORD_KINDS.len() {
            keyword_at(place)
        } else {
            ""
        }
    }
}

/// The kind of a token that is a name, a keyword or something else, by its text.
pub fn refined(kind: Kind, text: &str) -> Kind
    ensures { result ≡ refined kind text.now }
{
    match kind {
        Kind::Name => match keyword_of(text) {
            Some(keyword) => keyword,
            None => Kind::Name,
        },
        other => other,
    }
}
