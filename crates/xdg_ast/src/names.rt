//! What all trees are made of.

use xdg_base::{Span, Text};

/// A part of a text with the place where it stands.
#[derive(Debug, Drop)]
pub struct Spanned<T> {
    /// What it is.
    pub kind: T,
    /// From its first token to the end of its last.
    pub span: Span,
}

/// A constant, or the name of a parameter.
#[derive(Debug, Drop)]
pub struct Name {
    /// Its characters: of a quoted text those between the marks, with escapes undone. At most 127 bytes.
    pub text: Text,
    /// Where it stands.
    pub span: Span,
}

/// A number of a cardinality.
#[derive(Clone, Copy, Debug)]
pub struct Num {
    /// Its value.
    pub value: u32,
    /// Where it stands.
    pub span: Span,
}

/// `key: value`.
#[derive(Debug, Drop)]
pub struct Pair<T> {
    /// What stands before the colon.
    pub key: Name,
    /// What stands behind it.
    pub value: T,
}
