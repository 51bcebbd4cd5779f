//! Terms.

use crate::names::{Name, Num, Spanned};
use xdg_base::{Boxed, List};

/// A term: what is said of a feature, an argument or a parameter.
pub type Term = Spanned<TermKind>;

/// The forms of terms.
#[cycle(term)]
#[derive(Debug, Drop)]
pub enum TermKind {
    /// A constant.
    Const(Name),
    /// A parameter of the class in which the term stands.
    Param(Name),
    /// A number.
    Number(u32),
    /// A cardinality.
    Card(CardTerm),
    /// `{..}`: elements.
    Braces(List<Elem>),
    /// `[a b]`: constants.
    Tuple(List<Name>),
    /// `$ a & b`: a generator of tuples.
    Gen(Gen),
}

/// An element of a term in braces.
pub type Elem = Spanned<ElemKind>;

/// The forms of elements.
#[cycle(term)]
#[derive(Debug, Drop)]
pub enum ElemKind {
    /// `a!`: a constant with a cardinality.
    Count(Name, CardTerm),
    /// `a: t`: a constant with a term.
    Keyed(Name, Boxed<Term>),
    /// A constant.
    Const(Name),
    /// `[a b]`: constants.
    Tuple(List<Name>),
}

/// A cardinality: how many may come.
pub type CardTerm = Spanned<CardKind>;

/// The forms of cardinalities.
#[derive(Debug, Drop)]
pub enum CardKind {
    /// `!`: one.
    One,
    /// `?`: none or one.
    Maybe,
    /// `*`: any number.
    Any,
    /// `+`: one or more.
    Some1,
    /// `#{1 3}`: these numbers.
    Numbers(List<Num>),
    /// `#[1 3]`: from the first number to the second.
    Interval(Num, Num),
}

/// A generator: the tuples that have each named constant in some field.
pub type Gen = Spanned<GenKind>;

/// The forms of generators. `&` binds closer than `|`.
#[derive(Debug, Drop)]
pub enum GenKind {
    /// A constant.
    Const(Name),
    /// `a & b`: two or more.
    And(List<Gen>),
    /// `a | b`: two or more.
    Or(List<Gen>),
}
