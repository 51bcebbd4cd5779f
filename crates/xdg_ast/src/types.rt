//! Types.

use crate::names::{Name, Pair, Spanned};
use xdg_base::{Boxed, List};

/// A type as it is written.
pub type TypeTerm = Spanned<TypeKind>;

/// The forms of types.
#[derive(Debug, Drop)]
pub enum TypeKind {
    /// `{}`: the domain without constants, or the record without fields.
    Empty,
    /// `{a b}`: one or more constants.
    Domain(List<Name>),
    /// `{f: T g: U}`: one or more fields.
    Rec(List<Pair<TypeTerm>>),
    /// `tuple(T U)`: one or more fields.
    Tuple(List<TypeTerm>),
    /// `set(T)`.
    Set(Boxed<TypeTerm>),
    /// `iset(T)`.
    ISet(Boxed<TypeTerm>),
    /// `valency(T)`.
    Valency(Boxed<TypeTerm>),
    /// `map(T U)`.
    Map(Boxed<TypeTerm>, Boxed<TypeTerm>),
    /// `card`.
    Card,
    /// `bool`.
    Bool,
    /// `int`.
    Int,
    /// `string`.
    Str,
    /// The name of a type.
    Named(Name),
}
