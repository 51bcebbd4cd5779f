//! Expressions: the bodies of classes and entries.

use crate::names::{Name, Pair, Spanned};
use crate::terms::Term;
use xdg_base::List;

/// An expression.
pub type Expr = Spanned<ExprKind>;

/// The forms of expressions. `&` binds closer than `|`.
#[derive(Debug, Drop)]
pub enum ExprKind {
    /// `a | b`: two or more.
    Or(List<Expr>),
    /// `a & b`, also written `a b`: two or more.
    And(List<Expr>),
    /// `dim d {f: t}`: what is said of features of a dimension.
    Dim(Name, List<Pair<Term>>),
    /// `c {P: t}`: the use of a class, with its arguments if braces stand there.
    Use(Name, Option<List<Pair<Term>>>),
}
