//! Statements and whole grammars.

use crate::expressions::Expr;
use crate::names::{Name, Pair, Spanned};
use crate::terms::Term;
use crate::types::TypeTerm;
use xdg_base::{List, Span};

/// A grammar text as a tree, in this project's profile of the User Language of the XDG Development Kit.
#[derive(Debug, Drop)]
pub struct Grammar {
    /// The statements, in the order of the text.
    pub statements: List<Statement>,
    /// From the first token to the end of the last; of a text without tokens 0 to 0.
    pub span: Span,
}

/// A statement.
pub type Statement = Spanned<StatementKind>;

/// The forms of statements.
#[derive(Debug, Drop)]
pub enum StatementKind {
    /// `usedim d`.
    UseDim(Name),
    /// `defdim d {..}`.
    DefDim(Name, List<DimPart>),
    /// `defclass c P Q: t {e}`.
    DefClass {
        /// The name of the class.
        name: Name,
        /// Its parameters.
        params: List<ClassParam>,
        /// Its body, in which the parameters stand for terms.
        body: Expr,
    },
    /// `defentry {e}`.
    DefEntry(Expr),
}

/// A parameter of a class.
#[derive(Debug, Drop)]
pub struct ClassParam {
    /// Its name.
    pub name: Name,
    /// What it stands for where a use of the class leaves it out.
    pub preset: Option<Term>,
}

/// A part of the definition of a dimension.
pub type DimPart = Spanned<DimPartKind>;

/// The forms of such parts.
#[derive(Debug, Drop)]
pub enum DimPartKind {
    /// `deftype t T`.
    DefType(Name, TypeTerm),
    /// `deflabeltype T`.
    LabelType(TypeTerm),
    /// `defattrstype T`.
    AttrsType(TypeTerm),
    /// `defentrytype T`.
    EntryType(TypeTerm),
    /// `output o`.
    Output(Name),
    /// `useoutput o`.
    UseOutput(Name),
    /// `useprinciple p {dims {D: d} args {A: t}}`.
    UsePrinciple {
        /// The name of the principle.
        name: Name,
        /// Its dimensions.
        dims: List<Pair<Name>>,
        /// Its arguments, if `args` stands there.
        args: Option<List<Pair<Term>>>,
    },
}
