//! The tokens of grammar texts, and the trees that they stand for.
#![tactic(auto)]

mod comparing;
mod expressions;
mod grammar;
mod names;
mod params;
mod terms;
mod token;
mod types;

pub use comparing::same;
pub use expressions::{Expr, ExprKind};
pub use grammar::{ClassParam, DimPart, DimPartKind, Grammar, Statement, StatementKind};
pub use names::{Name, Num, Pair, Spanned};
pub use params::Params;
pub use terms::{CardKind, CardTerm, Elem, ElemKind, Gen, GenKind, Term, TermKind};
pub use token::{Kind, Token, keyword_of, refined, sign_of};
pub use types::{TypeKind, TypeTerm};
