//! The trees of rules texts.

use xdg_ast::{Name, Spanned, Term};
use xdg_base::{Boxed, List, Span};

/// A rules text.
#[derive(Debug, Drop)]
pub struct Rules {
    /// Its rules, in order.
    pub rules: List<Rule>,
}

/// A rule: a formula with a name.
#[derive(Debug, Drop)]
pub struct Rule {
    /// What it is called.
    pub name: Name,
    /// The formula.
    pub body: RuleTerm,
    /// Where the word `rule` stands, in bytes from the start of the text.
    pub at: u32,
}

/// A formula.
pub type RuleTerm = Spanned<RuleKind>;

/// The forms of formulas. `!` binds closer than `&`, and `&` closer than `|`. A formula in brackets is that formula.
#[derive(Debug, Drop)]
pub enum RuleKind {
    /// `a | b`: two or more.
    Or(List<RuleTerm>),
    /// `a & b`: two or more.
    And(List<RuleTerm>),
    /// `!a` or `!!a`: a run of signs before one formula, with the place of each sign, in order; one or more. The formula has no sign
    /// of its own before it, so that `!!a` is one node with two signs, and `!(!a)` two nodes with one sign each. A run may be as long
    /// as the text, and the tree is no deeper for it.
    Not(List<Span>, Boxed<RuleTerm>),
    /// `all x (a)`: each node, by this name.
    Every(Name, Boxed<RuleTerm>),
    /// `some x (a)`: some node, by this name.
    Any(Name, Boxed<RuleTerm>),
    /// `edge(D x l y)`.
    Edge {
        /// The dimension.
        dim: Name,
        /// The node from which the edge leads.
        mother: Name,
        /// Its label.
        label: Name,
        /// The node to which it leads.
        daughter: Name,
    },
    /// `above(D x y)`.
    Above {
        /// The dimension.
        dim: Name,
        /// The node above.
        upper: Name,
        /// The node below.
        lower: Name,
    },
    /// `left(x y)`: the first node stands before the second.
    Left(Name, Name),
    /// `same(x y)`: they are one node.
    Same(Name, Name),
    /// `attr(x D A c)`.
    Attr {
        /// The node.
        node: Name,
        /// The dimension.
        dim: Name,
        /// The attribute.
        attr: Name,
        /// The value that it has: a constant, or constants in square brackets.
        value: Term,
    },
    /// `feat(x D F c)`.
    Feat {
        /// The node.
        node: Name,
        /// The dimension.
        dim: Name,
        /// The feature.
        feature: Name,
        /// The value that it has, or has as a member: a constant, or constants in square brackets.
        value: Term,
    },
}
