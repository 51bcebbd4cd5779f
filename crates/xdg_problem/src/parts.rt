//! The parts of a compiled sentence.

use crate::costs::Costs;
use crate::formula::Formula;
use crate::numbers::Nums;
use crate::shared::SharedList;
use xdg_base::{AttrId, DimId, EntryNo, LabelId, List, Text};

/// A word of the sentence.
#[derive(Debug, Drop)]
pub struct SentenceWord {
    pub text: Text,
    /// The byte place of its first character in the sentence, from 0.
    pub at: u32,
}

/// How a value of an attribute is printed: one constant, or those of a tuple.
#[derive(Debug, Drop)]
pub enum Shown {
    /// One constant.
    One(Text),
    /// Those of a tuple, in its order.
    Many(List<Text>),
}

/// An attribute of a dimension: its name, and its values in the order of its type.
#[derive(Debug, Drop)]
pub struct AttrPlan {
    pub name: Text,
    pub values: List<Shown>,
}

/// A used dimension: its name, its edge labels and attributes in the order of their types, and whether it
/// has edges, that is whether `principle.graph` is used on it.
#[derive(Debug, Drop)]
pub struct DimPlan {
    pub name: Text,
    pub labels: List<Text>,
    pub attrs: List<AttrPlan>,
    pub graph: bool,
}

/// A compiled feature. That of a set has one row, its members; that of a valency or a map has a row for each label, the
/// numbers of its cardinality or the members of its set there.
#[derive(Debug, Drop)]
pub struct Feat {
    pub rows: SharedList<Nums>,
}

/// How a principle links a daughter v of u on D1 to u by edges of D2, which have one of some labels.
#[derive(Clone, Copy, Debug)]
pub enum Linking {
    /// v has a mother.
    End,
    /// v is a daughter of u.
    Daughter,
    /// v is a mother of u.
    Mother,
    /// v is below u, by a path that starts with one of the labels.
    BelowStart,
    /// v is above u, by a path that starts with one of the labels.
    AboveStart,
    /// v has a mother in common with u, and is its daughter under one of the labels.
    Sisters,
}

/// A principle (Debusmann 2006, chapters 4 and 7). D is its dimension, D1 and D2 are its first and second one; u and v are
/// nodes, and u -l-> v is an edge with label l from u to v. A set that belongs to a node is a feature of its entry.
#[derive(Debug, Drop)]
pub enum Principle {
    /// D has edges. This alone asks nothing more.
    Graph,
    /// It asks nothing.
    Entries,
    /// The edges of D make a tree: no cycle, one node without mother, and no node with two mothers.
    Tree,
    /// D has no cycle; if asked for, one node without mother, and no two labels from one node to another.
    Dag,
    /// The numbers of edges in and out of a node go by the cardinalities of its entry, label by label.
    Valency,
    /// The daughters of a node, and the node itself, stand in the sentence in the order of their labels.
    Order,
    /// What stands between a mother and its daughter is below the mother, so no edge crosses a projection line.
    Projectivity,
    /// A node has a value that its entry allows.
    Agr,
    /// At the labels that the entry of the mother names, mother and daughter have the same value.
    Agreement,
    /// At the labels for which the entry of the mother has values, the daughter has one of them.
    Government,
    /// What is below a node on D1 is below it on D2, so D2 is at most flatter.
    Climbing,
    /// A node blocks what it has below it on D2 under certain labels: that stays below it on D1 too.
    Barriers,
    /// A daughter v on D1 has a mother on D2 under one of the labels that u links to it.
    LinkingEnd,
    /// A daughter v of u on D1 is a daughter of u on D2, under one of the labels that u links to it.
    LinkingDaughter,
    /// A daughter v of u on D1 is a mother of u on D2, under one of the labels that u links to it.
    LinkingMother,
    /// A daughter v of u on D1 is below u on D2, by a path that starts with one of the labels that u links to it.
    LinkingBelowStart,
    /// A daughter v of u on D1 is above u on D2, by a path that starts with one of the labels that u links to it.
    LinkingAboveStart,
    /// A daughter v of u on D1 has a mother on D2 in common with u, under one of the labels that u links to it.
    LinkingSisters,
    /// A daughter v of u on D1 is no daughter of u on D2, at the labels that u names.
    LinkingNotDaughter,
    /// The formula of a user is true. No grammar text uses it.
    Rule(Formula),
    /// The cost is below a bound. No grammar text uses it.
    Bound(Costs, u64),
}

/// One use of a principle, with its dimensions and arguments in the order in which the principle names them (the page
/// of the principles, docs/principles.md, has the list).
#[derive(Debug, Drop)]
pub struct Group {
    pub principle: Principle,
    pub dims: List<DimId>,
    pub attrs: List<AttrId>,
    /// The labels of the argument `Order`.
    pub order: List<LabelId>,
    pub truths: List<bool>,
    /// For each node, in it for each candidate entry, in it for each feature argument, the feature. Nodes with the same candidates
    /// share theirs.
    pub feats: List<SharedList<List<Feat>>>,
}

/// What a problem is made of.
#[derive(Debug, Drop)]
pub struct Parts {
    /// The words, one for each node.
    pub words: List<SentenceWord>,
    /// For each node the entries of its word, rising.
    pub candidates: List<SharedList<EntryNo>>,
    /// The used dimensions, in the order of their `usedim` statements.
    pub dims: SharedList<DimPlan>,
    /// The principle uses of the used dimensions, in text order.
    pub groups: List<Group>,
}
