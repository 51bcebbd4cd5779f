//! What an analysis text says, line by line.

use xdg_base::{EntryNo, List, NodeId, Text};
use xdg_problem::{SentenceWord, Shown};

/// The line of an attribute of a node.
#[derive(Debug, Drop)]
pub struct AttrLine {
    /// The name of the dimension.
    pub dim: Text,
    pub node: NodeId,
    /// The name of the attribute.
    pub attr: Text,
    pub value: Shown,
    /// The byte place of the line's first character, from 0.
    pub at: u32,
}

/// The line of an edge.
#[derive(Debug, Drop)]
pub struct EdgeLine {
    /// The name of the dimension.
    pub dim: Text,
    pub mother: NodeId,
    pub label: Text,
    pub daughter: NodeId,
    /// The byte place of the line's first character, from 0.
    pub at: u32,
}

/// The lines of an analysis text, in their order. The place of a word is that of its line.
#[derive(Debug, Drop)]
pub struct AnalysisText {
    pub words: List<SentenceWord>,
    /// The entry of each word.
    pub entries: List<EntryNo>,
    pub attrs: List<AttrLine>,
    pub edges: List<EdgeLine>,
    /// The byte place of the last line, from 0.
    pub end: u32,
}
