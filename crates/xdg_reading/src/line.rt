//! The lines of an analysis text.

ghost use Rattle.std.specs.Prelude.{◌≡◌, ◌<◌, ◌≤◌, chars};
ghost use Rattle.xdg_reading.specs.Lines.{node_at, analysis_at, counts_at, word_at, attr_at, edge_at, line_at};
ghost use Rattle.xdg_reading.specs.Pieces.{Reads};

use crate::cursor::{Cursor, Why};
use crate::texts::{AttrLine, EdgeLine};
use crate::words::{constant, number, ordinal, quoted, shown};
use std::alloc::Global;
use xdg_base::{EntryNo, NodeId};
use xdg_problem::SentenceWord;

/// The greatest number that an analysis may have.
const LAST_NUMBER: u64 = 2_000_000_000_000;

/// How many words a sentence may have.
const MOST_WORDS: u64 = 128;

/// The greatest number of an entry, and the greatest of a count.
const GREATEST: u64 = 4_294_967_295;

/// A line of an analysis text, of which the contracts speak. Its nodes and entries count from 0.
#[derive(Debug, Drop)]
pub enum Line {
    /// The first line of text 2.
    Version,
    /// The line with the number of the analysis.
    Analysis(u64),
    /// The numbers of the lines of words, of attributes and of edges that follow.
    Counts(u64, u64, u64),
    /// A node, its word, which has the place of the line, and its entry.
    Word(NodeId, SentenceWord, EntryNo),
    /// What a node has for an attribute.
    Attr(AttrLine),
    /// An edge.
    Edge(EdgeLine),
    /// The last line.
    End,
}

/// The number of a node, up to an end.
#[tactic(auto, unfolding(crate::specs::Lines::node_at))]
fn node(cursor: &mut Cursor<'_>, end: char) -> Result<NodeId, Why>
    requires { end < 128 }
    ensures { Reads (node_at end cursor.old) result cursor.new }
{
    let number = ordinal(cursor, end, MOST_WORDS)?;
    Ok(NodeId(number as u8))
}

/// The rest of the line with the number of the analysis.
#[tactic(auto, unfolding(crate::specs::Lines::analysis_at))]
fn analysis_line(cursor: &mut Cursor<'_>) -> Result<Line, Why>
    ensures { Reads (analysis_at cursor.old) result cursor.new }
{
    let number = number(cursor, '\n', 1, LAST_NUMBER)?;
    Ok(Line::Analysis(number))
}

/// The rest of the line of counts.
#[tactic(auto, unfolding(crate::specs::Lines::counts_at))]
fn counts_line(cursor: &mut Cursor<'_>) -> Result<Line, Why>
    ensures { Reads (counts_at cursor.old) result cursor.new }
{
    let words = number(cursor, ' ', 1, MOST_WORDS)?;
    let attrs = number(cursor, ' ', 0, GREATEST)?;
    let edges = number(cursor, '\n', 0, GREATEST)?;
    Ok(Line::Counts(words, attrs, edges))
}

/// The rest of the line of a word, which begins at a place.
#[tactic(auto, unfolding(crate::specs::Lines::word_at))]
fn word_line(alloc: Global, cursor: &mut Cursor<'_>, at: u32) -> Result<Line, Why>
    ensures { Reads (word_at at cursor.old) result cursor.new }
{
    let node = node(cursor, ' ')?;
    let text = quoted(alloc, cursor, ' ')?;
    let entry = ordinal(cursor, '\n', GREATEST)?;
    let word = SentenceWord { text, at };
    Ok(Line::Word(node, word, EntryNo(entry as u32)))
}

/// The rest of the line of an attribute, which begins at a place.
#[tactic(auto, unfolding(crate::specs::Lines::attr_at))]
fn attr_line(alloc: Global, cursor: &mut Cursor<'_>, at: u32) -> Result<Line, Why>
    ensures { Reads (attr_at at cursor.old) result cursor.new }
{
    let dim = constant(alloc, cursor, ' ')?;
    let node = node(cursor, ' ')?;
    let attr = constant(alloc, cursor, ' ')?;
    let value = shown(alloc, cursor)?;
    Ok(Line::Attr(AttrLine {
        dim,
        node,
        attr,
        value,
        at,
    }))
}

/// The rest of the line of an edge, which begins at a place.
#[tactic(auto, unfolding(crate::specs::Lines::edge_at))]
fn edge_line(alloc: Global, cursor: &mut Cursor<'_>, at: u32) -> Result<Line, Why>
    ensures { Reads (edge_at at cursor.old) result cursor.new }
{
    let dim = constant(alloc, cursor, ' ')?;
    let mother = node(cursor, ' ')?;
    let label = constant(alloc, cursor, ' ')?;
    let daughter = node(cursor, '\n')?;
    Ok(Line::Edge(EdgeLine {
        dim,
        mother,
        label,
        daughter,
        at,
    }))
}

/// The line that stands there, which begins at a place.
#[tactic(auto, unfolding(crate::specs::Lines::line_at))]
pub(crate) fn read_line(alloc: Global, cursor: &mut Cursor<'_>, at: u32) -> Result<Line, Why>
    ensures { Reads (line_at at cursor.old) result cursor.new }
{
    if cursor.skip("word ") {
        return word_line(alloc, cursor, at);
    }
    if cursor.skip("attr ") {
        return attr_line(alloc, cursor, at);
    }
    if cursor.skip("edge ") {
        return edge_line(alloc, cursor, at);
    }
    if cursor.skip("end\n") {
        return Ok(Line::End);
    }
    if cursor.skip("analysis ") {
        return analysis_line(cursor);
    }
    if cursor.skip("counts ") {
        return counts_line(cursor);
    }
    if cursor.skip("xdg 2\n") {
        return Ok(Line::Version);
    }
    Err(Why::Offends)
}
