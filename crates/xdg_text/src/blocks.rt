//! The blocks of analyses.

ghost use Rattle.std.specs.Prelude.{◌≡◌, ◌<◌, ◌≤◌, length, All};
ghost use Rattle.xdg_io.specs.Texts.{WritesText};
ghost use Rattle.xdg_problem.specs.Analyses.{IsAnalysis};
ghost use Rattle.xdg_text.specs.Blocks.{word_lines, value_at, node_lines, dim_lines, attr_lines, line_of_edge, edge_lines, body_lines};
ghost use Rattle.xdg_text.specs.Blocks.{head_lines, block, block2, shown};
ghost use Rattle.xdg_text.specs.Lines.{counts_line, word_line, attr_line};
ghost use Rattle.xdg_text.specs.Ranges.{HasValues, NodesHaveValues, DimsHaveValues, HasNames};

use crate::form::Form;
use crate::lines::{Word, write_inner_line, write_line};
use xdg_base::{EntryNo, Text};
use xdg_io::{Failed, Sink};
use xdg_problem::{Analysis, AttrPlan, DimPlan, Edge, Problem, SentenceWord};

/// Writes the line of a node with its word and its entry.
fn write_word_line<K: Sink>(
    node: usize,
    word: &SentenceWord,
    entry: EntryNo,
    sink: &mut K,
) -> Result<(), Failed>
    requires { node < 128 }
    ensures { WritesText result (K.held sink.old) (K.held sink.new) (K.faults sink.old) (K.faults sink.new) (word_line node word.now.text entry.0) }
{
    let words = [
        Word::Number(node as u64 + 1),
        Word::Quoted(word.text.as_str()),
        Word::Number(entry.0 as u64 + 1),
    ];
    write_inner_line("word", &words, sink)
}

/// Writes the lines of all nodes.
#[tactic(auto, using(xdg_io::proofs::Parts::loop_steps))]
fn write_word_lines<K: Sink>(
    words: &[SentenceWord],
    entries: &[EntryNo],
    sink: &mut K,
) -> Result<(), Failed>
    requires most { length words.now ≤ 128 }
    requires each { length entries.now ≡ length words.now }
    ensures { WritesText result (K.held sink.old) (K.held sink.new) (K.faults sink.old) (K.faults sink.new) (word_lines 0 words.now entries.now) }
{
    for (node, word) in words.iter().enumerate() {
        write_word_line(node, word, entries[node], sink)?;
    }
    Ok(())
}

/// Writes the line of an attribute of a node.
fn write_attr_line<'a, K: Sink>(
    dim: &'a Text,
    node: usize,
    attr: &'a AttrPlan,
    value: u16,
    sink: &mut K,
) -> Result<(), Failed>
    requires small { node < 128 }
    requires within { value < length attr.now.values }
    ensures { WritesText result (K.held sink.old) (K.held sink.new) (K.faults sink.old) (K.faults sink.new)
        (attr_line dim.now node attr.now.name (value_at attr.now value)) }
{
    let words = [
        Word::Constant(dim.as_str()),
        Word::Number(node as u64 + 1),
        Word::Constant(attr.name.as_str()),
        Word::Value(&attr.values.as_slice()[value as usize]),
    ];
    write_inner_line("attr", &words, sink)
}

/// Writes the lines of a node's attributes, whose values come first in the list.
#[tactic(auto, using(xdg_io::proofs::Parts::loop_steps))]
fn write_node_lines<K: Sink>(
    dim: &Text,
    node: usize,
    attrs: &[AttrPlan],
    values: &[u16],
    sink: &mut K,
) -> Result<(), Failed>
    requires small { node < 128 }
    requires within { HasValues attrs.now values.now }
    ensures { WritesText result (K.held sink.old) (K.held sink.new) (K.faults sink.old) (K.faults sink.new) (node_lines dim.now node attrs.now values.now) }
{
    for (at, attr) in attrs.iter().enumerate() {
        write_attr_line(dim, node, attr, values[at], sink)?;
    }
    Ok(())
}

/// Writes the lines of the attributes of a dimension, node by node.
#[tactic(auto, using(xdg_io::proofs::Parts::loop_steps))]
fn write_dim_lines<K: Sink>(
    dim: &DimPlan,
    nodes: usize,
    values: &[u16],
    sink: &mut K,
) -> Result<(), Failed>
    requires most { nodes ≤ 128 }
    requires within { NodesHaveValues dim.now.attrs nodes values.now }
    ensures { WritesText result (K.held sink.old) (K.held sink.new) (K.faults sink.old) (K.faults sink.new) (dim_lines dim.now 0 nodes values.now) }
{
    let attrs = dim.attrs.as_slice();
    let mut rest = values;
    for node in 0..nodes {
        write_node_lines(&dim.name, node, attrs, rest, sink)?;
        let (_, later) = rest.split_at(attrs.len());
        rest = later;
    }
    Ok(())
}

/// Writes the lines of all attributes, dimension by dimension.
#[tactic(auto, using(xdg_io::proofs::Parts::loop_steps))]
fn write_attr_lines<K: Sink>(
    dims: &[DimPlan],
    nodes: usize,
    values: &[u16],
    sink: &mut K,
) -> Result<(), Failed>
    requires most { nodes ≤ 128 }
    requires few { All (λ plan. length plan.attrs ≤ 8) dims.now }
    requires within { DimsHaveValues nodes dims.now values.now }
    ensures { WritesText result (K.held sink.old) (K.held sink.new) (K.faults sink.old) (K.faults sink.new) (attr_lines nodes dims.now values.now) }
{
    let mut rest = values;
    for dim in dims {
        write_dim_lines(dim, nodes, rest, sink)?;
        let (_, later) = rest.split_at(nodes * dim.attrs.len());
        rest = later;
    }
    Ok(())
}

/// Writes the line of an edge.
fn write_edge_line<K: Sink>(dims: &[DimPlan], edge: &Edge, sink: &mut K) -> Result<(), Failed>
    requires { HasNames dims.now edge.now }
    ensures { WritesText result (K.held sink.old) (K.held sink.new) (K.faults sink.old) (K.faults sink.new) (line_of_edge dims.now edge.now) }
{
    let dim = &dims[edge.dim.0 as usize];
    let label = &dim.labels.as_slice()[edge.label.0 as usize];
    let words = [
        Word::Constant(dim.name.as_str()),
        Word::Number(edge.mother.0 as u64 + 1),
        Word::Constant(label.as_str()),
        Word::Number(edge.daughter.0 as u64 + 1),
    ];
    write_inner_line("edge", &words, sink)
}

/// Writes the lines of edges in their order.
#[tactic(auto, using(xdg_io::proofs::Parts::loop_steps))]
fn write_edge_lines<K: Sink>(dims: &[DimPlan], edges: &[Edge], sink: &mut K) -> Result<(), Failed>
    requires { All (HasNames dims.now) edges.now }
    ensures { WritesText result (K.held sink.old) (K.held sink.new) (K.faults sink.old) (K.faults sink.new) (edge_lines dims.now edges.now) }
{
    for edge in edges {
        write_edge_line(dims, edge, sink)?;
    }
    Ok(())
}

/// Writes the lines of the words, of the attributes and of the edges, and the last line.
fn write_body<K: Sink>(
    words: &[SentenceWord],
    dims: &[DimPlan],
    entries: &[EntryNo],
    attrs: &[u16],
    edges: &[Edge],
    sink: &mut K,
) -> Result<(), Failed>
    requires most { length words.now ≤ 128 }
    requires few { All (λ plan. length plan.attrs ≤ 8) dims.now }
    requires entries { length entries.now ≡ length words.now }
    requires attrs { DimsHaveValues (length words.now) dims.now attrs.now }
    requires edges { All (HasNames dims.now) edges.now }
    ensures { WritesText result (K.held sink.old) (K.held sink.new) (K.faults sink.old) (K.faults sink.new)
        (body_lines words.now dims.now entries.now attrs.now edges.now) }
{
    write_word_lines(words, entries, sink)?;
    write_attr_lines(dims, words.len(), attrs, sink)?;
    write_edge_lines(dims, edges, sink)?;
    write_line("end", &[], sink)
}

/// Writes the line that tells how many lines of words, of attributes and of edges follow.
fn write_counts<K: Sink>(
    words: usize,
    attrs: usize,
    edges: usize,
    sink: &mut K,
) -> Result<(), Failed>
    ensures { WritesText result (K.held sink.old) (K.held sink.new) (K.faults sink.old) (K.faults sink.new) (counts_line words attrs edges) }
{
    let counts = [
        Word::Number(words as u64),
        Word::Number(attrs as u64),
        Word::Number(edges as u64),
    ];
    write_inner_line("counts", &counts, sink)
}

/// Writes the lines before those of the words.
fn write_head<K: Sink>(
    form: Form,
    number: u64,
    words: usize,
    attrs: usize,
    edges: usize,
    sink: &mut K,
) -> Result<(), Failed>
    ensures { WritesText result (K.held sink.old) (K.held sink.new) (K.faults sink.old) (K.faults sink.new) (head_lines form number words attrs edges) }
{
    let numbers = [Word::Number(number)];
    match form {
        Form::One => write_inner_line("analysis", &numbers, sink),
        Form::Two => {
            write_inner_line("xdg", &[Word::Number(2)], sink)?;
            write_inner_line("analysis", &numbers, sink)?;
            write_counts(words, attrs, edges, sink)
        }
    }
}

/// Writes the analysis that has these entries, attributes and edges, with its number. It takes no memory.
pub fn write_parts<K: Sink>(
    form: Form,
    problem: &Problem,
    number: u64,
    entries: &[EntryNo],
    attrs: &[u16],
    edges: &[Edge],
    sink: &mut K,
) -> Result<(), Failed>
    requires { IsAnalysis problem.now (record { entries = entries.now; attrs = attrs.now; edges = edges.now }) }
    ensures { WritesText result (K.held sink.old) (K.held sink.new) (K.faults sink.old) (K.faults sink.new)
        (shown form problem.now number (record { entries = entries.now; attrs = attrs.now; edges = edges.now })) }
{
    let parts = problem.parts();
    let words = parts.words.as_slice();
    let dims = parts.dims.as_slice();
    write_head(form, number, words.len(), attrs.len(), edges.len(), sink)?;
    write_body(words, dims, entries, attrs, edges, sink)
}

/// Writes an analysis with its number, which counts from 1. It takes no memory.
pub fn write_analysis<K: Sink>(
    form: Form,
    problem: &Problem,
    number: u64,
    analysis: &Analysis,
    sink: &mut K,
) -> Result<(), Failed>
    requires { IsAnalysis problem.now analysis.now }
    ensures { WritesText result (K.held sink.old) (K.held sink.new) (K.faults sink.old) (K.faults sink.new) (shown form problem.now number analysis.now) }
{
    write_parts(
        form,
        problem,
        number,
        analysis.entries.as_slice(),
        analysis.attrs.as_slice(),
        analysis.edges.as_slice(),
        sink,
    )
}

/// Writes the block of an analysis, whose number counts from 1. It takes no memory.
pub fn write<K: Sink>(
    problem: &Problem,
    number: u64,
    analysis: &Analysis,
    sink: &mut K,
) -> Result<(), Failed>
    requires { IsAnalysis problem.now analysis.now }
    ensures { WritesText result (K.held sink.old) (K.held sink.new) (K.faults sink.old) (K.faults sink.new) (block problem.now number analysis.now) }
{
    write_analysis(Form::One, problem, number, analysis, sink)
}

/// Writes the text 2 of an analysis, whose number counts from 1: a block that tells the number of the format first, and
/// then how many lines of words, of attributes and of edges it has. It takes no memory.
///
/// Called by trials alone: commands write a text by its form.
pub fn write2<K: Sink>(
    problem: &Problem,
    number: u64,
    analysis: &Analysis,
    sink: &mut K,
) -> Result<(), Failed>
    requires { IsAnalysis problem.now analysis.now }
    ensures { WritesText result (K.held sink.old) (K.held sink.new) (K.faults sink.old) (K.faults sink.new) (block2 problem.now number analysis.now) }
{
    write_analysis(Form::Two, problem, number, analysis, sink)
}
