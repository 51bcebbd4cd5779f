//! Which line may come next.

ghost use Rattle.std.specs.Prelude.{◌≡◌};
ghost use Rattle.xdg_reading.specs.Stages.{begins, numbered, counted, after_words, after_attrs, after_edges, after_left, next, has_ended};

use crate::line::Line;

/// How far a text has been read, of which the contracts speak.
#[derive(Clone, Copy, Debug)]
pub enum Stage {
    /// Nothing has been read.
    Start,
    /// Behind the first line of text 2.
    Second,
    /// Behind the second line of text 2.
    Numbered,
    /// In text 1 behind so many words.
    Words(u64),
    /// In text 1 behind an attribute.
    Attrs,
    /// In text 1 behind an edge.
    Edges,
    /// In text 2 behind so many words; so many words, attributes and edges are left.
    Left(u64, u64, u64, u64),
    /// Behind the last line.
    Ended,
}

fn begins(line: &Line) -> Option<Stage>
    ensures { result ≡ begins line.now }
{
    match line {
        Line::Version => Some(Stage::Second),
        Line::Analysis(_) => Some(Stage::Words(0)),
        _ => None,
    }
}

fn numbered(line: &Line) -> Option<Stage>
    ensures { result ≡ numbered line.now }
{
    match line {
        Line::Analysis(_) => Some(Stage::Numbered),
        _ => None,
    }
}

fn counted(line: &Line) -> Option<Stage>
    ensures { result ≡ counted line.now }
{
    match line {
        Line::Counts(words, attrs, edges) => Some(Stage::Left(0, *words, *attrs, *edges)),
        _ => None,
    }
}

fn after_words(read: u64, line: &Line) -> Option<Stage>
    ensures { result ≡ after_words read line.now }
{
    match line {
        Line::Word(node, _, _) => {
            if u64::from(node.0) == read {
                Some(Stage::Words(u64::from(node.0) + 1))
            } else {
                None
            }
        }
        Line::Attr(_) => { if read == 0 { None } else { Some(Stage::Attrs) } }
        Line::Edge(_) => { if read == 0 { None } else { Some(Stage::Edges) } }
        Line::End => { if read == 0 { None } else { Some(Stage::Ended) } }
        _ => None,
    }
}

fn after_attrs(line: &Line) -> Option<Stage>
    ensures { result ≡ after_attrs line.now }
{
    match line {
        Line::Attr(_) => Some(Stage::Attrs),
        Line::Edge(_) => Some(Stage::Edges),
        Line::End => Some(Stage::Ended),
        _ => None,
    }
}

fn after_edges(line: &Line) -> Option<Stage>
    ensures { result ≡ after_edges line.now }
{
    match line {
        Line::Edge(_) => Some(Stage::Edges),
        Line::End => Some(Stage::Ended),
        _ => None,
    }
}

fn after_left(read: u64, words: u64, attrs: u64, edges: u64, line: &Line) -> Option<Stage>
    ensures { result ≡ after_left read words attrs edges line.now }
{
    match line {
        Line::Word(node, _, _) => {
            if words > 0 && u64::from(node.0) == read {
                Some(Stage::Left(u64::from(node.0) + 1, words - 1, attrs, edges))
            } else {
                None
            }
        }
        Line::Attr(_) => {
            if words == 0 && attrs > 0 {
                Some(Stage::Left(read, words, attrs - 1, edges))
            } else {
                None
            }
        }
        Line::Edge(_) => {
            if words == 0 && attrs == 0 && edges > 0 {
                Some(Stage::Left(read, words, attrs, edges - 1))
            } else {
                None
            }
        }
        Line::End => {
            if words == 0 && attrs == 0 && edges == 0 {
                Some(Stage::Ended)
            } else {
                None
            }
        }
        _ => None,
    }
}

/// The stage behind a line, where the line may come next.
pub(crate) fn next(stage: Stage, line: &Line) -> Option<Stage>
    ensures { result ≡ next stage line.now }
{
    match stage {
        Stage::Start => begins(line),
        Stage::Second => numbered(line),
        Stage::Numbered => counted(line),
        Stage::Words(read) => after_words(read, line),
        Stage::Attrs => after_attrs(line),
        Stage::Edges => after_edges(line),
        Stage::Left(read, words, attrs, edges) => after_left(read, words, attrs, edges, line),
        Stage::Ended => None,
    }
}

/// Whether the last line was read.
pub(crate) fn has_ended(stage: Stage) -> bool
    ensures { result ≡ has_ended stage }
{
    match stage {
        Stage::Ended => true,
        _ => false,
    }
}
