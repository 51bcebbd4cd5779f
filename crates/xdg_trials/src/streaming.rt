//! A stream of solutions, one call after another and as an iterator.

ghost use Rattle.std.specs.Prelude.{IfOk};
ghost use Rattle.xdg_engine.specs.Standing.{stands_for};
ghost use Rattle.xdg_propcore.specs.Uses.{AllStandIn};
ghost use Rattle.xdg_inputs.specs.RightLexicons.{HasRightLexicon};

use std::alloc::Global;
use std::test::Fail;
use xdg_base::Stop;
use xdg_build::build;
use xdg_engine::{AnyProp, props};
use xdg_inputs::{Expanded, expand_tree, read_tree};
use xdg_linear::words_of;
use xdg_problem::Problem;
use xdg_stream::{Step, Stream};

/// One word, and on the second of two dimensions an edge from one of two words to the other.
const PAIR: &str = "usedim a usedim b usedim lex
defdim lex {defentrytype {word: string}}
defdim a {deflabeltype {x} defentrytype {in: valency({x}) out: valency({x})}
useprinciple principle.graph {dims {D: a}} useprinciple principle.valency {dims {D: a}}}
defdim b {deflabeltype {y} defentrytype {in: valency({y}) out: valency({y})}
useprinciple principle.graph {dims {D: b}} useprinciple principle.valency {dims {D: b}}
useprinciple principle.dag {dims {D: b} args {Connected: true}}}
defentry {dim b {in: {y?} out: {y?}} dim lex {word: w}}
";

/// Each word may have an edge with each of 32 labels to each other word.
const FREE: &str = "usedim id usedim lex
defdim lex {defentrytype {word: string}}
defdim id {deflabeltype {l1 l2 l3 l4 l5 l6 l7 l8 l9 l10 l11 l12 l13 l14 l15 l16 l17 l18 l19 l20 l21 l22 l23 l24 l25 l26 l27 l28 l29 l30 l31 l32}
useprinciple principle.graph {dims {D: id}}}
defentry {dim lex {word: w}}
";

/// 64 words.
const WORDS: &str =
    "w w w w w w w w w w w w w w w w w w w w w w w w w w w w w w w w w w w w w w w w w w w w w w w w w w w w w w w w w w w w w w w w";

/// The longest text of a grammar or a sentence.
const LONGEST: usize = 65_536;

/// What is looked at in a stream.
#[derive(Clone, Copy)]
enum Look {
    /// Whether two solutions are found and then the end is told, twice, at a cost of eight boxed prefixes.
    Charges,
    /// Whether the iterator gives these two and the end, and nothing more.
    Items,
    /// Whether a first solution has every edge, and a second one all but one.
    Edges,
}

fn charges_eight(stream: &mut Stream<'_, AnyProp>) -> bool {
    stream.advance() == Step::Found
        && stream.advance() == Step::Found
        && stream.advance() == Step::End
        && stream.advance() == Step::End
        && stream.charged() == 8
}

fn gives_three(stream: &mut Stream<'_, AnyProp>) -> bool {
    stream.next() == Some(Step::Found)
        && stream.next() == Some(Step::Found)
        && stream.next() == Some(Step::End)
        && stream.next() == None
}

fn finds_edges(stream: &mut Stream<'_, AnyProp>, count: usize) -> bool {
    stream.advance() == Step::Found && stream.edges().len() == count
}

fn is_seen(stream: &mut Stream<'_, AnyProp>, look: Look) -> bool {
    match look {
        Look::Charges => charges_eight(stream),
        Look::Items => gives_three(stream),
        Look::Edges => finds_edges(stream, 129_024) && finds_edges(stream, 129_023),
    }
}

fn end<T: Drop>(_value: T) {}

fn is_streamed(
    alloc: Global,
    problem: &Problem,
    props: &[AnyProp],
    budget: u64,
    look: Look,
) -> Result<bool, Stop>
    requires { AllStandIn stands_for props.now problem.now }
{
    let mut stream = Stream::start(alloc, problem, props, budget, None)?;
    Ok(is_seen(&mut stream, look))
}

fn is_searched(alloc: Global, problem: &Problem, budget: u64, look: Look) -> Result<bool, Stop> {
    let props = props(alloc, problem)?;
    is_streamed(alloc, problem, props.as_slice(), budget, look)
}

fn expanded(alloc: Global, grammar: &str) -> Result<Expanded, Stop>
    ensures { IfOk result HasRightLexicon }
{
    if grammar.len() > LONGEST {
        return Err(Stop::OutOfMemory);
    }
    let tree = read_tree(alloc, grammar.as_bytes())?;
    expand_tree(alloc, tree)
}

fn compiled(alloc: Global, expanded: &Expanded, sentence: &str) -> Result<Problem, Stop>
    requires { HasRightLexicon expanded.now }
{
    if sentence.len() > LONGEST {
        return Err(Stop::OutOfMemory);
    }
    let words = words_of(alloc, sentence, false)?;
    build(alloc, &expanded.checked, &expanded.lexicon, words)
}

fn is_parsed(
    alloc: Global,
    expanded: &Expanded,
    sentence: &str,
    budget: u64,
    look: Look,
) -> Result<bool, Stop>
    requires { HasRightLexicon expanded.now }
{
    let problem = compiled(alloc, expanded, sentence)?;
    is_searched(alloc, &problem, budget, look)
}

/// Whether a look at the stream of a sentence sees what it looks for.
fn sees(
    alloc: Global,
    grammar: &str,
    sentence: &str,
    budget: u64,
    look: Look,
) -> Result<bool, Stop> {
    let expanded = expanded(alloc, grammar)?;
    let seen = is_parsed(alloc, &expanded, sentence, budget, look);
    end(expanded);
    seen
}

#[test]
fn eight_charges(rt: HostRuntime) -> Result<(), Fail> {
    assert!(rt; sees(rt.alloc(), PAIR, "w w", 100, Look::Charges)?);
    assert!(rt; sees(rt.alloc(), PAIR, "w w", 100, Look::Items)?);
    Ok(())
}

#[test]
fn largest_block(rt: HostRuntime) -> Result<(), Fail> {
    assert!(rt; sees(rt.alloc(), FREE, WORDS, 1_000_000, Look::Edges)?);
    Ok(())
}
