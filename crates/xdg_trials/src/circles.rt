//! The components of small graphs that are worked out by hand, and their order, which no command shows.

ghost use Rattle.std.specs.Prelude.{ℕ, ◌<◌, IsTrue, length};
ghost use Rattle.xdg_facts.specs.Membership.{In};
ghost use Rattle.xdg_names.specs.declared.graph.Use.{Use};
ghost use Rattle.xdg_names.specs.Leads.{IsGraph};

use std::alloc::Global;
use std::test::Fail;
use xdg_base::{List, OutOfMemory};
use xdg_names::{Use, closing, components};

/// Graphs, each with the numbers of its components, the order, and the place of the first use that closes a cycle. `~`
/// stands between the rows, `,` between definitions, and a use is two digits, the definition and the place. They are a
/// chain, a use of itself, two cycles with a bridge between them, a diamond, two cycles of which the second is used
/// first, and a graph without definitions.
const GRAPHS: &str = "\
11,22,^321^210^-~\
05^1^0^5~\
11,0220,34,25^2211^3210^1~\
1122,33,34,^4321^3210^-~\
07,13^12^01^3~\
^^^-";

/// Whether these uses lead to definitions below a count.
fn lead_below(uses: &[Use], count: usize) -> bool
    ensures { IsTrue result → (u : Use) → In uses.now u → u.to < count }
{
    for next in uses {
        if next.to >= count {
            return false;
        }
    }
    true
}

/// Whether each use leads to a definition.
fn is_graph(graph: &[List<Use>]) -> bool
    ensures { IsTrue result → IsGraph graph.now }
{
    for definition in 0..graph.len() {
        if !lead_below(graph[definition].as_slice(), graph.len()) {
            return false;
        }
    }
    true
}

fn digit(number: u64) -> u8 {
    if number < 10 {
        b'0' + number as u8
    } else {
        b'+'
    }
}

fn value(digit: u8) -> u32 {
    u32::from(digit.saturating_sub(b'0'))
}

/// The graph that a row tells.
fn graph_of(alloc: Global, text: &str) -> Result<Vec<List<Use>>, OutOfMemory> {
    let mut graph = Vec::new(alloc);
    if text.is_empty() {
        return Ok(graph);
    }
    for definition in text.split(',') {
        let digits = definition.as_bytes();
        let mut uses = List::new(alloc);
        for i in 0..digits.len() / 2 {
            uses.push(Use {
                to: value(digits[2 * i]) as usize,
                at: value(digits[2 * i + 1]),
            })?;
        }
        graph.push(uses)?;
    }
    Ok(graph)
}

/// What a graph's components are, as a row tells them.
fn told(alloc: Global, graph: &[List<Use>]) -> Result<Vec<u8>, OutOfMemory> {
    let mut out = Vec::new(alloc);
    if !is_graph(graph) || graph.len() > 9 {
        return Ok(out);
    }
    let made = components(alloc, graph)?;
    for number in made.numbers.as_slice() {
        out.push(digit(*number as u64))?;
    }
    out.push(b'^')?;
    for definition in made.order.as_slice() {
        out.push(digit(*definition as u64))?;
    }
    out.push(b'^')?;
    match closing(&made, graph) {
        None => out.push(b'-')?,
        Some(fault) => out.push(digit(u64::from(fault.at)))?,
    }
    Ok(out)
}

#[test]
fn small_graphs(rt: HostRuntime) -> Result<(), Fail> {
    let alloc = rt.alloc();
    assert_eq!(rt; GRAPHS.split('~').count(), 6);
    for row in GRAPHS.split('~') {
        let (text, wanted) = row.split_once('^').unwrap_or((row, ""));
        let graph = graph_of(alloc, text)?;
        let out = told(alloc, graph.as_slice())?;
        assert_eq!(rt; out.as_slice(), wanted.as_bytes());
    }
    Ok(())
}
