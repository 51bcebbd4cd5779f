//! A walk over a graph, which numbers its strong components.
//!
//! The walk goes on from the definition that it met last, and keeps those that it met on a stack. Groups of definitions
//! that lead to each other are parts of the stack: a use that leads down the stack merges all groups above its end into
//! the one there. A group whose uses are all looked at is a component, and leaves the stack. Each use is looked at
//! once.

ghost use Rattle.std.specs.Prelude.{◌≡◌, ℕ, [], ◌∷◌, ◌++◌, ◌+◌, ◌^◌, ◌<◌, ◌≤◌, IfOk, length, map};
ghost use Rattle.xdg_facts.specs.Membership.{In};
ghost use Rattle.xdg_names.specs.Leads.{uses_of, IsGraph, Leads, number};
ghost use Rattle.xdg_names.specs.Closing.{the_use};
ghost use Rattle.xdg_names.specs.Walks.{AreMarks, Climbs, Walks, WalksAt, GoesOn, Enters, Looks, Merges, Closes, turns};

use crate::graph::Use;
use std::alloc::Global;
use xdg_base::{List, OutOfMemory};

/// Where a walk stands.
#[derive(Debug, Drop)]
pub struct Walk {
    /// For each definition 0 if it is not met, its component's number, from 1, if it is finished, and if it is on the
    /// stack one more than the number of definitions and its place there.
    pub marks: Vec<usize>,
    /// For each definition how many of its uses are not looked at yet.
    pub left: Vec<usize>,
    /// The definitions that are met and not finished, in the order in which they were met.
    pub stack: Vec<usize>,
    /// The first definition of each group.
    pub starts: Vec<usize>,
    /// The definitions on the way to that which is looked at, with it.
    pub path: Vec<usize>,
    /// The finished definitions.
    pub order: Vec<usize>,
    /// The number of the next component.
    pub next: usize,
}

/// How many uses each definition has.
fn counts(alloc: Global, graph: &[List<Use>]) -> Result<Vec<usize>, OutOfMemory>
    ensures { IfOk result (λ made. made.items ≡ map length graph.now) }
{
    let mut made = Vec::new(alloc);
    for uses in graph {
        made.push(uses.len())?;
    }
    Ok(made)
}

/// The definition to which a use leads, by the definition in which it stands and its place there.
fn used(graph: &[List<Use>], from: usize, at: usize) -> usize
    requires from_within { from < length graph.now }
    requires at_within { at < length (uses_of graph.now from) }
    ensures { result ≡ (the_use (uses_of graph.now from) at).to }
{
    graph[from].as_slice()[at].to
}

/// Takes the starts of the groups that begin above a mark.
fn merge(marks: &[usize], top: usize, starts: &mut Vec<usize>) -> Result<(), OutOfMemory>
    requires within { (s : ℕ) → In starts.old.items s → s < length marks.now }
    requires small { length marks.now < 2 ^ 32 }
    requires climb { Climbs marks.now starts.old.items }
    ensures { IfOk result (λ _. Merges marks.now top starts.old.items starts.new.items) }
{
    'merge: while let Some(start) = starts.pop() {
        if marks[start] <= top {
            starts.push(start)?;
            return Ok(());
        }
    }
    Ok(())
}

/// Gives the definitions of the last group, which begins with `first`, a number.
fn close(
    given: usize,
    first: usize,
    marks: &mut Vec<usize>,
    stack: &mut Vec<usize>,
    order: &mut Vec<usize>,
) -> Result<(), OutOfMemory>
    requires are { AreMarks (length marks.old.items) marks.old.items stack.old.items order.old.items given }
    requires least { 1 ≤ given }
    requires most { given ≤ length marks.old.items }
    requires small { length marks.old.items < 2 ^ 32 }
    requires on { length marks.old.items < number marks.old.items first }
    ensures { IfOk result (λ _. Closes (length marks.old.items) first given marks.old.items order.old.items marks.new.items stack.new.items order.new.items) }
{
    'close: while let Some(last) = stack.pop() {
        marks[last] = given;
        order.push(last)?;
        if last == first {
            return Ok(());
        }
    }
    Ok(())
}

impl Walk {
    /// A walk that has met no definition.
    pub fn new(alloc: Global, graph: &[List<Use>]) -> Result<Walk, OutOfMemory>
        requires graph { IsGraph graph.now }
        ensures walks { IfOk result (λ walk. Walks graph.now walk) }
        ensures path { IfOk result (λ walk. walk.path.items ≡ []) }
    {
        Ok(Walk {
            marks: vec![in alloc; 0; graph.len()]?,
            left: counts(alloc, graph)?,
            stack: Vec::new(alloc),
            starts: Vec::new(alloc),
            path: Vec::new(alloc),
            order: Vec::new(alloc),
            next: 1,
        })
    }

    /// Meets a definition, which begins a group.
    fn enter(&mut self, graph: &[List<Use>], definition: usize) -> Result<(), OutOfMemory>
        requires walks { Walks graph.now self.old }
        requires small { length graph.now < 2 ^ 32 }
        requires within { definition < length graph.now }
        requires fresh { number self.old.marks.items definition ≡ 0 }
        requires reached { (a : ℕ) → length graph.now < number self.old.marks.items a → Leads graph.now a definition }
        ensures { IfOk result (λ _. Enters graph.now self.old self.new definition) }
    {
        self.marks[definition] = graph.len() + 1 + self.stack.len();
        self.stack.push(definition)?;
        self.starts.push(definition)?;
        self.path.push(definition)?;
        Ok(())
    }

    /// Looks at a use that leads from the last definition of the path to `to`.
    fn look(&mut self, graph: &[List<Use>], from: usize, to: usize) -> Result<(), OutOfMemory>
        requires walks { Walks graph.now self.old }
        requires small { length graph.now < 2 ^ 32 }
        requires within { to < length graph.now }
        requires on { In self.old.path.items from }
        requires last { (a : ℕ) → In self.old.path.items a → number self.old.marks.items a ≤ number self.old.marks.items from }
        requires reached { Leads graph.now from to }
        ensures { IfOk result (λ _. Looks graph.now self.old self.new from to) }
    {
        let mark = self.marks[to];
        if mark == 0 {
            self.enter(graph, to)?;
            Ok(())
        } else if mark > graph.len() {
            merge(self.marks.as_slice(), mark, &mut self.starts)?;
            Ok(())
        } else {
            Ok(())
        }
    }

    /// Looks at the next use of the last definition of the path, which has one left.
    fn advance(&mut self, graph: &[List<Use>], last: usize) -> Result<(), OutOfMemory>
        requires graph { IsGraph graph.now }
        requires walks { Walks graph.now self.old }
        requires small { length graph.now < 2 ^ 32 }
        requires on { In self.old.path.items last }
        requires last { (a : ℕ) → In self.old.path.items a → number self.old.marks.items a ≤ number self.old.marks.items last }
        requires has { 1 ≤ number self.old.left.items last }
        ensures goes { IfOk result (λ _. GoesOn graph.now self.old self.new) }
        ensures less { IfOk result (λ _. turns self.new.left.items self.new.path.items < turns self.old.left.items self.old.path.items) }
    {
        let left = self.left[last] - 1;
        let to = used(graph, last, left);
        self.look(graph, last, to)?;
        self.left[last] = left;
        Ok(())
    }

    /// Leaves a definition without uses left, which was the last of the path.
    fn leave(&mut self, graph: &[List<Use>], last: usize) -> Result<(), OutOfMemory>
        requires walks { WalksAt graph.now self.old (self.old.path.items ++ last ∷ []) }
        requires small { length graph.now < 2 ^ 32 }
        requires none { number self.old.left.items last ≡ 0 }
        ensures goes { IfOk result (λ _. GoesOn graph.now self.old self.new) }
        ensures left { IfOk result (λ _. self.new.left.items ≡ self.old.left.items) }
        ensures path { IfOk result (λ _. self.new.path.items ≡ self.old.path.items) }
    {
        match self.starts.pop() {
            None => Ok(()),
            Some(start) => {
                if start == last {
                    close(
                        self.next,
                        last,
                        &mut self.marks,
                        &mut self.stack,
                        &mut self.order,
                    )?;
                    self.next += 1;
                    Ok(())
                } else {
                    self.starts.push(start)?;
                    Ok(())
                }
            }
        }
    }

    /// Takes one step at the definition that was the last of the path.
    fn step(&mut self, graph: &[List<Use>], last: usize) -> Result<(), OutOfMemory>
        requires graph { IsGraph graph.now }
        requires walks { WalksAt graph.now self.old (self.old.path.items ++ last ∷ []) }
        requires small { length graph.now < 2 ^ 32 }
        ensures goes { IfOk result (λ _. GoesOn graph.now self.old self.new) }
        ensures less { IfOk result (λ _. turns self.new.left.items self.new.path.items < turns self.old.left.items (self.old.path.items ++ last ∷ [])) }
    {
        if self.left[last] == 0 {
            self.leave(graph, last)
        } else {
            self.path.push(last)?;
            self.advance(graph, last)
        }
    }

    /// Finishes a definition that is not met, and all to which it leads.
    pub fn visit(&mut self, graph: &[List<Use>], root: usize) -> Result<(), OutOfMemory>
        requires graph { IsGraph graph.now }
        requires walks { Walks graph.now self.old }
        requires small { length graph.now < 2 ^ 32 }
        requires path { self.old.path.items ≡ [] }
        requires within { root < length graph.now }
        requires fresh { number self.old.marks.items root ≡ 0 }
        ensures goes { IfOk result (λ _. GoesOn graph.now self.old self.new) }
        ensures path { IfOk result (λ _. self.new.path.items ≡ []) }
        ensures met { IfOk result (λ _. 1 ≤ number self.new.marks.items root) }
    {
        self.enter(graph, root)?;
        'walk: while let Some(last) = self.path.pop() {
            self.step(graph, last)?;
        }
        Ok(())
    }
}
