//! The numbers of edges that entries allow, by classes of entries.

ghost use Rattle.std.specs.List.Sorted.{IsStrictlyIncreasing};
ghost use Rattle.std.specs.Prelude.{◌≡◌, ◌≢◌, ◌<◌, ◌+◌, ◌*◌, ◌++◌, ◌∷◌, [], ℕ, IfOk, IfSome, IsTrue, OnOk, length, slice_index_or, slice_set};
ghost use Rattle.xdg_problem.specs.declared.parts.Group.{Group as Use};
ghost use Rattle.xdg_problem.specs.declared.parts.Parts.{Parts as Sentence};
ghost use Rattle.xdg_problem.specs.Arguments.{first_dim, label_count};
ghost use Rattle.xdg_problem.specs.Places.{nodes};
ghost use Rattle.xdg_problem.specs.Problems.{IsGroup, IsProblem};
ghost use Rattle.xdg_pgraph.specs.Family.{IsOfFamily};
ghost use Rattle.xdg_pgraph.specs.Allowances.{AreAllowances, AreClasses, AreRows, HasClasses, IsClassOf, Keeps, bit_of, class_place, with_entry};

use crate::bounds::Allowed;
use crate::bundle::{Bundle, Way, argument, features_of, numbers_at};
use crate::plane::{Plane, label_count};
use std::alloc::Global;
use std::marker::Model;
use xdg_base::{List, NodeId, OutOfMemory};
use xdg_graph::entry_count;
use xdg_problem::{Feat, Group, Parts};

/// Some entries of a node that allow the same numbers of edges of a bundle: a bit for each, and the first of them, which tells the numbers.
#[derive(Clone, Copy, Debug)]
pub(crate) struct Class {
    pub entries: u64,
    /// The bounds of the numbers.
    pub allowed: Allowed,
    pub first: u16,
    /// Whether each number between the bounds is allowed.
    pub whole: bool,
}

impl Class {
    /// No entry.
    fn none() -> Class {
        Class {
            entries: 0,
            allowed: Allowed::none(),
            first: 0,
            whole: false,
        }
    }

    /// An entry alone, which allows such numbers. They rise.
    fn of(entry: u16, numbers: &[u16]) -> Class
        requires rising { IsStrictlyIncreasing numbers.now }
        requires entry { entry < 64 }
        ensures entries { result.entries ≡ bit_of entry }
        ensures first { result.first ≡ entry }
        ensures keeps { Keeps numbers.now result }
    {
        let allowed = Allowed::none().with(numbers);
        Class {
            entries: 1 << entry,
            allowed,
            first: entry,
            whole: allowed.behind as usize <= allowed.least as usize + numbers.len(),
        }
    }

    /// The class with an entry more.
    fn with(self, entry: u16) -> Class
        requires { entry < 64 }
        ensures { result ≡ with_entry self entry }
    {
        Class {
            entries: self.entries | 1 << entry,
            allowed: self.allowed,
            first: self.first,
            whole: self.whole,
        }
    }
}

/// Some classes, at most eight.
#[derive(Debug, Drop)]
pub(crate) struct Row {
    classes: [Class; 8],
    count: usize,
}

impl Model for Row {
    ghost use Rattle.std.specs.Prelude.{◌≤◌, List, take};
    ghost use Rattle.xdg_pgraph.specs.declared.allowances.Class.{Class};

    ghost Value = { List Class };

    ghost view = { λ row. take row.count row.classes };

    ghost invariant = { λ row. row.count ≤ 8 };
}

impl Row {
    /// No class.
    fn none() -> Row
        ensures { result ≡ [] }
    {
        Row {
            classes: [Class::none(); 8],
            count: 0,
        }
    }

    /// Its classes, lent.
    fn as_slice(&self) -> &[Class]
        ensures { result.now ≡ self.now }
    {
        &self.classes[..self.count]
    }

    /// Adds a class.
    fn push(&mut self, class: Class)
        requires { length self.old < 8 }
        ensures { self.new ≡ self.old ++ class ∷ [] }
    {
        self.classes[self.count] = class;
        self.count += 1;
    }

    /// Puts a class in the place of another.
    fn put(&mut self, at: usize, class: Class)
        requires { at < length self.old }
        ensures { self.new ≡ slice_set self.old at class }
    {
        let classes = &mut self.classes;
        classes[at] = class;
    }

    /// The place of the class of such numbers, if there is one.
    fn find(&self, candidates: &[List<Feat>], bundle: Bundle, numbers: &[u16]) -> Option<usize>
        ensures { IfSome result (λ at. IsClassOf candidates.now bundle numbers.now self.now at) }
    {
        for (at, class) in self.as_slice().iter().enumerate() {
            if numbers_at(candidates, bundle, class.first) == numbers {
                return Some(at);
            }
        }
        None
    }

    /// Adds an entry to the class of its numbers, or to one of its own. It says whether there was room.
    fn add(&mut self, candidates: &[List<Feat>], bundle: Bundle, entry: u16) -> bool
        requires { entry < 64 }
        ensures { (group : Use) → candidates.now ≡ slice_index_or group.feats bundle.node [] → AreClasses entry group bundle self.old → IsTrue result
            → AreClasses (entry + 1) group bundle self.new }
    {
        let numbers = numbers_at(candidates, bundle, entry);
        if let Some(at) = self.find(candidates, bundle, numbers) {
            let class = self.as_slice()[at];
            self.put(at, class.with(entry));
            return true;
        }
        if self.count == 8 {
            return false;
        }
        self.push(Class::of(entry, numbers));
        true
    }

    /// The classes of a bundle, by the features of a node's candidates, so many. Where they are more than 64, or their classes more than eight, there is none.
    fn of(candidates: &[List<Feat>], bundle: Bundle, count: u16) -> Row
        ensures { (group : Use) → candidates.now ≡ slice_index_or group.feats bundle.node [] → result ≢ [] → AreClasses count group bundle result }
    {
        let mut row = Row::none();
        if count > 64 {
            return row;
        }
        for entry in 0..count {
            if !row.add(candidates, bundle, entry) {
                return Row::none();
            }
        }
        row
    }
}

/// For each bundle of a use of valency the classes of its node's entries, or none, where the entries have to be looked at one by one.
#[derive(Debug, Drop)]
pub(crate) struct Allowances {
    labels: u8,
    rows: List<Row>,
}

/// Where the classes of a bundle stand, where there are so many labels.
fn class_place(labels: u8, bundle: Bundle) -> usize
    ensures { result ≡ class_place labels bundle }
{
    (usize::from(bundle.node) * usize::from(labels) + usize::from(bundle.label)) * 2
        + argument(bundle.way)
}

/// Adds the rows of a node, for each of so many labels.
fn add_rows(
    rows: &mut List<Row>,
    parts: &Parts,
    group: &Group,
    node: u8,
    labels: u8,
) -> Result<(), OutOfMemory>
    requires problem { IsProblem parts.now }
    requires node { node < nodes parts.now }
    requires rows { AreRows parts.now group.now labels rows.old }
    requires before { length rows.old ≡ node * labels * 2 }
    ensures rows { OnOk result (AreRows parts.now group.now labels rows.new) }
    ensures behind { OnOk result (length rows.new ≡ (node * labels + labels) * 2) }
{
    let candidates = features_of(group, node);
    let count = entry_count(parts, NodeId(node));
    for label in 0..labels {
        let into = Bundle {
            way: Way::In,
            node,
            label,
        };
        rows.push(Row::of(candidates, into, count))?;
        let out = Bundle {
            way: Way::Out,
            node,
            label,
        };
        rows.push(Row::of(candidates, out, count))?;
    }
    Ok(())
}

impl Allowances {
    /// The table without a row.
    pub(crate) fn none(alloc: Global) -> Allowances
        ensures { (parts : Sentence) (group : Use) → AreAllowances parts group result }
    {
        Allowances {
            labels: 0,
            rows: List::new(alloc),
        }
    }

    /// The table of a use of valency.
    pub(crate) fn of(alloc: Global, parts: &Parts, group: &Group) -> Result<Allowances, OutOfMemory>
        requires problem { IsProblem parts.now }
        requires group { IsGroup parts.now group.now }
        requires family { IsOfFamily group.now.principle }
        ensures { IfOk result (AreAllowances parts.now group.now) }
    {
        let labels = label_count(parts, &Plane::of(parts, group));
        let nodes = parts.words.len() as u8;
        let room = usize::from(nodes) * usize::from(labels) * 2;
        let mut rows = List::with_room(alloc, room)?;
        for node in 0..nodes {
            add_rows(&mut rows, parts, group, node, labels)?;
        }
        Ok(Allowances { labels, rows })
    }

    /// The classes of the entries of a bundle's node. Where there is none, the entries have to be looked at one by one.
    pub(crate) fn classes(&self, bundle: Bundle) -> &[Class]
        ensures { (parts : Sentence) (group : Use) → AreAllowances parts group self.now → HasClasses parts group bundle result.now }
    {
        if bundle.label >= self.labels {
            return &[];
        }
        let Some(row) = self.rows.get(class_place(self.labels, bundle)) else {
            return &[];
        };
        row.as_slice()
    }
}
