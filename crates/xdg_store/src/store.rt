//! The values that remain.

ghost use Rattle.std.specs.Prelude.{◌≡◌, ◌≢◌, ℕ, ◌<◌, ◌+◌, ◌*◌, ◌-◌, ◌^◌, ◌↔◌, [], ◌∷◌, IsTrue, IfOk, length, min, nat_lt, slice_index_or, take};
ghost use Rattle.std.specs.Int.{bit_at};
ghost use Rattle.xdg_facts.specs.Rises.{has};
ghost use Rattle.xdg_problem.specs.Analyses.{IsPlace};
ghost use Rattle.xdg_problem.specs.Boxes.{Has, IsSingle, May, Must, full, entry_decision, attr_decision, edge_decision};
ghost use Rattle.xdg_problem.specs.Places.{edge, nodes};
ghost use Rattle.xdg_problem.specs.Vectors.{shape};
ghost use Rattle.xdg_store.specs.Across.{AreMothers};
ghost use Rattle.xdg_store.specs.Change.{IsTaken, Removes, RemovesAll};
ghost use Rattle.xdg_store.specs.InRange.{HasCandidate, HasEdges, HasValue};
ghost use Rattle.xdg_store.specs.Labels.{AreLabels, AreLabelsOf};
ghost use Rattle.xdg_store.specs.Naming.{Names};
ghost use Rattle.xdg_store.specs.States.{Known};

use crate::across::{
    Mothers, fill_rows, mothers_at, no_mothers, part_of, renew_all, renew_forbidden, renew_forced,
};
use crate::change::Change;
use crate::decision::Decision;
use crate::labels::{LabelsInto, label_all, labels_at, no_labels};
use crate::layout::{attr_row, edge_row, entry_row};
use crate::masks::{nodes_below, row_nodes};
use crate::naming::{behind, note};
use crate::rows::{is_set, take_of_block, take_of_pair, take_of_row};
use crate::single::is_single;
use crate::start::free_values;
use std::alloc::Global;
use std::marker::Model;
use xdg_base::{AttrId, DimId, LabelId, NodeId, OutOfMemory};
use xdg_nodeset::NodeSet;
use xdg_problem::{Edge, Problem};
use xdg_trail::{Mark, Trail};

/// For each decision on a sentence the values that remain, a box. Each decision keeps at least one. A change removes one value of
/// a decision, or several, and all changes since a [`Mark`] can be undone at once. Nodes, dimensions, labels, attributes, places
/// among candidates and numbers of values count from 0 and are those of the problem. Only [`Store::start`] takes memory.
#[derive(Debug, Drop)]
pub struct Store<'a> {
    problem: &'a Problem,
    // A bit for each value: whether it remains. Each change is one record.
    trail: Trail,
    // Of which decision each of them is.
    removed: Vec<Decision>,
    // What the bits of edges say, by daughters. It is no part of the trail: it follows from the words.
    across: Vec<Mothers>,
    // What follows from it of all labels of a daughter.
    into: Vec<LabelsInto>,
    node_count: usize,
    all: NodeSet,
    turns: u64,
}

impl<'a> Model for Store<'a> {
    ghost use Rattle.std.specs.Prelude.{◌≡◌, ℕ, nat_lt};
    ghost use Rattle.std.specs.Vec.{vec_capacity};
    ghost use Rattle.xdg_facts.specs.Rises.{has};
    ghost use Rattle.xdg_problem.specs.Places.{nodes};
    ghost use Rattle.xdg_trail.specs.Trailed.{past};
    ghost use Rattle.xdg_store.specs.Across.{AreKept};
    ghost use Rattle.xdg_store.specs.Labels.{AreTold};
    ghost use Rattle.xdg_store.specs.Layout.{bits_of, box_in};
    ghost use Rattle.xdg_store.specs.Naming.{AreSteps};
    ghost use Rattle.xdg_store.specs.States.{State, Keeps, oldest};
    ghost use Rattle.std.specs.Coded.{codes};
    ghost use Rattle.xdg_problem.specs.contracts.formula.Formula as formula;

    ghost Value = { State };

    ghost coded = { Prim.hlevel (codes, formula.the_row.coded) };

    ghost view = { λ s. record {
      parts = s.problem.now;
      now = box_in (bits_of s.problem.now) s.trail.words;
      history = oldest (bits_of s.problem.now) (past s.trail);
      turns = s.turns;
    } };

    ghost invariant = { λ s. Keeps s.problem.now s.trail
        × (s.node_count ≡ nodes s.problem.now)
        × ((node : ℕ) → has s.all node ≡ nat_lt node (nodes s.problem.now))
        × AreSteps s.problem.now (oldest (bits_of s.problem.now) (past s.trail)) s.removed.items (vec_capacity s.removed)
        × AreKept s.problem.now s.trail.words s.across.items
        × AreTold s.problem.now s.across.items s.into.items };
}

impl<'a> Store<'a> {
    /// The box of all values of a problem, or that no memory was to be had. All memory for later removals is taken here: 3
    /// kilobytes for each node on each dimension, and 21 bytes for each value that can be removed.
    pub fn start(alloc: Global, problem: &'a Problem) -> Result<Store<'a>, OutOfMemory>
        ensures parts { IfOk result (λ store. store.parts ≡ problem.entry.now) }
        ensures now { IfOk result (λ store. store.now ≡ full (shape problem.entry.now)) }
        ensures history { IfOk result (λ store. store.history ≡ store.now ∷ []) }
        ensures turns { IfOk result (λ store. store.turns ≡ 0) }
        ensures known { IfOk result (λ store. Known store) }
    {
        let parts = problem.parts();
        let node_count = parts.words.len();
        let free = free_values(problem);
        let count = node_count * 16 + parts.dims.len() * node_count * 256;
        let words = vec![in alloc; u64::MAX; count]?;
        let trail = Trail::start(alloc, words, free)?;
        let removed = Vec::with_capacity(alloc, free)?;
        let all = nodes_below(node_count);
        let mut across = vec![in alloc; no_mothers(); parts.dims.len() * node_count * 32]?;
        fill_rows(&mut across, node_count, &all);
        let mut into = vec![in alloc; no_labels(); parts.dims.len() * node_count]?;
        label_all(&mut into, parts.dims.as_slice(), node_count);
        Ok(Store {
            problem,
            trail,
            removed,
            across,
            into,
            node_count,
            all,
            turns: 0,
        })
    }

    /// The problem whose decisions these are.
    pub fn problem(&self) -> &'a Problem
        ensures parts { result.now ≡ self.now.parts }
        ensures known { Known self.now }
    {
        self.problem
    }

    /// Takes the candidate of a node at a place away, unless it is the node's last.
    pub fn remove_entry(&mut self, node: NodeId, place: u16) -> Change
        requires { HasCandidate self.old.parts node.0 place }
        ensures removes { Removes result self.old self.new (entry_decision node.0) place }
        ensures known { Known self.new }
    {
        let candidates = self.problem.parts().candidates.as_slice();
        let size = candidates[node.0 as usize].len();
        let change = take_of_row(&mut self.trail, entry_row(node), size, place as usize);
        note(&mut self.removed, change, Decision::Entry(node));
        change
    }

    /// Takes some of a node's candidates away at once, unless no other is left: of the 64 candidates from the place `block` * 64 on
    /// those whose bits are set, the first at the lowest.
    pub fn remove_entries(&mut self, node: NodeId, block: u16, taken: u64) -> Change
        requires { HasCandidate self.old.parts node.0 (block * 64) }
        ensures removes { RemovesAll result self.old self.new (entry_decision node.0) (IsTaken block taken) }
        ensures known { Known self.new }
    {
        let candidates = self.problem.parts().candidates.as_slice();
        let size = candidates[node.0 as usize].len();
        let row = entry_row(node);
        let change = take_of_block(&mut self.trail, row, size, block as usize, taken);
        note(&mut self.removed, change, Decision::Entry(node));
        change
    }

    /// Takes a value of a node's attribute away, unless it is the attribute's last.
    pub fn remove_attr(&mut self, node: NodeId, dim: DimId, attr: AttrId, value: u16) -> Change
        requires { HasValue self.old.parts node.0 dim.0 attr.0 value }
        ensures removes { Removes result self.old self.new (attr_decision self.old.parts dim.0 node.0 attr.0) value }
        ensures known { Known self.new }
    {
        let plan = &self.problem.parts().dims.as_slice()[dim.0 as usize];
        let size = plan.attrs.as_slice()[attr.0 as usize].values.len();
        let row = attr_row(self.node_count, dim, node, attr);
        let change = take_of_row(&mut self.trail, row, size, value as usize);
        note(&mut self.removed, change, Decision::Attr(dim, node, attr));
        change
    }

    /// Takes some of the values of a node's attribute away at once, unless no other is left: of the 64 values from that numbered
    /// `block` * 64 on those whose bits are set, the first at the lowest.
    pub fn remove_attrs(
        &mut self,
        node: NodeId,
        dim: DimId,
        attr: AttrId,
        block: u16,
        taken: u64,
    ) -> Change
        requires { HasValue self.old.parts node.0 dim.0 attr.0 (block * 64) }
        ensures removes { RemovesAll result self.old self.new (attr_decision self.old.parts dim.0 node.0 attr.0) (IsTaken block taken) }
        ensures known { Known self.new }
    {
        let plan = &self.problem.parts().dims.as_slice()[dim.0 as usize];
        let size = plan.attrs.as_slice()[attr.0 as usize].values.len();
        let row = attr_row(self.node_count, dim, node, attr);
        let change = take_of_block(&mut self.trail, row, size, block as usize, taken);
        note(&mut self.removed, change, Decision::Attr(dim, node, attr));
        change
    }

    /// Takes away that an edge is absent, unless it can't be present.
    pub fn force_edge(&mut self, edge: Edge) -> Change
        requires { IsPlace self.old.parts edge }
        ensures removes { Removes result self.old self.new (edge_decision self.old.parts edge) 1 }
        ensures known { Known self.new }
    {
        let row = edge_row(self.node_count, edge.dim, edge.mother, edge.label);
        let present = row + edge.daughter.0 as usize;
        let change = take_of_pair(&mut self.trail, present + 128, present);
        renew_forced(
            &mut self.across,
            &mut self.into,
            self.node_count,
            edge,
            change,
        );
        note(&mut self.removed, change, Decision::Place(edge));
        change
    }

    /// Takes away that an edge is present, unless it must be.
    pub fn forbid_edge(&mut self, edge: Edge) -> Change
        requires { IsPlace self.old.parts edge }
        ensures removes { Removes result self.old self.new (edge_decision self.old.parts edge) 0 }
        ensures known { Known self.new }
    {
        let row = edge_row(self.node_count, edge.dim, edge.mother, edge.label);
        let present = row + edge.daughter.0 as usize;
        let change = take_of_pair(&mut self.trail, present, present + 128);
        renew_forbidden(
            &mut self.across,
            &mut self.into,
            self.node_count,
            edge,
            change,
        );
        note(&mut self.removed, change, Decision::Place(edge));
        change
    }

    /// Whether a node's candidate at a place remains.
    pub fn entry_in(&self, node: NodeId, place: u16) -> bool
        requires { HasCandidate self.now.parts node.0 place }
        ensures exact { IsTrue result ↔ Has self.now.now (entry_decision node.0) place }
        ensures known { Known self.now }
    {
        is_set(&self.trail, entry_row(node) + place as usize)
    }

    /// The first 64 candidates of a node: a bit for each that remains, the first at the lowest.
    pub fn first_entries(&self, node: NodeId) -> u64
        requires { node.0 < nodes self.now.parts }
        ensures exact { (place : ℕ)
            → place < 64
            → HasCandidate self.now.parts node.0 place
            → (bit_at result place ≡ 1) ↔ Has self.now.now (entry_decision node.0) place }
        ensures known { Known self.now }
    {
        self.trail.word(entry_row(node) / 64)
    }

    /// Whether a value of a node's attribute remains.
    pub fn attr_in(&self, node: NodeId, dim: DimId, attr: AttrId, value: u16) -> bool
        requires { HasValue self.now.parts node.0 dim.0 attr.0 value }
        ensures exact { IsTrue result ↔ Has self.now.now (attr_decision self.now.parts dim.0 node.0 attr.0) value }
        ensures known { Known self.now }
    {
        let row = attr_row(self.node_count, dim, node, attr);
        is_set(&self.trail, row + value as usize)
    }

    /// Whether an edge may be present.
    pub fn may(&self, edge: Edge) -> bool
        requires { IsPlace self.now.parts edge }
        ensures exact { IsTrue result ↔ May self.now.parts self.now.now edge }
        ensures known { Known self.now }
    {
        let row = edge_row(self.node_count, edge.dim, edge.mother, edge.label);
        is_set(&self.trail, row + edge.daughter.0 as usize)
    }

    /// Whether an edge must be present: that it is absent remains no more.
    pub fn must(&self, edge: Edge) -> bool
        requires { IsPlace self.now.parts edge }
        ensures exact { IsTrue result ↔ Must self.now.parts self.now.now edge }
        ensures known { Known self.now }
    {
        let row = edge_row(self.node_count, edge.dim, edge.mother, edge.label);
        !is_set(&self.trail, row + edge.daughter.0 as usize + 128)
    }

    /// Whether each decision has one value. It looks at each decision.
    ///
    /// The search knows it from its numbers: it is for those who keep a store of their own.
    pub fn is_single(&self) -> bool
        ensures exact { IsTrue result ↔ IsSingle self.now.now }
        ensures known { Known self.now }
    {
        is_single(&self.trail, self.problem.parts())
    }

    /// The daughters that an edge with a label out of a mother may have.
    pub fn daughters_may(&self, dim: DimId, mother: NodeId, label: LabelId) -> NodeSet
        requires { HasEdges self.now.parts dim.0 mother.0 label.0 }
        ensures exact { (node : ℕ)
            → IsTrue (has result node)
            ↔ ((node < nodes self.now.parts) × (mother.0 ≢ node) × May self.now.parts self.now.now (edge dim.0 mother.0 label.0 node)) }
        ensures known { Known self.now }
    {
        let row = edge_row(self.node_count, dim, mother, label);
        let mut daughters = row_nodes(&self.trail, row).meet(&self.all);
        daughters.remove(mother);
        daughters
    }

    /// The daughters to which an edge with a label out of a mother must lead.
    pub fn daughters_must(&self, dim: DimId, mother: NodeId, label: LabelId) -> NodeSet
        requires { HasEdges self.now.parts dim.0 mother.0 label.0 }
        ensures exact { (node : ℕ)
            → IsTrue (has result node)
            ↔ ((node < nodes self.now.parts) × (mother.0 ≢ node) × Must self.now.parts self.now.now (edge dim.0 mother.0 label.0 node)) }
        ensures known { Known self.now }
    {
        let row = edge_row(self.node_count, dim, mother, label);
        let mut daughters = self.all.minus(&row_nodes(&self.trail, row + 128));
        daughters.remove(mother);
        daughters
    }

    /// The mothers that an edge with a label into a daughter may have.
    pub fn mothers_may(&self, dim: DimId, daughter: NodeId, label: LabelId) -> NodeSet
        requires { HasEdges self.now.parts dim.0 daughter.0 label.0 }
        ensures exact { (node : ℕ)
            → IsTrue (has result node)
            ↔ ((node < nodes self.now.parts) × (node ≢ daughter.0) × May self.now.parts self.now.now (edge dim.0 node label.0 daughter.0)) }
        ensures known { Known self.now }
    {
        self.across[mothers_at(self.node_count, dim, daughter, label)].may
    }

    /// The mothers from which an edge with a label into a daughter must lead.
    pub fn mothers_must(&self, dim: DimId, daughter: NodeId, label: LabelId) -> NodeSet
        requires { HasEdges self.now.parts dim.0 daughter.0 label.0 }
        ensures exact { (node : ℕ)
            → IsTrue (has result node)
            ↔ ((node < nodes self.now.parts) × (node ≢ daughter.0) × Must self.now.parts self.now.now (edge dim.0 node label.0 daughter.0)) }
        ensures known { Known self.now }
    {
        self.across[mothers_at(self.node_count, dim, daughter, label)].must
    }

    /// By label, for the first so many labels of a dimension, the mothers from which edges into a daughter may lead, and
    /// those from which they must. No set is made for it.
    pub fn mothers_by_label(&self, dim: DimId, daughter: NodeId, labels: u8) -> &[Mothers]
        requires { (label : ℕ) → label < labels → HasEdges self.now.parts dim.0 daughter.0 label }
        ensures mothers { AreMothers self.now.parts self.now.now dim.0 daughter.0 labels result.now }
        ensures known { Known self.now }
    {
        let rows = self.across.as_slice();
        if labels == 0 {
            return &[];
        }
        let first = mothers_at(self.node_count, dim, daughter, LabelId(0));
        part_of(rows, first, labels as usize)
    }

    /// The labels of the edges into a daughter that may be present, and of those that must be.
    pub fn labels_into(&self, dim: DimId, daughter: NodeId) -> LabelsInto
        requires dim { dim.0 < length self.now.parts.dims }
        requires daughter { daughter.0 < nodes self.now.parts }
        ensures may { AreLabels self.now.parts (May self.now.parts self.now.now) dim.0 daughter.0 result.may }
        ensures must { AreLabels self.now.parts (Must self.now.parts self.now.now) dim.0 daughter.0 result.must }
        ensures known { Known self.now }
    {
        self.into[labels_at(self.node_count, dim, daughter)]
    }

    /// For each node of the sentence the labels of the edges into it that may be present, and of those that must be.
    pub fn labels_by_daughter(&self, dim: DimId) -> &[LabelsInto]
        requires { dim.0 < length self.now.parts.dims }
        ensures labels { AreLabelsOf self.now.parts self.now.now dim.0 result.now }
        ensures known { Known self.now }
    {
        let first = labels_at(self.node_count, dim, NodeId(0));
        part_of(self.into.as_slice(), first, self.node_count)
    }

    /// The nodes of the sentence.
    pub fn all_nodes(&self) -> NodeSet
        ensures members { (node : ℕ) → has result node ≡ nat_lt node (nodes self.now.parts) }
        ensures known { Known self.now }
    {
        self.all
    }

    /// The present time, to which [`Store::undo`] can go back: how many boxes there were before this one.
    pub fn mark(&self) -> Mark
        ensures mark { result + 1 ≡ length self.now.history }
        ensures last { slice_index_or self.now.history result [] ≡ self.now.now }
        ensures known { Known self.now }
    {
        self.trail.mark()
    }

    /// Goes back to the box that stood at the mark.
    pub fn undo(&mut self, mark: Mark)
        requires { mark < length self.old.history }
        ensures history { self.new.history ≡ take (mark + 1) self.old.history }
        ensures now { self.new.now ≡ slice_index_or self.old.history mark [] }
        ensures parts { self.new.parts ≡ self.old.parts }
        ensures turns { self.new.turns ≡ self.old.turns }
        ensures known { Known self.new }
    {
        self.trail.undo(mark);
        let undone = behind(self.removed.as_slice(), mark.records());
        renew_all(
            &mut self.across,
            &mut self.into,
            &self.trail,
            self.node_count,
            undone,
        );
        self.removed.truncate(mark.records());
    }

    /// The decisions of which values were removed since a mark, the oldest removal first.
    pub fn removed_since(&self, mark: Mark) -> &[Decision]
        requires { mark < length self.now.history }
        ensures names { Names self.now.parts (slice_index_or self.now.history mark []) self.now.now result.now }
        ensures known { Known self.now }
    {
        behind(self.removed.as_slice(), mark.records())
    }

    /// Counts a turn of a propagator, up to the greatest number.
    pub fn turn(&mut self)
        ensures turns { self.new
            ≡ record { parts = self.old.parts; now = self.old.now; history = self.old.history; turns = min (self.old.turns + 1) (2 ^ 64 - 1) } }
        ensures known { Known self.new }
    {
        self.turns = self.turns.saturating_add(1);
    }

    /// How many turns were counted.
    pub fn turns(&self) -> u64
        ensures turns { result ≡ self.now.turns }
        ensures known { Known self.now }
    {
        self.turns
    }
}
