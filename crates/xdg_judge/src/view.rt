//! What a judge works on.

ghost use Rattle.std.specs.Prelude.{◌≡◌, ◌<◌, ◌↔◌, IsTrue, slice_index};
ghost use Rattle.xdg_problem.specs.Analyses.{IsAnalysis};
ghost use Rattle.xdg_problem.specs.Arguments.{first_dim, second_dim};
ghost use Rattle.xdg_problem.specs.Paths.{edges_on, Above, IsDaughter, IsDaughterBy};
ghost use Rattle.xdg_problem.specs.Places.{nodes};
ghost use Rattle.xdg_problem.specs.Problems.{IsProblem};
ghost use Rattle.xdg_problem.specs.Vectors.{entry_places};
ghost use Rattle.xdg_judge.specs.Reached.{AreWithin};
ghost use Rattle.xdg_judge.specs.Views.{IsView};

use crate::links::{Links, leads, leads_by};
use crate::reads::{candidate_of, dim_of};
use xdg_problem::{Analysis, Edge, Group, Parts};

/// A principle use and an analysis, with the edges of its first and of its second dimension as sets.
#[derive(Drop)]
pub struct View<'a> {
    pub parts: &'a Parts,
    pub group: &'a Group,
    pub analysis: &'a Analysis,
    pub first_dim: u8,
    pub second_dim: u8,
    pub first: Links,
    pub second: Links,
}

impl<'a> View<'a> {
    /// The view of a principle use and an analysis.
    #[tactic(auto, using(crate::proofs::Viewing::within_of, crate::proofs::Viewing::view_of))]
    pub fn of(parts: &'a Parts, group: &'a Group, analysis: &'a Analysis) -> View<'a>
        requires problem { IsProblem parts.now }
        requires fits { IsAnalysis parts.now analysis.now }
        ensures parts { result.parts.now ≡ parts.now }
        ensures group { result.group.now ≡ group.now }
        ensures view { IsView parts.now group.now analysis.now result.first_dim result.second_dim result.first result.second }
        ensures analysis { result.analysis.now ≡ analysis.now }
    {
        let edges = analysis.edges.as_slice();
        let size = parts.words.len() as u8;
        let first_dim = dim_of(group, 0);
        let second_dim = dim_of(group, 1);
        View {
            parts,
            group,
            analysis,
            first_dim,
            second_dim,
            first: Links::of(edges, first_dim, size),
            second: Links::of(edges, second_dim, size),
        }
    }

    /// The edges of all dimensions.
    pub fn edges(&self) -> &[Edge]
        requires view { IsView self.now.parts.now self.now.group.now self.now.analysis.now self.now.first_dim self.now.second_dim self.now.first
            self.now.second }
        ensures value { result.now ≡ self.now.analysis.now.edges }
        ensures within { AreWithin 128 result.now }
    {
        self.analysis.edges.as_slice()
    }

    /// The place of a node's entry among its candidates.
    pub fn candidate(&self, node: u8) -> usize
        requires view { IsView self.now.parts.now self.now.group.now self.now.analysis.now self.now.first_dim self.now.second_dim self.now.first
            self.now.second }
        requires within { node < nodes self.now.parts.now }
        ensures { result ≡ slice_index (entry_places self.now.parts.now.candidates self.now.analysis.now.entries) node }
    {
        candidate_of(self.parts, self.analysis, usize::from(node))
    }

    /// Whether v is a daughter of u with a label on the first dimension.
    pub fn is_daughter_by(&self, u: u8, label: u8, v: u8) -> bool
        requires view { IsView self.now.parts.now self.now.group.now self.now.analysis.now self.now.first_dim self.now.second_dim self.now.first
            self.now.second }
        requires u_within { u < nodes self.now.parts.now }
        requires v_within { v < nodes self.now.parts.now }
        ensures { IsTrue result ↔ IsDaughterBy (edges_on (first_dim self.now.group.now) self.now.analysis.now.edges) u label v }
    {
        leads_by(&self.first.down.by_label, u, label, v)
    }

    /// Whether v is a daughter of u on the first dimension.
    pub fn is_daughter(&self, u: u8, v: u8) -> bool
        requires view { IsView self.now.parts.now self.now.group.now self.now.analysis.now self.now.first_dim self.now.second_dim self.now.first
            self.now.second }
        requires u_within { u < nodes self.now.parts.now }
        requires v_within { v < nodes self.now.parts.now }
        ensures { IsTrue result ↔ IsDaughter (edges_on (first_dim self.now.group.now) self.now.analysis.now.edges) u v }
    {
        leads(&self.first.down.next, u, v)
    }

    /// Whether u is above v on the first dimension.
    pub fn is_above(&self, u: u8, v: u8) -> bool
        requires view { IsView self.now.parts.now self.now.group.now self.now.analysis.now self.now.first_dim self.now.second_dim self.now.first
            self.now.second }
        requires u_within { u < nodes self.now.parts.now }
        requires v_within { v < nodes self.now.parts.now }
        ensures { IsTrue result ↔ Above (edges_on (first_dim self.now.group.now) self.now.analysis.now.edges) u v }
    {
        leads(&self.first.down.far, u, v)
    }

    /// Whether v is a daughter of u on the second dimension.
    pub fn is_second_daughter(&self, u: u8, v: u8) -> bool
        requires view { IsView self.now.parts.now self.now.group.now self.now.analysis.now self.now.first_dim self.now.second_dim self.now.first
            self.now.second }
        requires u_within { u < nodes self.now.parts.now }
        requires v_within { v < nodes self.now.parts.now }
        ensures { IsTrue result ↔ IsDaughter (edges_on (second_dim self.now.group.now) self.now.analysis.now.edges) u v }
    {
        leads(&self.second.down.next, u, v)
    }

    /// Whether u is above v on the second dimension.
    pub fn is_second_above(&self, u: u8, v: u8) -> bool
        requires view { IsView self.now.parts.now self.now.group.now self.now.analysis.now self.now.first_dim self.now.second_dim self.now.first
            self.now.second }
        requires u_within { u < nodes self.now.parts.now }
        requires v_within { v < nodes self.now.parts.now }
        ensures { IsTrue result ↔ Above (edges_on (second_dim self.now.group.now) self.now.analysis.now.edges) u v }
    {
        leads(&self.second.down.far, u, v)
    }
}
