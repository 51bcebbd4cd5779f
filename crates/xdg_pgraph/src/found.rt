//! What a search for edges found.

ghost use Rattle.std.specs.Prelude.{◌≡◌, ◌↔◌, IsTrue};
ghost use Rattle.xdg_pgraph.specs.Seeking.{IsMore, IsOther, found_with, found_merged};
ghost use Rattle.xdg_pgraph.specs.declared.found.Found.TheVariants as founds;

use xdg_problem::Edge;

/// What a search for edges found.
#[derive(Clone, Copy, Debug)]
pub(crate) enum Found {
    /// No edge.
    Nothing,
    /// This edge alone.
    One(Edge),
    /// More than one edge.
    More,
}

/// Whether two edges are the same.
pub(crate) fn is_same(a: Edge, b: Edge) -> bool
    ensures { IsTrue result ↔ (a ≡ b) }
{
    a.dim.0 == b.dim.0
        && a.mother.0 == b.mother.0
        && a.label.0 == b.label.0
        && a.daughter.0 == b.daughter.0
}

impl Found {
    /// One edge more.
    pub(crate) fn with(self, edge: Edge) -> Found
        ensures { result ≡ found_with self edge }
    {
        match self {
            Found::Nothing => Found::One(edge),
            Found::One(_) => Found::More,
            Found::More => Found::More,
        }
    }

    /// What two searches found, that look for different edges.
    pub(crate) fn merged(self, other: Found) -> Found
        ensures { result ≡ found_merged self other }
    {
        match self {
            Found::Nothing => other,
            Found::One(edge) => other.with(edge),
            Found::More => Found::More,
        }
    }

    /// Whether no edge was found.
    pub(crate) fn is_nothing(self) -> bool
        ensures { IsTrue result ↔ (self ≡ founds.Nothing) }
    {
        match self {
            Found::Nothing => true,
            Found::One(_) => false,
            Found::More => false,
        }
    }

    /// Whether more than one edge was found.
    pub(crate) fn is_more(self) -> bool
        ensures { IsTrue result ↔ IsMore self }
    {
        match self {
            Found::Nothing => false,
            Found::One(_) => false,
            Found::More => true,
        }
    }

    /// Whether an edge other than this one was found.
    pub(crate) fn has_other(self, edge: Edge) -> bool
        ensures { IsTrue result ↔ IsOther self edge }
    {
        match self {
            Found::Nothing => false,
            Found::One(first) => !is_same(first, edge),
            Found::More => true,
        }
    }
}
