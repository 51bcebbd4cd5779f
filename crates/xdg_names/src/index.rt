//! Texts by number.

ghost use Rattle.std.specs.Prelude.{◌≡◌, [], ◌∷◌, ◌++◌, length, not, IsTrue, IsOk, if◌then◌else◌, IfOk, OnErr};
ghost use Rattle.xdg_facts.specs.Membership.{Differ};
ghost use Rattle.xdg_names.specs.Texts.{has_text, place_of};

use indexmap::IndexSet;
use std::alloc::Global;
use std::marker::Model;
use xdg_base::OutOfMemory;

/// Different texts, in the order in which they were added, each with its place in that order as its number, from 0.
#[derive(Debug, Drop)]
pub struct Index {
    texts: IndexSet<String>,
}

impl Model for Index {
    ghost use Rattle.std.specs.Prelude.{List, ℕ, map};
    ghost use Rattle.std.specs.String.{string_bytes};
    ghost use Rattle.std.specs.Coded.{coded_list, coded_ℕ};
    ghost use Rattle.xdg_facts.specs.Membership.{Differ};

    ghost Value = { List (List ℕ) };

    ghost coded = { coded_list (coded_list coded_ℕ) };

    ghost view = { λ index. map string_bytes index.texts.keys };

    ghost invariant = { λ index. Differ (map string_bytes index.texts.keys) };
}

impl Index {
    /// Without texts. It takes no memory.
    pub fn new(alloc: Global) -> Index
        ensures { result ≡ [] }
    {
        Index {
            texts: IndexSet::new(alloc),
        }
    }

    /// Adds a text at the end, unless it stands there already. Answers whether it was new. On want of memory nothing
    /// changes; a text that stands there takes no memory.
    pub fn add(&mut self, alloc: Global, text: &str) -> Result<bool, OutOfMemory>
        ensures new { IfOk result (λ added. added ≡ not (has_text self.old text.now)) }
        ensures ok { IfOk result (λ added. self.new ≡ (if added then self.old ++ text.now ∷ [] else self.old)) }
        ensures err { OnErr result (self.new ≡ self.old) }
        ensures known { IsTrue (has_text self.old text.now) → IsOk result }
    {
        if self.texts.contains(text) {
            return Ok(false);
        }
        self.texts.insert(String::from_str(alloc, text)?)?;
        Ok(true)
    }

    /// The number of a text, from 0, if it stands there.
    pub fn find(&self, text: &str) -> Option<usize>
        ensures { result ≡ place_of self.now text.now }
    {
        self.texts.get_index_of(text)
    }

    /// Whether a text stands there.
    pub fn contains(&self, text: &str) -> bool
        ensures { result ≡ has_text self.now text.now }
    {
        self.texts.contains(text)
    }

    /// The number of texts, which differ.
    pub fn len(&self) -> usize
        ensures len { result ≡ length self.now }
        ensures differ { Differ self.now }
    {
        self.texts.len()
    }
}
