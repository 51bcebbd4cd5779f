//! What the problems of a grammar share.

ghost use Rattle.std.specs.Prelude.{◌≡◌, None, map, IfOk, OnOk};
ghost use Rattle.xdg_build.specs.Stocks.{IsStock, word_plan};
ghost use Rattle.xdg_packed.specs.Entries.{IsRightLexicon};
ghost use Rattle.xdg_build.specs.Grammars.{grammar_of};
ghost use Rattle.xdg_names.specs.Texts.{place_of};

use crate::groups::compile_uses;
use crate::nodes::{NodePlan, plan_node};
use crate::plans::plans;
use crate::records::Records;
use std::alloc::Global;
use xdg_base::{List, OutOfMemory};
use xdg_check::Checked;
use xdg_names::Index;
use xdg_packed::Packed;
use xdg_problem::{DimPlan, Group, SentenceWord, SharedList};

/// What is made once for a grammar, and shared by the problems of its sentences: the dimensions, and what nodes have by the words that
/// came so far. An entry of the lexicon stands there at most once, so it holds less than the problem of one longest sentence may.
#[derive(Debug, Drop)]
pub struct Stock {
    pub(crate) dims: SharedList<DimPlan>,
    // The principle uses in used dimensions, over no node.
    pub(crate) uses: List<Group>,
    records: Records,
    // The words that came so far.
    words: Index,
    // For each of them what a node has by it.
    nodes: List<NodePlan>,
}

impl Stock {
    /// That of a grammar and its packed lexicon, before the first word.
    pub fn new(alloc: Global, checked: &Checked, packed: &Packed) -> Result<Stock, OutOfMemory>
        requires { IsRightLexicon checked.now.types packed.now.entries }
        ensures { IfOk result (IsStock (grammar_of checked.now packed.now)) }
    {
        let dims = SharedList::of(alloc, plans(alloc, checked)?)?;
        let mut records = Records::new(alloc, checked)?;
        let uses = compile_uses(alloc, checked, packed, &[], &mut records)?;
        Ok(Stock {
            dims,
            uses,
            records,
            words: Index::new(alloc),
            nodes: List::new(alloc),
        })
    }

    /// What a node has by a word. A word that came before is looked up.
    fn node_of(
        &mut self,
        alloc: Global,
        checked: &Checked,
        packed: &Packed,
        word: &str,
    ) -> Result<NodePlan, OutOfMemory>
        requires lexicon { IsRightLexicon checked.now.types packed.now.entries }
        requires stock { IsStock (grammar_of checked.now packed.now) self.old }
        ensures node { IfOk result (λ node. node ≡ word_plan (grammar_of checked.now packed.now) word.now) }
        ensures stock { OnOk result (IsStock (grammar_of checked.now packed.now) self.new) }
    {
        match self.words.find(word) {
            Some(place) => self.nodes.as_slice()[place].share(),
            None => self.learn(alloc, checked, packed, word),
        }
    }

    /// What a node has by a word that comes for the first time.
    fn learn(
        &mut self,
        alloc: Global,
        checked: &Checked,
        packed: &Packed,
        word: &str,
    ) -> Result<NodePlan, OutOfMemory>
        requires lexicon { IsRightLexicon checked.now.types packed.now.entries }
        requires stock { IsStock (grammar_of checked.now packed.now) self.old }
        requires first { place_of self.old.words word.now ≡ None }
        ensures node { IfOk result (λ node. node ≡ word_plan (grammar_of checked.now packed.now) word.now) }
        ensures stock { OnOk result (IsStock (grammar_of checked.now packed.now) self.new) }
    {
        let numbers = packed.of_word(word);
        let node = plan_node(alloc, checked, packed, numbers, &mut self.records)?;
        self.nodes.push(node.share()?)?;
        self.words.add(alloc, word)?;
        Ok(node)
    }

    /// What the nodes of a sentence have by their words.
    pub(crate) fn nodes_of(
        &mut self,
        alloc: Global,
        checked: &Checked,
        packed: &Packed,
        words: &[SentenceWord],
    ) -> Result<List<NodePlan>, OutOfMemory>
        requires lexicon { IsRightLexicon checked.now.types packed.now.entries }
        requires stock { IsStock (grammar_of checked.now packed.now) self.old }
        ensures nodes { IfOk result (λ nodes. nodes ≡ map (λ word. word_plan (grammar_of checked.now packed.now) word.text) words.now) }
        ensures stock { OnOk result (IsStock (grammar_of checked.now packed.now) self.new) }
    {
        let mut nodes = List::new(alloc);
        for word in words {
            nodes.push(self.node_of(alloc, checked, packed, word.text.as_str())?)?;
        }
        Ok(nodes)
    }
}
