//! What all nodes with the same entries have, made once and shared.

ghost use Rattle.std.specs.Prelude.{◌≡◌, ◌<◌, [], ◌∷◌, length, All, IfOk, OnOk};
ghost use Rattle.xdg_packed.specs.Entries.{IsRightLexicon};
ghost use Rattle.xdg_build.specs.Grammars.{grammar_of};
ghost use Rattle.xdg_build.specs.Groups.{groups_of};
ghost use Rattle.xdg_build.specs.Known.{AreRecords};
ghost use Rattle.xdg_build.specs.Nodes as spec;
ghost use Rattle.xdg_build.specs.Suits.{Suits};
ghost use Rattle.xdg_problem.specs.declared.parts.Parts.{Parts};
ghost use Rattle.xdg_problem.specs.Problems.{IsGroup};

use crate::groups::compile_uses;
use crate::records::Records;
use std::alloc::Global;
use xdg_base::{EntryNo, List, OutOfMemory};
use xdg_check::Checked;
use xdg_packed::Packed;
use xdg_problem::{Feat, Group, SharedList};

/// What a node of a sentence has by its word.
#[derive(Debug, Drop)]
pub struct NodePlan {
    /// Its candidate entries.
    pub candidates: SharedList<EntryNo>,
    /// For each principle use in a used dimension, in it for each candidate entry, in it for each feature argument, the feature.
    pub feats: SharedList<SharedList<List<Feat>>>,
}

impl NodePlan {
    /// The same once more. It copies nothing and takes no memory; an error says that it has as many owners as can be counted.
    pub fn share(&self) -> Result<NodePlan, OutOfMemory>
        ensures { IfOk result (λ made. made ≡ self.now) }
    {
        Ok(NodePlan {
            candidates: self.candidates.share()?,
            feats: self.feats.share()?,
        })
    }
}

/// The features of the only node of groups.
fn only_feats(alloc: Global, groups: &[Group]) -> Result<List<SharedList<List<Feat>>>, OutOfMemory>
    requires { All (λ group. 0 < length group.feats) groups.now }
    ensures { IfOk result (λ made. made ≡ spec.only_feats groups.now) }
{
    let mut made = List::new(alloc);
    for group in groups {
        made.push(group.feats.as_slice()[0].share()?)?;
    }
    Ok(made)
}

/// What a node has that may have these entries of a grammar. Records that are compiled already are not compiled again.
pub fn plan_node(
    alloc: Global,
    checked: &Checked,
    packed: &Packed,
    numbers: &[EntryNo],
    records: &mut Records,
) -> Result<NodePlan, OutOfMemory>
    requires lexicon { IsRightLexicon checked.now.types packed.now.entries }
    requires numbers { All (λ no. no.0 < length packed.now.entries) numbers.now }
    requires records { AreRecords (grammar_of checked.now packed.now) records.old }
    ensures node { IfOk result (λ made. made ≡ spec.node_plan (grammar_of checked.now packed.now) numbers.now) }
    ensures records { OnOk result (AreRecords (grammar_of checked.now packed.now) records.new) }
{
    let numbers = List::from_slice(alloc, numbers)?;
    let mut nodes = List::new(alloc);
    nodes.push(SharedList::of(alloc, numbers)?)?;
    let groups = compile_uses(alloc, checked, packed, nodes.as_slice(), records)?;
    let feats = only_feats(alloc, groups.as_slice())?;
    Ok(NodePlan {
        candidates: nodes.as_slice()[0].share()?,
        feats: SharedList::of(alloc, feats)?,
    })
}

/// The features of nodes for the principle use with that place.
fn feats_at(
    alloc: Global,
    place: usize,
    nodes: &[NodePlan],
) -> Result<List<SharedList<List<Feat>>>, OutOfMemory>
    requires { All (λ node. place < length node.feats) nodes.now }
    ensures { IfOk result (λ made. made ≡ spec.feats_at place nodes.now) }
{
    let mut made = List::new(alloc);
    for node in nodes {
        made.push(node.feats.as_slice()[place].share()?)?;
    }
    Ok(made)
}

/// A group over these nodes.
fn over(
    alloc: Global,
    place: usize,
    nodes: &[NodePlan],
    group: &Group,
) -> Result<Group, OutOfMemory>
    requires { All (λ node. place < length node.feats) nodes.now }
    ensures { IfOk result (λ made. made ≡ spec.over place nodes.now group.now) }
{
    Ok(Group {
        principle: group.principle.copy(alloc)?,
        dims: List::from_slice(alloc, group.dims.as_slice())?,
        attrs: List::from_slice(alloc, group.attrs.as_slice())?,
        order: List::from_slice(alloc, group.order.as_slice())?,
        truths: List::from_slice(alloc, group.truths.as_slice())?,
        feats: feats_at(alloc, place, nodes)?,
    })
}

/// The uses of principles in used dimensions, in the order of the text, over these nodes, given the same over no node. The features
/// are those that the nodes share.
pub fn over_nodes(
    alloc: Global,
    checked: &Checked,
    packed: &Packed,
    uses: &[Group],
    nodes: &[NodePlan],
) -> Result<List<Group>, OutOfMemory>
    requires lexicon { IsRightLexicon checked.now.types packed.now.entries }
    requires uses { uses.now ≡ groups_of (grammar_of checked.now packed.now) [] }
    requires nodes { All (spec.IsNodePlan (grammar_of checked.now packed.now)) nodes.now }
    requires candidates { All (All (λ no. no.0 < length packed.now.entries)) (spec.candidates_in nodes.now) }
    ensures compiled { IfOk result (λ made. made ≡ groups_of (grammar_of checked.now packed.now) (spec.candidates_in nodes.now)) }
    ensures groups { IfOk result
        (λ made. (parts : Parts) → Suits (grammar_of checked.now packed.now) (spec.candidates_in nodes.now) parts → All (IsGroup parts) made) }
{
    let _ = checked.principles();
    let mut made = List::new(alloc);
    for (place, group) in uses.iter().enumerate() {
        made.push(over(alloc, place, nodes, group)?)?;
    }
    Ok(made)
}
