//! The uses of rules and bounds.

ghost use Rattle.std.specs.Prelude.{◌≡◌, ◌++◌, [], map, reverse, IfOk, OnOk};
ghost use Rattle.xdg_problem.specs.Further as further;

use crate::copying::share_lists;
use crate::parts::{Feat, Group, Principle};
use crate::shared::SharedList;
use std::alloc::Global;
use xdg_base::{EntryNo, List, OutOfMemory};

/// No features for each candidate of a node.
fn no_features_at(alloc: Global, entries: &[EntryNo]) -> Result<List<List<Feat>>, OutOfMemory>
    ensures { IfOk result (λ made. made ≡ map (λ entry. []) entries.now) }
{
    let mut made = List::new(alloc);
    for _entry in entries {
        made.push(List::new(alloc))?;
    }
    Ok(made)
}

/// No features for each candidate of each node.
pub(crate) fn no_features(
    alloc: Global,
    candidates: &[SharedList<EntryNo>],
) -> Result<List<SharedList<List<Feat>>>, OutOfMemory>
    ensures { IfOk result (λ made. made ≡ further.no_features candidates.now) }
{
    let mut made = List::new(alloc);
    for entries in candidates {
        let features = no_features_at(alloc, entries.as_slice())?;
        made.push(SharedList::of(alloc, features)?)?;
    }
    Ok(made)
}

/// The use of a rule or a bound. It shares the features.
pub(crate) fn use_of(
    alloc: Global,
    feats: &[SharedList<List<Feat>>],
    principle: Principle,
) -> Result<Group, OutOfMemory>
    ensures { IfOk result (λ made. made ≡ further.bare_use feats.now principle) }
{
    Ok(Group {
        principle,
        dims: List::new(alloc),
        attrs: List::new(alloc),
        order: List::new(alloc),
        truths: List::new(alloc),
        feats: share_lists(alloc, feats)?,
    })
}
