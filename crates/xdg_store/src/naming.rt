//! Of which decisions values were removed.

ghost use Rattle.std.specs.Prelude.{◌≡◌, ◌<◌, drop, length};
ghost use Rattle.std.specs.Vec.{vec_capacity};
ghost use Rattle.xdg_store.specs.Naming.{noted};
ghost use Rattle.xdg_store.specs.declared.change.Change.TheVariants as changes;

use crate::change::Change;
use crate::decision::Decision;

/// Keeps of which decision values were removed, if any were.
pub(crate) fn note(removed: &mut Vec<Decision>, change: Change, decision: Decision)
    requires room { change ≡ changes.Changed → length removed.old.items < vec_capacity removed.old }
    ensures items { removed.new.items ≡ noted change removed.old.items decision }
    ensures room { vec_capacity removed.new ≡ vec_capacity removed.old }
{
    match change {
        Change::Same => {}
        Change::Changed => removed.push_reserved(decision),
        Change::Emptied => {}
    }
}

/// The decisions behind the first so many.
pub(crate) fn behind(removed: &[Decision], first: usize) -> &[Decision]
    ensures { result.now ≡ drop first removed.now }
{
    if removed.len() <= first {
        return &[];
    }
    &removed[first..]
}
