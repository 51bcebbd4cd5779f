//! Formulas that are looked at only where values were lost.

ghost use Rattle.std.specs.Prelude.{IsTrue, map};
ghost use Rattle.xdg_problem.specs.Claims.{claim, claims_of};
ghost use Rattle.xdg_propcore.specs.Standing.{box_at};
ghost use Rattle.xdg_formula_value.specs.Lost.{AsksIf, EachAsksIf, HasEarlier, LosesOne};

use crate::kept::are_paths_kept;
use crate::names::{is_named, outside};
use xdg_base::DimId;
use xdg_nodeset::NodeSet;
use xdg_problem::Formula;
use xdg_store::{Mark, Store};

/// Whether at most one value was removed since a mark.
fn is_single(store: &Store, since: Mark) -> bool
    requires earlier { HasEarlier store.now since }
    ensures { IsTrue result → LosesOne store.now.parts (box_at store.now since) store.now.now }
{
    store.removed_since(since).len() <= 1
}

/// Whether it can be looked at only where paths from the node for a name to that for another may be new or gone since a mark: at most one
/// value was removed, and one of the names is one of some, or there are no such paths.
fn are_paths_local(
    store: &Store,
    names: NodeSet,
    dim: DimId,
    upper: u8,
    lower: u8,
    since: Mark,
) -> bool
    requires earlier { HasEarlier store.now since }
    ensures { IsTrue result → LosesOne store.now.parts (box_at store.now since) store.now.now }
{
    if !is_single(store, since) {
        return false;
    }
    if is_named(names, upper) || is_named(names, lower) {
        return true;
    }
    are_paths_kept(store, dim, since)
}

/// Whether a formula can be looked at only where decisions have lost values since a mark. It says no also where that could be as dear as to
/// look at the whole: where an edge, an attribute, an entry or a path that may be new or gone has none of some names, and where the formula
/// has quantifiers or asks for paths, of which no tables are made then, and more than one value was removed.
#[cycle(local)]
#[tactic(auto, using(crate::proofs::Claiming::the_claims))]
pub(crate) fn is_local(store: &Store, names: NodeSet, formula: &Formula, since: Mark) -> bool
    requires earlier { HasEarlier store.now since }
    ensures { IsTrue result → AsksIf (LosesOne store.now.parts (box_at store.now since) store.now.now) (claim formula.now) }
{
    match formula {
        Formula::Not(inner) => is_local(store, names, inner.get(), since),
        Formula::And(parts) => are_local(store, names, parts.as_slice(), since),
        Formula::Or(parts) => are_local(store, names, parts.as_slice(), since),
        Formula::Every(name, inner) => {
            if !is_single(store, since) {
                return false;
            }
            is_local(store, outside(names, *name), inner.get(), since)
        }
        Formula::Any(name, inner) => {
            if !is_single(store, since) {
                return false;
            }
            is_local(store, outside(names, *name), inner.get(), since)
        }
        Formula::Edge(_, mother, _, daughter) => {
            is_named(names, *mother) || is_named(names, *daughter)
        }
        Formula::Above(dim, upper, lower) => {
            are_paths_local(store, names, *dim, *upper, *lower, since)
        }
        Formula::Left(_, _) => true,
        Formula::Same(_, _) => true,
        Formula::Attr(name, _, _, _) => is_named(names, *name),
        Formula::Feat(name, _) => is_named(names, *name),
    }
}

/// The same of each of some formulas.
#[cycle(local)]
#[tactic(auto, using(xdg_problem::specs::declared::formula::Formula::TheViews::the_lemmas, crate::proofs::Locals::each_steps))]
fn are_local(store: &Store, names: NodeSet, formulas: &[Formula], since: Mark) -> bool
    requires earlier { HasEarlier store.now since }
    ensures { IsTrue result → EachAsksIf (LosesOne store.now.parts (box_at store.now since) store.now.now) (claims_of (map claim formulas.now)) }
{
    for formula in formulas {
        if !is_local(store, names, formula, since) {
            return false;
        }
    }
    true
}
