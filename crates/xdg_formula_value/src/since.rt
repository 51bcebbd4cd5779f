//! Whether a rule that an earlier box left open or made true is false now.

ghost use Rattle.std.specs.Prelude.{◌≡◌, ◌<◌, ◌↔◌, ◌==◌, ◌||◌, ℕ, IsTrue};
ghost use Rattle.xdg_facts.specs.Rises.{has};
ghost use Rattle.xdg_problem.specs.Claims.{IsOf, Suits, claim};
ghost use Rattle.xdg_rules.specs.Worths.{RuleFalse};
ghost use Rattle.xdg_store.specs.States.{Known};
ghost use Rattle.xdg_propcore.specs.Standing.{box_at};
ghost use Rattle.xdg_formula_value.specs.Lost.{HasEarlier, LeadsTo};

use crate::about::found_since;
use crate::local::is_local;
use crate::value::is_false;
use xdg_base::NodeId;
use xdg_nodeset::NodeSet;
use xdg_problem::Formula;
use xdg_store::{Mark, Store};

/// So many removals at most, and a rule is looked at only where they can have changed it; behind more it is looked at whole.
const FEW: usize = 16;

/// A set with a name more.
fn with_name(names: NodeSet, name: u8) -> NodeSet
    requires { name < 128 }
    ensures { (n : ℕ) → has result n ≡ ((n == name) || has names n) }
{
    let mut more = names;
    more.insert(NodeId(name));
    more
}

/// Whether a rule is false, where it is so exactly if some nodes for some names let the box make a part of it true, or false. It wasn't
/// false in an earlier box.
fn false_at(
    store: &Store,
    formula: &Formula,
    truth: bool,
    names: NodeSet,
    rule: &Formula,
    since: Mark,
) -> bool
    requires suits { Suits store.now.parts rule.now }
    requires is_of { IsOf store.now.parts (claim formula.now) }
    requires leads { LeadsTo store.now.parts (claim rule.now) names (claim formula.now) truth }
    requires earlier { HasEarlier store.now since }
    requires open { RuleFalse store.now.parts rule.now (box_at store.now since) → ⊥ }
    ensures { IsTrue result ↔ RuleFalse store.now.parts rule.now store.now.now }
{
    if !is_local(store, names, formula, since) {
        return is_false(store, rule);
    }
    match found_since(store, names, formula, truth, since) {
        Some(found) => found,
        None => is_false(store, rule),
    }
}

/// The same. Names of quantifiers that go with the truth are added to the names.
#[cycle(under)]
#[tactic(auto, using(crate::proofs::Claiming::the_claims, crate::proofs::Under::leads_not))]
fn false_under(
    store: &Store,
    formula: &Formula,
    truth: bool,
    names: NodeSet,
    rule: &Formula,
    since: Mark,
) -> bool
    requires suits { Suits store.now.parts rule.now }
    requires is_of { IsOf store.now.parts (claim formula.now) }
    requires leads { LeadsTo store.now.parts (claim rule.now) names (claim formula.now) truth }
    requires earlier { HasEarlier store.now since }
    requires open { RuleFalse store.now.parts rule.now (box_at store.now since) → ⊥ }
    ensures { IsTrue result ↔ RuleFalse store.now.parts rule.now store.now.now }
{
    match formula {
        Formula::Not(inner) => false_under(store, inner.get(), !truth, names, rule, since),
        Formula::Every(name, inner) => {
            if truth {
                return false_at(store, formula, truth, names, rule, since);
            }
            if *name >= 128 {
                return false_at(store, formula, truth, names, rule, since);
            }
            false_under(
                store,
                inner.get(),
                truth,
                with_name(names, *name),
                rule,
                since,
            )
        }
        Formula::Any(name, inner) => {
            if !truth {
                return false_at(store, formula, truth, names, rule, since);
            }
            if *name >= 128 {
                return false_at(store, formula, truth, names, rule, since);
            }
            false_under(
                store,
                inner.get(),
                truth,
                with_name(names, *name),
                rule,
                since,
            )
        }
        _ => false_at(store, formula, truth, names, rule, since),
    }
}

/// Whether a formula is false in the box of a store, which an earlier box didn't make false. Where few decisions have lost values since
/// then, it looks only where the names of the first quantifiers, those of one kind, stand for nodes of these decisions.
pub(crate) fn is_false_since(store: &Store, formula: &Formula, since: Mark) -> bool
    requires suits { Suits store.now.parts formula.now }
    requires earlier { HasEarlier store.now since }
    requires open { RuleFalse store.now.parts formula.now (box_at store.now since) → ⊥ }
    ensures exact { IsTrue result ↔ RuleFalse store.now.parts formula.now store.now.now }
    ensures known { Known store.now }
{
    if store.removed_since(since).len() > FEW {
        return is_false(store, formula);
    }
    false_under(store, formula, false, NodeSet::empty(), formula, since)
}
