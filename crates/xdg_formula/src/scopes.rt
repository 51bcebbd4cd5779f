//! The names of nodes that are bound.

ghost use Rattle.std.specs.Prelude.{◌≡◌, [], ◌∷◌, ◌++◌, map, IfOk};
ghost use Rattle.xdg_names.specs.First.{first};
ghost use Rattle.xdg_names.specs.Texts.{has_text};
ghost use Rattle.xdg_formula.specs.Formulas as spec;

use std::alloc::Global;
use xdg_ast::Name;
use xdg_base::{Cause, Fault, OutOfMemory};
use xdg_names::earlier;

/// How many quantifiers may stand open.
const MOST_OPEN: usize = 3;

/// Whether a name is bound.
fn is_bound(bound: &[&str], name: &str) -> bool
    ensures { result ≡ has_text (map (λ text. text.now) bound.now) name.now }
{
    for other in bound {
        if *other == name {
            return true;
        }
    }
    false
}

/// A node that isn't bound.
#[tactic(auto, unfolding(xdg_terms::specs::Faults::missing))]
pub(crate) fn check_node(bound: &[&str], node: &Name) -> Option<Fault>
    ensures { result ≡ first (spec.unbound (map (λ text. text.now) bound.now) node.now) }
{
    if is_bound(bound, node.text.as_str()) {
        return None;
    }
    Some(Fault::at(Cause::UnknownName, node.span.start))
}

/// Of two nodes one that isn't bound.
#[tactic(auto, using(xdg_names::proofs::First::first_append))]
pub(crate) fn check_nodes(bound: &[&str], one: &Name, other: &Name) -> Option<Fault>
    ensures { result ≡ first (spec.unbound_nodes (map (λ text. text.now) bound.now) one.now other.now) }
{
    earlier(check_node(bound, one), check_node(bound, other))
}

/// A quantifier that is one too many, whose word stands at a place.
fn check_open(bound: &[&str], place: u32) -> Option<Fault>
    ensures { result ≡ first (spec.nested (map (λ text. text.now) bound.now) place) }
{
    if bound.len() != MOST_OPEN {
        return None;
    }
    Some(Fault {
        cause: Cause::TooNested,
        at: place,
        reached: MOST_OPEN as u64 + 1,
    })
}

/// A name that is bound already.
fn check_again(bound: &[&str], name: &Name) -> Option<Fault>
    ensures { result ≡ first (spec.bound_again (map (λ text. text.now) bound.now) name.now) }
{
    if is_bound(bound, name.text.as_str()) {
        return Some(Fault::at(Cause::Twice, name.span.start));
    }
    None
}

/// What is wrong with a quantifier whose word stands at a place, and with its name.
#[tactic(auto, using(xdg_names::proofs::First::first_append))]
pub(crate) fn check_binding(bound: &[&str], place: u32, name: &Name) -> Option<Fault>
    ensures { result ≡ first (spec.binding_faults (map (λ text. text.now) bound.now) place name.now) }
{
    earlier(check_open(bound, place), check_again(bound, name))
}

/// The names of nodes with one more, the inmost last.
pub fn bind<'a>(
    alloc: Global,
    bound: &[&'a str],
    name: &'a Name,
) -> Result<Vec<&'a str>, OutOfMemory>
    ensures { IfOk result (λ made. map (λ text. text.now) made.items ≡ map (λ text. text.now) bound.now ++ name.now.text ∷ []) }
{
    let mut made = Vec::new(alloc);
    for text in bound {
        made.push(*text)?;
    }
    made.push(name.text.as_str())?;
    Ok(made)
}
