//! The types that the names of types lead to.

ghost use Rattle.std.specs.Prelude.{◌≡◌, ◌<◌, ℕ, List, map, length, slice_index_or, IfOk};
ghost use Rattle.xdg_domain.specs.Shapes.{Shape};
ghost use Rattle.xdg_typing.specs.Heads.{Agrees, IsDefined, IsRight, NamesFirst, RightBefore};

use std::alloc::Global;
use xdg_ast::{TypeKind, TypeTerm};
use xdg_base::OutOfMemory;
use xdg_names::Index;

/// What a type leads to in one step: where it is a name, the head of the definition with that name.
fn next<'a>(known: &Index, body: &'a TypeTerm, heads: &[&'a TypeTerm]) -> &'a TypeTerm
    ensures { (names : List ℕ → Shape) (own : List ℕ) → IsDefined names own known.now body.now (map (λ head. head.now) heads.now)
        → IsRight names own result.now }
{
    let TypeKind::Named(name) = &body.kind else {
        return body;
    };
    match known.find(name.text.as_str()) {
        None => body,
        Some(number) => match heads.get(number) {
            None => body,
            Some(head) => head,
        },
    }
}

/// For each definition the type that it leads to, which is no name, given an order in which each definition comes
/// after the one whose name it is.
pub(crate) fn heads<'a>(
    alloc: Global,
    known: &Index,
    bodies: &[&'a TypeTerm],
    order: &[usize],
) -> Result<Vec<&'a TypeTerm>, OutOfMemory>
    requires within { (i : ℕ) → i < length order.now → slice_index_or order.now i 0 < length bodies.now }
    requires first { NamesFirst known.now (map (λ body. body.now) bodies.now) order.now }
    ensures len { IfOk result (λ made. length made.items ≡ length bodies.now) }
    ensures right { IfOk result
        (λ made. (names : List ℕ → Shape) → Agrees names known.now (map (λ body. body.now) bodies.now)
        → RightBefore names known.now order.now (length order.now) (map (λ head. head.now) made.items)) }
{
    let mut heads = Vec::from_slice(alloc, bodies)?;
    for i in 0..order.len() {
        let number = order[i];
        heads[number] = next(known, bodies[number], heads.as_slice());
    }
    Ok(heads)
}
