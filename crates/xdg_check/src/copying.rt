//! Copies of pairs.

ghost use Rattle.std.specs.Prelude.{◌≡◌, IfOk};

use std::alloc::Global;
use xdg_ast::{Pair, Term};
use xdg_base::{List, OutOfMemory};
use xdg_terms::{copy_name, copy_term};

/// A copy of keys with terms.
pub(crate) fn copy_pairs(
    alloc: Global,
    pairs: &[Pair<Term>],
) -> Result<List<Pair<Term>>, OutOfMemory>
    ensures { IfOk result (λ made. made ≡ pairs.now) }
{
    let mut made = List::with_room(alloc, pairs.len())?;
    for pair in pairs {
        made.push(Pair {
            key: copy_name(alloc, &pair.key)?,
            value: copy_term(alloc, &pair.value)?,
        })?;
    }
    Ok(made)
}
