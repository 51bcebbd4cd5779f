//! The arguments of a use, closed.

ghost use Rattle.std.specs.Prelude.{◌≡◌, IfOk};
ghost use Rattle.xdg_lexicon.specs.Denotes.{closed_args};

use std::alloc::Global;
use xdg_ast::{Name, Pair, Term};
use xdg_base::{List, OutOfMemory};
use xdg_terms::{Bindings, close};

/// What a use of a class binds: its arguments, in which the parameters of the outside are replaced by what they are bound
/// to.
pub(crate) fn close_args(
    alloc: Global,
    args: &[Pair<Term>],
    bindings: &Bindings,
) -> Result<Bindings, OutOfMemory>
    ensures { IfOk result (λ made. made ≡ closed_args bindings.now args.now) }
{
    let mut made = List::new(alloc);
    for pair in args {
        made.push(Pair {
            key: Name {
                text: pair.key.text.copy(alloc)?,
                span: pair.key.span,
            },
            value: close(alloc, &pair.value, bindings)?,
        })?;
    }
    Ok(made)
}
