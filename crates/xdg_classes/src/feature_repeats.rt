//! Features of which something is said twice.

ghost use Rattle.std.specs.Prelude.{IfOk};
ghost use Rattle.xdg_names.specs.First.{Tells};
ghost use Rattle.xdg_ast.specs.Misnamed.{IsAgain};
ghost use Rattle.xdg_types.specs.Parts.{keys};

use std::alloc::Global;
use xdg_ast::{Pair, Term};
use xdg_base::{Fault, OutOfMemory};
use xdg_types::keys_again;

/// The first key that an earlier pair has too.
#[tactic(auto, using(xdg_types::proofs::NamesAgain::again_tells))]
pub(crate) fn check_keys(alloc: Global, pairs: &[Pair<Term>]) -> Result<Option<Fault>, OutOfMemory>
    ensures { IfOk result (λ found. Tells (IsAgain (keys pairs.now)) found) }
{
    keys_again(alloc, pairs)
}
