//! The dimension of words.

ghost use Rattle.std.specs.Prelude.{◌≡◌, Some, IfErr, IfOk};
ghost use Rattle.xdg_base.specs.Faults.{fault_at};
ghost use Rattle.xdg_base.specs.declared.faults.Cause.TheVariants as causes;
ghost use Rattle.xdg_names.specs.First.{Tells};
ghost use Rattle.xdg_types.specs.Table.{IsTable};
ghost use Rattle.xdg_packed.specs.Entries.{IsWordPlace};
ghost use Rattle.xdg_check.specs.Lex.{LexOffends};

use xdg_base::{Cause, Fault};
use xdg_packed::word_place;
use xdg_types::TypeTable;

/// The fault of a grammar without words.
fn no_lex() -> Fault
    ensures { result ≡ fault_at causes.NoLex 0 }
{
    Fault::at(Cause::NoLex, 0)
}

/// Where entries say their words: the place of the dimension `lex` among the used dimensions, and that of its feature `word` of type
/// `string`, both from 0. Or the fault of a grammar without words.
pub(crate) fn place_of_words(table: &TypeTable) -> Result<(usize, usize), Fault>
    ensures found { IfOk result (λ place. IsWordPlace table.now place.0 place.1) }
    ensures refused { IfErr result (λ fault. Tells (LexOffends table.now) (Some fault)) }
{
    match word_place(table) {
        Some(place) => Ok(place),
        None => Err(no_lex()),
    }
}
