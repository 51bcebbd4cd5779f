//! What a tree means.

ghost use Rattle.std.specs.Prelude.{◌≡◌, Result, IfOk, length};
ghost use Rattle.xdg_base.specs.declared.faults.Fault as faults;
ghost use Rattle.xdg_classes.specs.Definitions.{classes};
ghost use Rattle.xdg_base.specs.Told.{Gives, answer_of};
ghost use Rattle.xdg_inputs.specs.Answers.{IsAnswer, Tells, meaning_of};
ghost use Rattle.xdg_inputs.specs.Meanings.{Meaning};
ghost use Rattle.xdg_inputs.specs.RightLexicons.{HasRightLexicon};

use std::alloc::Global;
use std::mem::drop;
use xdg_ast::Grammar;
use xdg_base::Stop;
use xdg_check::{Checked, check};
use xdg_lexicon::lexicon;
use xdg_packed::Packed;
use xdg_typing::types;

/// A checked grammar with its expanded lexicon.
#[derive(Debug, Drop)]
pub struct Expanded {
    /// The grammar.
    pub checked: Checked,
    /// Its entries, each with a record for each used dimension, packed.
    pub lexicon: Packed,
}

/// What the tree of a grammar text means. The tree is dropped before its classes are expanded.
///
/// # Errors
///
/// The first fault of the types, else of names, class cycles, values and the dimension of words, else of the expansion of
/// classes. Or want of memory.
pub fn expand_tree(alloc: Global, tree: Grammar) -> Result<Expanded, Stop>
    ensures tells { Tells tree result }
    ensures only { (answer : Result Meaning faults.Fault) → IsAnswer tree answer → Gives answer (answer_of meaning_of result) }
    ensures right { IfOk result HasRightLexicon }
    ensures classes { IfOk result (λ made. length made.checked.classes ≡ length (classes tree.statements)) }
{
    let table = match types(alloc, &tree) {
        Ok(table) => table,
        Err(stop) => return Err(stop),
    };
    let checked = match check(alloc, &tree, table) {
        Ok(checked) => checked,
        Err(stop) => return Err(stop),
    };
    drop(tree);
    match lexicon(alloc, &checked) {
        Ok(lexicon) => Ok(Expanded { checked, lexicon }),
        Err(stop) => Err(stop),
    }
}
