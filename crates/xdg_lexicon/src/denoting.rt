//! What bodies denote.

ghost use Rattle.std.specs.Prelude.{◌≡◌, ◌≤◌, [], List, length, IfOk};
ghost use Rattle.xdg_classes.specs.Bodies.{body};
ghost use Rattle.xdg_check.specs.declared.checked.EntryDef.{EntryDef};
ghost use Rattle.xdg_check.specs.Checked.{named_bodies};
ghost use Rattle.xdg_check.specs.Counts.{Counting, Agrees, combos};
ghost use Rattle.xdg_facts.specs.Membership.{In};
ghost use Rattle.xdg_lexicon.specs.Denotes.{Denotes};
ghost use Rattle.xdg_lexicon.specs.Partial as spec;
ghost use Rattle.xdg_lexicon.specs.Partial.{ArePartial};

use crate::entries::Partial;
use crate::frames::denote;
use std::alloc::Global;
use xdg_ast::Expr;
use xdg_base::{List, OutOfMemory};
use xdg_check::Checked;

/// The partial entries that the body of an entry denotes, in their order: of a record the one that says it, of a use of a
/// class those of the class's body with the arguments in place of its parameters, of a disjunction those of its parts in
/// turn, and of a conjunction the joins of each of the first part with each of the rest, the first part slowest, without
/// those that clash (Debusmann 2006, chapter 2, on lexical classes). There are at most as many as
/// [`combos_of`](xdg_check::combos_of) tells, and the time goes with the joins that are tried. No term can have a fault
/// here and no class be missing, since the grammar is checked. Bodies and parts of bodies may stand inside one another as
/// deep as there is memory.
///
/// # Errors
///
/// Want of memory.
pub fn members(alloc: Global, checked: &Checked, expr: &Expr) -> Result<List<Partial>, OutOfMemory>
    requires entry { (e : EntryDef) × (In checked.now.entries e × (e.body ≡ expr.now)) }
    ensures denotes { IfOk result (λ made. Denotes checked.now.types.dims (named_bodies checked.now.classes) [] (body expr.now.kind) made) }
    ensures once { IfOk result
        (λ made. (others : List spec.Partial)
        → Denotes checked.now.types.dims (named_bodies checked.now.classes) [] (body expr.now.kind) others → others ≡ made) }
    ensures partial { IfOk result (λ made. ArePartial checked.now.types.dims made) }
    ensures few { IfOk result (λ made. (names : Counting) → Agrees combos checked.now.classes names → length made ≤ combos names (body expr.now.kind)) }
{
    let order = checked.order();
    let made = denote(alloc, checked, &expr.kind, order.len())?;
    Ok(List::from_vec(made))
}
