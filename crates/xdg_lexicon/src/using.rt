//! Uses of classes.

ghost use Rattle.std.specs.Prelude.{◌≡◌, ◌≤◌, ◌<◌, ◌+◌, ◌∷◌, ℕ, List, length, slice_get, Some, IfOk};
ghost use Rattle.xdg_names.specs.Texts.{place_of};
ghost use Rattle.xdg_classes.specs.Bodies.{body, calling};
ghost use Rattle.xdg_check.specs.Checked.{IsChecked, named_bodies};
ghost use Rattle.xdg_check.specs.Counts.{class_texts};
ghost use Rattle.xdg_lexicon.specs.Denotes.{Denotes, IsRanked};
ghost use Rattle.xdg_lexicon.specs.Frames.{Stands};
ghost use Rattle.xdg_lexicon.specs.Partial as spec;
ghost use Rattle.xdg_lexicon.specs.Right.{IsRightUnder};
ghost use Rattle.xdg_lexicon.specs.Weights.{sized, weigh};

use crate::closing::close_args;
use crate::frames::Scope;
use std::alloc::Global;
use xdg_ast::{ExprKind, Name, Pair, Term};
use xdg_base::OutOfMemory;
use xdg_check::{Checked, Class};
use xdg_classes::args_of;
use xdg_terms::Bindings;

/// The body that a use of a class stands for.
#[derive(Drop)]
pub(crate) struct Used<'a> {
    /// The body, which is no use of a class.
    pub(crate) body: &'a ExprKind,
    /// Where it stands.
    pub(crate) scope: Scope,
}

/// The class with that name, where one has it.
fn class_of<'a>(checked: &'a Checked, name: &str) -> &'a Class
    requires { (k : ℕ) × (place_of (class_texts checked.now.classes) name.now ≡ Some k) }
    ensures found { (k : ℕ) × ((place_of (class_texts checked.now.classes) name.now ≡ Some k) × (slice_get checked.now.classes k ≡ Some result.now)) }
    ensures keeps { IsChecked checked.now }
{
    match checked.place_of(name) {
        None => unreachable!(),
        Some(place) => &checked.classes()[place],
    }
}

/// What a use of a class stands for: the body of the class under the arguments, and where that is the use of a class, what
/// that use stands for. Its parameters are bound as far as one class after the other has bound them.
pub(crate) fn follow<'a>(
    alloc: Global,
    checked: &'a Checked,
    name: &Name,
    args: &[Pair<Term>],
    bindings: &Bindings,
    depth: usize,
) -> Result<Used<'a>, OutOfMemory>
    requires within { depth ≤ length checked.now.order }
    requires ranked { IsRanked checked.now depth (calling name.now args.now) }
    requires right { IsRightUnder checked.now.types checked.now.classes bindings.now (calling name.now args.now) }
    ensures stands { IfOk result (λ used. Stands checked.now used.scope (body used.body.now)) }
    ensures means { IfOk result (λ used. (ms : List spec.Partial)
        → Denotes checked.now.types.dims (named_bodies checked.now.classes) used.scope.bindings (body used.body.now) ms
        → Denotes checked.now.types.dims (named_bodies checked.now.classes) bindings.now (calling name.now args.now) ms) }
    ensures lighter { IfOk result (λ used. 1 + weigh (sized checked.now used.scope.depth) (body used.body.now)
        < weigh (sized checked.now depth) (calling name.now args.now)) }
{
    let mut class = class_of(checked, name.text.as_str());
    let mut inside = close_args(alloc, args, bindings)?;
    let mut left = depth - 1;
    while let ExprKind::Use(next, given) = &class.body.kind {
        inside = close_args(alloc, args_of(given), &inside)?;
        class = class_of(checked, next.text.as_str());
        left -= 1;
    }
    Ok(Used {
        body: &class.body.kind,
        scope: Scope {
            bindings: inside,
            depth: left,
        },
    })
}
