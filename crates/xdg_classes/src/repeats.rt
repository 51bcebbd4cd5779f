//! Names that stand again where they may stand once.

ghost use Rattle.std.specs.Prelude.{◌≡◌, map, IfOk};
ghost use Rattle.xdg_names.specs.First.{first};
ghost use Rattle.xdg_types.specs.NameFaults as spec;
ghost use Rattle.xdg_classes.specs.Definitions.{class_names, param_names};
ghost use Rattle.xdg_classes.specs.Lent.{class_def};

use crate::definitions::ClassDef;
use std::alloc::Global;
use xdg_ast::ClassParam;
use xdg_base::{Fault, OutOfMemory};
use xdg_names::{Index, earlier};
use xdg_types::repeated;

/// The first class whose name was seen before. From then on all their names are seen.
pub(crate) fn classes_again(
    alloc: Global,
    seen: &mut Index,
    definitions: &[ClassDef],
) -> Result<Option<Fault>, OutOfMemory>
    ensures found { IfOk result (λ found. found ≡ first (spec.repeats seen.old (class_names (map class_def definitions.now)))) }
    ensures seen { IfOk result (λ _. seen.new ≡ spec.with_all seen.old (class_names (map class_def definitions.now))) }
{
    let mut found = None;
    for definition in definitions {
        found = earlier(found, repeated(alloc, seen, definition.name)?);
    }
    Ok(found)
}

/// The first parameter whose name was seen before. From then on all their names are seen.
pub(crate) fn params_again(
    alloc: Global,
    seen: &mut Index,
    params: &[ClassParam],
) -> Result<Option<Fault>, OutOfMemory>
    ensures found { IfOk result (λ found. found ≡ first (spec.repeats seen.old (param_names params.now))) }
    ensures seen { IfOk result (λ _. seen.new ≡ spec.with_all seen.old (param_names params.now)) }
{
    let mut found = None;
    for param in params {
        found = earlier(found, repeated(alloc, seen, &param.name)?);
    }
    Ok(found)
}
