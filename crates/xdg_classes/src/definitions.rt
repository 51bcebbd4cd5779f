//! The classes of a grammar.

ghost use Rattle.std.specs.Prelude.{◌≡◌, map, IfOk};
ghost use Rattle.xdg_classes.specs.Definitions as spec;
ghost use Rattle.xdg_classes.specs.Lent.{class_def};

use std::alloc::Global;
use xdg_ast::{ClassParam, Expr, Name, Statement, StatementKind};
use xdg_base::{List, OutOfMemory};

/// A class of a grammar, `defclass c P Q: t {e}`, lent from its statement.
#[derive(Clone, Copy, Debug)]
pub struct ClassDef<'a> {
    /// Its name.
    pub name: &'a Name,
    /// Its parameters, in the order of the text.
    pub params: &'a [ClassParam],
    /// Its body, in which the parameters stand for terms.
    pub body: &'a Expr,
}

/// The classes, in the order of the text.
pub(crate) fn definitions<'a>(
    alloc: Global,
    statements: &'a [Statement],
) -> Result<List<ClassDef<'a>>, OutOfMemory>
    ensures { IfOk result (λ made. map class_def made ≡ spec.classes statements.now) }
{
    let mut made = List::new(alloc);
    for statement in statements {
        if let StatementKind::DefClass { name, params, body } = &statement.kind {
            made.push(ClassDef {
                name,
                params: params.as_slice(),
                body,
            })?;
        }
    }
    Ok(made)
}
