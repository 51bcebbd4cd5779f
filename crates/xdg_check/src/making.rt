//! The parts of a checked grammar.

ghost use Rattle.std.specs.Prelude.{◌≡◌, map, IfOk};
ghost use Rattle.xdg_classes.specs.Definitions as d;
ghost use Rattle.xdg_ast.specs.Texts.{texts};
ghost use Rattle.xdg_facts.specs.Membership.{Differ};
ghost use Rattle.xdg_classes.specs.Lent.{class_def};
ghost use Rattle.xdg_check.specs.Answers.{IsClassOf, AreClassesOf, AreEntriesOf};
ghost use Rattle.xdg_check.specs.Counts.{class_texts};
ghost use Rattle.xdg_check.specs.Made.{IsNamed, AddsEntries};

use crate::checked::{Class, EntryDef};
use crate::completing::complete_body;
use std::alloc::Global;
use xdg_ast::{ClassParam, Statement, StatementKind};
use xdg_base::{List, OutOfMemory, Text};
use xdg_classes::{ClassDef, Classes};
use xdg_names::Index;

/// The names of parameters.
fn param_texts(alloc: Global, params: &[ClassParam]) -> Result<List<Text>, OutOfMemory>
    ensures { IfOk result (λ made. made ≡ texts (d.param_names params.now)) }
{
    let mut made = List::new(alloc);
    for param in params {
        made.push(param.name.text.copy(alloc)?)?;
    }
    Ok(made)
}

/// A class with completed bindings, not yet counted.
fn make_class(
    alloc: Global,
    classes: &Classes<'_>,
    class: &ClassDef<'_>,
) -> Result<Class, OutOfMemory>
    ensures { IfOk result (λ made. IsNamed classes.now → IsClassOf (map class_def classes.now.definitions) (class_def class.now) made) }
{
    let name = class.name.text.copy(alloc)?;
    let params = param_texts(alloc, class.params)?;
    let body = complete_body(alloc, classes, class.body)?;
    Ok(Class {
        name,
        params,
        body,
        uses: 0,
        combos: 0,
    })
}

/// The classes with completed bindings, in the order of the text, not yet counted.
pub(crate) fn make_classes(alloc: Global, classes: &Classes<'_>) -> Result<Vec<Class>, OutOfMemory>
    ensures { IfOk result
        (λ made. IsNamed classes.now → AreClassesOf (map class_def classes.now.definitions) (map class_def classes.now.definitions) made.items) }
{
    let mut made = Vec::new(alloc);
    for class in classes.definitions() {
        made.push(make_class(alloc, classes, class)?)?;
    }
    Ok(made)
}

/// The names of the classes, in the order of the text, where they differ.
pub(crate) fn index_names(alloc: Global, classes: &[Class]) -> Result<Index, OutOfMemory>
    ensures { IfOk result (λ made. Differ (class_texts classes.now) → made ≡ class_texts classes.now) }
{
    let mut made = Index::new(alloc);
    for class in classes {
        let _ = made.add(alloc, class.name.as_str())?;
    }
    Ok(made)
}

/// Adds an entry with completed bindings, where the statement is one.
fn add_entry(
    alloc: Global,
    classes: &Classes<'_>,
    statement: &Statement,
    made: &mut List<EntryDef>,
) -> Result<(), OutOfMemory>
    ensures { IfOk result (λ _. IsNamed classes.now → AddsEntries (map class_def classes.now.definitions) (d.entry statement.now) made.old made.new) }
{
    match &statement.kind {
        StatementKind::DefEntry(body) => {
            let body = complete_body(alloc, classes, body)?;
            let at = statement.span.start;
            made.push(EntryDef { body, at })?;
            Ok(())
        }
        StatementKind::UseDim(_) | StatementKind::DefDim(_, _) | StatementKind::DefClass { .. } =>
            Ok(()),
    }
}

/// The entries with completed bindings, in the order of the text.
pub(crate) fn make_entries(
    alloc: Global,
    classes: &Classes<'_>,
    statements: &[Statement],
) -> Result<List<EntryDef>, OutOfMemory>
    ensures { IfOk result (λ made. IsNamed classes.now → AreEntriesOf (map class_def classes.now.definitions) (d.entries statements.now) made) }
{
    let mut made = List::new(alloc);
    for statement in statements {
        add_entry(alloc, classes, statement, &mut made)?;
    }
    Ok(made)
}
