//! The pass over the names in the bodies of classes and entries.

ghost use Rattle.std.specs.Prelude.{◌≡◌, [], ◌++◌, map, flat_map, IfOk};
ghost use Rattle.xdg_names.specs.First.{first, Tells};
ghost use Rattle.xdg_types.specs.NameFaults.{unknown, repeats};
ghost use Rattle.xdg_classes.specs.Definitions.{class_names};
ghost use Rattle.xdg_classes.specs.Names as sites;
ghost use Rattle.xdg_classes.specs.Names.{NameOffends, dim_texts};
ghost use Rattle.xdg_classes.specs.NameFaults as spec;
ghost use Rattle.xdg_classes.specs.Lent.{said, class_def};

use crate::bodies::{Record, all_calls, all_records};
use crate::definitions::{ClassDef, definitions};
use crate::params::Known;
use crate::repeats::{classes_again, params_again};
use crate::uses::check_calls;
use std::alloc::Global;
use xdg_ast::Statement;
use xdg_base::{Fault, OutOfMemory};
use xdg_names::{Index, earlier};
use xdg_types::{TypeTable, index_dims};

/// The first fault of the names of dimensions, classes and parameters in the bodies of all classes and entries, used or
/// not, if there is one; the table is that of the grammar's types. Its cause is
///
/// - `UnknownName` (30) at a dimension of which something is said, or a class that is used, without being defined;
/// - `Twice` (31) at the second class with a name, the second parameter of a class with a name, or the second time that
///   a use gives a parameter;
/// - `WrongParams` (37) at a parameter that a use gives and the class hasn't, and at the name of the class where a use
///   leaves out a parameter that has no default. Of two classes with one name the first counts.
///
/// The least place counts, and at one place the least number. A class may be used before it is defined. The time is
/// linear in the length of the text: names are looked up in hash indexes. The error is want of memory.
pub fn check_names(
    alloc: Global,
    statements: &[Statement],
    table: &TypeTable,
) -> Result<Option<Fault>, OutOfMemory>
    ensures { IfOk result (λ found. Tells (NameOffends statements.now table.now) found) }
{
    names_wrong(alloc, statements, table)
}

/// The first fault of all passes over names.
#[tactic(auto, using(xdg_names::proofs::First::first_append))]
fn names_wrong(
    alloc: Global,
    statements: &[Statement],
    table: &TypeTable,
) -> Result<Option<Fault>, OutOfMemory>
    ensures { IfOk result (λ found. found ≡ first (spec.name_faults statements.now table.now)) }
{
    let dimensions = dims_wrong(alloc, statements, table)?;
    let definitions = definitions(alloc, statements)?;
    let classes = classes_wrong(alloc, statements, definitions.as_slice())?;
    Ok(earlier(dimensions, classes))
}

/// The first record of a dimension that isn't in the table.
fn dims_wrong(
    alloc: Global,
    statements: &[Statement],
    table: &TypeTable,
) -> Result<Option<Fault>, OutOfMemory>
    ensures { IfOk result (λ found. found ≡ first (flat_map (spec.said_faults (dim_texts table.now)) (sites.all_records statements.now))) }
{
    let dims = index_dims(alloc, table.dims())?;
    let records = all_records(alloc, statements)?;
    Ok(unknown_dims(&dims, records.as_slice()))
}

/// The first fault of the names of classes and parameters, where these are the classes of the statements.
#[tactic(auto, using(xdg_names::proofs::First::first_append))]
fn classes_wrong(
    alloc: Global,
    statements: &[Statement],
    definitions: &[ClassDef],
) -> Result<Option<Fault>, OutOfMemory>
    ensures { IfOk result (λ found. found ≡ first (repeats [] (class_names (map class_def definitions.now))
        ++
        (flat_map spec.param_faults (map class_def definitions.now)
        ++ flat_map (spec.call_faults (map class_def definitions.now)) (sites.all_calls statements.now)))) }
{
    let twice = class_names_again(alloc, definitions)?;
    let params = all_params_again(alloc, definitions)?;
    let uses = uses_wrong(alloc, statements, definitions)?;
    Ok(earlier(twice, earlier(params, uses)))
}

/// The first class whose name another class before it has.
fn class_names_again(alloc: Global, definitions: &[ClassDef]) -> Result<Option<Fault>, OutOfMemory>
    ensures { IfOk result (λ found. found ≡ first (repeats [] (class_names (map class_def definitions.now)))) }
{
    let mut names = Index::new(alloc);
    let twice = classes_again(alloc, &mut names, definitions)?;
    Ok(twice)
}

/// The first fault of the uses of classes, where these are the classes.
fn uses_wrong(
    alloc: Global,
    statements: &[Statement],
    definitions: &[ClassDef],
) -> Result<Option<Fault>, OutOfMemory>
    ensures { IfOk result (λ found. found ≡ first (flat_map (spec.call_faults (map class_def definitions.now)) (sites.all_calls statements.now))) }
{
    let known = Known::new(alloc, definitions)?;
    let calls = all_calls(alloc, statements)?;
    let uses = check_calls(alloc, &known, calls.as_slice())?;
    Ok(uses)
}

/// The first parameter of a class whose name another parameter before it has.
fn all_params_again(alloc: Global, definitions: &[ClassDef]) -> Result<Option<Fault>, OutOfMemory>
    ensures { IfOk result (λ found. found ≡ first (flat_map spec.param_faults (map class_def definitions.now))) }
{
    let mut found = None;
    for definition in definitions {
        let mut seen = Index::new(alloc);
        found = earlier(found, params_again(alloc, &mut seen, definition.params)?);
    }
    Ok(found)
}

/// The first record of a dimension that isn't among those that are known.
fn unknown_dims(known: &Index, records: &[Record]) -> Option<Fault>
    ensures { result ≡ first (flat_map (spec.said_faults known.now) (map said records.now)) }
{
    let mut found = None;
    for record in records {
        found = earlier(found, xdg_types::unknown(known, record.dim));
    }
    found
}
