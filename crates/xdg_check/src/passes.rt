//! The passes over a grammar with its table of types, and the checked grammar.

ghost use Rattle.std.specs.Prelude.{◌≡◌, ◌≤◌, IfOk, Result};
ghost use Rattle.xdg_base.specs.declared.faults.Fault as faults;
ghost use Rattle.xdg_classes.specs.Definitions as d;
ghost use Rattle.xdg_classes.specs.Ordered.{OrdersClasses};
ghost use Rattle.xdg_names.specs.First.{Tells as TellsFault};
ghost use Rattle.xdg_types.specs.Answers.{HasTable, None_of};
ghost use Rattle.xdg_types.specs.Table.{IsTable};
ghost use Rattle.xdg_packed.specs.Entries.{IsWordPlace};
ghost use Rattle.xdg_principles.specs.Uses.{AreUsesOf};
ghost use Rattle.xdg_check.specs.Answers.{NameOffends, ValueOffends, IsCheckedOf, Tells, IsAnswer};
ghost use Rattle.xdg_check.specs.Checked.{Parts};
ghost use Rattle.xdg_check.specs.Only.{Gives};
ghost use Rattle.xdg_check.specs.Weights.{default_bytes, most_bytes};

use crate::checked::Checked;
use crate::filling::fill_counts;
use crate::lex::place_of_words;
use crate::making::{index_names, make_classes, make_entries};
use crate::weighing::are_small;
use std::alloc::Global;
use xdg_ast::{Grammar, Statement};
use xdg_base::{Fault, List, OutOfMemory, Stop};
use xdg_classes::{Classes, classes};
use xdg_names::earlier;
use xdg_principles::{Uses, principle_uses};
use xdg_types::TypeTable;

/// The first fault of names, in bodies and in uses of principles.
fn names_wrong(
    alloc: Global,
    statements: &[Statement],
    uses: &Uses<'_>,
    table: &TypeTable,
) -> Result<Option<Fault>, OutOfMemory>
    requires { AreUsesOf statements.now uses.now }
    ensures { IfOk result (λ found. TellsFault (NameOffends statements.now table.now) found) }
{
    let in_bodies = xdg_classes::check_names(alloc, statements, table)?;
    let in_uses = xdg_principles::check_names(alloc, statements, uses)?;
    Ok(earlier(in_bodies, in_uses))
}

/// The first fault of values, in bodies and in uses of principles.
fn values_wrong<'a>(
    alloc: Global,
    statements: &'a [Statement],
    uses: &Uses<'_>,
    table: &'a TypeTable,
    classes: &Classes<'a>,
) -> Result<Option<Fault>, OutOfMemory>
    requires uses { AreUsesOf statements.now uses.now }
    requires named { None_of (NameOffends statements.now table.now) }
    requires ordered { OrdersClasses statements.now classes.now }
    ensures { IfOk result (λ found. TellsFault (ValueOffends statements.now table.now) found) }
{
    let in_bodies = xdg_classes::check_values(alloc, statements, table, classes)?;
    let in_uses = xdg_principles::check_arguments(alloc, uses, table)?;
    Ok(earlier(in_bodies, in_uses))
}

/// The checked grammar, where nothing is wrong.
fn assemble(
    alloc: Global,
    statements: &[Statement],
    uses: &Uses<'_>,
    table: TypeTable,
    words: (usize, usize),
    classes: &Classes<'_>,
) -> Result<Checked, OutOfMemory>
    requires uses { AreUsesOf statements.now uses.now }
    requires table { HasTable statements.now table }
    requires types { IsTable table }
    requires named { None_of (NameOffends statements.now table) }
    requires ordered { OrdersClasses statements.now classes.now }
    requires valued { None_of (ValueOffends statements.now table) }
    requires words { IsWordPlace table words.0 words.1 }
    ensures made { IfOk result (λ made. IsCheckedOf statements.now table made) }
    ensures within { IfOk result (λ _. default_bytes (d.classes statements.now) statements.now ≤ most_bytes) }
{
    let small = are_small(alloc, classes, statements)?;
    if !small {
        return Err(OutOfMemory);
    }
    let principles = xdg_principles::uses(alloc, uses, &table)?;
    let mut made = make_classes(alloc, classes)?;
    let names = index_names(alloc, made.as_slice())?;
    fill_counts(&names, made.as_mut_slice(), classes.order());
    let entries = make_entries(alloc, classes, statements)?;
    let order = List::from_slice(alloc, classes.order())?;
    Ok(Checked {
        types: table,
        principles,
        names,
        classes: List::from_vec(made),
        entries,
        order,
        words,
    })
}

/// The passes of values and of the dimension of words, and the checked grammar.
fn ordered(
    alloc: Global,
    statements: &[Statement],
    uses: &Uses<'_>,
    table: TypeTable,
    classes: &Classes<'_>,
) -> Result<Checked, Stop>
    requires uses { AreUsesOf statements.now uses.now }
    requires table { HasTable statements.now table }
    requires named { None_of (NameOffends statements.now table) }
    requires ordered { OrdersClasses statements.now classes.now }
    ensures tells { Tells statements.now table result }
    ensures within { IfOk result (λ _. default_bytes (d.classes statements.now) statements.now ≤ most_bytes) }
{
    match values_wrong(alloc, statements, uses, &table, classes)? {
        Some(fault) => Err(Stop::Fault(fault)),
        None => match place_of_words(&table) {
            Err(fault) => Err(Stop::Fault(fault)),
            Ok(words) => Ok(assemble(alloc, statements, uses, table, words, classes)?),
        },
    }
}

/// The passes after that of names, and the checked grammar.
fn named(
    alloc: Global,
    statements: &[Statement],
    uses: &Uses<'_>,
    table: TypeTable,
) -> Result<Checked, Stop>
    requires uses { AreUsesOf statements.now uses.now }
    requires table { HasTable statements.now table }
    requires named { None_of (NameOffends statements.now table) }
    ensures tells { Tells statements.now table result }
    ensures within { IfOk result (λ _. default_bytes (d.classes statements.now) statements.now ≤ most_bytes) }
{
    match classes(alloc, statements) {
        Err(stop) => Err(stop),
        Ok(classes) => ordered(alloc, statements, uses, table, &classes),
    }
}

/// All passes, and the checked grammar.
fn check_statements(
    alloc: Global,
    statements: &[Statement],
    table: TypeTable,
) -> Result<Checked, Stop>
    requires { HasTable statements.now table }
    ensures tells { Tells statements.now table result }
    ensures within { IfOk result (λ _. default_bytes (d.classes statements.now) statements.now ≤ most_bytes) }
{
    let uses = principle_uses(alloc, statements)?;
    match names_wrong(alloc, statements, &uses, &table)? {
        Some(fault) => Err(Stop::Fault(fault)),
        None => named(alloc, statements, &uses, table),
    }
}

/// The checked grammar of a tree, given the table of its types, or its first fault. The table is that of
/// `types` of `xdg_typing` for this grammar; on a refusal it is dropped.
///
/// A grammar has one meaning or one first fault: the clause `only` says that each other answer that may be given is this fault,
/// or has the same types, principles, classes and entries. That is a law of what the answers mean, which no body could break.
///
/// # Errors
///
/// The first pass that finds a fault gives it; within a pass it is the one with the least place, and at one place the
/// one with the least number. All dimensions are checked, used or not.
///
/// - Names: [`Cause::UnknownName`](xdg_base::Cause) (30) at a dimension or a class that isn't defined, and at a dimension
///   that a principle of a used dimension names though it isn't used; `Twice` (31) at the second of a class, of a
///   parameter, or of a key of a use; `MissingArg` (35) at a principle that lacks a dimension or an argument;
///   `UnknownPrinciple` (36); `WrongParams` (37) at a key that a class or a principle hasn't, and at a use that leaves out
///   a parameter without default.
/// - Cycles: `Cycle` (32) at the first use of a class, in the order of the text, inside a class to which it leads back.
/// - Values: `UnknownName` (30) at a feature or an attribute that isn't there; `Twice` (31) at a key or a label that
///   stands there before; `WrongKind` (33), `NotMember` (34) and `CardRange` (38) in terms. Each argument and each
///   default is checked at all types that are wanted of its parameter.
/// - Words: `NoLex` (39) at place 0 where dimension `lex` isn't used or has no feature `word` of type `string`.
///
/// The time is linear in the text and in what the completed bindings hold; each class's body is counted once. Where a
/// class with defaults is used many times, the bindings hold as many copies of them; these are counted first, and above
/// 67,108,864 bytes of the text the answer is want of memory, with nothing taken.
pub fn check(alloc: Global, grammar: &Grammar, table: TypeTable) -> Result<Checked, Stop>
    requires { HasTable grammar.now.statements table }
    ensures tells { Tells grammar.now.statements table result }
    ensures only { (answer : Result Parts faults.Fault) → IsAnswer grammar.now.statements table answer → Gives answer result }
    ensures within { IfOk result (λ _. default_bytes (d.classes grammar.now.statements) grammar.now.statements ≤ most_bytes) }
{
    check_statements(alloc, grammar.statements.as_slice(), table)
}
