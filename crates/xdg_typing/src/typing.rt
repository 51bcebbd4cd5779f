//! The types of a grammar: three passes over it, and the table.

ghost use Rattle.std.specs.Prelude.{Result, IfOk};
ghost use Rattle.xdg_base.specs.declared.faults.Fault as faults;
ghost use Rattle.xdg_types.specs.Answers.{None_of, Tells};
ghost use Rattle.xdg_types.specs.Names.{NameOffends};
ghost use Rattle.xdg_types.specs.Meaning.{Resolves};
ghost use Rattle.xdg_types.specs.Answers.{IsAnswer};
ghost use Rattle.xdg_base.specs.Told.{Gives};
ghost use Rattle.xdg_types.specs.Table.{Table};
ghost use Rattle.xdg_typing.specs.Branches.{Naming};
ghost use Rattle.xdg_typing.specs.Small.{AreSmall};

use crate::following::resolved;
use crate::kinds::check_kinds;
use crate::making::table;
use crate::names::check_names;
use std::alloc::Global;
use xdg_ast::{Grammar, Statement};
use xdg_base::Stop;
use xdg_types::TypeTable;

/// The table of a grammar whose names are right, or the first fault of the other passes.
fn named(alloc: Global, statements: &[Statement]) -> Result<TypeTable, Stop>
    requires { None_of (NameOffends statements.now) }
    ensures tells { Tells statements.now result }
    ensures within { IfOk result (λ _. (names : Naming) → Resolves statements.now names → AreSmall names statements.now) }
{
    match resolved(alloc, statements) {
        Err(stop) => Err(stop),
        Ok(definitions) => match check_kinds(alloc, statements, &definitions)? {
            Some(fault) => Err(Stop::Fault(fault)),
            None => Ok(table(alloc, statements, &definitions)?),
        },
    }
}

/// The table of these statements, or the first fault of all passes.
fn types_of(alloc: Global, statements: &[Statement]) -> Result<TypeTable, Stop>
    ensures tells { Tells statements.now result }
    ensures within { IfOk result (λ _. (names : Naming) → Resolves statements.now names → AreSmall names statements.now) }
{
    match check_names(alloc, statements)? {
        Some(fault) => Err(Stop::Fault(fault)),
        None => named(alloc, statements),
    }
}

/// The dimensions of a grammar with the types of their labels, attributes and features, without names.
///
/// A grammar has one table or one first fault: the clause `only` says of each answer that may be given that it is this one.
/// That is a law of what the answers mean, which no body could break.
///
/// # Errors
///
/// The first pass that finds a fault gives it; within a pass it is the one with the least place, and at one place the
/// one with the least number.
///
/// - Names: [`Cause::UnknownName`](xdg_base::Cause) at a dimension that is used, or a type that is named, without being
///   defined; `Twice` at the second of what may stand once: the definition or the use of a dimension, the definition of a
///   type, a part of a dimension that gives the types of its labels, attributes or features, a constant of a domain, a
///   field of a record.
/// - Cycles: `Cycle` at the first use of a type, in the order of the text, inside a definition to which it leads back.
/// - Kinds and sizes: `WrongKind` at a type that isn't of the wanted kind; `TooWide` at the type of more than 32
///   labels, a tuple type with more than 1,024 tuples, the ninth used dimension or the ninth attribute; `DomainTooBig` at a
///   domain with more than 64 constants; `Twice` at a constant that stands in two fields of a tuple type.
///
/// The time is linear in the text and in what the types hold, names followed, but for texts that no one would write: a
/// tuple type that names a domain of more than 64 constants many times, and many attributes given by one very wide name,
/// take time that grows with the square. What the types hold is counted first: above 16,777,216 parts the
/// answer is want of memory, and nothing is made.
pub fn types(alloc: Global, grammar: &Grammar) -> Result<TypeTable, Stop>
    ensures tells { Tells grammar.now.statements result }
    ensures only { (answer : Result Table faults.Fault) → IsAnswer grammar.now.statements answer → Gives answer result }
    ensures within { IfOk result (λ _. (names : Naming) → Resolves grammar.now.statements names → AreSmall names grammar.now.statements) }
{
    types_of(alloc, grammar.statements.as_slice())
}
