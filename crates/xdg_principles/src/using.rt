//! The uses of principles, lent from the grammar, each with the principle that its name says.

ghost use Rattle.std.specs.Prelude.{◌≡◌, ◌++◌, map, IfOk};
ghost use Rattle.xdg_principles.specs.Uses as spec;

use std::alloc::Global;
use xdg_ast::{DimPart, DimPartKind, Name, Pair, Statement, StatementKind, Term};
use xdg_base::{List, OutOfMemory};
use xdg_problem::{Principle, principle_named};

/// A use of a principle, with what it is given.
#[derive(Clone, Copy)]
pub(crate) struct UseRef<'a> {
    /// The name of the dimension in which it stands.
    pub(crate) within: &'a Name,
    /// The name of the principle.
    pub(crate) name: &'a Name,
    /// Its dimensions.
    pub(crate) dims: &'a [Pair<Name>],
    /// Its arguments.
    pub(crate) args: &'a [Pair<Term>],
}

/// A use of a principle, with the principle that its name says, if there is one.
#[derive(Drop)]
pub(crate) struct FoundUse<'a> {
    /// The use as it is written.
    pub(crate) written: UseRef<'a>,
    /// The principle.
    pub(crate) principle: Option<Principle>,
}

/// The uses of principles in a grammar, in the order of the text, each with the principle that its name says, if there is
/// one: each name is looked up here, once.
#[derive(Drop)]
pub struct Uses<'a> {
    /// The uses.
    pub(crate) found: List<FoundUse<'a>>,
}

/// The arguments, none where `args` is left out.
fn given_args<'a>(args: &'a Option<List<Pair<Term>>>) -> &'a [Pair<Term>]
    ensures { result.now ≡ spec.given_args args.now }
{
    match args {
        None => &[],
        Some(args) => args.as_slice(),
    }
}

/// Adds the uses of principles in the parts of a dimension.
fn add_uses<'a>(
    within: &'a Name,
    parts: &'a [DimPart],
    made: &mut List<FoundUse<'a>>,
) -> Result<(), OutOfMemory>
    ensures { IfOk result (λ _. map spec.told made.new ≡ map spec.told made.old ++ map spec.with_principle (spec.uses_by within.now parts.now)) }
{
    for part in parts {
        if let DimPartKind::UsePrinciple { name, dims, args } = &part.kind {
            let written = UseRef {
                within,
                name,
                dims: dims.as_slice(),
                args: given_args(args),
            };
            made.push(FoundUse {
                written,
                principle: principle_named(name.text.as_str()),
            })?;
        }
    }
    Ok(())
}

/// The uses of principles in all dimensions, in the order of the text, each with the principle that its name says.
///
/// # Errors
///
/// Want of memory.
pub fn principle_uses<'a>(
    alloc: Global,
    statements: &'a [Statement],
) -> Result<Uses<'a>, OutOfMemory>
    ensures { IfOk result (λ made. spec.AreUsesOf statements.now made) }
{
    let mut made = List::new(alloc);
    for statement in statements {
        if let StatementKind::DefDim(within, parts) = &statement.kind {
            add_uses(within, parts.as_slice(), &mut made)?;
        }
    }
    Ok(Uses { found: made })
}
