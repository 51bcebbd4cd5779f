//! What stands in the bodies of classes and entries.

ghost use Rattle.std.specs.Prelude.{◌≡◌, ◌++◌, map, flat_map, IfOk};
ghost use Rattle.xdg_classes.specs.Bodies as spec;
ghost use Rattle.xdg_classes.specs.Definitions.{scoped};
ghost use Rattle.xdg_classes.specs.Names as all;
ghost use Rattle.xdg_classes.specs.Lent.{said, called};

use std::alloc::Global;
use xdg_ast::{Expr, ExprKind, Name, Pair, Statement, StatementKind, Term};
use xdg_base::{List, OutOfMemory};

/// What a body says of a dimension, `dim d {f: t}`, lent from the tree.
#[derive(Clone, Copy, Debug)]
pub struct Record<'a> {
    /// The name of the dimension.
    pub dim: &'a Name,
    /// What is said of its features, in the order of the text.
    pub pairs: &'a [Pair<Term>],
}

/// The use of a class in a body, `c {P: t}`, lent from the tree.
#[derive(Clone, Copy, Debug)]
pub struct Call<'a> {
    /// The name of the class.
    pub name: &'a Name,
    /// What its parameters are to stand for, in the order of the text; none where the braces are left out.
    pub args: &'a [Pair<Term>],
}

/// Adds the records in an expression, in the order of the text.
#[tactic(auto, using(crate::proofs::Bodied::records_use))]
fn add_records<'a>(expr: &'a ExprKind, made: &mut List<Record<'a>>) -> Result<(), OutOfMemory>
    ensures { IfOk result (λ _. map said made.new ≡ map said made.old ++ spec.records (spec.body expr.now)) }
{
    match expr {
        ExprKind::Or(members) => {
            for member in members.as_slice() {
                add_records(&member.kind, made)?;
            }
            Ok(())
        }
        ExprKind::And(members) => {
            for member in members.as_slice() {
                add_records(&member.kind, made)?;
            }
            Ok(())
        }
        ExprKind::Dim(dim, pairs) => {
            made.push(Record {
                dim,
                pairs: pairs.as_slice(),
            })?;
            Ok(())
        }
        ExprKind::Use(_, _) => Ok(()),
    }
}

/// The arguments of a use of a class; none where it gives none.
pub fn args_of(args: &Option<List<Pair<Term>>>) -> &[Pair<Term>]
    ensures { result.now ≡ spec.given args.now }
{
    match args {
        Some(pairs) => pairs.as_slice(),
        None => &[],
    }
}

/// Adds the uses of classes in an expression, in the order of the text.
#[tactic(auto, using(crate::proofs::Bodied::calls_dim))]
fn add_calls<'a>(expr: &'a ExprKind, made: &mut List<Call<'a>>) -> Result<(), OutOfMemory>
    ensures { IfOk result (λ _. map called made.new ≡ map called made.old ++ spec.calls (spec.body expr.now)) }
{
    match expr {
        ExprKind::Or(members) => {
            for member in members.as_slice() {
                add_calls(&member.kind, made)?;
            }
            Ok(())
        }
        ExprKind::And(members) => {
            for member in members.as_slice() {
                add_calls(&member.kind, made)?;
            }
            Ok(())
        }
        ExprKind::Dim(_, _) => Ok(()),
        ExprKind::Use(name, args) => {
            made.push(Call {
                name,
                args: args_of(args),
            })?;
            Ok(())
        }
    }
}

/// The records `dim d {..}` in a body, in the order of the text. The time is linear in the length of the body, the
/// depth of the stack that of its brackets. The error is want of memory.
pub fn records<'a>(alloc: Global, expr: &'a Expr) -> Result<List<Record<'a>>, OutOfMemory>
    ensures { IfOk result (λ made. map said made ≡ spec.records (spec.body expr.now.kind)) }
{
    let mut made = List::new(alloc);
    add_records(&expr.kind, &mut made)?;
    Ok(made)
}

/// The uses of classes in a body, in the order of the text. The time is linear in the length of the body, the depth of
/// the stack that of its brackets. The error is want of memory.
pub fn calls<'a>(alloc: Global, expr: &'a Expr) -> Result<List<Call<'a>>, OutOfMemory>
    ensures { IfOk result (λ made. map called made ≡ spec.calls (spec.body expr.now.kind)) }
{
    let mut made = List::new(alloc);
    add_calls(&expr.kind, &mut made)?;
    Ok(made)
}

// ---- all bodies

fn add_records_of<'a>(
    statement: &'a Statement,
    made: &mut List<Record<'a>>,
) -> Result<(), OutOfMemory>
    ensures { IfOk result (λ _. map said made.new ≡ map said made.old ++ flat_map (λ one. spec.records one.body) (scoped statement.now)) }
{
    match &statement.kind {
        StatementKind::DefClass { body, .. } => add_records(&body.kind, made),
        StatementKind::DefEntry(body) => add_records(&body.kind, made),
        _ => Ok(()),
    }
}

/// The records in the bodies of all classes and entries, in the order of the text.
pub(crate) fn all_records<'a>(
    alloc: Global,
    statements: &'a [Statement],
) -> Result<List<Record<'a>>, OutOfMemory>
    ensures { IfOk result (λ made. map said made ≡ all.all_records statements.now) }
{
    let mut made = List::new(alloc);
    for statement in statements {
        add_records_of(statement, &mut made)?;
    }
    Ok(made)
}

fn add_calls_of<'a>(statement: &'a Statement, made: &mut List<Call<'a>>) -> Result<(), OutOfMemory>
    ensures { IfOk result (λ _. map called made.new ≡ map called made.old ++ flat_map (λ one. spec.calls one.body) (scoped statement.now)) }
{
    match &statement.kind {
        StatementKind::DefClass { body, .. } => add_calls(&body.kind, made),
        StatementKind::DefEntry(body) => add_calls(&body.kind, made),
        _ => Ok(()),
    }
}

/// The uses of classes in the bodies of all classes and entries, in the order of the text.
pub(crate) fn all_calls<'a>(
    alloc: Global,
    statements: &'a [Statement],
) -> Result<List<Call<'a>>, OutOfMemory>
    ensures { IfOk result (λ made. map called made ≡ all.all_calls statements.now) }
{
    let mut made = List::new(alloc);
    for statement in statements {
        add_calls_of(statement, &mut made)?;
    }
    Ok(made)
}
