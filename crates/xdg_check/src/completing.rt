//! Bodies in which each use of a class binds all parameters of the class.

ghost use Rattle.std.specs.Prelude.{◌≡◌, [], ◌∷◌, ◌++◌, map, IfOk};
ghost use Rattle.xdg_types.specs.NameFaults.{different};
ghost use Rattle.xdg_classes.specs.Bodies.{body, given};
ghost use Rattle.xdg_classes.specs.Definitions.{class_named};
ghost use Rattle.xdg_ast.specs.Texts.{texts};
ghost use Rattle.xdg_types.specs.Parts.{keys};
ghost use Rattle.xdg_classes.specs.Lent.{class_def};
ghost use Rattle.xdg_check.specs.Completed.{completed, bound_by, left_out, preset_pair};
ghost use Rattle.xdg_check.specs.Made.{IsNamed};

use crate::copying::copy_pairs;
use std::alloc::Global;
use xdg_ast::{ClassParam, Expr, ExprKind, Pair, Spanned, Term};
use xdg_base::{List, OutOfMemory};
use xdg_classes::Classes;
use xdg_names::Index;
use xdg_terms::{copy_name, copy_term};

/// The keys that are given.
pub(crate) fn known_keys(alloc: Global, args: &[Pair<Term>]) -> Result<Index, OutOfMemory>
    ensures { IfOk result (λ made. made ≡ different (keys args.now)) }
{
    let mut known = Index::new(alloc);
    for pair in args {
        let _ = known.add(alloc, pair.key.text.as_str())?;
    }
    Ok(known)
}

/// Adds a parameter with its default, if it has one.
fn add_preset(
    alloc: Global,
    param: &ClassParam,
    made: &mut List<Pair<Term>>,
) -> Result<(), OutOfMemory>
    ensures { IfOk result (λ _. made.new ≡ made.old ++ preset_pair param.now.name param.now.preset) }
{
    match &param.preset {
        None => Ok(()),
        Some(term) => {
            let key = copy_name(alloc, &param.name)?;
            let value = copy_term(alloc, term)?;
            made.push(Pair { key, value })?;
            Ok(())
        }
    }
}

/// Adds a parameter with its default, if it has one and isn't among those that are known.
fn add_unless(
    alloc: Global,
    known: &Index,
    param: &ClassParam,
    made: &mut List<Pair<Term>>,
) -> Result<(), OutOfMemory>
    ensures { IfOk result (λ _. made.new ≡ made.old ++ left_out known.now (param.now ∷ [])) }
{
    if known.contains(param.name.text.as_str()) {
        return Ok(());
    }
    add_preset(alloc, param, made)
}

/// Adds the parameters that aren't among those that are known, with their defaults.
fn add_left_out(
    alloc: Global,
    known: &Index,
    params: &[ClassParam],
    made: &mut List<Pair<Term>>,
) -> Result<(), OutOfMemory>
    ensures { IfOk result (λ _. made.new ≡ made.old ++ left_out known.now params.now) }
{
    for param in params {
        add_unless(alloc, known, param, made)?;
    }
    Ok(())
}

/// What a use gives, and behind it the defaults of the parameters that it leaves out.
#[tactic(auto, using(crate::proofs::Completed::left_known))]
fn bind_all(
    alloc: Global,
    params: &[ClassParam],
    args: &[Pair<Term>],
) -> Result<List<Pair<Term>>, OutOfMemory>
    ensures { IfOk result (λ made. made ≡ args.now ++ left_out (texts (keys args.now)) params.now) }
{
    let known = known_keys(alloc, args)?;
    let mut made = copy_pairs(alloc, args)?;
    add_left_out(alloc, &known, params, &mut made)?;
    Ok(made)
}

/// The bindings of a use of the class with that name.
fn bind(
    alloc: Global,
    classes: &Classes<'_>,
    name: &str,
    args: &[Pair<Term>],
) -> Result<List<Pair<Term>>, OutOfMemory>
    ensures { IfOk result (λ made. IsNamed classes.now → made ≡ bound_by (class_named (map class_def classes.now.definitions) name.now) args.now) }
{
    match classes.find(name) {
        None => copy_pairs(alloc, args),
        Some(place) => match classes.definitions().get(place) {
            None => copy_pairs(alloc, args),
            Some(class) => bind_all(alloc, class.params, args),
        },
    }
}

/// The arguments that a use gives.
fn given_args(args: &Option<List<Pair<Term>>>) -> &[Pair<Term>]
    ensures { result.now ≡ given args.now }
{
    match args {
        None => &[],
        Some(pairs) => pairs.as_slice(),
    }
}

/// A copy of an expression, in which the bindings of each use are completed.
fn complete(alloc: Global, classes: &Classes<'_>, expr: &ExprKind) -> Result<ExprKind, OutOfMemory>
    ensures { IfOk result (λ made. IsNamed classes.now → body made ≡ completed (map class_def classes.now.definitions) (body expr.now)) }
{
    match expr {
        ExprKind::Or(members) => {
            let mut made = List::with_room(alloc, members.len())?;
            for member in members.as_slice() {
                let kind = complete(alloc, classes, &member.kind)?;
                made.push(Spanned {
                    kind,
                    span: member.span,
                })?;
            }
            Ok(ExprKind::Or(made))
        }
        ExprKind::And(members) => {
            let mut made = List::with_room(alloc, members.len())?;
            for member in members.as_slice() {
                let kind = complete(alloc, classes, &member.kind)?;
                made.push(Spanned {
                    kind,
                    span: member.span,
                })?;
            }
            Ok(ExprKind::And(made))
        }
        ExprKind::Dim(dim, pairs) => {
            let dim = copy_name(alloc, dim)?;
            let pairs = copy_pairs(alloc, pairs.as_slice())?;
            Ok(ExprKind::Dim(dim, pairs))
        }
        ExprKind::Use(name, args) => {
            let bindings = bind(alloc, classes, name.text.as_str(), given_args(args))?;
            let name = copy_name(alloc, name)?;
            Ok(ExprKind::Use(name, Some(bindings)))
        }
    }
}

/// A copy of a body, in which the bindings of each use are completed.
pub(crate) fn complete_body(
    alloc: Global,
    classes: &Classes<'_>,
    expr: &Expr,
) -> Result<Expr, OutOfMemory>
    ensures tree { IfOk result (λ made. IsNamed classes.now → body made.kind ≡ completed (map class_def classes.now.definitions) (body expr.now.kind)) }
    ensures span { IfOk result (λ made. made.span ≡ expr.now.span) }
{
    Ok(Spanned {
        kind: complete(alloc, classes, &expr.kind)?,
        span: expr.span,
    })
}
