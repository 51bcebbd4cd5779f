//! How much the completed bindings of a grammar would hold, counted before they are made.

ghost use Rattle.std.specs.Prelude.{◌≡◌, ◌↔◌, ◌≤◌, ◌+◌, ◌-◌, ◌^◌, ℕ, min, map, [], ◌∷◌, IfOk, IsTrue};
ghost use Rattle.xdg_classes.specs.Bodies as spec;
ghost use Rattle.xdg_classes.specs.Bodies.{Pairs};
ghost use Rattle.xdg_classes.specs.Definitions.{class_named};
ghost use Rattle.xdg_ast.specs.Texts.{texts};
ghost use Rattle.xdg_types.specs.Parts.{keys};
ghost use Rattle.xdg_classes.specs.Lent.{class_def};
ghost use Rattle.xdg_check.specs.Made.{IsNamed};
ghost use Rattle.xdg_check.specs.Weights as w;
ghost use Rattle.xdg_check.specs.Weights.{IsCountOf, most_bytes};

use crate::completing::known_keys;
use std::alloc::Global;
use xdg_ast::{ClassParam, Expr, Pair, Statement, StatementKind, Term};
use xdg_base::OutOfMemory;
use xdg_classes::{Classes, calls};
use xdg_names::Index;

/// How many bytes of the text the defaults that stand in completed bindings may take together, each as often as it stands there.
const MOST_BYTES: u64 = 67_108_864;

/// What a parameter takes that a use leaves out: the bytes of its default, and one more.
fn preset_bytes(param: &ClassParam) -> u64
    ensures { result ≡ w.preset_bytes param.now.preset }
{
    match &param.preset {
        None => 1,
        Some(term) => u64::from(term.span.end.saturating_sub(term.span.start)).saturating_add(1),
    }
}

/// What is counted so far with what a parameter takes that isn't among those that are known.
fn with_param(known: &Index, param: &ClassParam, so_far: u64) -> u64
    ensures { result ≡ min (so_far + w.param_bytes known.now param.now) (2 ^ 64 - 1) }
{
    if known.contains(param.name.text.as_str()) {
        return so_far;
    }
    so_far.saturating_add(preset_bytes(param))
}

/// What is counted so far with what those of the parameters take that aren't among those that are known. Each parameter that
/// is looked at is given or counts, so it stops soon above the bound.
fn with_params(known: &Index, params: &[ClassParam], so_far: u64) -> u64
    ensures { (all : ℕ) → IsCountOf so_far all → IsCountOf result (all + w.left_out_bytes known.now params.now) }
{
    let mut bytes = so_far;
    for param in params {
        if bytes > MOST_BYTES {
            return bytes;
        }
        bytes = with_param(known, param, bytes);
    }
    bytes
}

/// What is counted so far with what a use of a class of these parameters leaves out.
fn with_use(
    alloc: Global,
    params: &[ClassParam],
    args: &[Pair<Term>],
    so_far: u64,
) -> Result<u64, OutOfMemory>
    ensures { IfOk result (λ made. (all : ℕ) → IsCountOf so_far all → IsCountOf made (all + w.left_out_bytes (texts (keys args.now)) params.now)) }
{
    let known = known_keys(alloc, args)?;
    Ok(with_params(&known, params, so_far))
}

/// The parameters of the class with that name, and none where there is no such class.
fn params_of<'a>(classes: &Classes<'a>, name: &str) -> &'a [ClassParam]
    ensures { IsNamed classes.now → (args : Pairs)
        → w.use_bytes (class_named (map class_def classes.now.definitions) name.now) args ≡ w.left_out_bytes (texts (keys args)) result.now }
{
    match classes.find(name) {
        None => &[],
        Some(place) => match classes.definitions().get(place) {
            None => &[],
            Some(class) => class.params,
        },
    }
}

/// What is counted so far with what a use of the class with that name leaves out.
fn with_call(
    alloc: Global,
    classes: &Classes<'_>,
    name: &str,
    args: &[Pair<Term>],
    so_far: u64,
) -> Result<u64, OutOfMemory>
    ensures { IfOk result (λ made. IsNamed classes.now → (all : ℕ) → IsCountOf so_far all
        → IsCountOf made (all + w.use_bytes (class_named (map class_def classes.now.definitions) name.now) args.now)) }
{
    let params = params_of(classes, name);
    let bytes = with_use(alloc, params, args, so_far)?;
    Ok(bytes)
}

/// What is counted so far with what the uses in a body leave out.
fn with_body(
    alloc: Global,
    classes: &Classes<'_>,
    body: &Expr,
    so_far: u64,
) -> Result<u64, OutOfMemory>
    ensures { IfOk result (λ made. IsNamed classes.now → (all : ℕ) → IsCountOf so_far all
        → IsCountOf made (all + w.body_bytes (map class_def classes.now.definitions) (spec.body body.now.kind))) }
{
    let uses = calls(alloc, body)?;
    let mut bytes = so_far;
    for call in uses.as_slice() {
        bytes = with_call(alloc, classes, call.name.text.as_str(), call.args, bytes)?;
    }
    Ok(bytes)
}

/// What is counted so far with what the uses in a statement leave out.
#[tactic(auto, using(crate::proofs::LeftOut::count_none))]
fn with_statement(
    alloc: Global,
    classes: &Classes<'_>,
    statement: &Statement,
    so_far: u64,
) -> Result<u64, OutOfMemory>
    ensures { IfOk result (λ made. IsNamed classes.now → (all : ℕ) → IsCountOf so_far all
        → IsCountOf made (all + w.statement_bytes (map class_def classes.now.definitions) statement.now.kind)) }
{
    match &statement.kind {
        StatementKind::DefClass { body, .. } => with_body(alloc, classes, body, so_far),
        StatementKind::DefEntry(body) => with_body(alloc, classes, body, so_far),
        StatementKind::UseDim(_) | StatementKind::DefDim(_, _) => Ok(so_far),
    }
}

/// What the uses in all bodies leave out.
fn bytes_of(
    alloc: Global,
    classes: &Classes<'_>,
    statements: &[Statement],
) -> Result<u64, OutOfMemory>
    ensures { IfOk result (λ made. IsNamed classes.now → IsCountOf made (w.default_bytes (map class_def classes.now.definitions) statements.now)) }
{
    let mut bytes = 0;
    for statement in statements {
        bytes = with_statement(alloc, classes, statement, bytes)?;
    }
    Ok(bytes)
}

/// Whether the defaults in the completed bindings of all bodies stay within the bound. The time is linear in the text.
#[tactic(auto, using(crate::proofs::LeftOut::both_small))]
pub(crate) fn are_small(
    alloc: Global,
    classes: &Classes<'_>,
    statements: &[Statement],
) -> Result<bool, OutOfMemory>
    ensures { IfOk result
        (λ small. IsNamed classes.now → IsTrue small ↔ (w.default_bytes (map class_def classes.now.definitions) statements.now ≤ most_bytes)) }
{
    Ok(bytes_of(alloc, classes, statements)? <= MOST_BYTES)
}
