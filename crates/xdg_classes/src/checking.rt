//! The first fault of the values in bodies.

ghost use Rattle.std.specs.Prelude.{◌≡◌, [], map, IfOk};
ghost use Rattle.xdg_names.specs.First.{Tells};
ghost use Rattle.xdg_classes.specs.Bodies.{body};
ghost use Rattle.xdg_classes.specs.Lent.{said, called};
ghost use Rattle.xdg_classes.specs.Names.{NameOffends};
ghost use Rattle.xdg_classes.specs.Ordered.{OrdersClasses};
ghost use Rattle.xdg_types.specs.Answers.{None_of};
ghost use Rattle.xdg_classes.specs.Given.{shapes, told};
ghost use Rattle.xdg_classes.specs.Collected.{feature_of};
ghost use Rattle.xdg_classes.specs.Offences.{ValueOffends};
ghost use Rattle.xdg_classes.specs.Wrong as wrong;

use crate::bodies::{Call, Record, calls, records};
use crate::collecting::{all_wants, of_class};
use crate::feature_repeats::check_keys;
use crate::features::Features;
use crate::lookup::Classes;
use crate::wanted::WantedTypes;
use std::alloc::Global;
use xdg_ast::{ClassParam, Expr, Pair, Params, Statement, StatementKind, Term};
use xdg_base::{Cause, Fault, OutOfMemory};
use xdg_domain::Ty;
use xdg_names::earlier;
use xdg_terms::{check_open, check_stray};
use xdg_types::TypeTable;

/// A term at each of these types.
fn check_types(types: &[&Ty], term: &Term, params: &Params) -> Option<Fault>
    ensures { Tells (wrong.TypesWrong (shapes types.now) params.now term.now) result }
{
    let mut found = None;
    for ty in types {
        found = earlier(found, check_open(ty, term, params));
    }
    found
}

/// A term at each type that is wanted of a parameter of a class.
fn check_wanted(
    classes: &Classes,
    known: &[WantedTypes],
    class: &str,
    param: &str,
    term: &Term,
    params: &Params,
) -> Option<Fault>
    ensures { Tells (wrong.TypesWrong (told classes.now.names known.now class.now param.now) params.now term.now) result }
{
    match of_class(classes, known, class) {
        None => None,
        Some(wanted) => match wanted.of(param) {
            None => None,
            Some(types) => check_types(types.as_slice(), term, params),
        },
    }
}

/// A term that a parameter of a class is to stand for.
fn check_value(
    classes: &Classes,
    known: &[WantedTypes],
    class: &str,
    param: &str,
    term: &Term,
    params: &Params,
) -> Option<Fault>
    ensures { Tells (wrong.ValueWrong (told classes.now.names known.now class.now param.now) params.now term.now) result }
{
    earlier(
        check_wanted(classes, known, class, param, term, params),
        check_stray(term, params),
    )
}

/// The use of a class.
fn check_call(
    classes: &Classes,
    known: &[WantedTypes],
    call: &Call,
    params: &Params,
) -> Option<Fault>
    ensures { Tells (wrong.CallWrong (told classes.now.names known.now) params.now (called call.now)) result }
{
    let mut found = None;
    for arg in call.args {
        let fault = check_value(
            classes,
            known,
            call.name.text.as_str(),
            arg.key.text.as_str(),
            &arg.value,
            params,
        );
        found = earlier(found, fault);
    }
    found
}

/// Uses of classes.
fn check_calls(
    classes: &Classes,
    known: &[WantedTypes],
    calls: &[Call],
    params: &Params,
) -> Option<Fault>
    ensures { Tells (wrong.SomeOf (map called calls.now) (wrong.CallWrong (told classes.now.names known.now) params.now)) result }
{
    let mut found = None;
    for call in calls {
        found = earlier(found, check_call(classes, known, call, params));
    }
    found
}

/// What is said of a feature at its type, and a feature that the dimension has not.
fn check_feature(
    features: &Features,
    dim: &str,
    pair: &Pair<Term>,
    params: &Params,
) -> Option<Fault>
    ensures { Tells (wrong.FeatureWrong (feature_of features.now dim.now pair.now.key.text) params.now pair.now) result }
{
    match features.get(dim, pair.key.text.as_str()) {
        None => Some(Fault::at(Cause::UnknownName, pair.key.span.start)),
        Some(ty) => check_open(ty, &pair.value, params),
    }
}

/// What is said of a feature.
fn check_pair(features: &Features, dim: &str, pair: &Pair<Term>, params: &Params) -> Option<Fault>
    ensures { Tells (wrong.PairWrong (feature_of features.now) params.now dim.now pair.now) result }
{
    earlier(
        check_feature(features, dim, pair, params),
        check_stray(&pair.value, params),
    )
}

/// What is said of features.
fn check_pairs(
    features: &Features,
    dim: &str,
    pairs: &[Pair<Term>],
    params: &Params,
) -> Option<Fault>
    ensures { Tells (wrong.SomeOf pairs.now (wrong.PairWrong (feature_of features.now) params.now dim.now)) result }
{
    let mut found = None;
    for pair in pairs {
        found = earlier(found, check_pair(features, dim, pair, params));
    }
    found
}

/// A record.
fn check_record(
    alloc: Global,
    features: &Features,
    one: &Record,
    params: &Params,
) -> Result<Option<Fault>, OutOfMemory>
    ensures { IfOk result (λ found. Tells (wrong.RecordWrong (feature_of features.now) params.now (said one.now)) found) }
{
    let again = check_keys(alloc, one.pairs)?;
    Ok(earlier(
        again,
        check_pairs(features, one.dim.text.as_str(), one.pairs, params),
    ))
}

/// Records.
fn check_records(
    alloc: Global,
    features: &Features,
    records: &[Record],
    params: &Params,
) -> Result<Option<Fault>, OutOfMemory>
    ensures { IfOk result (λ found. Tells (wrong.SomeOf (map said records.now) (wrong.RecordWrong (feature_of features.now) params.now)) found) }
{
    let mut found = None;
    for one in records {
        found = earlier(found, check_record(alloc, features, one, params)?);
    }
    Ok(found)
}

/// A body in which these parameters may stand.
fn check_body(
    alloc: Global,
    features: &Features,
    classes: &Classes,
    known: &[WantedTypes],
    expr: &Expr,
    params: &Params,
) -> Result<Option<Fault>, OutOfMemory>
    ensures { IfOk result
        (λ found. Tells (wrong.BodyWrong (feature_of features.now) (told classes.now.names known.now) params.now (body expr.now.kind)) found) }
{
    let records = records(alloc, expr)?;
    let calls = calls(alloc, expr)?;
    let said = check_records(alloc, features, records.as_slice(), params)?;
    Ok(earlier(said, check_calls(classes, known, calls.as_slice(), params)))
}

/// The default of a parameter.
fn check_preset(
    classes: &Classes,
    known: &[WantedTypes],
    class: &str,
    param: &ClassParam,
    nothing: &Params,
) -> Option<Fault>
    requires { nothing.now ≡ [] }
    ensures { Tells (wrong.PresetWrong (told classes.now.names known.now) class.now param.now) result }
{
    match &param.preset {
        None => None,
        Some(term) => check_value(
            classes,
            known,
            class,
            param.name.text.as_str(),
            term,
            nothing,
        ),
    }
}

/// The defaults of the parameters of a class.
fn check_presets(
    classes: &Classes,
    known: &[WantedTypes],
    class: &str,
    params: &[ClassParam],
    nothing: &Params,
) -> Option<Fault>
    requires { nothing.now ≡ [] }
    ensures { Tells (wrong.SomeOf params.now (wrong.PresetWrong (told classes.now.names known.now) class.now)) result }
{
    let mut found = None;
    for param in params {
        found = earlier(found, check_preset(classes, known, class, param, nothing));
    }
    found
}

/// A statement.
fn check_statement(
    alloc: Global,
    features: &Features,
    classes: &Classes,
    known: &[WantedTypes],
    statement: &Statement,
) -> Result<Option<Fault>, OutOfMemory>
    ensures { IfOk result (λ found. Tells (wrong.StatementWrong (feature_of features.now) (told classes.now.names known.now) statement.now) found) }
{
    let nothing = Params::none(alloc);
    match &statement.kind {
        StatementKind::DefClass { name, params, body } => {
            let open = Params::of(alloc, params.as_slice())?;
            let inside = check_body(alloc, features, classes, known, body, &open)?;
            let presets = check_presets(
                classes,
                known,
                name.text.as_str(),
                params.as_slice(),
                &nothing,
            );
            Ok(earlier(inside, presets))
        }
        StatementKind::DefEntry(body) => {
            check_body(alloc, features, classes, known, body, &nothing)
        }
        _ => Ok(None),
    }
}

/// All statements.
fn check_statements(
    alloc: Global,
    features: &Features,
    classes: &Classes,
    known: &[WantedTypes],
    statements: &[Statement],
) -> Result<Option<Fault>, OutOfMemory>
    ensures { IfOk result
        (λ found. Tells (wrong.SomeOf statements.now (wrong.StatementWrong (feature_of features.now) (told classes.now.names known.now))) found) }
{
    let mut found = None;
    for statement in statements {
        found = earlier(
            found,
            check_statement(alloc, features, classes, known, statement)?,
        );
    }
    Ok(found)
}

/// The first fault of the values in the bodies of classes and entries, if there is one: the one with the least place, and
/// at one place the one with the least number. The classes are those of the statements, and the table is theirs.
///
/// - [`Cause::UnknownName`] (30): at a feature that the dimension has not; its term is not looked at. Or at a key in a
///   term that is no field of its record.
/// - [`Cause::Twice`] (31): at a feature, or at a key in a term, that stands before in the same braces. Its term is
///   looked at all the same.
/// - [`Cause::WrongKind`] (33), [`Cause::NotMember`] (34), [`Cause::CardRange`] (38): in the term of a feature, as the
///   type of the feature wants it; in an argument and in a default, as any place wants it where its parameter stands,
///   in the class itself or passed on to another; see [`check_open`]. Of a parameter that stands nowhere no type is
///   wanted.
///
/// The error is want of memory. Each body is looked at twice, each argument and each default once at each different type
/// that is wanted of its parameter; a chain of classes takes no depth of the stack.
pub fn check_values<'a>(
    alloc: Global,
    statements: &'a [Statement],
    table: &'a TypeTable,
    classes: &Classes<'a>,
) -> Result<Option<Fault>, OutOfMemory>
    requires named { None_of (NameOffends statements.now table.now) }
    requires ordered { OrdersClasses statements.now classes.now }
    ensures { IfOk result (λ found. Tells (ValueOffends statements.now table.now) found) }
{
    let features = Features::new(alloc, table)?;
    let known = all_wants(alloc, &features, classes)?;
    check_statements(alloc, &features, classes, known.as_slice(), statements)
}
