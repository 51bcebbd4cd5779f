//! Collecting the types that are wanted of the parameters of classes.

ghost use Rattle.std.specs.Prelude.{◌≡◌, ◌<◌, ◌++◌, ◌↔◌, ℕ, List, length, map, slice_set, IfOk};
ghost use Rattle.std.specs.List.{flat_map};
ghost use Rattle.std.specs.Option.{option_copied};
ghost use Rattle.xdg_domain.specs.Shapes.{Shape};
ghost use Rattle.xdg_facts.specs.Membership.{In};
ghost use Rattle.xdg_terms.specs.Wanted.{wants_of};
ghost use Rattle.xdg_classes.specs.Bodies.{body};
ghost use Rattle.xdg_classes.specs.Definitions.{param_names};
ghost use Rattle.xdg_ast.specs.Texts.{texts};
ghost use Rattle.xdg_classes.specs.Lent.{said, called};
ghost use Rattle.xdg_types.specs.Parts.{Statement};
ghost use Rattle.xdg_types.specs.Table.{Table};
ghost use Rattle.xdg_classes.specs.KnownWants.{Fits, IsKnown};
ghost use Rattle.xdg_classes.specs.Given as spec;
ghost use Rattle.xdg_classes.specs.Collected as all;

use crate::bodies::{Call, Record, calls, records};
use crate::definitions::ClassDef;
use crate::features::Features;
use crate::lookup::Classes;
use crate::wanted::WantedTypes;
use std::alloc::Global;
use xdg_ast::{Pair, Params, Term};
use xdg_base::OutOfMemory;
use xdg_domain::Ty;
use xdg_terms::{Wanted, params_in};

/// Adds what is wanted of parameters.
fn add_all<'a>(
    alloc: Global,
    found: &[Wanted<'a>],
    wants: &mut WantedTypes<'a>,
) -> Result<(), OutOfMemory>
    ensures { IfOk result (λ _. spec.Grows wants.old wants.new (wants_of found.now)) }
{
    for one in found {
        wants.add(alloc, one.name.text.as_str(), one.ty)?;
    }
    Ok(())
}

/// Adds what is wanted of the parameters in what is said of a feature.
fn add_pair<'a>(
    alloc: Global,
    features: &Features<'a>,
    dim: &str,
    pair: &'a Pair<Term>,
    params: &Params,
    wants: &mut WantedTypes<'a>,
) -> Result<(), OutOfMemory>
    ensures { IfOk result (λ _. spec.Grows wants.old wants.new (all.pair_wants (all.feature_of features.now) params.now dim.now pair.now)) }
{
    match features.get(dim, pair.key.text.as_str()) {
        None => Ok(()),
        Some(ty) => {
            let found = params_in(alloc, ty, &pair.value, params)?;
            add_all(alloc, found.as_slice(), wants)
        }
    }
}

/// Adds what is wanted of the parameters in a record.
fn add_record<'a>(
    alloc: Global,
    features: &Features<'a>,
    one: &Record<'a>,
    params: &Params,
    wants: &mut WantedTypes<'a>,
) -> Result<(), OutOfMemory>
    ensures { IfOk result (λ _. spec.Grows wants.old wants.new (all.record_wants (all.feature_of features.now) params.now (said one.now))) }
{
    for pair in one.pairs {
        add_pair(alloc, features, one.dim.text.as_str(), pair, params, wants)?;
    }
    Ok(())
}

/// Adds what is wanted of the parameters in records.
fn add_records<'a>(
    alloc: Global,
    features: &Features<'a>,
    records: &[Record<'a>],
    params: &Params,
    wants: &mut WantedTypes<'a>,
) -> Result<(), OutOfMemory>
    ensures { IfOk result (λ _. spec.Grows wants.old wants.new (flat_map (all.record_wants (all.feature_of features.now) params.now) (map said records.now))) }
{
    for one in records {
        add_record(alloc, features, one, params, wants)?;
    }
    Ok(())
}

/// Adds what is wanted of the parameters in a term at each of these types.
fn add_types<'a>(
    alloc: Global,
    types: &[&'a Ty],
    term: &'a Term,
    params: &Params,
    wants: &mut WantedTypes<'a>,
) -> Result<(), OutOfMemory>
    ensures { IfOk result (λ _. spec.Grows wants.old wants.new (all.type_wants params.now term.now (spec.shapes types.now))) }
{
    for ty in types {
        let found = params_in(alloc, ty, term, params)?;
        add_all(alloc, found.as_slice(), wants)?;
    }
    Ok(())
}

/// Adds what is wanted of the parameters in an argument, where these types are wanted of the parameters of the used
/// class.
fn add_arg<'a>(
    alloc: Global,
    used: &WantedTypes<'a>,
    arg: &'a Pair<Term>,
    params: &Params,
    wants: &mut WantedTypes<'a>,
) -> Result<(), OutOfMemory>
    ensures { IfOk result (λ _. spec.Grows wants.old wants.new (all.arg_wants (spec.given used.now) params.now arg.now)) }
{
    match used.of(arg.key.text.as_str()) {
        None => Ok(()),
        Some(types) => add_types(alloc, types.as_slice(), &arg.value, params, wants),
    }
}

/// Adds what is wanted of the parameters in arguments.
fn add_args<'a>(
    alloc: Global,
    used: &WantedTypes<'a>,
    args: &'a [Pair<Term>],
    params: &Params,
    wants: &mut WantedTypes<'a>,
) -> Result<(), OutOfMemory>
    ensures { IfOk result (λ _. spec.Grows wants.old wants.new (flat_map (all.arg_wants (spec.given used.now) params.now) args.now)) }
{
    for arg in args {
        add_arg(alloc, used, arg, params, wants)?;
    }
    Ok(())
}

/// What is wanted of the parameters of the class with that name.
pub(crate) fn of_class<'s, 'a>(
    classes: &Classes<'a>,
    known: &'s [WantedTypes<'a>],
    class: &str,
) -> Option<&'s WantedTypes<'a>>
    ensures { option_copied result ≡ spec.of_class classes.now.names known.now class.now }
{
    match classes.find(class) {
        None => None,
        Some(at) => known.get(at),
    }
}

/// Adds what is wanted of the parameters in the use of a class.
fn add_call<'a>(
    alloc: Global,
    classes: &Classes<'a>,
    known: &[WantedTypes<'a>],
    call: &Call<'a>,
    params: &Params,
    wants: &mut WantedTypes<'a>,
) -> Result<(), OutOfMemory>
    ensures { IfOk result (λ _. spec.Grows wants.old wants.new (all.call_wants (spec.told classes.now.names known.now) params.now (called call.now))) }
{
    match of_class(classes, known, call.name.text.as_str()) {
        None => Ok(()),
        Some(used) => add_args(alloc, used, call.args, params, wants),
    }
}

/// Adds what is wanted of the parameters in uses of classes.
fn add_calls<'a>(
    alloc: Global,
    classes: &Classes<'a>,
    known: &[WantedTypes<'a>],
    calls: &[Call<'a>],
    params: &Params,
    wants: &mut WantedTypes<'a>,
) -> Result<(), OutOfMemory>
    ensures { IfOk result
        (λ _. spec.Grows wants.old wants.new (flat_map (all.call_wants (spec.told classes.now.names known.now) params.now) (map called calls.now))) }
{
    for call in calls {
        add_call(alloc, classes, known, call, params, wants)?;
    }
    Ok(())
}

/// What is wanted of the parameters of a class, where it is known what is wanted of those of the classes that it uses.
fn wants_of_class<'a>(
    alloc: Global,
    features: &Features<'a>,
    classes: &Classes<'a>,
    known: &[WantedTypes<'a>],
    class: &ClassDef<'a>,
) -> Result<WantedTypes<'a>, OutOfMemory>
    ensures { IfOk result (λ made. (param : List ℕ) (s : Shape) → In (spec.given made param) s
        ↔ In
        (all.body_wants (all.feature_of features.now) (spec.told classes.now.names known.now) (texts (param_names class.now.params.now))
        (body class.now.body.now.kind))
        (param, s)) }
{
    let params = Params::of(alloc, class.params)?;
    let mut wants = WantedTypes::none(alloc);
    let records = records(alloc, class.body)?;
    add_records(alloc, features, records.as_slice(), &params, &mut wants)?;
    let calls = calls(alloc, class.body)?;
    add_calls(alloc, classes, known, calls.as_slice(), &params, &mut wants)?;
    Ok(wants)
}

/// Nothing for each class.
fn nothing<'a>(alloc: Global, classes: &Classes<'a>) -> Result<Vec<WantedTypes<'a>>, OutOfMemory>
    ensures { IfOk result (λ made. length made.items ≡ length classes.now.definitions) }
{
    let mut known = Vec::new(alloc);
    for _class in classes.definitions() {
        known.push(WantedTypes::none(alloc))?;
    }
    Ok(known)
}

/// Puts what is wanted of the parameters of a class at its place.
fn put<'a>(
    known: &mut Vec<WantedTypes<'a>>,
    at: usize,
    made: WantedTypes<'a>,
) -> Result<(), OutOfMemory>
    ensures { IfOk result (λ _. (at < length known.old.items) × (known.new.items ≡ slice_set known.old.items at made.entry)) }
{
    let Some(place) = known.get_mut(at) else {
        return Err(OutOfMemory);
    };
    *place = made;
    Ok(())
}

/// What is wanted of the parameters of each class, at the places of the classes. Each class is looked at once, after
/// those that it uses, and each argument once at each type that is wanted of its parameter.
pub(crate) fn all_wants<'a>(
    alloc: Global,
    features: &Features<'a>,
    classes: &Classes<'a>,
) -> Result<Vec<WantedTypes<'a>>, OutOfMemory>
    ensures { (statements : List Statement) (table : Table) → Fits statements table features.now classes.now
        → IfOk result (λ made. IsKnown statements table classes.now.names made.items) }
{
    let mut known = nothing(alloc, classes)?;
    for at in classes.order() {
        let Some(class) = classes.definitions().get(*at) else {
            return Err(OutOfMemory);
        };
        let made = wants_of_class(alloc, features, classes, known.as_slice(), class)?;
        put(&mut known, *at, made)?;
    }
    Ok(known)
}
