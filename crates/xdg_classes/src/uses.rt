//! The uses of classes.

ghost use Rattle.std.specs.Prelude.{◌≡◌, List, map, flat_map, option_map, IfOk};
ghost use Rattle.std.specs.Option.{option_copied};
ghost use Rattle.xdg_names.specs.First.{first};
ghost use Rattle.xdg_types.specs.NameFaults.{foreign, different};
ghost use Rattle.xdg_classes.specs.Definitions.{ClassDef, class_named};
ghost use Rattle.xdg_types.specs.Parts.{keys};
ghost use Rattle.xdg_classes.specs.NameFaults as spec;
ghost use Rattle.xdg_classes.specs.Known.{shown, KnowsClasses};
ghost use Rattle.xdg_classes.specs.Lent.{called};

use crate::bodies::Call;
use crate::params::{Known, Params};
use std::alloc::Global;
use xdg_ast::{Name, Pair, Term};
use xdg_base::{Cause, Fault, OutOfMemory};
use xdg_names::{Index, earlier};
use xdg_types::keys_seen;

/// The fault of a parameter that isn't among those of the class.
fn unknown_param(known: &Index, key: &Name) -> Option<Fault>
    ensures { result ≡ first (foreign known.now key.now) }
{
    if known.contains(key.text.as_str()) {
        return None;
    }
    Some(Fault::at(Cause::WrongParams, key.span.start))
}

/// The first key that isn't among the parameters of the class.
fn unknown_params(known: &Index, pairs: &[Pair<Term>]) -> Option<Fault>
    ensures { result ≡ first (flat_map (foreign known.now) (keys pairs.now)) }
{
    let mut found = None;
    for pair in pairs {
        found = earlier(found, unknown_param(known, &pair.key));
    }
    found
}

/// Whether one of the texts that are needed isn't given.
fn lacks(given: &Index, needed: &[&str]) -> bool
    ensures { result ≡ spec.lacks given.now (map (λ text. text.now) needed.now) }
{
    for text in needed {
        if !given.contains(text) {
            return true;
        }
    }
    false
}

/// The fault of a use that leaves out what is needed.
fn left_out(given: &Index, params: &Params, name: &Name) -> Option<Fault>
    ensures { result ≡ first (spec.left_out given.now (shown params.now).needs name.now.span.start) }
{
    if !lacks(given, params.needed.as_slice()) {
        return None;
    }
    Some(Fault::at(Cause::WrongParams, name.span.start))
}

/// The first fault of a use by what its class asks. These are the names of the parameters that it gives.
fn class_wrong(found: Option<&Params>, given: &Index, call: &Call) -> Option<Fault>
    ensures { given.now ≡ different (keys call.now.args.now)
        → result ≡ first (spec.class_faults (option_map shown (option_copied found.entry)) (called call.now)) }
{
    match found {
        None => Some(Fault::at(Cause::UnknownName, call.name.span.start)),
        Some(params) => earlier(
            unknown_params(&params.known, call.args),
            left_out(given, params, call.name),
        ),
    }
}

/// The first fault of a use.
fn check_call(alloc: Global, known: &Known, call: &Call) -> Result<Option<Fault>, OutOfMemory>
    ensures { (cs : List ClassDef) → KnowsClasses cs known.now.names (map shown known.now.params)
        → IfOk result (λ found. found ≡ first (spec.call_faults cs (called call.now))) }
{
    let mut given = Index::new(alloc);
    let again = keys_seen(alloc, &mut given, call.args)?;
    let found = known.find(call.name.text.as_str());
    Ok(earlier(again, class_wrong(found, &given, call)))
}

/// The first fault of these uses.
pub(crate) fn check_calls(
    alloc: Global,
    known: &Known,
    calls: &[Call],
) -> Result<Option<Fault>, OutOfMemory>
    ensures { (cs : List ClassDef) → KnowsClasses cs known.now.names (map shown known.now.params)
        → IfOk result (λ found. found ≡ first (flat_map (spec.call_faults cs) (map called calls.now))) }
{
    let mut found = None;
    for call in calls {
        found = earlier(found, check_call(alloc, known, call)?);
    }
    Ok(found)
}
