//! Names among others: one that stands again where it may stand once, one that stands for nothing, and names by number.

ghost use Rattle.std.specs.Prelude.{◌≡◌, [], ◌++◌, map, IfOk};
ghost use Rattle.xdg_facts.specs.Membership.{Differ};
ghost use Rattle.xdg_names.specs.First.{first};
ghost use Rattle.xdg_types.specs.Graph.{use_of};
ghost use Rattle.xdg_types.specs.NameFaults as spec;
ghost use Rattle.xdg_types.specs.Parts.{keys};

use crate::table::DimType;
use std::alloc::Global;
use xdg_ast::{Name, Pair};
use xdg_base::{Cause, Fault, List, OutOfMemory};
use xdg_names::{Index, Use, earlier};

/// The fault of a name that was seen before. From then on it is seen.
///
/// # Errors
///
/// Fails where memory runs out.
pub fn repeated(alloc: Global, seen: &mut Index, name: &Name) -> Result<Option<Fault>, OutOfMemory>
    ensures found { IfOk result (λ found. found ≡ first (spec.repeated seen.old name.now)) }
    ensures seen { IfOk result (λ _. seen.new ≡ spec.with_text seen.old name.now.text) }
{
    if seen.add(alloc, name.text.as_str())? {
        return Ok(None);
    }
    Ok(Some(Fault::at(Cause::Twice, name.span.start)))
}

/// The first key that was seen before. From then on all keys are seen.
///
/// # Errors
///
/// Fails where memory runs out.
pub fn keys_seen<T>(
    alloc: Global,
    seen: &mut Index,
    pairs: &[Pair<T>],
) -> Result<Option<Fault>, OutOfMemory>
    ensures found { IfOk result (λ found. found ≡ first (spec.repeats seen.old (keys pairs.now))) }
    ensures seen { IfOk result (λ _. seen.new ≡ spec.with_all seen.old (keys pairs.now)) }
{
    let mut found = None;
    for pair in pairs {
        found = earlier(found, repeated(alloc, seen, &pair.key)?);
    }
    Ok(found)
}

/// The first key that stands there before.
///
/// # Errors
///
/// Fails where memory runs out.
pub fn keys_again<T>(alloc: Global, pairs: &[Pair<T>]) -> Result<Option<Fault>, OutOfMemory>
    ensures { IfOk result (λ found. found ≡ first (spec.repeats [] (keys pairs.now))) }
{
    let mut seen = Index::new(alloc);
    keys_seen(alloc, &mut seen, pairs)
}

/// The first name that stands there before.
///
/// # Errors
///
/// Fails where memory runs out.
pub fn names_again(alloc: Global, names: &[Name]) -> Result<Option<Fault>, OutOfMemory>
    ensures { IfOk result (λ found. found ≡ first (spec.repeats [] names.now)) }
{
    let mut seen = Index::new(alloc);
    let mut found = None;
    for name in names {
        found = earlier(found, repeated(alloc, &mut seen, name)?);
    }
    Ok(found)
}

/// The fault of a name that isn't among those that are known.
pub fn unknown(known: &Index, name: &Name) -> Option<Fault>
    ensures { result ≡ first (spec.unknown known.now name.now) }
{
    if known.contains(name.text.as_str()) {
        return None;
    }
    Some(Fault::at(Cause::UnknownName, name.span.start))
}

/// Adds the use of what has a name, where it is known.
///
/// # Errors
///
/// Fails where memory runs out.
pub fn add_use(known: &Index, name: &Name, made: &mut List<Use>) -> Result<(), OutOfMemory>
    ensures { IfOk result (λ _. made.new ≡ made.old ++ use_of known.now name.now) }
{
    match known.find(name.text.as_str()) {
        None => Ok(()),
        Some(to) => made.push(Use {
            to,
            at: name.span.start,
        }),
    }
}

/// The names of dimensions by number, which differ.
///
/// # Errors
///
/// Fails where memory runs out.
pub fn index_dims(alloc: Global, dims: &[DimType]) -> Result<Index, OutOfMemory>
    requires { Differ (map (λ dim. dim.name) dims.now) }
    ensures { IfOk result (λ made. made ≡ map (λ dim. dim.name) dims.now) }
{
    let mut all = Index::new(alloc);
    for dim in dims {
        all.add(alloc, dim.name.as_str())?;
    }
    Ok(all)
}
