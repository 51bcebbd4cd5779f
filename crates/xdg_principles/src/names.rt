//! The pass over the names in the uses of principles.

ghost use Rattle.std.specs.Prelude.{◌≡◌, [], ◌∷◌, map, flat_map, IfOk, if◌then◌else◌};
ghost use Rattle.xdg_base.specs.Faults.{fault_at};
ghost use Rattle.xdg_base.specs.declared.faults.Cause.TheVariants as causes;
ghost use Rattle.xdg_names.specs.First.{first, Tells};
ghost use Rattle.xdg_names.specs.Texts.{has_text};
ghost use Rattle.xdg_types.specs.NameFaults as names;
ghost use Rattle.xdg_types.specs.Parts.{dim_names, used_name, used_names, keys};
ghost use Rattle.xdg_principles.specs.Names.{PrincipleNameOffends, dim_keys, arg_keys, required_key, required_keys};
ghost use Rattle.xdg_principles.specs.NameFaults as spec;
ghost use Rattle.xdg_problem.specs.Forms.{dim_key, dims_in, key_text};
ghost use Rattle.xdg_facts.specs.Onward.{optional};
ghost use Rattle.xdg_principles.specs.Uses.{seen, told as told_use, AreUsesOf};

use crate::keys::{has_key, unknown_among};
use crate::using::{FoundUse, UseRef, Uses};
use std::alloc::Global;
use xdg_ast::{Name, Pair, Statement, StatementKind, Term};
use xdg_base::{Cause, Fault, OutOfMemory};
use xdg_names::{Index, earlier};
use xdg_problem::{Dims, Form, Parameter, Preset, Principle, Which, form_of};
use xdg_types::{keys_again, repeated};

/// The first fault of the names in the uses of principles, in dimensions that are used and in others, if there is one.
/// The uses are those of the statements.
///
/// - `UnknownPrinciple` (36) at the name of a principle that there isn't.
/// - `Twice` (31) at the second of a dimension's or an argument's key in one use.
/// - `UnknownName` (30) at the name of a dimension that isn't defined, or, in a dimension that is used, isn't used.
/// - `WrongParams` (37) at a key that the principle hasn't.
/// - `MissingArg` (35) at the name of a principle that isn't given one of its dimensions or of its arguments without default.
///
/// Keys and names of dimensions are looked up in hash indexes.
///
/// # Errors
///
/// Want of memory.
#[tactic(auto, using(crate::proofs::NameLaw::names_tell))]
pub fn check_names(
    alloc: Global,
    statements: &[Statement],
    uses: &Uses<'_>,
) -> Result<Option<Fault>, OutOfMemory>
    requires { AreUsesOf statements.now uses.now }
    ensures { IfOk result (λ found. Tells (PrincipleNameOffends statements.now) found) }
{
    names_wrong(alloc, statements, uses)
}

fn names_wrong(
    alloc: Global,
    statements: &[Statement],
    uses: &Uses<'_>,
) -> Result<Option<Fault>, OutOfMemory>
    requires { AreUsesOf statements.now uses.now }
    ensures { IfOk result (λ found. found ≡ first (spec.name_faults statements.now)) }
{
    let defined = defined_dims(alloc, statements)?;
    let used = used_dims(alloc, statements)?;
    check_uses(alloc, &defined, &used, uses.found.as_slice())
}

/// The different names of the dimensions, in the order of the text.
fn defined_dims(alloc: Global, statements: &[Statement]) -> Result<Index, OutOfMemory>
    ensures { IfOk result (λ made. made ≡ names.different (dim_names statements.now)) }
{
    let mut known = Index::new(alloc);
    for statement in statements {
        add_defined(alloc, &mut known, statement)?;
    }
    Ok(known)
}

fn add_defined(alloc: Global, known: &mut Index, statement: &Statement) -> Result<(), OutOfMemory>
    ensures { IfOk result (λ _. known.new ≡ names.with_all known.old (names.dim_name statement.now.kind)) }
{
    if let StatementKind::DefDim(name, _) = &statement.kind {
        repeated(alloc, known, name)?;
    }
    Ok(())
}

/// The different names of the dimensions that are used, in the order of their uses.
fn used_dims(alloc: Global, statements: &[Statement]) -> Result<Index, OutOfMemory>
    ensures { IfOk result (λ made. made ≡ names.different (used_names statements.now)) }
{
    let mut known = Index::new(alloc);
    for statement in statements {
        add_used(alloc, &mut known, statement)?;
    }
    Ok(known)
}

fn add_used(alloc: Global, known: &mut Index, statement: &Statement) -> Result<(), OutOfMemory>
    ensures { IfOk result (λ _. known.new ≡ names.with_all known.old (used_name statement.now.kind)) }
{
    if let StatementKind::UseDim(name) = &statement.kind {
        repeated(alloc, known, name)?;
    }
    Ok(())
}

/// In all uses of principles.
fn check_uses<'a>(
    alloc: Global,
    defined: &Index,
    used: &Index,
    uses: &[FoundUse<'a>],
) -> Result<Option<Fault>, OutOfMemory>
    ensures { IfOk result (λ found. found ≡ first (flat_map (spec.found_faults defined.now used.now) (map told_use uses.now))) }
{
    let mut found = None;
    for one in uses {
        found = earlier(found, check_use(alloc, defined, used, one)?);
    }
    Ok(found)
}

/// In one use.
#[tactic(auto, using(xdg_names::proofs::First::first_append))]
fn check_use<'a>(
    alloc: Global,
    defined: &Index,
    used: &Index,
    one: &FoundUse<'a>,
) -> Result<Option<Fault>, OutOfMemory>
    ensures { IfOk result (λ found. found ≡ first (spec.found_faults defined.now used.now (told_use one.now))) }
{
    let written = &one.written;
    let again = earlier(
        keys_again(alloc, written.dims)?,
        keys_again(alloc, written.args)?,
    );
    let unknown = unknown_among(defined, written.dims);
    let dims = earlier(unknown, unused_dims(used, written));
    let foreign = check_principle(written, &one.principle);
    Ok(earlier(again, earlier(dims, foreign)))
}

/// The first dimension that isn't used, where the use stands in one that is used.
fn unused_dims<'a>(used: &Index, one: &UseRef<'a>) -> Option<Fault>
    ensures { result ≡ first (spec.unused used.now (seen one.now)) }
{
    if used.contains(one.within.text.as_str()) {
        unknown_among(used, one.dims)
    } else {
        None
    }
}

/// What the principle that is named, if there is one, hasn't or lacks.
#[tactic(auto, using(xdg_names::proofs::First::first_append))]
fn check_principle<'a>(one: &UseRef<'a>, principle: &Option<Principle>) -> Option<Fault>
    ensures { result ≡ first (spec.principle_faults (seen one.now) principle.now) }
{
    match principle {
        None => Some(Fault::at(Cause::UnknownPrinciple, one.name.span.start)),
        Some(principle) => {
            let form = form_of(principle);
            earlier(foreign_keys(form, one), left_out(form, one))
        }
    }
}

/// The first key that the principle hasn't.
#[tactic(auto, using(xdg_names::proofs::First::first_append))]
fn foreign_keys<'a>(form: Form, one: &UseRef<'a>) -> Option<Fault>
    ensures { result ≡ first (spec.key_faults form (seen one.now)) }
{
    earlier(foreign_dims(form, one.dims), foreign_args(form, one.args))
}

/// The first of these keys that is no dimension's.
fn foreign_dims(form: Form, pairs: &[Pair<Name>]) -> Option<Fault>
    ensures { result ≡ first (flat_map (names.foreign (dim_keys form)) (keys pairs.now)) }
{
    let mut found = None;
    for pair in pairs {
        found = earlier(
            found,
            foreign(&pair.key, has_dim(form.dims, pair.key.text.as_str())),
        );
    }
    found
}

/// The first of these keys that is no argument's.
fn foreign_args(form: Form, pairs: &[Pair<Term>]) -> Option<Fault>
    ensures { result ≡ first (flat_map (names.foreign (arg_keys form)) (keys pairs.now)) }
{
    let mut found = None;
    for pair in pairs {
        found = earlier(
            found,
            foreign(&pair.key, has_arg(form, pair.key.text.as_str())),
        );
    }
    found
}

/// The fault of a key unless it is one that the principle has.
fn foreign(key: &Name, is_known: bool) -> Option<Fault>
    ensures { result ≡ first (if is_known then [] else fault_at causes.WrongParams key.now.span.start ∷ []) }
{
    if is_known {
        None
    } else {
        Some(Fault::at(Cause::WrongParams, key.span.start))
    }
}

/// Whether a dimension has the key.
fn has_dim(dims: Dims, text: &str) -> bool
    ensures { result ≡ has_text (map (dim_key dims) (dims_in dims)) text.now }
{
    match dims {
        Dims::One => dims.key(Which::First) == text,
        Dims::Two => dims.key(Which::First) == text || dims.key(Which::Second) == text,
        Dims::Three => {
            dims.key(Which::First) == text
                || (dims.key(Which::Second) == text || dims.key(Which::Third) == text)
        }
    }
}

/// Whether an argument has the name.
#[tactic(auto, using(crate::proofs::Forms::has_args))]
fn has_arg(form: Form, text: &str) -> bool
    ensures { result ≡ has_text (arg_keys form) text.now }
{
    let first = is_named(form.first, text);
    let second = is_named(form.second, text);
    let third = is_named(form.third, text);
    first || (second || third)
}

fn is_named(parameter: Option<Parameter>, text: &str) -> bool
    ensures { result ≡ has_text (map (λ one. key_text one.key) (optional parameter)) text.now }
{
    match parameter {
        None => false,
        Some(parameter) => parameter.key.text() == text,
    }
}

/// The fault of a principle that isn't given what it has to be given.
#[tactic(auto, using(xdg_names::proofs::First::first_append))]
fn left_out<'a>(form: Form, one: &UseRef<'a>) -> Option<Fault>
    ensures { result ≡ first (spec.left_out form (seen one.now)) }
{
    earlier(lacking_dims(form.dims, one), lacking_args(form, one))
}

#[tactic(auto, using(xdg_names::proofs::First::first_append, crate::proofs::Forms::nothing_more))]
fn lacking_dims<'a>(dims: Dims, one: &UseRef<'a>) -> Option<Fault>
    ensures { result ≡ first (flat_map (spec.lacking one.now.name.now.span.start (keys one.now.dims.now)) (map (dim_key dims) (dims_in dims))) }
{
    let first = lacking(one.name, has_key(one.dims, dims.key(Which::First)));
    let second = lacking(one.name, has_key(one.dims, dims.key(Which::Second)));
    let third = lacking(one.name, has_key(one.dims, dims.key(Which::Third)));
    match dims {
        Dims::One => first,
        Dims::Two => earlier(first, second),
        Dims::Three => earlier(first, earlier(second, third)),
    }
}

#[tactic(auto, using(crate::proofs::Forms::lacking_each))]
fn lacking_args<'a>(form: Form, one: &UseRef<'a>) -> Option<Fault>
    ensures { result ≡ first (flat_map (spec.lacking one.now.name.now.span.start (keys one.now.args.now)) (required_keys form)) }
{
    let first = lacking_arg(form.first, one);
    let second = lacking_arg(form.second, one);
    let third = lacking_arg(form.third, one);
    earlier(first, earlier(second, third))
}

#[tactic(auto, using(xdg_names::proofs::First::first_append, crate::proofs::Forms::nothing_more))]
fn lacking_arg<'a>(parameter: Option<Parameter>, one: &UseRef<'a>) -> Option<Fault>
    ensures { result ≡ first (flat_map (spec.lacking one.now.name.now.span.start (keys one.now.args.now)) (flat_map required_key (optional parameter))) }
{
    let Some(parameter) = parameter else {
        return None;
    };
    match parameter.preset {
        Preset::Required => lacking(one.name, has_key(one.args, parameter.key.text())),
        Preset::False | Preset::In | Preset::Out => None,
    }
}

/// The fault of a principle unless it is given something.
fn lacking(principle: &Name, is_given: bool) -> Option<Fault>
    ensures { result ≡ first (if is_given then [] else fault_at causes.MissingArg principle.now.span.start ∷ []) }
{
    if is_given {
        None
    } else {
        Some(Fault::at(Cause::MissingArg, principle.span.start))
    }
}
