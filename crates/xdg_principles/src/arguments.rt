//! The pass over the arguments in the uses of principles.

ghost use Rattle.std.specs.Prelude.{◌≡◌, List, [], ◌∷◌, map, flat_map, ◌++◌, IfOk};
ghost use Rattle.xdg_base.specs.declared.faults.Cause.TheVariants as causes;
ghost use Rattle.xdg_names.specs.First.{first, Tells};
ghost use Rattle.xdg_names.specs.Texts.{has_text};
ghost use Rattle.xdg_types.specs.NameFaults.{repeats};
ghost use Rattle.xdg_types.specs.Parts.{Statement};
ghost use Rattle.xdg_principles.specs.ArgumentFaults as spec;
ghost use Rattle.xdg_principles.specs.Arguments as rules;
ghost use Rattle.xdg_principles.specs.Lent.{Knows, IsReady, as_setting};
ghost use Rattle.xdg_facts.specs.Onward.{optional};
ghost use Rattle.xdg_problem.specs.declared.forms.Wanted.TheVariants as wanted;
ghost use Rattle.xdg_principles.specs.Settings.{term_in, called_in, member_type};
ghost use Rattle.xdg_principles.specs.Uses.{seen, told as told_use, AreUsesOf};
ghost use Rattle.xdg_terms.specs.Faults.{truth_texts};

use crate::fitting::is_wanted;
use crate::lookup::{Lookup, index_names};
use crate::settings::{SettingRef, is_list};
use crate::using::{FoundUse, Uses};
use std::alloc::Global;
use xdg_ast::{Name, Term};
use xdg_base::{Cause, Fault, OutOfMemory, Text};
use xdg_names::{earlier, has_text};
use xdg_problem::{Parameter, Sort, Typing, Wanted, Which, form_of};
use xdg_terms::constant;
use xdg_types::{DimType, TypeTable, names_again};

/// The first fault of the arguments in the uses of principles, in dimensions that are used and in others, if there is
/// one. The table is that of the grammar's types.
///
/// - `WrongKind` (33) at the first token of a term that isn't of the form that is wanted: a constant for a feature, an
///   attribute or a truth value, square brackets for `Order`; and at a feature or an attribute whose type isn't the wanted
///   one. Where two arguments share a type, the one that stands first in the table of principles fixes it.
/// - `UnknownName` (30) at a feature or an attribute that the dimension hasn't.
/// - `NotMember` (34) at a constant of `Order` that is no label, and at one that is neither `true` nor `false`.
/// - `Twice` (31) at the second of a label in `Order`.
///
/// The default of an argument that is left out has the place of the principle's name.
///
/// Names are looked up in hash indexes, so the time is linear in the text and in the number of features, but for tuple
/// types of very many fields, which are compared field by field.
///
/// # Errors
///
/// Want of memory.
pub fn check_arguments(
    alloc: Global,
    uses: &Uses<'_>,
    table: &TypeTable,
) -> Result<Option<Fault>, OutOfMemory>
    ensures { (statements : List Statement) → AreUsesOf statements uses.now
        → IfOk result (λ found. Tells (rules.ArgumentOffends statements table.now) found) }
{
    arguments_wrong(alloc, uses, table)
}

fn arguments_wrong(
    alloc: Global,
    uses: &Uses<'_>,
    table: &TypeTable,
) -> Result<Option<Fault>, OutOfMemory>
    ensures { IfOk result (λ found. found ≡ first (flat_map (spec.found_faults table.now.dims) (map told_use uses.now.found))) }
{
    let lookup = index_names(alloc, table)?;
    check_uses(alloc, &lookup, table.dims(), uses.found.as_slice())
}

/// In all uses.
fn check_uses<'a>(
    alloc: Global,
    lookup: &'a Lookup,
    dims: &'a [DimType],
    uses: &[FoundUse<'a>],
) -> Result<Option<Fault>, OutOfMemory>
    requires { Knows dims.now lookup.now }
    ensures { IfOk result (λ found. found ≡ first (flat_map (spec.found_faults dims.now) (map told_use uses.now))) }
{
    let mut found = None;
    for one in uses {
        found = earlier(found, check_use(alloc, lookup, dims, one)?);
    }
    Ok(found)
}

/// In one use.
fn check_use<'a>(
    alloc: Global,
    lookup: &'a Lookup,
    dims: &'a [DimType],
    one: &FoundUse<'a>,
) -> Result<Option<Fault>, OutOfMemory>
    requires { Knows dims.now lookup.now }
    ensures { IfOk result (λ found. found ≡ first (spec.known_faults dims.now (seen one.now.written) one.now.principle)) }
{
    match &one.principle {
        None => Ok(None),
        Some(principle) => {
            let setting = SettingRef {
                lookup,
                dims,
                one: one.written,
                form: form_of(principle),
            };
            check_setting(alloc, &setting)
        }
    }
}

/// In a use of a known principle.
#[tactic(auto, using(crate::proofs::Forms::each_of))]
fn check_setting<'a>(alloc: Global, setting: &SettingRef<'a>) -> Result<Option<Fault>, OutOfMemory>
    requires { IsReady setting.now }
    ensures { IfOk result (λ found. found ≡ first (spec.setting_faults (as_setting setting.now))) }
{
    let first = check_parameter(alloc, setting, setting.form.first)?;
    let second = check_parameter(alloc, setting, setting.form.second)?;
    let third = check_parameter(alloc, setting, setting.form.third)?;
    Ok(earlier(first, earlier(second, third)))
}

#[tactic(auto, using(crate::proofs::Forms::one_told))]
fn check_parameter<'a>(
    alloc: Global,
    setting: &SettingRef<'a>,
    parameter: Option<Parameter>,
) -> Result<Option<Fault>, OutOfMemory>
    requires { IsReady setting.now }
    ensures { IfOk result (λ found. found ≡ first (flat_map (spec.one_faults (as_setting setting.now)) (optional parameter))) }
{
    match parameter {
        None => Ok(None),
        Some(parameter) => check_argument(alloc, setting, parameter),
    }
}

/// In one argument.
#[tactic(auto, using(xdg_names::proofs::First::first_append))]
fn check_argument<'a>(
    alloc: Global,
    setting: &SettingRef<'a>,
    parameter: Parameter,
) -> Result<Option<Fault>, OutOfMemory>
    requires { IsReady setting.now }
    ensures { IfOk result (λ found. found ≡ first (spec.one_faults (as_setting setting.now) parameter)) }
{
    let inside = check_inside(alloc, setting, parameter, parameter.wanted)?;
    Ok(earlier(check_form(setting, parameter), inside))
}

/// A term that isn't of the form that is wanted.
fn check_form<'a>(setting: &SettingRef<'a>, parameter: Parameter) -> Option<Fault>
    ensures { result ≡ first (spec.form_faults parameter.wanted (term_in (as_setting setting.now) parameter)) }
{
    match setting.term(parameter) {
        None => None,
        Some(term) => {
            if has_form(parameter.wanted, term) {
                None
            } else {
                Some(Fault::at(Cause::WrongKind, term.span.start))
            }
        }
    }
}

/// Whether the term is of the form that is wanted.
fn has_form(wanted: Wanted, term: &Term) -> bool
    ensures { result ≡ rules.has_form wanted term.now }
{
    match wanted {
        Wanted::Member(..) => constant(term).is_some(),
        Wanted::Labels(_) => is_list(term),
        Wanted::Truth => constant(term).is_some(),
    }
}

/// What is given where it has the form.
fn check_inside<'a>(
    alloc: Global,
    setting: &SettingRef<'a>,
    parameter: Parameter,
    wanted: Wanted,
) -> Result<Option<Fault>, OutOfMemory>
    requires { IsReady setting.now }
    ensures { IfOk result (λ found. found ≡ first (spec.inner_faults (as_setting setting.now) parameter wanted)) }
{
    match wanted {
        Wanted::Member(sort, which, typing) => {
            Ok(check_member(setting, parameter, sort, which, typing))
        }
        Wanted::Labels(which) => {
            check_labels(alloc, setting.labels(which), setting.listed(parameter))
        }
        Wanted::Truth => Ok(check_truth(setting, parameter)),
    }
}

/// A feature or an attribute.
fn check_member<'a>(
    setting: &SettingRef<'a>,
    parameter: Parameter,
    sort: Sort,
    which: Which,
    typing: Typing,
) -> Option<Fault>
    requires { IsReady setting.now }
    ensures { result ≡ first (spec.member_faults (as_setting setting.now) sort which typing (called_in (as_setting setting.now) parameter)) }
{
    match setting.called(parameter) {
        None => None,
        Some(called) => check_named(setting, sort, which, typing, called.text, called.at),
    }
}

/// The feature or the attribute of that name, which stands at that place.
fn check_named<'a>(
    setting: &SettingRef<'a>,
    sort: Sort,
    which: Which,
    typing: Typing,
    name: &str,
    at: u32,
) -> Option<Fault>
    requires { IsReady setting.now }
    ensures { result ≡ first (spec.type_faults (as_setting setting.now) typing at (member_type (as_setting setting.now) sort which name.now)) }
{
    match setting.member_type(sort, which, name) {
        None => Some(Fault::at(Cause::UnknownName, at)),
        Some(ty) => {
            if is_wanted(setting, typing, ty) {
                None
            } else {
                Some(Fault::at(Cause::WrongKind, at))
            }
        }
    }
}

/// Labels, which have to be different.
#[tactic(auto, using(xdg_names::proofs::First::first_append))]
fn check_labels(
    alloc: Global,
    labels: &[Text],
    names: &[Name],
) -> Result<Option<Fault>, OutOfMemory>
    ensures { IfOk result (λ found. found ≡ first (flat_map (spec.outside labels.now) names.now ++ repeats [] names.now)) }
{
    let again = names_again(alloc, names)?;
    Ok(earlier(outside(labels, names), again))
}

/// The first name that is no label.
fn outside(labels: &[Text], names: &[Name]) -> Option<Fault>
    ensures { result ≡ first (flat_map (spec.outside labels.now) names.now) }
{
    let mut found = None;
    for name in names {
        found = earlier(found, not_label(labels, name));
    }
    found
}

fn not_label(labels: &[Text], name: &Name) -> Option<Fault>
    ensures { result ≡ first (spec.outside labels.now name.now) }
{
    if has_text(labels, name.text.as_str()) {
        None
    } else {
        Some(Fault::at(Cause::NotMember, name.span.start))
    }
}

/// A constant that is neither `true` nor `false`.
fn check_truth<'a>(setting: &SettingRef<'a>, parameter: Parameter) -> Option<Fault>
    ensures { result ≡ first (spec.inner_faults (as_setting setting.now) parameter wanted.Truth) }
{
    match setting.constant(parameter) {
        None => None,
        Some(name) => {
            if is_truth(name.text.as_str()) {
                None
            } else {
                Some(Fault::at(Cause::NotMember, name.span.start))
            }
        }
    }
}

fn is_truth(text: &str) -> bool
    ensures { result ≡ has_text truth_texts text.now }
{
    "true" == text || "false" == text
}
