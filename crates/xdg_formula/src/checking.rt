//! The first fault of rules.

ghost use Rattle.std.specs.Prelude.{◌≡◌, [], Result, slice_get, IfOk};
ghost use Rattle.std.specs.List.{flat_map};
ghost use Rattle.xdg_base.specs.declared.faults.Fault as faults;
ghost use Rattle.xdg_names.specs.First.{first};
ghost use Rattle.xdg_terms.specs.Faults.{all_twice, texts_of, twice};
ghost use Rattle.xdg_names.specs.Texts.{has_text};
ghost use Rattle.xdg_base.specs.Told.{Gives};
ghost use Rattle.xdg_formula.specs.Answers.{IsAnswer, Tells};
ghost use Rattle.xdg_formula.specs.Formulas as spec;
ghost use Rattle.xdg_formula.specs.Tables.{used_dims};

use crate::formula_checking::check_formula;
use crate::tree::{Rule, Rules};
use std::alloc::Global;
use xdg_base::{Cause, Fault, OutOfMemory, Stop};
use xdg_names::earlier;
use xdg_types::TypeTable;

/// How many rules a text may have.
const MOST_RULES: usize = 32;

/// Whether a rule has this name.
fn has_name(rules: &[Rule], name: &str) -> bool
    ensures { result ≡ has_text (texts_of (spec.names_of rules.now)) name.now }
{
    for rule in rules {
        if rule.name.text.as_str() == name {
            return true;
        }
    }
    false
}

/// The name of a rule that a rule before has too.
#[tactic(auto, unfolding(xdg_terms::specs::Faults::twice))]
fn check_name(before: &[Rule], rule: &Rule) -> Option<Fault>
    ensures { result ≡ first (twice (spec.names_of before.now) rule.now.name) }
{
    if !has_name(before, rule.name.text.as_str()) {
        return None;
    }
    Some(Fault::at(Cause::Twice, rule.name.span.start))
}

/// The names that a rule before has too.
fn check_names(rules: &[Rule]) -> Option<Fault>
    ensures { result ≡ first (all_twice [] (spec.names_of rules.now)) }
{
    let mut found = None;
    for (at, rule) in rules.iter().enumerate() {
        found = earlier(found, check_name(&rules[..at], rule));
    }
    found
}

/// The rule that is one too many.
fn check_number(rules: &[Rule]) -> Option<Fault>
    ensures { result ≡ first (spec.too_many (slice_get rules.now spec.most_rules)) }
{
    match rules.get(MOST_RULES) {
        None => None,
        Some(rule) => Some(Fault {
            cause: Cause::TooManyRules,
            at: rule.at,
            reached: 33,
        }),
    }
}

/// The formulas.
fn check_bodies(
    alloc: Global,
    types: &TypeTable,
    rules: &[Rule],
) -> Result<Option<Fault>, OutOfMemory>
    ensures { IfOk result (λ found. found ≡ first (flat_map (λ rule. spec.formula_faults (used_dims types.now) [] rule.body) rules.now)) }
{
    let mut found = None;
    for rule in rules {
        found = earlier(found, check_formula(alloc, types, &rule.body)?);
    }
    Ok(found)
}

/// What is wrong with rules.
#[tactic(auto, using(xdg_names::proofs::First::first_append))]
fn check_all(alloc: Global, types: &TypeTable, rules: &[Rule]) -> Result<Option<Fault>, OutOfMemory>
    ensures { IfOk result (λ found. found ≡ first (spec.rules_faults types.now rules.now)) }
{
    let bodies = check_bodies(alloc, types, rules)?;
    Ok(earlier(check_number(rules), earlier(check_names(rules), bodies)))
}

/// Whether nothing is wrong with rules in a grammar of these types, or else the first fault: the one with the least place, and at one
/// place the one with the least number.
///
/// # Errors
///
/// - [`Cause::UnknownName`] (30) at a dimension that isn't used, an attribute or a feature that isn't there, or a node that isn't bound;
/// - [`Cause::Twice`] (31) at the name of a rule that a rule before has too, and at a name that is bound again inside its own scope;
/// - [`Cause::WrongKind`] (33) at a feature of a type without single values or members, and at a value that isn't of the form of its type;
/// - [`Cause::NotMember`] (34) at a label or a constant that isn't one of its dimension's or its type's;
/// - [`Cause::TooManyRules`] (70) at the word of the 33rd rule, and [`Cause::TooNested`] (71) at that of the fourth quantifier that
///   stands open, each with the number reached.
///
/// Or want of memory.
pub fn check_rules(alloc: Global, rules: &Rules, types: &TypeTable) -> Result<(), Stop>
    ensures tells { Tells types.now rules.now.rules result }
    ensures only { (answer : Result (Unit {0}) faults.Fault) → IsAnswer types.now rules.now.rules answer → Gives answer result }
{
    let found = match check_all(alloc, types, rules.rules.as_slice()) {
        Err(_) => return Err(Stop::OutOfMemory),
        Ok(found) => found,
    };
    match found {
        None => Ok(()),
        Some(fault) => Err(Stop::Fault(fault)),
    }
}
