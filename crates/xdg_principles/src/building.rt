//! The uses of principles with what they name, by number.

ghost use Rattle.std.specs.Prelude.{◌≡◌, ◌≤◌, ◌++◌, List, length, map, IfOk};
ghost use Rattle.xdg_types.specs.Parts.{Statement};
ghost use Rattle.xdg_types.specs.Table.{IsTable};
ghost use Rattle.xdg_principles.specs.Lent.{Knows, IsReady, as_setting};
ghost use Rattle.xdg_principles.specs.Made as spec;
ghost use Rattle.xdg_problem.specs.Forms.{parameters};
ghost use Rattle.xdg_facts.specs.Onward.{optional};
ghost use Rattle.xdg_principles.specs.Settings.{constant_in};
ghost use Rattle.xdg_principles.specs.Typed.{AreTypedUses};
ghost use Rattle.xdg_principles.specs.Uses.{seen, told as told_use};

use crate::lookup::{Lookup, index_names};
use crate::settings::SettingRef;
use crate::using::{FoundUse, Uses};
use std::alloc::Global;
use xdg_ast::Name;
use xdg_base::{List, OutOfMemory, Text};
use xdg_problem::{Dims, Parameter, Principle, Sort, Wanted, Which, form_of};
use xdg_types::{DimType, TypeTable, label_number};

/// A use of a principle, with its dimensions and arguments by number, in the order of the table of principles.
#[derive(Debug, Drop)]
pub struct PrincipleUse {
    /// The principle: one that grammar texts can use.
    pub principle: Principle,
    /// The place of the dimension in which it stands, among all dimensions, from 0.
    pub home: usize,
    /// The places of its dimensions among all, from 0: one to three.
    pub dims: List<usize>,
    /// Its arguments, with the defaults of those that are left out: at most three.
    pub args: List<Arg>,
    /// The byte place of the principle's name in the text.
    pub at: u32,
}

/// An argument of a principle.
#[derive(Debug, Drop)]
pub enum Arg {
    /// The place of a feature among those of its dimension, from 0.
    Feature(usize),
    /// The place of an attribute among those of its dimension, from 0.
    Attr(usize),
    /// The numbers of labels of its dimension, from 0: all different.
    Labels(List<u8>),
    /// `true` or `false`.
    Truth(bool),
}

/// The uses of principles in all dimensions, used or not, in the order of the text, in a grammar whose uses of principles
/// have no fault. The table is that of the grammar's types. Each argument is of the type that its principle wants.
///
/// # Errors
///
/// Want of memory.
pub fn uses(
    alloc: Global,
    uses: &Uses<'_>,
    table: &TypeTable,
) -> Result<List<PrincipleUse>, OutOfMemory>
    ensures meant { (statements : List Statement) → spec.AreRightUses statements table.now uses.now
        → IfOk result (λ made. spec.ArePrincipleUses statements table.now made) }
    ensures typed { (statements : List Statement) → spec.AreRightUses statements table.now uses.now → IfOk result (AreTypedUses table.now) }
{
    built_uses(alloc, uses, table)
}

fn built_uses(
    alloc: Global,
    uses: &Uses<'_>,
    table: &TypeTable,
) -> Result<List<PrincipleUse>, OutOfMemory>
    ensures same { IfOk result (λ made. made ≡ map (spec.built_found table.now.dims) (map told_use uses.now.found)) }
    ensures keeps { IfOk result (λ _. IsTable table.now) }
{
    let lookup = index_names(alloc, table)?;
    build_all(alloc, &lookup, table.dims(), uses.found.as_slice())
}

fn build_all<'a>(
    alloc: Global,
    lookup: &'a Lookup,
    dims: &'a [DimType],
    uses: &[FoundUse<'a>],
) -> Result<List<PrincipleUse>, OutOfMemory>
    requires { Knows dims.now lookup.now }
    ensures { IfOk result (λ made. made ≡ map (spec.built_found dims.now) (map told_use uses.now)) }
{
    let mut made = List::new(alloc);
    for one in uses {
        made.push(build(alloc, lookup, dims, one)?)?;
    }
    Ok(made)
}

/// One use, and where no principle has its name a use of graph on no dimension.
fn build<'a>(
    alloc: Global,
    lookup: &'a Lookup,
    dims: &'a [DimType],
    one: &FoundUse<'a>,
) -> Result<PrincipleUse, OutOfMemory>
    requires { Knows dims.now lookup.now }
    ensures { IfOk result (λ made. made ≡ spec.built_with dims.now (seen one.now.written) one.now.principle) }
{
    let home = lookup
        .dims
        .find(one.written.within.text.as_str())
        .unwrap_or(0);
    let at = one.written.name.span.start;
    match &one.principle {
        None => Ok(PrincipleUse {
            principle: Principle::Graph,
            home,
            dims: List::new(alloc),
            args: List::new(alloc),
            at,
        }),
        Some(principle) => {
            let setting = SettingRef {
                lookup,
                dims,
                one: one.written,
                form: form_of(principle),
            };
            Ok(PrincipleUse {
                principle: principle.copy(alloc)?,
                home,
                dims: places(alloc, &setting)?,
                args: args(alloc, &setting)?,
                at,
            })
        }
    }
}

/// The places of the dimensions.
fn places<'a>(alloc: Global, setting: &SettingRef<'a>) -> Result<List<usize>, OutOfMemory>
    requires { IsReady setting.now }
    ensures { IfOk result (λ made. made ≡ spec.places (as_setting setting.now)) }
{
    let first = setting.place(Which::First).unwrap_or(0);
    let second = setting.place(Which::Second).unwrap_or(0);
    let third = setting.place(Which::Third).unwrap_or(0);
    match setting.form.dims {
        Dims::One => List::from_slice(alloc, &[first]),
        Dims::Two => List::from_slice(alloc, &[first, second]),
        Dims::Three => List::from_slice(alloc, &[first, second, third]),
    }
}

/// The arguments.
#[tactic(auto, using(crate::proofs::Forms::all_args))]
fn args<'a>(alloc: Global, setting: &SettingRef<'a>) -> Result<List<Arg>, OutOfMemory>
    requires { IsReady setting.now }
    ensures { IfOk result (λ made. made ≡ spec.args (as_setting setting.now) (parameters setting.now.form)) }
{
    let mut made = List::new(alloc);
    add_arg(alloc, setting, setting.form.first, &mut made)?;
    add_arg(alloc, setting, setting.form.second, &mut made)?;
    add_arg(alloc, setting, setting.form.third, &mut made)?;
    Ok(made)
}

/// Adds an argument, if the principle has it.
#[tactic(auto, using(crate::proofs::Forms::no_arg))]
fn add_arg<'a>(
    alloc: Global,
    setting: &SettingRef<'a>,
    parameter: Option<Parameter>,
    made: &mut List<Arg>,
) -> Result<(), OutOfMemory>
    requires { IsReady setting.now }
    ensures { IfOk result (λ _. made.new ≡ made.old ++ spec.args (as_setting setting.now) (optional parameter)) }
{
    match parameter {
        None => Ok(()),
        Some(parameter) => made.push(make_arg(alloc, setting, parameter, parameter.wanted)?),
    }
}

/// An argument, given or by default.
fn make_arg<'a>(
    alloc: Global,
    setting: &SettingRef<'a>,
    parameter: Parameter,
    wanted: Wanted,
) -> Result<Arg, OutOfMemory>
    requires { IsReady setting.now }
    ensures { IfOk result (λ made. made ≡ spec.arg (as_setting setting.now) parameter wanted) }
{
    match wanted {
        Wanted::Member(sort, which, _) => match sort {
            Sort::Feature => Ok(Arg::Feature(member(setting, parameter, sort, which))),
            Sort::Attribute => Ok(Arg::Attr(member(setting, parameter, sort, which))),
        },
        Wanted::Labels(which) => {
            let names = setting.listed(parameter);
            let made = label_numbers(alloc, setting.labels(which), names)?;
            Ok(Arg::Labels(made))
        }
        Wanted::Truth => Ok(Arg::Truth(truth(setting, parameter))),
    }
}

/// The place of the feature or the attribute that the argument names.
fn member<'a>(setting: &SettingRef<'a>, parameter: Parameter, sort: Sort, which: Which) -> usize
    requires { IsReady setting.now }
    ensures { result ≡ spec.member_number (as_setting setting.now) parameter sort which }
{
    match setting.called(parameter) {
        None => 0,
        Some(called) => setting.member_place(sort, which, called.text).unwrap_or(0),
    }
}

/// The numbers of these labels.
fn label_numbers(alloc: Global, labels: &[Text], names: &[Name]) -> Result<List<u8>, OutOfMemory>
    requires { length labels.now ≤ 32 }
    ensures { IfOk result (λ made. made ≡ map (spec.label_number labels.now) names.now) }
{
    let mut made = List::new(alloc);
    for name in names {
        made.push(label_number(labels, name))?;
    }
    Ok(made)
}

/// The truth value that is given, or else `false`.
fn truth<'a>(setting: &SettingRef<'a>, parameter: Parameter) -> bool
    ensures { result ≡ spec.truth_of (constant_in (as_setting setting.now) parameter) }
{
    match setting.constant(parameter) {
        None => false,
        Some(name) => name.text.as_str() == "true",
    }
}
