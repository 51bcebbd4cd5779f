//! The commands of `clap`, one for each way in which words follow the name of a command.

ghost use Rattle.std.specs.Prelude.{◌≡◌, IfOk, codes, false};
ghost use Rattle.clap.specs.Walk.{rule_of};
ghost use Rattle.clap.specs.Simple.{app_of};
ghost use Rattle.xdg_command.specs.Syntax.{app_in, arranged, bare, corpused, costed, explained, flag_arg, one_file, operand_arg, parsed, resumed, value_arg};

use clap::builder::ValueParser;
use clap::{Arg, ArgAction, Command};
use std::alloc::Global;
use xdg_base::OutOfMemory;

/// A command that has no help and no version, and whose words are those after its name.
fn bare<'a>(alloc: Global) -> Command<'a>
    ensures { app_of result ≡ bare (codes "xdg") }
{
    Command::new(alloc, "xdg")
        .no_binary_name(true)
        .disable_help_flag(true)
        .disable_help_subcommand(true)
        .disable_version_flag(true)
}

/// An operand.
fn operand<'a>(alloc: Global, name: &'a str) -> Arg<'a>
    ensures rule { rule_of result ≡ operand_arg name.entry.now }
    ensures local { result.global ≡ false }
{
    Arg::new(alloc, name).action(ArgAction::Set)
}

/// An option that takes a value, which may not be empty.
fn option_with_value<'a>(alloc: Global, name: &'a str) -> Arg<'a>
    ensures rule { rule_of result ≡ value_arg name.entry.now }
    ensures local { result.global ≡ false }
{
    Arg::new(alloc, name)
        .long(name)
        .action(ArgAction::Set)
        .value_parser(ValueParser::NonEmptyString)
}

/// An option without value.
fn flag<'a>(alloc: Global, name: &'a str) -> Arg<'a>
    ensures rule { rule_of result ≡ flag_arg name.entry.now }
    ensures local { result.global ≡ false }
{
    Arg::new(alloc, name).long(name).action(ArgAction::SetTrue)
}

/// One operand, the grammar file.
pub(crate) fn one_file<'a>(alloc: Global) -> Result<Command<'a>, OutOfMemory>
    ensures { IfOk result (λ made. app_of made ≡ app_in one_file) }
{
    bare(alloc).arg(operand(alloc, "grammar"))
}

/// The grammar file, the file of an analysis, and the option of `explain`.
pub(crate) fn explain<'a>(alloc: Global) -> Result<Command<'a>, OutOfMemory>
    ensures { IfOk result (λ made. app_of made ≡ app_in explained) }
{
    bare(alloc)
        .arg(operand(alloc, "grammar"))?
        .arg(operand(alloc, "analysis"))?
        .arg(option_with_value(alloc, "rules"))
}

/// The grammar file and the options of `parse`.
pub(crate) fn parse<'a>(alloc: Global) -> Result<Command<'a>, OutOfMemory>
    ensures { IfOk result (λ made. app_of made ≡ app_in parsed) }
{
    bare(alloc)
        .arg(operand(alloc, "grammar"))?
        .arg(option_with_value(alloc, "budget"))?
        .arg(option_with_value(alloc, "first"))?
        .arg(option_with_value(alloc, "text"))?
        .arg(option_with_value(alloc, "rules"))?
        .arg(flag(alloc, "segment"))?
        .arg(flag(alloc, "split"))
}

/// The grammar file and the options of `corpus`.
pub(crate) fn corpus<'a>(alloc: Global) -> Result<Command<'a>, OutOfMemory>
    ensures { IfOk result (λ made. app_of made ≡ app_in corpused) }
{
    bare(alloc)
        .arg(operand(alloc, "grammar"))?
        .arg(option_with_value(alloc, "budget"))?
        .arg(option_with_value(alloc, "first"))?
        .arg(flag(alloc, "segment"))
}

/// The grammar file and the options of `arrange`.
pub(crate) fn arrange<'a>(alloc: Global) -> Result<Command<'a>, OutOfMemory>
    ensures { IfOk result (λ made. app_of made ≡ app_in arranged) }
{
    bare(alloc)
        .arg(operand(alloc, "grammar"))?
        .arg(option_with_value(alloc, "budget"))?
        .arg(flag(alloc, "segment"))
}

/// The grammar file, the costs file, and the options of `best`.
pub(crate) fn best<'a>(alloc: Global) -> Result<Command<'a>, OutOfMemory>
    ensures { IfOk result (λ made. app_of made ≡ app_in costed) }
{
    bare(alloc)
        .arg(operand(alloc, "grammar"))?
        .arg(operand(alloc, "costs"))?
        .arg(option_with_value(alloc, "budget"))?
        .arg(flag(alloc, "segment"))
}

/// The grammar file, the file of an analysis, and the options of `resume`.
pub(crate) fn resume<'a>(alloc: Global) -> Result<Command<'a>, OutOfMemory>
    ensures { IfOk result (λ made. app_of made ≡ app_in resumed) }
{
    bare(alloc)
        .arg(operand(alloc, "grammar"))?
        .arg(operand(alloc, "analysis"))?
        .arg(option_with_value(alloc, "budget"))?
        .arg(option_with_value(alloc, "first"))?
        .arg(option_with_value(alloc, "text"))?
        .arg(option_with_value(alloc, "rules"))
}
