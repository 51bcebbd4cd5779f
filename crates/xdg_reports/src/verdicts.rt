//! The lines of verdicts.

ghost use Rattle.std.specs.Prelude.{◌≡◌, ◌≤◌, ◌<◌, ◌+◌, ◌-◌, ◌^◌, length, slice_get};
ghost use Rattle.std.specs.List.{flat_map};
ghost use Rattle.xdg_io.specs.Texts.{WritesText};
ghost use Rattle.xdg_problem.specs.declared.analysis.Analysis.{Analysis};
ghost use Rattle.xdg_judge.specs.Verdicts.{AreVerdicts, tuple_of};
ghost use Rattle.xdg_reports.specs.OneText.{IsOneText};
ghost use Rattle.xdg_reports.specs.VerdictsText as spec;

use crate::conditions::write_condition;
use crate::words::{write_constant_behind, write_first, write_word};
use xdg_base::{DimId, List, Text};
use xdg_formula::Rule;
use xdg_io::{Failed, Sink, write_all};
use xdg_judge::{Tuple4, Verdict};
use xdg_problem::{Group, Parts, Problem, principle_name};
use xdg_text::{Word, write_line};

/// The name of a dimension.
fn dim_name(parts: &Parts, dim: DimId) -> &str
    ensures { result.now ≡ spec.name_at parts.now dim.0 }
{
    match parts.dims.get(usize::from(dim.0)) {
        Some(plan) => plan.name.as_str(),
        None => "",
    }
}

/// The labels of the first dimension of a principle use.
fn labels_of<'a>(parts: &'a Parts, group: &Group) -> &'a [Text]
    ensures { result.now ≡ spec.labels_of parts.now group.now }
{
    match group.dims.get(0) {
        Some(dim) => labels_at(parts, dim.0),
        None => labels_at(parts, 0),
    }
}

/// The labels of a dimension.
fn labels_at(parts: &Parts, dim: u8) -> &[Text]
    ensures { result.now ≡ spec.labels_at parts.now dim }
{
    match parts.dims.get(usize::from(dim)) {
        Some(plan) => plan.labels.as_slice(),
        None => &[],
    }
}

/// Writes the names of the dimensions of a principle use.
#[tactic(auto, using(xdg_io::proofs::Parts::loop_steps))]
fn write_dims<K: Sink>(parts: &Parts, dims: &[DimId], sink: &mut K) -> Result<(), Failed>
    ensures { WritesText result (K.held sink.old) (K.held sink.new) (K.faults sink.old) (K.faults sink.new) (flat_map (spec.dim_text parts.now) dims.now) }
{
    for dim in dims {
        write_constant_behind(dim_name(parts, *dim), sink)?;
    }
    Ok(())
}

/// The numbers of a tuple.
fn numbers_of(tuple: &Tuple4) -> &[u8]
    ensures numbers { result.now ≡ tuple_of tuple.now }
    ensures few { length result.now ≤ 4 }
{
    let count = usize::from(tuple.len);
    if count < 4 {
        return &tuple.items[..count];
    }
    &tuple.items
}

/// Writes `kept`, or `broken` with the condition and its tuple.
pub(crate) fn write_said<K: Sink>(
    labels: &[Text],
    verdict: &Verdict,
    sink: &mut K,
) -> Result<(), Failed>
    ensures { WritesText result (K.held sink.old) (K.held sink.new) (K.faults sink.old) (K.faults sink.new) (spec.said_text labels.now verdict.now) }
{
    match verdict {
        Verdict::Kept => write_word("kept", sink),
        Verdict::Broken { condition, tuple } => {
            write_word("broken", sink)?;
            write_condition(labels, *condition, numbers_of(tuple), sink)
        }
    }
}

/// The name of the rule at a place.
fn rule_name(rules: &List<Rule>, place: usize) -> &str
    ensures { result.now ≡ spec.name_in (slice_get rules.now place) }
{
    match rules.get(place) {
        Some(rule) => rule.name.text.as_str(),
        None => "",
    }
}

/// Writes what stands behind the principle of the use at a place: its dimensions, or its name where it is a rule, before which stand so
/// many uses of the grammar's own.
fn write_title<K: Sink>(
    parts: &Parts,
    own: usize,
    rules: &List<Rule>,
    place: usize,
    group: &Group,
    sink: &mut K,
) -> Result<(), Failed>
    ensures { WritesText result (K.held sink.old) (K.held sink.new) (K.faults sink.old) (K.faults sink.new)
        (spec.title_text parts.now own rules.now place group.now) }
{
    if place < own {
        return write_dims(parts, group.dims.as_slice(), sink);
    }
    write_constant_behind(rule_name(rules, place - own), sink)
}

/// Writes the line of the use at a place with its verdict.
fn write_verdict<K: Sink>(
    parts: &Parts,
    own: usize,
    rules: &List<Rule>,
    place: usize,
    group: &Group,
    verdict: &Verdict,
    sink: &mut K,
) -> Result<(), Failed>
    requires { place + 1 < 2 ^ 64 }
    ensures { WritesText result (K.held sink.old) (K.held sink.new) (K.faults sink.old) (K.faults sink.new)
        (spec.verdict_line parts.now own rules.now place group.now verdict.now) }
{
    write_first(place as u64 + 1, sink)?;
    write_word(principle_name(&group.principle), sink)?;
    write_title(parts, own, rules, place, group, sink)?;
    write_said(labels_of(parts, group), verdict, sink)?;
    write_all(sink, b"\n")
}

/// Writes the lines of uses with their verdicts, numbered from 1, the last of which are these rules.
#[tactic(auto, using(xdg_io::proofs::Parts::start))]
fn write_verdict_lines<K: Sink>(
    parts: &Parts,
    own: usize,
    rules: &List<Rule>,
    groups: &[Group],
    verdicts: &[Verdict],
    sink: &mut K,
) -> Result<(), Failed>
    requires { length groups.now ≡ length verdicts.now }
    ensures { WritesText result (K.held sink.old) (K.held sink.new) (K.faults sink.old) (K.faults sink.new)
        (spec.verdict_lines parts.now own rules.now 0 groups.now verdicts.now) }
{
    for (place, group) in groups.iter().enumerate() {
        write_verdict(parts, own, rules, place, group, &verdicts[place], sink)?;
    }
    Ok(())
}

/// Whether no verdict tells of a broken condition.
fn are_kept(verdicts: &[Verdict]) -> bool
    ensures { result ≡ spec.are_kept verdicts.now }
{
    for verdict in verdicts {
        match verdict {
            Verdict::Kept => {}
            Verdict::Broken { .. } => return false,
        }
    }
    true
}

/// Writes the last line.
pub(crate) fn write_last<K: Sink>(kept: bool, sink: &mut K) -> Result<(), Failed>
    ensures { WritesText result (K.held sink.old) (K.held sink.new) (K.faults sink.old) (K.faults sink.new) (spec.solution_line kept) }
{
    if kept {
        return write_line("solution", &[], sink);
    }
    write_line("not", &[Word::Plain("a"), Word::Plain("solution")], sink)
}

/// Writes what is printed of the verdicts on an analysis: for each principle use a line with its number from 1, its
/// principle, its dimensions, and `kept`, or `broken` with the condition and its least tuple; of the rules, which are the last uses, the
/// name in place of dimensions, and no condition; at last `solution`, or `not a solution`. Nodes count from 1, and labels stand
/// by their names. It takes no memory.
/// Whatever verdicts on the analysis are right, the text is the same.
///
/// # Errors
///
/// A fault of the sink; then a front of the text was written.
#[tactic(auto, using(crate::proofs::One::one_text))]
pub fn write_verdicts<K: Sink>(
    problem: &Problem,
    rules: &List<Rule>,
    verdicts: &[Verdict],
    sink: &mut K,
) -> Result<(), Failed>
    requires rules { length rules.now ≤ length problem.now.groups }
    requires verdicts { (analysis : Analysis) × AreVerdicts problem.now analysis problem.now.groups verdicts.now }
    ensures written { WritesText result (K.held sink.old) (K.held sink.new) (K.faults sink.old) (K.faults sink.new)
        (spec.verdicts_text problem.now rules.now verdicts.now) }
    ensures one { IsOneText problem.now rules.now }
{
    let _parts = problem.parts();
    write_all_verdicts(problem, rules, verdicts, sink)
}

/// How many uses stand before the rules.
fn own_count(parts: &Parts, rules: &List<Rule>) -> usize
    requires { length rules.now ≤ length parts.now.groups }
    ensures { result ≡ length parts.now.groups - length rules.now }
{
    parts.groups.len() - rules.len()
}

/// Writes the lines of the principle uses, and the last line.
fn write_all_verdicts<K: Sink>(
    problem: &Problem,
    rules: &List<Rule>,
    verdicts: &[Verdict],
    sink: &mut K,
) -> Result<(), Failed>
    requires rules { length rules.now ≤ length problem.now.groups }
    requires verdicts { (analysis : Analysis) × AreVerdicts problem.now analysis problem.now.groups verdicts.now }
    ensures { WritesText result (K.held sink.old) (K.held sink.new) (K.faults sink.old) (K.faults sink.new)
        (spec.verdicts_text problem.now rules.now verdicts.now) }
{
    let parts = problem.parts();
    let own = own_count(parts, rules);
    write_verdict_lines(parts, own, rules, parts.groups.as_slice(), verdicts, sink)?;
    write_last(are_kept(verdicts), sink)
}
