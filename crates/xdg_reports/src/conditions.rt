//! Conditions and their tuples as they are written.

ghost use Rattle.std.specs.Prelude.{◌≡◌};
ghost use Rattle.xdg_io.specs.Texts.{WritesText};
ghost use Rattle.xdg_reports.specs.VerdictsText as spec;

use crate::words::{write_constant_behind, write_number, write_word};
use xdg_base::Text;
use xdg_io::{Failed, Sink};
use xdg_problem::Condition;

/// The word of a condition.
fn condition_word(condition: Condition) -> &'static str
    ensures { result.now ≡ spec.condition_word condition }
{
    match condition {
        Condition::Cycle => "cycle",
        Condition::Roots => "roots",
        Condition::Mothers => "mothers",
        Condition::Pair => "pair",
        Condition::InCount => "in",
        Condition::OutCount => "out",
        Condition::Order => "order",
        Condition::Between => "between",
        Condition::Agr => "agr",
        Condition::Agree => "agree",
        Condition::Govern => "govern",
        Condition::Below => "below",
        Condition::Blocked => "blocked",
        Condition::Link => "link",
        Condition::Rule => "rule",
        Condition::Bound => "bound",
    }
}

/// Whether the condition is named: a rule and a bound have no other.
fn is_told(condition: Condition) -> bool
    ensures { result ≡ spec.is_told condition }
{
    match condition {
        Condition::Rule | Condition::Bound => false,
        _ => true,
    }
}

/// Whether the tuples of the condition are how many nodes have no mother.
fn counts(condition: Condition) -> bool
    ensures { result ≡ spec.counts condition }
{
    match condition {
        Condition::Roots => true,
        _ => false,
    }
}

/// Whether the second item of the condition's tuples is a label.
fn names_label(condition: Condition) -> bool
    ensures { result ≡ spec.names_label condition }
{
    match condition {
        Condition::InCount
        | Condition::OutCount
        | Condition::Agree
        | Condition::Govern
        | Condition::Link => true,
        _ => false,
    }
}

/// The label with that number.
fn label_at(labels: &[Text], number: u8) -> &str
    ensures { result.now ≡ spec.label_at labels.now number }
{
    match labels.get(usize::from(number)) {
        Some(label) => label.as_str(),
        None => "",
    }
}

/// Writes the item with that place in a tuple of the condition: nodes count from 1, a label of the first dimension stands
/// by its name, and a number of roots as it is.
fn write_item<K: Sink>(
    labels: &[Text],
    condition: Condition,
    place: usize,
    number: u8,
    sink: &mut K,
) -> Result<(), Failed>
    ensures { WritesText result (K.held sink.old) (K.held sink.new) (K.faults sink.old) (K.faults sink.new)
        (spec.behind (spec.item_text labels.now condition place number)) }
{
    if counts(condition) {
        return write_number(u64::from(number), sink);
    }
    if names_label(condition) && place == 1 {
        return write_constant_behind(label_at(labels, number), sink);
    }
    write_number(u64::from(number) + 1, sink)
}

/// Writes the items of a condition's tuple.
#[tactic(auto, using(xdg_io::proofs::Parts::start))]
fn write_items<K: Sink>(
    labels: &[Text],
    condition: Condition,
    numbers: &[u8],
    sink: &mut K,
) -> Result<(), Failed>
    ensures { WritesText result (K.held sink.old) (K.held sink.new) (K.faults sink.old) (K.faults sink.new)
        (spec.items_text labels.now condition 0 numbers.now) }
{
    for (place, number) in numbers.iter().enumerate() {
        write_item(labels, condition, place, *number, sink)?;
    }
    Ok(())
}

/// Writes a condition with its tuple, and nothing of a rule or a bound.
#[tactic(auto, using(xdg_io::proofs::Parts::writes_nothing))]
pub(crate) fn write_condition<K: Sink>(
    labels: &[Text],
    condition: Condition,
    numbers: &[u8],
    sink: &mut K,
) -> Result<(), Failed>
    ensures { WritesText result (K.held sink.old) (K.held sink.new) (K.faults sink.old) (K.faults sink.new)
        (spec.condition_text labels.now condition numbers.now) }
{
    if !is_told(condition) {
        return Ok(());
    }
    write_word(condition_word(condition), sink)?;
    write_items(labels, condition, numbers, sink)
}
