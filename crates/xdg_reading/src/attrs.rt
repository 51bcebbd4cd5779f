//! The lines of attributes.

ghost use Rattle.std.specs.Prelude.{◌≡◌, ◌<◌, ◌≤◌, length, map, IfSome, IfOk, All};
ghost use Rattle.xdg_reading.specs.Fitted.{said_value, said_values, Gives};
ghost use Rattle.xdg_reading.specs.Slots.{asked_by};

use crate::names::value_number;
use crate::refused::Refused;
use crate::slots::Slot;
use crate::texts::AttrLine;
use std::alloc::Global;
use xdg_base::List;

/// The number of the value that a line says an attribute has.
#[tactic(auto, using(crate::proofs::Turns::said_within), unfolding(crate::specs::Fitted::said_value))]
fn said_value(slot: &Slot, line: &AttrLine) -> Option<usize>
    ensures is { result ≡ said_value (asked_by slot.now) line.now }
    ensures within { IfSome result (λ value. value < length slot.now.attr.now.values) }
{
    if line.dim.as_str() == slot.dim.as_str()
        && line.node.0 as usize == slot.node
        && line.attr.as_str() == slot.attr.name.as_str()
    {
        value_number(slot.attr.values.as_slice(), &line.value)
    } else {
        None
    }
}

/// The numbers of the values that lines say, or the first line that offends.
pub(crate) fn said_values(
    alloc: Global,
    slots: &[Slot],
    lines: &[AttrLine],
    behind: u32,
) -> Result<List<u16>, Refused>
    requires { All (λ slot. length slot.attr.now.values ≤ 1024) slots.now }
    ensures { Gives (said_values behind (map asked_by slots.now) lines.now) result }
{
    let mut values = List::new(alloc);
    for (k, line) in lines.iter().enumerate() {
        if k >= slots.len() {
            return Err(Refused::At(line.at));
        }
        match said_value(&slots[k], line) {
            Some(value) => values.push(value as u16)?,
            None => return Err(Refused::At(line.at)),
        }
    }
    if lines.len() < slots.len() {
        return Err(Refused::At(behind));
    }
    Ok(values)
}
