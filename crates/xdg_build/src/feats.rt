//! For which candidates an atom about a feature is true.

ghost use Rattle.std.specs.Prelude.{◌≡◌, ℕ, ◌<◌, [], length, map, get_or, All, IfOk};
ghost use Rattle.xdg_base.specs.declared.ids.EntryNo.{EntryNo};
ghost use Rattle.xdg_domain.specs.Valencies.{said_at};
ghost use Rattle.xdg_domain.specs.declared.values.Value.{out-Value};
ghost use Rattle.xdg_packed.specs.Lexicon.{Entry};
ghost use Rattle.xdg_build.specs.Tables as spec;

use std::alloc::Global;
use xdg_base::{EntryNo, List, OutOfMemory};
use xdg_domain::Value;
use xdg_packed::Packed;
use xdg_problem::SharedList;

/// Whether a value is the one with that number, or a set that has it.
fn is_or_has(value: &Value, number: u16) -> bool
    ensures { result ≡ spec.is_or_has (out-Value value.now) number }
{
    match value {
        Value::Const(own) => u16::from(*own) == number,
        Value::Tuple(own) => *own == number,
        Value::Set(set) => set.contains(number),
        _ => false,
    }
}

/// Whether a record says so of the feature with that place.
fn says(fields: &[(u32, Value)], place: usize, number: u16) -> bool
    ensures { result ≡ spec.says_in (said_at fields.now place) number }
{
    for said in fields {
        if said.0 as usize == place {
            return is_or_has(&said.1, number);
        }
    }
    false
}

/// What each of a node's candidates says.
fn row(
    alloc: Global,
    packed: &Packed,
    candidates: &[EntryNo],
    dim: usize,
    place: usize,
    number: u16,
) -> Result<List<bool>, OutOfMemory>
    requires entries { All (λ no. no.0 < length packed.now.entries) candidates.now }
    requires dim { (no : ℕ) → no < length packed.now.entries → dim < length (get_or packed.now.entries no []) }
    ensures { IfOk result (λ made. made ≡ map (spec.entry_says packed.now.entries dim place number) candidates.now) }
{
    let mut made = List::new(alloc);
    for no in candidates {
        let fields = packed.entry(*no).fields(dim).as_slice();
        made.push(says(fields, place, number))?;
    }
    Ok(made)
}

/// The table of an atom: for each node, and in it for each candidate, whether its entry has the value with that number for the feature,
/// by the places of its dimension among the used ones and of the feature in it. The time is linear in the number of candidates.
pub(crate) fn feat_table(
    alloc: Global,
    packed: &Packed,
    candidates: &[SharedList<EntryNo>],
    dim: usize,
    place: usize,
    number: u16,
) -> Result<List<List<bool>>, OutOfMemory>
    requires entries { All (All (λ (no : EntryNo). no.0 < length packed.now.entries)) candidates.now }
    requires dim { (no : ℕ) → no < length packed.now.entries → dim < length (get_or packed.now.entries no []) }
    ensures { IfOk result (λ made. made ≡ spec.table_of packed.now.entries candidates.now dim place number) }
{
    let mut made = List::new(alloc);
    for node in candidates {
        made.push(row(alloc, packed, node.as_slice(), dim, place, number)?)?;
    }
    Ok(made)
}
