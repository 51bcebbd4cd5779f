//! The joins of lists of partial entries.

ghost use Rattle.std.specs.Prelude.{◌≡◌, ◌++◌, [], ◌∷◌, List, length, IfOk, OnOk};
ghost use Rattle.xdg_lexicon.specs.Denotes.{JoinsEach, JoinsAll};
ghost use Rattle.xdg_lexicon.specs.Partial as spec;
ghost use Rattle.xdg_lexicon.specs.Partial.{ArePartial};

use crate::entries::{Partial, join_partial};
use crate::moving::join_two;
use std::alloc::Global;
use xdg_base::OutOfMemory;
use xdg_domain::Fields;
use xdg_types::DimType;

fn add(made: &mut Vec<Partial>, partial: Partial) -> Result<(), OutOfMemory>
    ensures { OnOk result (made.new.items ≡ made.old.items ++ partial ∷ []) }
{
    made.push(partial)?;
    Ok(())
}

/// Adds the joins of one partial entry with each of a list, without those that clash.
fn join_each(
    alloc: Global,
    dims: &[DimType],
    one: &[Fields],
    others: &[Partial],
    made: &mut Vec<Partial>,
) -> Result<(), OutOfMemory>
    requires one { spec.IsPartial dims.now one.now }
    requires others { ArePartial dims.now others.now }
    ensures { OnOk result
        ((js : List spec.Partial) × ((made.new.items ≡ made.old.items ++ js) × (JoinsEach dims.now one.now others.now js × ArePartial dims.now js))) }
{
    for other in others {
        match join_partial(alloc, dims, one, other.as_slice())? {
            None => continue,
            Some(both) => add(made, both)?,
        }
    }
    Ok(())
}

/// The joins of each of the first list with each of the second, the first slowest, without those that clash. It takes no
/// memory beyond them.
fn join_lists(
    alloc: Global,
    dims: &[DimType],
    first: &[Partial],
    second: &[Partial],
) -> Result<Vec<Partial>, OutOfMemory>
    requires first { ArePartial dims.now first.now }
    requires second { ArePartial dims.now second.now }
    ensures joins { IfOk result (λ made. JoinsAll dims.now first.now second.now made.items) }
    ensures partial { IfOk result (λ made. ArePartial dims.now made.items) }
{
    let mut made = Vec::new(alloc);
    for one in first {
        join_each(alloc, dims, one.as_slice(), second, &mut made)?;
    }
    Ok(made)
}

/// The same of two lists of one partial entry each.
fn join_single(
    alloc: Global,
    dims: &[DimType],
    first: Vec<Partial>,
    second: Vec<Partial>,
) -> Result<Vec<Partial>, OutOfMemory>
    requires single { (length first.items ≡ 1) × (length second.items ≡ 1) }
    requires first { ArePartial dims.now first.items }
    requires second { ArePartial dims.now second.items }
    ensures joins { IfOk result (λ made. JoinsAll dims.now first.items second.items made.items) }
    ensures partial { IfOk result (λ made. ArePartial dims.now made.items) }
{
    let mut first = first;
    let mut second = second;
    let one = first.pop().unwrap();
    let other = second.pop().unwrap();
    match join_two(alloc, dims, one, other)? {
        None => Ok(first),
        Some(both) => {
            add(&mut first, both)?;
            Ok(first)
        }
    }
}

/// The joins of each of the first list with each of the second, the first slowest, without those that clash.
pub(crate) fn join_all(
    alloc: Global,
    dims: &[DimType],
    first: Vec<Partial>,
    second: Vec<Partial>,
) -> Result<Vec<Partial>, OutOfMemory>
    requires first { ArePartial dims.now first.items }
    requires second { ArePartial dims.now second.items }
    ensures joins { IfOk result (λ made. JoinsAll dims.now first.items second.items made.items) }
    ensures partial { IfOk result (λ made. ArePartial dims.now made.items) }
{
    if first.len() == 1 && second.len() == 1 {
        return join_single(alloc, dims, first, second);
    }
    join_lists(alloc, dims, first.as_slice(), second.as_slice())
}
