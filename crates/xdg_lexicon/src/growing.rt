//! A packed lexicon to which entries are added, and its limits.

ghost use Rattle.std.specs.Prelude.{◌≡◌, ℕ, ◌<◌, ◌≤◌, [], length, MatchOption, IfOk, IfSome, ◌^◌};
ghost use Rattle.xdg_base.specs.Told.{answer_of};
ghost use Rattle.xdg_lexicon.specs.Partial.{IsPartial, ArePartial};
ghost use Rattle.xdg_types.specs.Table.{Table, IsTable};
ghost use Rattle.xdg_packed.specs.Entries.{IsWordPlace};
ghost use Rattle.xdg_lexicon.specs.Growing.{IsRightGrowing, IsFirstCrowded, count_at, entries_in};
ghost use Rattle.xdg_lexicon.specs.Steps.{AddsMember, AddsMembers, KeepsLimits};

use crate::entries::Partial;
use crate::filling::whole_entry;
use crate::limits::{MOST_ENTRIES, MOST_OF_WORD, passed};
use std::alloc::Global;
use xdg_base::{Cause, Stop};
use xdg_domain::Fields;
use xdg_packed::{Packed, Packing};
use xdg_types::TypeTable;

/// Different entries, packed in the order in which they were added.
#[derive(Debug, Drop)]
pub(crate) struct Growing {
    packing: Packing,
    // A number that no word has more entries than.
    most: usize,
}

impl Growing {
    /// Without entries. They will say their words at this place, of a dimension and of a field.
    pub(crate) fn new(alloc: Global, dim: usize, field: usize) -> Growing
        ensures right { (table : Table) → IsWordPlace table dim field → IsRightGrowing table result }
        ensures none { result.packing.entries ≡ [] }
    {
        Growing {
            packing: Packing::new(alloc, dim, field),
            most: 0,
        }
    }

    /// The packed lexicon.
    pub(crate) fn finish(self) -> Packed
        ensures { result ≡ self.packing }
    {
        self.packing.finish()
    }

    /// How many entries the first of the words has that have more than 1,024 of them, in the order of the entries, if there is
    /// one. The time is linear in the number of entries.
    fn first_crowded(&self) -> Option<usize>
        ensures fits { IfSome result (λ reached. reached < 2 ^ 64) }
        ensures first { MatchOption result
            ((n : ℕ) → n < length self.now.packing.entries → count_at self.now.packing n ≤ 1024)
            (IsFirstCrowded self.now.packing) }
    {
        for number in 0..self.packing.len() {
            let count = self.packing.count(self.packing.word(number));
            if count > MOST_OF_WORD {
                return Some(count);
            }
        }
        None
    }
}

/// Adds a member of a `defentry` whose word stands at that place, made whole, unless it stands there already. The fault is that it
/// leaves a plain feature unsaid.
fn add_member(
    alloc: Global,
    types: &TypeTable,
    member: &[Fields],
    at: u32,
    growing: Growing,
) -> Result<Growing, Stop>
    requires partial { IsPartial types.now.dims member.now }
    requires right { IsRightGrowing types.now growing }
    ensures right { IfOk result (IsRightGrowing types.now) }
    ensures adds { AddsMember types.now member.now at (entries_in growing) (answer_of entries_in result) }
{
    match whole_entry(alloc, types, member)? {
        None => Err(passed(Cause::MissingArg, at, 0)),
        Some(entry) => {
            let added = growing.packing.add(alloc, entry)?;
            Ok(Growing {
                packing: added.packing,
                most: growing.most.max(added.of_word),
            })
        }
    }
}

/// Adds the members of a `defentry` whose word stands at that place, each made whole, without those that stand there already.
/// The fault is that one leaves a plain feature unsaid.
pub(crate) fn add_members(
    alloc: Global,
    types: &TypeTable,
    members: &[Partial],
    at: u32,
    growing: Growing,
) -> Result<Growing, Stop>
    requires partial { ArePartial types.now.dims members.now }
    requires right { IsRightGrowing types.now growing }
    ensures right { IfOk result (IsRightGrowing types.now) }
    ensures adds { AddsMembers types.now members.now at (entries_in growing) (answer_of entries_in result) }
{
    let mut growing = growing;
    for member in members {
        growing = add_member(alloc, types, member.as_slice(), at, growing)?;
    }
    Ok(growing)
}

/// Whether the entries and those of each word are few enough, once those of the `defentry` whose word stands at that place are
/// added. The time is that of a few steps where they are.
pub(crate) fn limited(growing: &Growing, at: u32) -> Result<(), Stop>
    ensures { (table : Table) → IsTable table → IsRightGrowing table growing.now → KeepsLimits table (entries_in growing.now) at result }
{
    let count = growing.packing.len();
    if count > MOST_ENTRIES {
        return Err(passed(Cause::TooManyEntries, at, count as u64));
    }
    if growing.most <= MOST_OF_WORD {
        return Ok(());
    }
    match growing.first_crowded() {
        None => Ok(()),
        Some(reached) => Err(passed(Cause::TooManyEntries, at, reached as u64)),
    }
}
