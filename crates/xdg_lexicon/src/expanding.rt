//! Expansion, `defentry` by `defentry`.

ghost use Rattle.std.specs.Prelude.{◌≡◌, ◌≤◌, List, Result, IfOk};
ghost use Rattle.xdg_base.specs.Told.{Gives, answer_of};
ghost use Rattle.xdg_base.specs.declared.faults.Fault as faults;
ghost use Rattle.xdg_check.specs.Checked.{IsChecked};
ghost use Rattle.xdg_facts.specs.Membership.{In};
ghost use Rattle.xdg_packed.specs.Entries.{IsRightLexicon};
ghost use Rattle.xdg_packed.specs.Lexicon as spec;
ghost use Rattle.xdg_lexicon.specs.Answers.{IsAnswer, Tells, IsPlaced, entries_of};
ghost use Rattle.xdg_lexicon.specs.Growing.{IsRightGrowing, entries_in};
ghost use Rattle.xdg_lexicon.specs.Lexicon.{SoFar};
ghost use Rattle.xdg_lexicon.specs.Expanding.{IsRight, so_far};
ghost use Rattle.xdg_lexicon.specs.Sources.{source_of};
ghost use Rattle.xdg_lexicon.specs.Steps.{CountsOne, AddsOne, ExpandsOne};
ghost use Rattle.xdg_check.specs.Only.{placed_body};

use crate::denoting::members;
use crate::growing::{Growing, add_members, limited};
use crate::limits::sum_within;
use std::alloc::Global;
use xdg_base::{Cause, List, Stop};
use xdg_check::{Checked, EntryDef, combos_of, uses_of};
use xdg_domain::Entry;
use xdg_packed::Packed;

/// What the `defentry` statements so far came to.
#[derive(Debug, Drop)]
struct Expanding {
    // Their uses of classes.
    uses: u64,
    // Their combinations.
    combos: u64,
    growing: Growing,
}

/// The expanded lexicon of a checked grammar, packed: the different members of its `defentry` statements in the order of the text,
/// each with a record for each used dimension and with all defaults (Debusmann 2006, chapter 2, on lexical entries). The faults are
/// that the uses of classes pass their limit, that the combinations do, that a member leaves a plain feature of a used dimension
/// unsaid, that the entries pass their limit, or that those of one word do: the first of these in the first `defentry` with one.
/// The members of a `defentry` are made only once its combinations are known to be within the limits. The time goes with the
/// combinations, the parts that each of them joins and what it says, up to the look-up of texts.
///
/// # Errors
///
/// The first fault, or want of memory.
pub fn lexicon(alloc: Global, checked: &Checked) -> Result<Packed, Stop>
    ensures tells { Tells (source_of checked.now) (entries_of result) }
    ensures only { (answer : Result (List spec.Entry) faults.Fault) → IsAnswer (source_of checked.now) answer → Gives answer (entries_of result) }
    ensures right { IfOk result (λ packed. IsRightLexicon checked.now.types packed.entries) }
    ensures place { IfOk result (IsPlaced checked.now.types) }
{
    let (dim, field) = checked.word_place();
    let mut expanding = Expanding {
        uses: 0,
        combos: 0,
        growing: Growing::new(alloc, dim, field),
    };
    let entries = checked.entries();
    for def in entries {
        expanding = expand_one(alloc, checked, def, expanding)?;
    }
    Ok(expanding.growing.finish())
}

/// The entries of the [`lexicon`] in a list, each whole, as tests look at them.
///
/// # Errors
///
/// The first fault, or want of memory.
pub fn expand(alloc: Global, checked: &Checked) -> Result<List<Entry>, Stop>
    ensures tells { Tells (source_of checked.now) result }
    ensures only { (answer : Result (List spec.Entry) faults.Fault) → IsAnswer (source_of checked.now) answer → Gives answer result }
    ensures right { IfOk result (IsRightLexicon checked.now.types) }
{
    let packed = lexicon(alloc, checked)?;
    Ok(packed.entries(alloc)?)
}

/// Expands one `defentry` behind those so far.
fn expand_one(
    alloc: Global,
    checked: &Checked,
    def: &EntryDef,
    expanding: Expanding,
) -> Result<Expanding, Stop>
    requires checked { IsChecked checked.now }
    requires entry { In checked.now.entries def.now }
    requires right { IsRight checked.now.types expanding }
    ensures right { IfOk result (IsRight checked.now.types) }
    ensures expands { ExpandsOne (source_of checked.now) (so_far expanding) (placed_body def.now) (answer_of so_far result) }
{
    let (uses, combos) = count_one(checked, def, expanding.uses, expanding.combos)?;
    let growing = add_one(alloc, checked, def, expanding.growing)?;
    Ok(Expanding {
        uses,
        combos,
        growing,
    })
}

/// The sums of the uses of classes and of the combinations with those of one `defentry`.
fn count_one(checked: &Checked, def: &EntryDef, uses: u64, combos: u64) -> Result<(u64, u64), Stop>
    requires checked { IsChecked checked.now }
    requires few_uses { uses ≤ 1048576 }
    requires few_combos { combos ≤ 1048576 }
    ensures { (before : SoFar) → before.uses ≡ uses → before.combos ≡ combos → CountsOne (source_of checked.now) before (placed_body def.now) result }
{
    let here = uses_of(checked, &def.body);
    let uses = sum_within(Cause::TooManyUses, def.at, uses, here)?;
    let here = combos_of(checked, &def.body);
    let combos = sum_within(Cause::TooManyEntries, def.at, combos, here)?;
    Ok((uses, combos))
}

/// Adds the members of one `defentry`.
fn add_one(
    alloc: Global,
    checked: &Checked,
    def: &EntryDef,
    growing: Growing,
) -> Result<Growing, Stop>
    requires checked { IsChecked checked.now }
    requires entry { In checked.now.entries def.now }
    requires right { IsRightGrowing checked.now.types growing }
    ensures right { IfOk result (IsRightGrowing checked.now.types) }
    ensures adds { (before : SoFar) → before.entries ≡ entries_in growing
        → AddsOne (source_of checked.now) before (placed_body def.now) (answer_of entries_in result) }
{
    let partials = members(alloc, checked, &def.body)?;
    let growing = add_members(alloc, checked.types(), partials.as_slice(), def.at, growing)?;
    limited(&growing, def.at)?;
    Ok(growing)
}
