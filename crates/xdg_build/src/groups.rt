//! Principle uses compiled.

ghost use Rattle.std.specs.Prelude.{◌≡◌, ◌<◌, true, length, map, filter, All, IfOk, OnOk};
ghost use Rattle.std.specs.List.{AllZip};
ghost use Rattle.xdg_packed.specs.Entries.{IsRightLexicon};
ghost use Rattle.xdg_build.specs.Grammars.{grammar_of, is_used};
ghost use Rattle.xdg_build.specs.Groups as spec;
ghost use Rattle.xdg_build.specs.Known.{AreRecords, IsKnownFor};
ghost use Rattle.xdg_build.specs.Suits.{Suits};
ghost use Rattle.xdg_principles.specs.Typed.{IsTypedUse};
ghost use Rattle.xdg_problem.specs.declared.parts.Parts.{Parts};
ghost use Rattle.xdg_problem.specs.Problems.{IsGroup};

use crate::arguments::{attrs, feature_places, labels, truths};
use crate::places::{dims_in, feature_place, is_used};
use crate::records::Records;
use crate::rows::all_features;
use indexmap::IndexMap;
use std::alloc::Global;
use xdg_base::{EntryNo, List, OutOfMemory};
use xdg_check::{Checked, PrincipleUse};
use xdg_packed::Packed;
use xdg_problem::{Feat, Group, SharedList};

/// The uses of principles in used dimensions, in the order of the text, over nodes that may have these entries. The features
/// of an entry are those of its expanded records, as numbers. A record is compiled once, and all entries that have it share what it
/// comes to. The error is want of memory.
pub fn compile_uses(
    alloc: Global,
    checked: &Checked,
    packed: &Packed,
    candidates: &[SharedList<EntryNo>],
    records: &mut Records,
) -> Result<List<Group>, OutOfMemory>
    requires lexicon { IsRightLexicon checked.now.types packed.now.entries }
    requires candidates { All (All (λ no. no.0 < length packed.now.entries)) candidates.now }
    requires records { AreRecords (grammar_of checked.now packed.now) records.old }
    ensures compiled { IfOk result (λ made. made ≡ spec.groups_of (grammar_of checked.now packed.now) candidates.now) }
    ensures groups { IfOk result (λ made. (parts : Parts) → Suits (grammar_of checked.now packed.now) candidates.now parts → All (IsGroup parts) made) }
    ensures records { OnOk result (AreRecords (grammar_of checked.now packed.now) records.new) }
{
    let uses = checked.principles();
    compile_all(alloc, checked, packed, candidates, uses, &mut records.kept)
}

/// Those of these uses that stand in used dimensions.
fn compile_all(
    alloc: Global,
    checked: &Checked,
    packed: &Packed,
    candidates: &[SharedList<EntryNo>],
    uses: &[PrincipleUse],
    kept: &mut [IndexMap<u32, List<Feat>>],
) -> Result<List<Group>, OutOfMemory>
    requires lexicon { IsRightLexicon checked.now.types packed.now.entries }
    requires candidates { All (All (λ no. no.0 < length packed.now.entries)) candidates.now }
    requires typed { All (IsTypedUse checked.now.types) uses.now }
    requires kept { AllZip (λ u known. IsKnownFor (grammar_of checked.now packed.now) u known.entries) uses.now kept.old }
    ensures groups { IfOk result
        (λ made. made ≡ map (spec.group_of (grammar_of checked.now packed.now) candidates.now) (filter (λ u. is_used checked.now.types u.home) uses.now)) }
    ensures kept { OnOk result (AllZip (λ u known. IsKnownFor (grammar_of checked.now packed.now) u known.entries) uses.now kept.new) }
{
    let used = checked.types().used();
    let mut made = List::new(alloc);
    for (place, one) in uses.iter().enumerate() {
        if !is_used(used, one.home) {
            continue;
        }
        let known = &mut kept[place];
        made.push(compile_use(alloc, checked, packed, candidates, one, known)?)?;
    }
    Ok(made)
}

/// A use in a used dimension.
fn compile_use(
    alloc: Global,
    checked: &Checked,
    packed: &Packed,
    candidates: &[SharedList<EntryNo>],
    one: &PrincipleUse,
    kept: &mut IndexMap<u32, List<Feat>>,
) -> Result<Group, OutOfMemory>
    requires lexicon { IsRightLexicon checked.now.types packed.now.entries }
    requires candidates { All (All (λ no. no.0 < length packed.now.entries)) candidates.now }
    requires typed { IsTypedUse checked.now.types one.now }
    requires used { is_used checked.now.types one.now.home ≡ true }
    requires kept { IsKnownFor (grammar_of checked.now packed.now) one.now kept.old.entries }
    ensures group { IfOk result (λ made. made ≡ spec.group_of (grammar_of checked.now packed.now) candidates.now one.now) }
    ensures kept { OnOk result (IsKnownFor (grammar_of checked.now packed.now) one.now kept.new.entries) }
{
    let used = checked.types().used();
    let dim = feature_place(used, &one.principle, one.dims.as_slice());
    let args = one.args.as_slice();
    let places = feature_places(alloc, args)?;
    let feats = all_features(alloc, packed, dim, places.as_slice(), candidates, kept)?;
    Ok(Group {
        principle: one.principle.copy(alloc)?,
        dims: dims_in(alloc, used, one.dims.as_slice())?,
        attrs: attrs(alloc, args)?,
        order: labels(alloc, args)?,
        truths: truths(alloc, args)?,
        feats,
    })
}
