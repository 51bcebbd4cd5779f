//! The branches of a problem.

ghost use Rattle.std.specs.Prelude.{◌≡◌, ◌<◌, ◌∷◌, ◌++◌, [], false, length, map, slice_index_or, IfOk, OnOk};
ghost use Rattle.xdg_problem.specs.Branches.{branch_formula, branch_of, branch_principle, first_alone, first_candidates, no_entry};
ghost use Rattle.xdg_problem.specs.Branches as spec;

use crate::copying::copy_words;
use crate::formula::Formula;
use crate::parts::{Feat, Group, Parts, Principle};
use crate::problem::Problem;
use crate::shared::SharedList;
use std::alloc::Global;
use xdg_base::{Boxed, EntryNo, List, OutOfMemory};

impl Problem {
    /// The problem in which the first node has the candidate at a place alone: a branch. It copies the words and the arguments of the
    /// principle uses, and shares all else. [`branch_laws`](crate::branch_laws) says what it keeps.
    ///
    /// # Errors
    ///
    /// Fails where memory runs out.
    pub fn branch(&self, alloc: Global, place: u16) -> Result<Problem, OutOfMemory>
        requires { place < length (first_candidates self.now) }
        ensures { IfOk result (λ branch. branch ≡ branch_of self.now place) }
    {
        let parts = branch_parts(alloc, self.parts(), place as usize)?;
        Ok(Problem::of(parts))
    }
}

/// The parts of a branch.
fn branch_parts(alloc: Global, parts: &Parts, place: usize) -> Result<Parts, OutOfMemory>
    ensures { IfOk result (λ made. made ≡ branch_of parts.now place) }
{
    Ok(Parts {
        words: copy_words(alloc, parts.words.as_slice())?,
        candidates: branch_candidates(alloc, parts.candidates.as_slice(), place)?,
        dims: parts.dims.share()?,
        groups: branch_groups(alloc, parts.groups.as_slice(), place)?,
    })
}

/// Lists of nodes, of which the first has one member, and the others are shared.
fn with_first<T: Drop>(
    alloc: Global,
    first: T,
    others: &[SharedList<T>],
) -> Result<List<SharedList<T>>, OutOfMemory>
    ensures { IfOk result (λ made. made ≡ (first ∷ []) ∷ others.now) }
{
    let mut alone = List::new(alloc);
    alone.push(first)?;
    let mut made = List::new(alloc);
    made.push(SharedList::of(alloc, alone)?)?;
    for other in others {
        made.push(other.share()?)?;
    }
    Ok(made)
}

/// The candidate at a place.
fn entry_at(candidates: &[EntryNo], place: usize) -> EntryNo
    ensures { result ≡ slice_index_or candidates.now place no_entry }
{
    match candidates.get(place) {
        Some(candidate) => *candidate,
        None => EntryNo(0),
    }
}

/// The candidates of the nodes, of which the first has the one at a place alone.
fn branch_candidates(
    alloc: Global,
    candidates: &[SharedList<EntryNo>],
    place: usize,
) -> Result<List<SharedList<EntryNo>>, OutOfMemory>
    ensures { IfOk result (λ made. made ≡ first_alone no_entry place candidates.now) }
{
    let Some((first, others)) = candidates.split_first() else {
        return Ok(List::new(alloc));
    };
    with_first(alloc, entry_at(first.as_slice(), place), others)
}

/// A copy of the features of a candidate, whose rows are shared.
fn share_features(alloc: Global, features: &[Feat]) -> Result<List<Feat>, OutOfMemory>
    ensures { IfOk result (λ made. made ≡ features.now) }
{
    let mut made = List::new(alloc);
    for feature in features {
        made.push(Feat {
            rows: feature.rows.share()?,
        })?;
    }
    Ok(made)
}

/// The features of the candidate at a place.
fn features_at(
    alloc: Global,
    features: &SharedList<List<Feat>>,
    place: usize,
) -> Result<List<Feat>, OutOfMemory>
    ensures { IfOk result (λ made. made ≡ slice_index_or features.now place []) }
{
    match features.get(place) {
        Some(own) => share_features(alloc, own.as_slice()),
        None => Ok(List::new(alloc)),
    }
}

/// The features of the nodes, of which the first has those of the candidate at a place alone.
fn branch_features(
    alloc: Global,
    feats: &[SharedList<List<Feat>>],
    place: usize,
) -> Result<List<SharedList<List<Feat>>>, OutOfMemory>
    ensures { IfOk result (λ made. made ≡ first_alone [] place feats.now) }
{
    let Some((first, others)) = feats.split_first() else {
        return Ok(List::new(alloc));
    };
    let features = features_at(alloc, first, place)?;
    with_first(alloc, features, others)
}

/// The truth value at a place.
fn says_at(row: &[bool], place: usize) -> bool
    ensures { result ≡ slice_index_or row.now place false }
{
    match row.get(place) {
        Some(says) => *says,
        None => false,
    }
}

/// A table of truth values, which has for the first node that of the candidate at a place alone.
fn branch_table(
    alloc: Global,
    table: &[List<bool>],
    place: usize,
) -> Result<List<List<bool>>, OutOfMemory>
    ensures { IfOk result (λ made. made ≡ first_alone false place table.now) }
{
    let Some((first, others)) = table.split_first() else {
        return Ok(List::new(alloc));
    };
    let mut made = List::new(alloc);
    made.push(List::from_slice(alloc, &[says_at(first.as_slice(), place)])?)?;
    for row in others {
        made.push(List::from_slice(alloc, row.as_slice())?)?;
    }
    Ok(made)
}

impl Formula {
    /// A copy whose tables say for the first node what they say for its candidate at a place.
    #[cycle(branch)]
    #[tactic(auto, using(crate::proofs::BranchTruths::cut_steps))]
    fn branch(&self, alloc: Global, place: usize) -> Result<Formula, OutOfMemory>
        ensures { IfOk result (λ made. made ≡ branch_formula place self.now) }
    {
        match self {
            Formula::Not(part) => {
                let made = part.get().branch(alloc, place)?;
                Ok(Formula::Not(Boxed::new(alloc, made)?))
            }
            Formula::And(parts) => {
                let mut made = List::new(alloc);
                add_branches(alloc, parts.as_slice(), place, &mut made)?;
                Ok(Formula::And(made))
            }
            Formula::Or(parts) => {
                let mut made = List::new(alloc);
                add_branches(alloc, parts.as_slice(), place, &mut made)?;
                Ok(Formula::Or(made))
            }
            Formula::Every(name, part) => {
                let made = part.get().branch(alloc, place)?;
                Ok(Formula::Every(*name, Boxed::new(alloc, made)?))
            }
            Formula::Any(name, part) => {
                let made = part.get().branch(alloc, place)?;
                Ok(Formula::Any(*name, Boxed::new(alloc, made)?))
            }
            Formula::Edge(dim, mother, label, daughter) => {
                Ok(Formula::Edge(*dim, *mother, *label, *daughter))
            }
            Formula::Above(dim, upper, lower) => Ok(Formula::Above(*dim, *upper, *lower)),
            Formula::Left(first, second) => Ok(Formula::Left(*first, *second)),
            Formula::Same(first, second) => Ok(Formula::Same(*first, *second)),
            Formula::Attr(name, dim, attr, value) => {
                Ok(Formula::Attr(*name, *dim, *attr, *value))
            }
            Formula::Feat(name, table) => {
                let made = branch_table(alloc, table.as_slice(), place)?;
                Ok(Formula::Feat(*name, made))
            }
        }
    }
}

/// Adds such copies of formulas.
#[cycle(branch)]
fn add_branches(
    alloc: Global,
    formulas: &[Formula],
    place: usize,
    made: &mut List<Formula>,
) -> Result<(), OutOfMemory>
    ensures { OnOk result (made.new ≡ made.old ++ map (branch_formula place) formulas.now) }
{
    for formula in formulas {
        made.push(formula.branch(alloc, place)?)?;
    }
    Ok(())
}

impl Principle {
    /// A copy, in which a rule has such a formula.
    fn branch(&self, alloc: Global, place: usize) -> Result<Principle, OutOfMemory>
        ensures { IfOk result (λ made. made ≡ branch_principle place self.now) }
    {
        match self {
            Principle::Rule(formula) => Ok(Principle::Rule(formula.branch(alloc, place)?)),
            other => other.copy(alloc),
        }
    }
}

/// A principle use with the features of the candidate at a place alone.
fn branch_group(alloc: Global, group: &Group, place: usize) -> Result<Group, OutOfMemory>
    ensures { IfOk result (λ made. made ≡ spec.branch_group place group.now) }
{
    Ok(Group {
        principle: group.principle.branch(alloc, place)?,
        dims: List::from_slice(alloc, group.dims.as_slice())?,
        attrs: List::from_slice(alloc, group.attrs.as_slice())?,
        order: List::from_slice(alloc, group.order.as_slice())?,
        truths: List::from_slice(alloc, group.truths.as_slice())?,
        feats: branch_features(alloc, group.feats.as_slice(), place)?,
    })
}

/// The principle uses, each so.
fn branch_groups(alloc: Global, groups: &[Group], place: usize) -> Result<List<Group>, OutOfMemory>
    ensures { IfOk result (λ made. made ≡ map (spec.branch_group place) groups.now) }
{
    let mut made = List::new(alloc);
    for group in groups {
        made.push(branch_group(alloc, group, place)?)?;
    }
    Ok(made)
}
