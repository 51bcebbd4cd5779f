//! Copies of formulas, principles and problems.

ghost use Rattle.std.specs.Prelude.{◌≡◌, ◌++◌, IfOk, OnOk};

use crate::formula::Formula;
use crate::parts::{Group, Parts, Principle, SentenceWord};
use crate::shared::SharedList;
use std::alloc::Global;
use xdg_base::{Boxed, List, OutOfMemory};

impl Formula {
    /// A copy.
    #[cycle(copy)]
    pub fn copy(&self, alloc: Global) -> Result<Formula, OutOfMemory>
        ensures { IfOk result (λ made. made ≡ self.now) }
    {
        match self {
            Formula::Not(part) => {
                let made = part.get().copy(alloc)?;
                Ok(Formula::Not(Boxed::new(alloc, made)?))
            }
            Formula::And(parts) => {
                let mut made = List::new(alloc);
                add_formulas(alloc, parts.as_slice(), &mut made)?;
                Ok(Formula::And(made))
            }
            Formula::Or(parts) => {
                let mut made = List::new(alloc);
                add_formulas(alloc, parts.as_slice(), &mut made)?;
                Ok(Formula::Or(made))
            }
            Formula::Every(name, part) => {
                let made = part.get().copy(alloc)?;
                Ok(Formula::Every(*name, Boxed::new(alloc, made)?))
            }
            Formula::Any(name, part) => {
                let made = part.get().copy(alloc)?;
                Ok(Formula::Any(*name, Boxed::new(alloc, made)?))
            }
            Formula::Edge(dim, mother, label, daughter) => {
                Ok(Formula::Edge(*dim, *mother, *label, *daughter))
            }
            Formula::Above(dim, upper, lower) => Ok(Formula::Above(*dim, *upper, *lower)),
            Formula::Left(first, second) => Ok(Formula::Left(*first, *second)),
            Formula::Same(first, second) => Ok(Formula::Same(*first, *second)),
            Formula::Attr(name, dim, attr, value) => {
                Ok(Formula::Attr(*name, *dim, *attr, *value))
            }
            Formula::Feat(name, table) => Ok(Formula::Feat(
                *name,
                copy_table(alloc, table.as_slice())?,
            )),
        }
    }
}

/// Adds copies of formulas.
#[cycle(copy)]
fn add_formulas(
    alloc: Global,
    formulas: &[Formula],
    made: &mut List<Formula>,
) -> Result<(), OutOfMemory>
    ensures { OnOk result (made.new ≡ made.old ++ formulas.now) }
{
    for formula in formulas {
        made.push(formula.copy(alloc)?)?;
    }
    Ok(())
}

/// A copy of a table of truth values.
fn copy_table(alloc: Global, table: &[List<bool>]) -> Result<List<List<bool>>, OutOfMemory>
    ensures { IfOk result (λ made. made ≡ table.now) }
{
    let mut made = List::new(alloc);
    for row in table {
        made.push(List::from_slice(alloc, row.as_slice())?)?;
    }
    Ok(made)
}

impl Principle {
    /// A copy.
    pub fn copy(&self, alloc: Global) -> Result<Principle, OutOfMemory>
        ensures { IfOk result (λ made. made ≡ self.now) }
    {
        match self {
            Principle::Graph => Ok(Principle::Graph),
            Principle::Entries => Ok(Principle::Entries),
            Principle::Tree => Ok(Principle::Tree),
            Principle::Dag => Ok(Principle::Dag),
            Principle::Valency => Ok(Principle::Valency),
            Principle::Order => Ok(Principle::Order),
            Principle::Projectivity => Ok(Principle::Projectivity),
            Principle::Agr => Ok(Principle::Agr),
            Principle::Agreement => Ok(Principle::Agreement),
            Principle::Government => Ok(Principle::Government),
            Principle::Climbing => Ok(Principle::Climbing),
            Principle::Barriers => Ok(Principle::Barriers),
            Principle::LinkingEnd => Ok(Principle::LinkingEnd),
            Principle::LinkingDaughter => Ok(Principle::LinkingDaughter),
            Principle::LinkingMother => Ok(Principle::LinkingMother),
            Principle::LinkingBelowStart => Ok(Principle::LinkingBelowStart),
            Principle::LinkingAboveStart => Ok(Principle::LinkingAboveStart),
            Principle::LinkingSisters => Ok(Principle::LinkingSisters),
            Principle::LinkingNotDaughter => Ok(Principle::LinkingNotDaughter),
            Principle::Rule(formula) => Ok(Principle::Rule(formula.copy(alloc)?)),
            Principle::Bound(costs, bound) => Ok(Principle::Bound(costs.copy(alloc)?, *bound)),
        }
    }
}

/// A copy of words.
pub fn copy_words(alloc: Global, words: &[SentenceWord]) -> Result<List<SentenceWord>, OutOfMemory>
    ensures { IfOk result (λ made. made ≡ words.now) }
{
    let mut made = List::new(alloc);
    for word in words {
        made.push(SentenceWord {
            text: word.text.copy(alloc)?,
            at: word.at,
        })?;
    }
    Ok(made)
}

/// The same lists once more, shared.
pub(crate) fn share_lists<T: Drop>(
    alloc: Global,
    lists: &[SharedList<T>],
) -> Result<List<SharedList<T>>, OutOfMemory>
    ensures { IfOk result (λ made. made ≡ lists.now) }
{
    let mut made = List::new(alloc);
    for list in lists {
        made.push(list.share()?)?;
    }
    Ok(made)
}

/// A copy of a principle use. It shares the features.
fn copy_group(alloc: Global, group: &Group) -> Result<Group, OutOfMemory>
    ensures { IfOk result (λ made. made ≡ group.now) }
{
    Ok(Group {
        principle: group.principle.copy(alloc)?,
        dims: List::from_slice(alloc, group.dims.as_slice())?,
        attrs: List::from_slice(alloc, group.attrs.as_slice())?,
        order: List::from_slice(alloc, group.order.as_slice())?,
        truths: List::from_slice(alloc, group.truths.as_slice())?,
        feats: share_lists(alloc, group.feats.as_slice())?,
    })
}

/// Copies of principle uses.
fn copy_groups(alloc: Global, groups: &[Group]) -> Result<List<Group>, OutOfMemory>
    ensures { IfOk result (λ made. made ≡ groups.now) }
{
    let mut made = List::new(alloc);
    for group in groups {
        made.push(copy_group(alloc, group)?)?;
    }
    Ok(made)
}

/// A copy of the parts of a problem. It shares candidates, dimensions and features.
pub(crate) fn copy_parts(alloc: Global, parts: &Parts) -> Result<Parts, OutOfMemory>
    ensures { IfOk result (λ made. made ≡ parts.now) }
{
    Ok(Parts {
        words: copy_words(alloc, parts.words.as_slice())?,
        candidates: share_lists(alloc, parts.candidates.as_slice())?,
        dims: parts.dims.share()?,
        groups: copy_groups(alloc, parts.groups.as_slice())?,
    })
}
