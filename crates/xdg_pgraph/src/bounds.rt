//! The numbers of edges that entries allow.

ghost use Rattle.std.specs.List.Sorted.{IsStrictlyIncreasing};
ghost use Rattle.std.specs.Prelude.{◌≡◌, ◌<◌, ◌≤◌, ◌↔◌, ◌⊎◌, ◌^◌, ℕ, [], IsTrue, All, false, length, slice_index_or};
ghost use Rattle.xdg_problem.specs.Places.{nodes};
ghost use Rattle.xdg_rules.specs.Rules.{HasNoneWithin, IsGreatest, IsLeast};
ghost use Rattle.xdg_store.specs.States.{Known};
ghost use Rattle.xdg_pgraph.specs.Allowances.{AreClasses, HasClasses, Keeps};
ghost use Rattle.xdg_pgraph.specs.Bounding.{AreBarred, NoneBarred, TellsAll, Widens};
ghost use Rattle.xdg_pgraph.specs.Bundles.{numbers_of};

use crate::allowances::Class;
use crate::bundle::{Bundle, features_of, numbers_at};
use xdg_base::NodeId;
use xdg_graph::entry_count;
use xdg_nodeset::NodeSet;
use xdg_problem::Group;
use xdg_store::Store;

/// What some entries allow: the least number, and the one behind the greatest. Where they allow none, the first is beyond all numbers and
/// the second is 0.
#[derive(Clone, Copy, Debug)]
pub(crate) struct Allowed {
    pub least: u32,
    pub behind: u32,
}

/// What some entries allow, and whether one of them may allow no number from one to another.
#[derive(Clone, Copy, Debug)]
pub(crate) struct Looked {
    pub allowed: Allowed,
    pub barred: bool,
}

/// What the entries of a node that remain say of two numbers of edges with a label, the lesser and the greater.
#[derive(Clone, Copy, Debug)]
pub(crate) struct Said {
    /// Whether the lesser is the greatest that an entry allows.
    pub full: bool,
    /// Whether the greater is the least that an entry allows.
    pub needed: bool,
    /// Whether some entry may allow none from the one to the other.
    pub barred: bool,
}

impl Said {
    /// Whether something may be left to take, where some nodes are the ends of edges that may be and need not.
    pub(crate) fn takes(self, open: &NodeSet) -> bool
        ensures { result ≡ false
            → (self.barred ≡ false) × ((open.now ≡ []) ⊎ (self.full ≡ false)) × ((open.now ≡ []) ⊎ (self.needed ≡ false)) }
    {
        if self.barred {
            return true;
        }
        match open.first() {
            None => false,
            Some(_) => self.full || self.needed,
        }
    }
}

/// Whether no number lies between two others, or is one of them.
pub(crate) fn has_none_within(numbers: &[u16], least: usize, most: usize) -> bool
    ensures { IsTrue result ↔ All (λ k. least ≤ k → k ≤ most → ⊥) numbers.now }
{
    !numbers.iter().any(|number| least <= usize::from(*number) && usize::from(*number) <= most)
}

impl Allowed {
    /// What no entry allows.
    pub(crate) fn none() -> Allowed
        ensures behind { result.behind ≡ 0 }
        ensures least { (number : ℕ) → number < 2 ^ 32 → number ≤ result.least }
    {
        Allowed {
            least: u32::MAX,
            behind: 0,
        }
    }

    /// What these and one entry more allow, whose numbers rise.
    pub(crate) fn with(self, numbers: &[u16]) -> Allowed
        requires { IsStrictlyIncreasing numbers.now }
        ensures { Widens numbers.now self result }
    {
        let Some(first) = numbers.first() else {
            return self;
        };
        let Some(last) = numbers.last() else {
            return self;
        };
        Allowed {
            least: self.least.min(u32::from(*first)),
            behind: self.behind.max(u32::from(*last) + 1),
        }
    }
}

/// Whether some entry may allow none between two numbers, with one entry more.
fn with_barred(barred: bool, numbers: &[u16], least: usize, most: usize) -> bool
    ensures { result ≡ false → (barred ≡ false) × (HasNoneWithin numbers.now least most → ⊥) }
{
    if barred {
        return true;
    }
    has_none_within(numbers, least, most)
}

impl Looked {
    /// No entry was looked at.
    fn none() -> Looked
        ensures { (result.allowed.behind ≡ 0) × (128 < result.allowed.least) }
    {
        Looked {
            allowed: Allowed::none(),
            barred: false,
        }
    }

    /// With one entry more, whose numbers rise.
    fn with(self, numbers: &[u16], least: usize, most: usize) -> Looked
        requires { IsStrictlyIncreasing numbers.now }
        ensures allowed { Widens numbers.now self.allowed result.allowed }
        ensures barred { result.barred ≡ false → (self.barred ≡ false) × (HasNoneWithin numbers.now least most → ⊥) }
    {
        Looked {
            allowed: self.allowed.with(numbers),
            barred: with_barred(self.barred, numbers, least, most),
        }
    }
}

/// What the entries of a node that remain allow of a bundle. It looks at them one by one.
#[inline(never)]
fn by_entries(store: &Store, group: &Group, bundle: Bundle, least: usize, most: usize) -> Looked
    requires known { Known store.now }
    requires node { bundle.node < nodes store.now.parts }
    ensures { TellsAll group.now bundle least most store.now.now result }
{
    let candidates = features_of(group, bundle.node);
    let count = entry_count(store.problem().parts(), NodeId(bundle.node));
    let mut looked = Looked::none();
    for place in 0..count {
        if !store.entry_in(NodeId(bundle.node), place) {
            continue;
        }
        let numbers = numbers_at(candidates, bundle, place);
        looked = looked.with(numbers, least, most);
    }
    looked
}

/// Whether a candidate of a bundle's node allows no number from one to another.
#[inline(never)]
fn entry_allows_none(group: &Group, bundle: Bundle, place: u16, least: usize, most: usize) -> bool
    ensures { IsTrue result ↔ HasNoneWithin (numbers_of bundle.way group.now bundle.node bundle.label place) least most }
{
    let candidates = features_of(group, bundle.node);
    has_none_within(numbers_at(candidates, bundle, place), least, most)
}

/// Whether the entries of a class allow no number from one to another, which isn't less.
fn class_allows_none(
    group: &Group,
    bundle: Bundle,
    class: &Class,
    least: usize,
    most: usize,
) -> bool
    requires class { Keeps (numbers_of bundle.way group.now bundle.node bundle.label class.now.first) class.now }
    requires order { least ≤ most }
    ensures { IsTrue result ↔ HasNoneWithin (numbers_of bundle.way group.now bundle.node bundle.label class.now.first) least most }
{
    if most < class.allowed.least as usize {
        return true;
    }
    if class.allowed.behind as usize <= least {
        return true;
    }
    if class.whole {
        return false;
    }
    entry_allows_none(group, bundle, class.first, least, most)
}

/// Whether some entry may allow none between two numbers, the second of which isn't less, with those of a class more.
fn with_class_barred(
    barred: bool,
    group: &Group,
    bundle: Bundle,
    class: &Class,
    least: usize,
    most: usize,
) -> bool
    requires class { Keeps (numbers_of bundle.way group.now bundle.node bundle.label class.now.first) class.now }
    requires order { least ≤ most }
    ensures { result ≡ false
        → (barred ≡ false) × (HasNoneWithin (numbers_of bundle.way group.now bundle.node bundle.label class.now.first) least most → ⊥) }
{
    if barred {
        return true;
    }
    class_allows_none(group, bundle, class, least, most)
}

/// What the entries of a node that remain allow of a bundle, by its classes, between two numbers of which the second isn't less.
fn by_classes(
    store: &Store,
    group: &Group,
    bundle: Bundle,
    classes: &[Class],
    least: usize,
    most: usize,
) -> Looked
    requires known { Known store.now }
    requires node { bundle.node < nodes store.now.parts }
    requires classes { AreClasses (length (slice_index_or store.now.parts.candidates bundle.node [])) group.now bundle classes.now }
    requires order { least ≤ most }
    ensures { TellsAll group.now bundle least most store.now.now result }
{
    let remain = store.first_entries(NodeId(bundle.node));
    let mut first = u32::MAX;
    let mut behind = 0u32;
    let mut barred = false;
    for class in classes {
        if class.entries & remain == 0 {
            continue;
        }
        first = first.min(class.allowed.least);
        behind = behind.max(class.allowed.behind);
        barred = with_class_barred(barred, group, bundle, class, least, most);
    }
    Looked {
        allowed: Allowed {
            least: first,
            behind,
        },
        barred,
    }
}

/// The entries of a bundle's node, by its classes, that allow no number from one to another, which isn't less: a bit for each, the first at the lowest.
pub(crate) fn barred_entries(
    group: &Group,
    bundle: Bundle,
    classes: &[Class],
    least: usize,
    most: usize,
) -> u64
    requires order { least ≤ most }
    requires classes { All (λ class. Keeps (numbers_of bundle.way group.now bundle.node bundle.label class.first) class) classes.now }
    ensures { (count : ℕ) → AreClasses count group.now bundle classes.now → AreBarred count group.now bundle least most result }
{
    let mut barred = 0;
    for class in classes {
        if !class_allows_none(group, bundle, class, least, most) {
            continue;
        }
        barred |= class.entries;
    }
    barred
}

/// The same for any two numbers, by the classes of the bundle, if it has some.
fn looked_at(
    store: &Store,
    group: &Group,
    bundle: Bundle,
    classes: &[Class],
    least: usize,
    most: usize,
) -> Looked
    requires known { Known store.now }
    requires node { bundle.node < nodes store.now.parts }
    requires classes { HasClasses store.now.parts group.now bundle classes.now }
    ensures { TellsAll group.now bundle least most store.now.now result }
{
    if classes.is_empty() || most < least {
        return by_entries(store, group, bundle, least, most);
    }
    by_classes(store, group, bundle, classes, least, most)
}

/// What the entries of a node that remain say of two numbers of edges of a bundle, whose classes are these, if it has some.
pub(crate) fn said_of(
    store: &Store,
    group: &Group,
    bundle: Bundle,
    classes: &[Class],
    least: usize,
    most: usize,
) -> Said
    requires known { Known store.now }
    requires node { bundle.node < nodes store.now.parts }
    requires classes { HasClasses store.now.parts group.now bundle classes.now }
    requires few { (least ≤ 128) × (most ≤ 128) }
    ensures full { IsTrue result.full ↔ IsGreatest store.now.now bundle.node (numbers_of bundle.way group.now bundle.node bundle.label) least }
    ensures needed { IsTrue result.needed ↔ IsLeast store.now.now bundle.node (numbers_of bundle.way group.now bundle.node bundle.label) most }
    ensures barred { result.barred ≡ false → NoneBarred group.now bundle least most store.now.now }
{
    let looked = looked_at(store, group, bundle, classes, least, most);
    Said {
        full: looked.allowed.behind as usize == least + 1,
        needed: looked.allowed.least as usize == most,
        barred: looked.barred,
    }
}
