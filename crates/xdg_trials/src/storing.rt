//! Removals from a box, and how they are undone.

ghost use Rattle.std.specs.Prelude.{◌≡◌, ◌<◌, ◌≤◌, ◌-◌, [], ◌∷◌, IfOk, length};
ghost use Rattle.xdg_store.specs.Example.{colour, plan, small};

use std::alloc::Global;
use std::test::Fail;
use xdg_base::{AttrId, DimId, EntryNo, LabelId, List, NodeId, OutOfMemory, Text};
use xdg_problem::{AttrPlan, DimPlan, Edge, Parts, Problem, SentenceWord, SharedList, Shown};
use xdg_store::{Change, Store};

fn one<T: Drop>(alloc: Global, item: T) -> Result<List<T>, OutOfMemory>
    ensures { IfOk result (λ list. list ≡ item ∷ []) }
{
    let mut list = List::new(alloc);
    list.push(item)?;
    Ok(list)
}

fn two<T: Drop>(alloc: Global, first: T, second: T) -> Result<List<T>, OutOfMemory>
    ensures { IfOk result (λ list. list ≡ first ∷ second ∷ []) }
{
    let mut list = List::new(alloc);
    list.push(first)?;
    list.push(second)?;
    Ok(list)
}

fn word(alloc: Global, text: &str, at: u32) -> Result<SentenceWord, OutOfMemory>
    ensures { IfOk result (λ made. made ≡ record { text = text.now; at = at }) }
{
    let text = Text::from_str(alloc, text)?;
    Ok(SentenceWord { text, at })
}

fn colour(alloc: Global) -> Result<AttrPlan, OutOfMemory>
    ensures { IfOk result (λ attr. attr ≡ colour) }
{
    let name = Text::from_str(alloc, "c")?;
    let first = Shown::One(Text::from_str(alloc, "x")?);
    let second = Shown::One(Text::from_str(alloc, "y")?);
    let values = two(alloc, first, second)?;
    Ok(AttrPlan { name, values })
}

fn plan(alloc: Global) -> Result<DimPlan, OutOfMemory>
    ensures { IfOk result (λ made. made ≡ plan) }
{
    let name = Text::from_str(alloc, "id")?;
    let label = Text::from_str(alloc, "l")?;
    let labels = one(alloc, label)?;
    let colour = colour(alloc)?;
    let attrs = one(alloc, colour)?;
    Ok(DimPlan {
        name,
        labels,
        attrs,
        graph: true,
    })
}

#[tactic(auto, using(xdg_store::proofs::Small::small_problem))]
fn problem(alloc: Global) -> Result<Problem, OutOfMemory>
    ensures { IfOk result (λ problem. problem ≡ small) }
{
    let first = word(alloc, "a", 0)?;
    let second = word(alloc, "b", 2)?;
    let words = two(alloc, first, second)?;
    let entries = SharedList::of(alloc, two(alloc, EntryNo(3), EntryNo(5))?)?;
    let candidates = two(alloc, entries.share()?, entries)?;
    let plan = plan(alloc)?;
    let dims = SharedList::of(alloc, one(alloc, plan)?)?;
    Ok(Problem::of(Parts {
        words,
        candidates,
        dims,
        groups: List::new(alloc),
    }))
}

// The edge from a node to the other.
fn edge_out(mother: u8) -> Edge
    requires { mother < 2 }
    ensures { result ≡ record { dim = record { 0 = 0 }; mother = record { 0 = mother }; label = record { 0 = 0 }; daughter = record { 0 = 1 - mother } } }
{
    Edge {
        dim: DimId(0),
        mother: NodeId(mother),
        label: LabelId(0),
        daughter: NodeId(1 - mother),
    }
}

#[tactic(auto, using(xdg_store::proofs::Small::has_candidate, xdg_store::proofs::Leaving::parts_stay, xdg_store::proofs::Leaving::history_stays))]
fn remove_entry(store: &mut Store, node: u8, place: u16) -> Change
    requires parts { store.old.parts ≡ small }
    requires node { node < 2 }
    requires place { place < 2 }
    ensures parts { store.new.parts ≡ small }
    ensures history { length store.old.history ≤ length store.new.history }
{
    store.remove_entry(NodeId(node), place)
}

// Of the candidates of a node those whose bits are set.
#[tactic(auto, using(xdg_store::proofs::Small::has_candidate, crate::proofs::Removing::all_parts_stay))]
fn remove_entries(store: &mut Store, node: u8, taken: u64) -> Change
    requires parts { store.old.parts ≡ small }
    requires node { node < 2 }
    ensures parts { store.new.parts ≡ small }
{
    store.remove_entries(NodeId(node), 0, taken)
}

#[tactic(auto, using(xdg_store::proofs::Small::has_value, xdg_store::proofs::Leaving::parts_stay, xdg_store::proofs::Leaving::history_stays))]
fn remove_value(store: &mut Store, node: u8, value: u16) -> Change
    requires parts { store.old.parts ≡ small }
    requires node { node < 2 }
    requires value { value < 2 }
    ensures parts { store.new.parts ≡ small }
    ensures history { length store.old.history ≤ length store.new.history }
{
    store.remove_attr(NodeId(node), DimId(0), AttrId(0), value)
}

#[tactic(auto, using(xdg_store::proofs::Small::has_place, xdg_store::proofs::Leaving::parts_stay, xdg_store::proofs::Leaving::history_stays))]
fn force(store: &mut Store, mother: u8) -> Change
    requires parts { store.old.parts ≡ small }
    requires mother { mother < 2 }
    ensures parts { store.new.parts ≡ small }
    ensures history { length store.old.history ≤ length store.new.history }
{
    store.force_edge(edge_out(mother))
}

#[tactic(auto, using(xdg_store::proofs::Small::has_place, xdg_store::proofs::Leaving::parts_stay, xdg_store::proofs::Leaving::history_stays))]
fn forbid(store: &mut Store, mother: u8) -> Change
    requires parts { store.old.parts ≡ small }
    requires mother { mother < 2 }
    ensures parts { store.new.parts ≡ small }
    ensures history { length store.old.history ≤ length store.new.history }
{
    store.forbid_edge(edge_out(mother))
}

// How many daughters the node may have, and must have, and how many mothers.
#[tactic(auto, using(xdg_store::proofs::Small::has_edges))]
fn counts(store: &Store, node: u8) -> (usize, usize, usize, usize)
    requires parts { store.now.parts ≡ small }
    requires node { node < 2 }
{
    let node = NodeId(node);
    (
        store.daughters_may(DimId(0), node, LabelId(0)).len(),
        store.daughters_must(DimId(0), node, LabelId(0)).len(),
        store.mothers_may(DimId(0), node, LabelId(0)).len(),
        store.mothers_must(DimId(0), node, LabelId(0)).len(),
    )
}

#[test]
fn removals_are_undone(rt: HostRuntime) -> Result<(), Fail> {
    let alloc = rt.alloc();
    let problem = problem(alloc)?;
    let mut store = Store::start(alloc, &problem)?;
    assert_eq!(rt; remove_entry(&mut store, 1, 0), Change::Changed);
    let mark = store.mark();
    assert_eq!(rt; remove_entry(&mut store, 1, 0), Change::Same);
    assert_eq!(rt; remove_entry(&mut store, 1, 1), Change::Emptied);
    assert_eq!(rt; remove_entry(&mut store, 0, 1), Change::Changed);
    assert_eq!(rt; remove_value(&mut store, 0, 1), Change::Changed);
    assert_eq!(rt; remove_value(&mut store, 1, 0), Change::Changed);
    assert_eq!(rt; forbid(&mut store, 0), Change::Changed);
    assert_eq!(rt; counts(&store, 0), (0, 0, 1, 0));
    assert_eq!(rt; force(&mut store, 0), Change::Emptied);
    assert!(rt; !store.is_single());
    assert_eq!(rt; force(&mut store, 1), Change::Changed);
    assert_eq!(rt; counts(&store, 0), (0, 0, 1, 1));
    assert!(rt; store.is_single());
    store.undo(mark);
    assert!(rt; !store.is_single());
    assert_eq!(rt; counts(&store, 1), (1, 0, 1, 0));
    Ok(())
}

#[test]
fn several_are_removed_at_once(rt: HostRuntime) -> Result<(), Fail> {
    let alloc = rt.alloc();
    let problem = problem(alloc)?;
    let mut store = Store::start(alloc, &problem)?;
    assert_eq!(rt; remove_entries(&mut store, 1, 3), Change::Emptied);
    assert_eq!(rt; remove_entries(&mut store, 1, 4), Change::Same);
    assert_eq!(rt; remove_entries(&mut store, 1, 6), Change::Changed);
    assert_eq!(rt; remove_entries(&mut store, 1, 6), Change::Same);
    assert_eq!(rt; remove_entries(&mut store, 1, 1), Change::Emptied);
    assert_eq!(rt; remove_entry(&mut store, 1, 1), Change::Same);
    Ok(())
}
