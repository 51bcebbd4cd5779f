//! A box that is settled by a propagator of one value.

ghost use Rattle.std.specs.Prelude.{◌≡◌, ◌<◌, [], ◌∷◌, IfOk, map};
ghost use Rattle.xdg_propcore.specs.Sample.{IsUse, LacksSecond, agr_use, colour, first_alone, plan, sample};

use std::alloc::Global;
use std::test::Fail;
use xdg_base::{AttrId, DimId, EntryNo, List, NodeId, OutOfMemory, Text};
use xdg_problem::{
    AttrPlan, DimPlan, Feat, Group, Nums, Parts, Principle, Problem, SentenceWord, SharedList,
    Shown,
};
use xdg_propcore::{Agenda, Fixpoint, Moved, Propagator, Wake, settle};
use xdg_store::{Change, Store};

// Takes the second value of the attribute away.
#[derive(Drop)]
struct TakesSecond {}

impl Propagator for TakesSecond {
    ghost stands = { λ p parts number. IsUse parts number };

    ghost still = { λ p parts box. LacksSecond box };

    ghost kinds = { λ p. 2 };

    fn wakes(&self) -> Wake {
        Wake::attrs(DimId(0))
    }

    fn step(&self, store: &mut Store) -> Moved {
        store.turn();
        if !store.attr_in(NodeId(0), DimId(0), AttrId(0), 1) {
            return Moved::Same;
        }
        match store.remove_attr(NodeId(0), DimId(0), AttrId(0), 1) {
            Change::Changed => Moved::Changed(Wake::attrs(DimId(0))),
            Change::Emptied => Moved::Dead,
            // It was there.
            Change::Same => Moved::Dead,
        }
    }

    fn laws() {}
}

fn one<T: Drop>(alloc: Global, item: T) -> Result<List<T>, OutOfMemory>
    ensures { IfOk result (λ list. list ≡ item ∷ []) }
{
    let mut list = List::new(alloc);
    list.push(item)?;
    Ok(list)
}

fn colour(alloc: Global) -> Result<AttrPlan, OutOfMemory>
    ensures { IfOk result (λ attr. attr ≡ colour) }
{
    let name = Text::from_str(alloc, "c")?;
    let first = Shown::One(Text::from_str(alloc, "x")?);
    let second = Shown::One(Text::from_str(alloc, "y")?);
    let mut values = one(alloc, first)?;
    values.push(second)?;
    Ok(AttrPlan { name, values })
}

fn plan(alloc: Global) -> Result<DimPlan, OutOfMemory>
    ensures { IfOk result (λ made. made ≡ plan) }
{
    let name = Text::from_str(alloc, "id")?;
    let colour = colour(alloc)?;
    let attrs = one(alloc, colour)?;
    Ok(DimPlan {
        name,
        labels: List::new(alloc),
        attrs,
        graph: false,
    })
}

// The set of the first value, for the only candidate of the only node.
fn feats(alloc: Global) -> Result<List<SharedList<List<Feat>>>, OutOfMemory>
    ensures { IfOk result (λ feats. feats ≡ ((first_alone ∷ []) ∷ []) ∷ []) }
{
    let mut numbers = Vec::new(alloc);
    numbers.push(0)?;
    let rows = one(alloc, Nums::of(numbers))?;
    let rows = SharedList::of(alloc, rows)?;
    let of_entry = one(alloc, Feat { rows })?;
    let of_node = SharedList::of(alloc, one(alloc, of_entry)?)?;
    one(alloc, of_node)
}

fn agr_use(alloc: Global) -> Result<Group, OutOfMemory>
    ensures { IfOk result (λ group. group ≡ agr_use) }
{
    let dims = one(alloc, DimId(0))?;
    let attrs = one(alloc, AttrId(0))?;
    let feats = feats(alloc)?;
    Ok(Group {
        principle: Principle::Agr,
        dims,
        attrs,
        order: List::new(alloc),
        truths: List::new(alloc),
        feats,
    })
}

#[tactic(auto, using(xdg_propcore::proofs::SampleProblem::sample_problem))]
fn problem(alloc: Global) -> Result<Problem, OutOfMemory>
    ensures { IfOk result (λ problem. problem ≡ sample) }
{
    let text = Text::from_str(alloc, "a")?;
    let words = one(alloc, SentenceWord { text, at: 0 })?;
    let entries = SharedList::of(alloc, one(alloc, EntryNo(3))?)?;
    let candidates = one(alloc, entries)?;
    let plan = plan(alloc)?;
    let dims = SharedList::of(alloc, one(alloc, plan)?)?;
    let group = agr_use(alloc)?;
    let groups = one(alloc, group)?;
    Ok(Problem::of(Parts {
        words,
        candidates,
        dims,
        groups,
    }))
}

#[tactic(auto, using(xdg_propcore::proofs::SampleProblem::all_stand))]
fn settled(store: &mut Store, props: &[TakesSecond], agenda: &mut Agenda) -> Fixpoint
    requires parts { store.old.parts ≡ sample }
    requires agenda { agenda.old ≡ map (λ _. 2) props.now }
    ensures parts { store.new.parts ≡ sample }
    ensures agenda { agenda.new ≡ agenda.old }
{
    settle(store, props, agenda)
}

#[tactic(auto, using(xdg_propcore::proofs::SampleProblem::has_value, xdg_store::proofs::Leaving::parts_stay))]
fn remove(store: &mut Store, value: u16) -> Change
    requires parts { store.old.parts ≡ sample }
    requires value { value < 2 }
    ensures parts { store.new.parts ≡ sample }
{
    store.remove_attr(NodeId(0), DimId(0), AttrId(0), value)
}

#[tactic(auto, using(xdg_propcore::proofs::SampleProblem::has_value))]
fn remains(store: &Store, value: u16) -> bool
    requires parts { store.now.parts ≡ sample }
    requires value { value < 2 }
{
    store.attr_in(NodeId(0), DimId(0), AttrId(0), value)
}

#[test]
fn settles_and_dies(rt: HostRuntime) -> Result<(), Fail> {
    let alloc = rt.alloc();
    let problem = problem(alloc)?;
    let props = [TakesSecond {}, TakesSecond {}];
    let mut agenda = Agenda::start(alloc, &problem, &props)?;
    let mut store = Store::start(alloc, &problem)?;
    let mark = store.mark();
    assert_eq!(rt; settled(&mut store, &props, &mut agenda), Fixpoint::Settled);
    assert_eq!(rt; store.turns(), 3);
    assert!(rt; remains(&store, 0));
    assert!(rt; !remains(&store, 1));
    store.undo(mark);
    assert_eq!(rt; remove(&mut store, 0), Change::Changed);
    assert_eq!(rt; settled(&mut store, &props, &mut agenda), Fixpoint::Dead);
    assert_eq!(rt; store.turns(), 4);
    Ok(())
}
