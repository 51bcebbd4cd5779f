//! Which propagator goes next.

ghost use Rattle.std.specs.Prelude.{◌≡◌, ◌≤◌, ◌+◌, IfOk, length, map, All};
ghost use Rattle.xdg_store.specs.States.{Known};
ghost use Rattle.xdg_propcore.specs.Fixed.{AreStill, KeepsAll, Settles};
ghost use Rattle.xdg_propcore.specs.Losses.{lost_count, woken_count};
ghost use Rattle.xdg_propcore.specs.Standing.{WereStill};
ghost use Rattle.xdg_propcore.specs.Steps.{Extends};
ghost use Rattle.xdg_propcore.specs.Uses.{StandsIn};

use crate::awake::Awake;
use crate::fixpoint::Fixpoint;
use crate::propagator::Propagator;
use crate::rests::Rests;
use crate::running::{run, wake};
use crate::wake::Wake;
use std::alloc::Global;
use std::marker::Model;
use xdg_base::OutOfMemory;
use xdg_problem::Problem;
use xdg_store::{Mark, Store};

/// Which of some propagators are awake, and what wakes each: a list of wake sets. Only [`Agenda::start`] takes memory.
#[derive(Debug, Drop)]
pub struct Agenda {
    wakes: Vec<Wake>,
    awake: Awake,
    rests: Rests,
}

impl Model for Agenda {
    ghost use Rattle.std.specs.Prelude.{◌≡◌, ℕ, List, length, map};

    ghost Value = { List ℕ };

    ghost view = { λ a. map (λ w. w.0) a.wakes.items };

    ghost invariant = { λ a. (length a.awake ≡ length a.wakes.items) × (length a.rests ≡ length a.wakes.items) };
}

/// The wake sets of propagators.
fn wakes_of<P: Propagator>(alloc: Global, props: &[P]) -> Result<Vec<Wake>, OutOfMemory>
    ensures { IfOk result (λ wakes. map (λ w. w.0) wakes.items ≡ map P.kinds props.now) }
{
    let mut wakes = Vec::new(alloc);
    for p in props {
        wakes.push(p.wakes())?;
    }
    Ok(wakes)
}

impl Agenda {
    /// The agenda of propagators of a sentence.
    pub fn start<P: Propagator>(
        alloc: Global,
        _problem: &Problem,
        props: &[P],
    ) -> Result<Agenda, OutOfMemory>
        ensures { IfOk result (λ agenda. agenda ≡ map P.kinds props.now) }
    {
        let wakes = wakes_of(alloc, props)?;
        let awake = Awake::start(alloc, props.len())?;
        let rests = Rests::start(alloc, props.len())?;
        Ok(Agenda {
            wakes,
            awake,
            rests,
        })
    }
}

/// Takes from the box of the store what the propagators take, until each is still: the box is the greatest one inside the box
/// at entry that is closed for all of them, or there is none. The agenda is that of the propagators, in their order.
pub fn settle<P: Propagator>(store: &mut Store, props: &[P], agenda: &mut Agenda) -> Fixpoint
    requires stand { All (λ p. StandsIn (P.stands p) store.old.parts) props.now }
    requires agenda { agenda.old ≡ map P.kinds props.now }
    ensures extends { Extends store.old store.new }
    ensures settles { Settles result P.stands props.now store.old store.new }
    ensures analyses { KeepsAll result P.stands props.now store.old store.new }
    ensures still { AreStill result P.still props.now store.new }
    ensures turns { store.new.turns
        ≤ store.old.turns
        + (length props.now + (lost_count store.old.now store.new.now + woken_count store.old.parts (map P.kinds props.now) store.old.now store.new.now)) }
    ensures known { Known store.new }
    ensures agenda { agenda.new ≡ agenda.old }
{
    // Each store holds a box, also where there is no propagator.
    let _ = store.turns();
    agenda.awake.wake_all();
    agenda.rests.forget_all();
    run(
        store,
        props,
        &agenda.wakes,
        &mut agenda.awake,
        &mut agenda.rests,
    )
}

/// The same, where all propagators were still at a mark, and what was lost since then has a kind of a wake set. Only those that
/// these kinds wake are woken at first.
pub fn settle_since<P: Propagator>(
    store: &mut Store,
    props: &[P],
    agenda: &mut Agenda,
    since: Mark,
    lost: Wake,
) -> Fixpoint
    requires stand { All (λ p. StandsIn (P.stands p) store.old.parts) props.now }
    requires agenda { agenda.old ≡ map P.kinds props.now }
    requires were { WereStill P.still props.now store.old since lost.0 }
    ensures extends { Extends store.old store.new }
    ensures settles { Settles result P.stands props.now store.old store.new }
    ensures analyses { KeepsAll result P.stands props.now store.old store.new }
    ensures still { AreStill result P.still props.now store.new }
    ensures turns { store.new.turns
        ≤ store.old.turns
        + (length props.now + (lost_count store.old.now store.new.now + woken_count store.old.parts (map P.kinds props.now) store.old.now store.new.now)) }
    ensures known { Known store.new }
    ensures agenda { agenda.new ≡ agenda.old }
{
    P::laws();
    // Each store holds a box.
    let _ = store.turns();
    agenda.awake.sleep_all();
    wake(agenda.wakes.as_slice(), lost, &mut agenda.awake);
    agenda.rests.set_all(since);
    run(
        store,
        props,
        &agenda.wakes,
        &mut agenda.awake,
        &mut agenda.rests,
    )
}
