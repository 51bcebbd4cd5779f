//! Propagators run until each is still.

ghost use Rattle.std.specs.Prelude.{◌≡◌, ◌≢◌, ℕ, ◌<◌, ◌≤◌, ◌+◌, ◌-◌, ◌^◌, ◌↔◌, Some, None, length, map, min, slice_index, slice_index_or, All};
ghost use lib.Bits.{bit_and};
ghost use Rattle.xdg_store.specs.States.{Known};
ghost use Rattle.xdg_propcore.specs.Fixed.{AreStill, Settles};
ghost use Rattle.xdg_propcore.specs.Flags.{IsOn};
ghost use Rattle.xdg_facts.specs.Flags.{count_set};
ghost use Rattle.xdg_propcore.specs.Losses.{lost_count, woken_count};
ghost use Rattle.xdg_propcore.specs.Standing.{AreHeld, HeldIf, SleepersStill};
ghost use Rattle.xdg_propcore.specs.Steps.{Extends, Keeps, Moves};
ghost use Rattle.xdg_propcore.specs.Uses.{StandsIn};
ghost use Rattle.xdg_propcore.specs.declared.moved.Moved.TheVariants as moves;

use crate::awake::Awake;
use crate::fixpoint::Fixpoint;
use crate::moved::Moved;
use crate::propagator::Propagator;
use crate::rests::Rests;
use crate::wake::Wake;
use bitflags::Flags;
use xdg_store::{Mark, Store};

/// Wakes those whose wake set has a kind of values that were lost.
pub(crate) fn wake(wakes: &[Wake], lost: Wake, awake: &mut Awake)
    requires { length wakes.now ≡ length awake.old }
    ensures kept { (at : ℕ) → IsOn awake.old at → IsOn awake.new at }
    ensures woken { (at : ℕ) → at < length wakes.now → bit_and (slice_index (map (λ w. w.0) wakes.now) at) lost.0 ≢ 0 → IsOn awake.new at }
    ensures only { (at : ℕ) → IsOn awake.new at → (IsOn awake.old at → ⊥) → bit_and (slice_index (map (λ w. w.0) wakes.now) at) lost.0 ≢ 0 }
    ensures length { length awake.new ≡ length awake.old }
    ensures small { lost.0 < 2 ^ 64 }
{
    for (at, wake) in wakes.iter().enumerate() {
        if wake.intersects(lost) {
            awake.wake(at);
        }
    }
}

/// Lets a propagator take a step, which was still at a mark, if there is one.
fn step<P: Propagator>(prop: &P, store: &mut Store, since: Option<Mark>) -> Moved
    requires stands { StandsIn (P.stands prop.now) store.old.parts }
    requires held { HeldIf (P.still prop.now) store.old since }
    ensures extends { Extends store.old store.new }
    ensures keeps { Keeps (P.stands prop.now) result store.old store.new }
    ensures same { (result ≡ moves.Same) ↔ P.still prop.now store.old.parts store.old.now }
    ensures moves { Moves result store.old store.new }
    ensures turns { store.new.turns ≡ min (store.old.turns + 1) (2 ^ 64 - 1) }
    ensures known { Known store.new }
{
    match since {
        Some(mark) => prop.step_since(store, mark),
        None => prop.step(store),
    }
}

/// Which propagator is asked first for the next step, where the one at a place has just taken values. Where much was lost since that was still last,
/// it is the same, until it is still once more: so it doesn't look at the same losses in each of its turns. Else it is the first.
fn asked_next(store: &Store, rests: &Rests, at: usize) -> usize
    requires place { at < length rests.now }
    requires mark { (mark : ℕ) → slice_index_or rests.now at None ≡ Some mark → mark < length store.now.history }
{
    let Some(mark) = rests.mark_of(at) else {
        return 0;
    };
    if store.removed_since(mark).len() > 512 {
        return at;
    }
    0
}

/// Lets each propagator that is awake take its steps, until all are still or one finds no closed box.
pub(crate) fn run<P: Propagator>(
    store: &mut Store,
    props: &[P],
    wakes: &[Wake],
    awake: &mut Awake,
    rests: &mut Rests,
) -> Fixpoint
    requires stand { All (λ p. StandsIn (P.stands p) store.old.parts) props.now }
    requires wakes { map (λ w. w.0) wakes.now ≡ map P.kinds props.now }
    requires awake { length awake.old ≡ length props.now }
    requires asleep { SleepersStill P.still props.now awake.old store.old.parts store.old.now }
    requires rests { AreHeld P.still props.now store.old rests.old }
    requires known { Known store.old }
    ensures extends { Extends store.old store.new }
    ensures settles { Settles result P.stands props.now store.old store.new }
    ensures still { AreStill result P.still props.now store.new }
    ensures turns { store.new.turns
        ≤ store.old.turns
        + (count_set awake.old + (lost_count store.old.now store.new.now + woken_count store.old.parts (map P.kinds props.now) store.old.now store.new.now)) }
    ensures known { Known store.new }
    ensures length { length awake.new ≡ length awake.old }
    ensures rest_count { length rests.new ≡ length rests.old }
{
    P::laws();
    let mut asked = 0;
    while let Some(at) = awake.next(asked) {
        match step(&props[at], store, rests.mark_of(at)) {
            Moved::Same => {
                awake.sleep(at);
                rests.set(at, store.mark());
            }
            Moved::Changed(lost) => {
                wake(wakes, lost, awake);
                asked = asked_next(store, rests, at);
            }
            Moved::Dead => return Fixpoint::Dead,
        }
    }
    Fixpoint::Settled
}
