//! The first use that closes a cycle.

ghost use Rattle.std.specs.Prelude.{◌≡◌, ℕ, ◌<◌, length};
ghost use Rattle.xdg_names.specs.declared.graph.Use.{Use};
ghost use Rattle.xdg_names.specs.First.{Tells};
ghost use Rattle.xdg_facts.specs.Membership.{In};
ghost use Rattle.xdg_names.specs.Leads.{AreComponents, number};
ghost use Rattle.xdg_names.specs.Closing.{IsClosing, Meets, HasMeeting};

use crate::graph::{Components, Use};
use crate::order::earlier;
use xdg_base::{Cause, Fault, List};

/// The fault at a use that leads to a definition of this number.
fn meeting_use(numbers: &[usize], own: usize, used: Use) -> Option<Fault>
    requires { used.to < length numbers.now }
    ensures { Tells (Meets numbers.now own used) result }
{
    if numbers[used.to] == own {
        Some(Fault::at(Cause::Cycle, used.at))
    } else {
        None
    }
}

/// The first fault at a use that leads to a definition of this number.
fn meeting_uses(numbers: &[usize], own: usize, uses: &[Use]) -> Option<Fault>
    requires { (u : Use) → In uses.now u → u.to < length numbers.now }
    ensures { Tells (HasMeeting numbers.now own uses.now) result }
{
    let mut found = None;
    for i in 0..uses.len() {
        found = earlier(found, meeting_use(numbers, own, uses[i]));
    }
    found
}

/// The first use, by its place, that stands inside a definition to which it leads back, as a fault of the cause
/// `Cycle`, if there is one.
pub fn closing(components: &Components, graph: &[List<Use>]) -> Option<Fault>
    requires { AreComponents graph.now components.now.numbers components.now.order }
    ensures { Tells (IsClosing graph.now) result }
{
    let numbers = components.numbers.as_slice();
    let mut found = None;
    for definition in 0..graph.len() {
        let uses = graph[definition].as_slice();
        found = earlier(found, meeting_uses(numbers, numbers[definition], uses));
    }
    found
}
