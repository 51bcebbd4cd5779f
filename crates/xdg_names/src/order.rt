//! The first of several faults: the one with the least place, at one place the one with the least number, and of one place
//! and number the one that reached least.
//!
//! No text has two offences of one place and one number that reached different numbers. The third key is there so that no
//! proof has to say this: the first of any set of faults is one fault, and no other is told in its stead.

ghost use Rattle.std.specs.Prelude.{◌≡◌};
ghost use Rattle.xdg_names.specs.First as first;
ghost use Rattle.xdg_names.specs.First.{IsOneFirst};

use xdg_base::{Fault, number};

/// Whether the first of two faults comes before the second. Of two different faults exactly one does; the clause `one` says so
/// of the order itself, whatever the answer.
#[tactic(auto, using(crate::proofs::One::one_of_two))]
pub fn is_before(a: Fault, b: Fault) -> bool
    ensures exact { result ≡ first.is_before a b }
    ensures one { IsOneFirst }
{
    if a.at != b.at {
        a.at < b.at
    } else if number(a.cause) != number(b.cause) {
        number(a.cause) < number(b.cause)
    } else {
        a.reached < b.reached
    }
}

/// The one of two faults that comes first. Of two equal ones it is the one on the left.
pub fn earlier(a: Option<Fault>, b: Option<Fault>) -> Option<Fault>
    ensures { result ≡ first.earlier a b }
{
    match (a, b) {
        (None, _) => b,
        (_, None) => a,
        (Some(x), Some(y)) if is_before(y, x) => b,
        (Some(_), Some(_)) => a,
    }
}
