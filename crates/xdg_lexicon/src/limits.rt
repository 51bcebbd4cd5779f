//! The limits of expansion.

ghost use Rattle.std.specs.Prelude.{◌≡◌, ◌+◌, ◌≤◌, ℕ, IfOk, IfErr};
ghost use Rattle.xdg_base.specs.declared.faults.Fault as faults;
ghost use Rattle.xdg_base.specs.declared.faults.Stop.TheVariants as stops;
ghost use Rattle.xdg_facts.specs.Capped.{capped};
ghost use Rattle.xdg_lexicon.specs.Lexicon.{IsWithinLimits, IsTooMany};

use xdg_base::{Cause, Fault, Stop};

/// The most uses of classes of one `defentry`, and the most combinations.
const MOST_OF_ONE: u64 = 65_536;
/// The most uses of classes of a grammar, and the most combinations.
const MOST_OF_ALL: u64 = 1_048_576;
/// The most entries.
pub(crate) const MOST_ENTRIES: usize = 65_536;
/// The most entries of one word.
pub(crate) const MOST_OF_WORD: usize = 1_024;

/// A refusal where a limit is passed.
pub(crate) fn passed(cause: Cause, at: u32, reached: u64) -> Stop
    ensures { result ≡ stops.Fault (record { cause = cause; at = at; reached = reached }) }
{
    Stop::Fault(Fault { cause, at, reached })
}

/// The sum of a number of one `defentry`, or the greatest `u64`, with those before it. The error is that one of the two
/// limits is passed.
pub(crate) fn sum_within(cause: Cause, at: u32, before: u64, count: u64) -> Result<u64, Stop>
    requires { before ≤ 1048576 }
    ensures within { IfOk result (λ sum. (n : ℕ) → count ≡ capped n → IsWithinLimits before n × (sum ≡ before + n)) }
    ensures many { IfErr result (λ stop. (n : ℕ) → count ≡ capped n → (f : faults.Fault) × ((stop ≡ stops.Fault f) × IsTooMany cause at before n f)) }
{
    if count > MOST_OF_ONE {
        return Err(passed(cause, at, count));
    }
    let sum = before + count;
    if sum > MOST_OF_ALL {
        return Err(passed(cause, at, sum));
    }
    Ok(sum)
}
