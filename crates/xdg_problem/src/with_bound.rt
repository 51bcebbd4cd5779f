//! Problems with a bound on costs.

ghost use Rattle.std.specs.Prelude.{◌≡◌, IfOk, OnOk};
ghost use Rattle.xdg_problem.specs.Further as further;

use crate::copying::copy_parts;
use crate::costs::Costs;
use crate::parts::{Parts, Principle};
use crate::problem::Problem;
use crate::uses::{no_features, use_of};
use std::alloc::Global;
use xdg_base::OutOfMemory;

impl Problem {
    /// A copy of the problem with a bound behind its principle uses: what costs less than the bound keeps it. It shares what can be
    /// shared. [`further_laws`](crate::further_laws) says what it keeps.
    ///
    /// # Errors
    ///
    /// Fails where memory runs out.
    pub fn with_bound(
        &self,
        alloc: Global,
        costs: &Costs,
        bound: u64,
    ) -> Result<Problem, OutOfMemory>
        ensures { IfOk result (λ made. made ≡ further.with_uses self.now (further.bound_of self.now costs.now bound)) }
    {
        let mut parts = copy_parts(alloc, self.parts())?;
        add_bound(alloc, &mut parts, costs, bound)?;
        Ok(Problem::of(parts))
    }
}

/// Adds a bound.
#[tactic(auto, using(crate::proofs::Turning::bound_placed))]
fn add_bound(alloc: Global, parts: &mut Parts, costs: &Costs, bound: u64) -> Result<(), OutOfMemory>
    ensures { OnOk result (parts.new ≡ further.with_uses parts.old (further.bound_of parts.old costs.now bound)) }
{
    let feats = no_features(alloc, parts.candidates.as_slice())?;
    let principle = Principle::Bound(costs.copy(alloc)?, bound);
    parts
        .groups
        .push(use_of(alloc, feats.as_slice(), principle)?)
}
