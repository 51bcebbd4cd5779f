//! Problems with rules.

ghost use Rattle.std.specs.Prelude.{◌≡◌, ◌++◌, map, reverse, All, IfOk, OnOk};
ghost use Rattle.xdg_problem.specs.declared.parts.Principle.TheVariants as principles;
ghost use Rattle.xdg_problem.specs.Claims.{Suits};
ghost use Rattle.xdg_problem.specs.Further as further;

use crate::formula::Formula;
use crate::parts::{Feat, Group, Parts, Principle};
use crate::problem::Problem;
use crate::shared::SharedList;
use crate::uses::{no_features, use_of};
use std::alloc::Global;
use xdg_base::{List, OutOfMemory};

impl Problem {
    /// The problem with a rule for each formula behind its principle uses, in their order. [`further_laws`](crate::further_laws) says what
    /// it keeps.
    ///
    /// # Errors
    ///
    /// Fails where memory runs out, and then drops the problem.
    pub fn with_rules(self, alloc: Global, formulas: List<Formula>) -> Result<Problem, OutOfMemory>
        requires { All (Suits self) formulas }
        ensures { IfOk result (λ made. made ≡ further.with_uses self (further.rules_of self formulas)) }
    {
        let mut parts = self.into_parts();
        add_rules(alloc, &mut parts, formulas)?;
        Ok(Problem::of(parts))
    }
}

/// Adds a rule for each formula.
#[tactic(auto, using(crate::proofs::Turning::rules_placed))]
fn add_rules(alloc: Global, parts: &mut Parts, formulas: List<Formula>) -> Result<(), OutOfMemory>
    ensures { OnOk result (parts.new ≡ further.with_uses parts.old (further.rules_of parts.old formulas)) }
{
    let feats = no_features(alloc, parts.candidates.as_slice())?;
    let mut uses = rules_turned(alloc, feats.as_slice(), formulas)?;
    move_turned(&mut uses, &mut parts.groups)
}

/// The uses of rules, the last formula's first.
#[tactic(auto, using(crate::proofs::Turning::rule_more, crate::proofs::Turning::rule_end))]
fn rules_turned(
    alloc: Global,
    feats: &[SharedList<List<Feat>>],
    formulas: List<Formula>,
) -> Result<List<Group>, OutOfMemory>
    ensures { IfOk result (λ made. made ≡ reverse (map (λ formula. further.bare_use feats.now (principles.Rule formula)) formulas)) }
{
    let mut formulas = formulas;
    let mut made = List::new(alloc);
    while let Some(formula) = formulas.pop() {
        made.push(use_of(alloc, feats, Principle::Rule(formula))?)?;
    }
    Ok(made)
}

/// Moves principle uses behind others, the last first.
#[tactic(auto, using(xdg_facts::proofs::Turns::turn_more, xdg_facts::proofs::Turns::turn_end))]
fn move_turned(uses: &mut List<Group>, groups: &mut List<Group>) -> Result<(), OutOfMemory>
    ensures { OnOk result (groups.new ≡ groups.old ++ reverse uses.old) }
{
    while let Some(one) = uses.pop() {
        groups.push(one)?;
    }
    Ok(())
}
