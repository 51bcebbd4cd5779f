//! Whether an analysis keeps a rule or a bound.

ghost use Rattle.std.specs.Prelude.{◌↔◌, IsTrue};
ghost use Rattle.xdg_problem.specs.Relations.{IsKeptWhole};
ghost use Rattle.xdg_judge.specs.Views.{IsView};

use crate::truths::formula_holds;
use crate::view::View;
use xdg_problem::{Principle, cost_of};

/// Whether the analysis keeps what a principle use asks of all decisions together.
pub(crate) fn keeps_whole(view: &View) -> bool
    requires { IsView view.now.parts.now view.now.group.now view.now.analysis.now view.now.first_dim view.now.second_dim view.now.first view.now.second }
    ensures { IsTrue result ↔ IsKeptWhole view.now.parts.now view.now.group.now view.now.analysis.now }
{
    match &view.group.principle {
        Principle::Rule(formula) => formula_holds(view.parts, view.analysis, formula),
        Principle::Bound(costs, bound) => cost_of(view.parts, costs, view.analysis) < *bound,
        _ => true,
    }
}
