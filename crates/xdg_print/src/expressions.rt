//! Expressions.

ghost use Rattle.std.specs.Prelude.{◌≡◌, OnOk};
ghost use Rattle.xdg_ast.specs.Trees.{expr_phrase};
ghost use Rattle.xdg_print.specs.Printed.{put, is_joined, is_disjoined};

use crate::printer::Printer;
use xdg_ast::{ExprKind, Kind, Params};
use xdg_base::OutOfMemory;

/// Whether an expression stands in brackets in a conjunction.
#[tactic(auto, using(crate::proofs::WrittenTerms::expr_steps))]
fn is_joined(params: &Params, expr: &ExprKind) -> bool
    ensures { result ≡ is_joined (expr_phrase params.now expr.now) }
{
    matches!(expr, ExprKind::Or(_) | ExprKind::And(_))
}

/// Whether an expression stands in brackets in a disjunction.
#[tactic(auto, using(crate::proofs::WrittenTerms::expr_steps))]
fn is_disjoined(params: &Params, expr: &ExprKind) -> bool
    ensures { result ≡ is_disjoined (expr_phrase params.now expr.now) }
{
    matches!(expr, ExprKind::Or(_))
}

impl Printer {
    /// Adds an expression in the body of a class with these parameters.
    #[tactic(auto, using(crate::proofs::WrittenTerms::expr_steps))]
    pub(crate) fn expr(&mut self, params: &Params, expr: &ExprKind) -> Result<(), OutOfMemory>
        ensures { OnOk result (self.new ≡ put (expr_phrase params.now expr.now).words self.old) }
    {
        match expr {
            ExprKind::And(members) => {
                let mut first = true;
                for member in members.as_slice() {
                    let brackets = is_joined(params, &member.kind);
                    self.open(Kind::Ampersand, first, brackets)?;
                    self.expr(params, &member.kind)?;
                    self.close(brackets)?;
                    first = false;
                }
                Ok(())
            }
            ExprKind::Or(members) => {
                let mut first = true;
                for member in members.as_slice() {
                    let brackets = is_disjoined(params, &member.kind);
                    self.open(Kind::Bar, first, brackets)?;
                    self.expr(params, &member.kind)?;
                    self.close(brackets)?;
                    first = false;
                }
                Ok(())
            }
            ExprKind::Dim(name, pairs) => {
                self.mark(Kind::Dim)?;
                self.name(name)?;
                self.terms(params, pairs.as_slice())
            }
            ExprKind::Use(name, None) => self.name(name),
            ExprKind::Use(name, Some(pairs)) => {
                self.name(name)?;
                self.terms(params, pairs.as_slice())
            }
        }
    }
}
