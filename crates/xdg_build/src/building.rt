//! The problem of a sentence.

ghost use Rattle.std.specs.Prelude.{◌≡◌, None, IfOk, IfErr, OnOk, MatchResult};
ghost use Rattle.xdg_base.specs.declared.faults.Fault.{Fault};
ghost use Rattle.xdg_base.specs.declared.faults.Stop.TheVariants as stops;
ghost use Rattle.xdg_build.specs.Compiled.{compiled};
ghost use Rattle.xdg_build.specs.Refusals.{refusal, IsRefused};
ghost use Rattle.xdg_build.specs.Solutions.{KeepsSolutions};
ghost use Rattle.xdg_build.specs.Stocks.{IsStock};
ghost use Rattle.xdg_check.specs.Checked.{IsChecked};
ghost use Rattle.xdg_packed.specs.Entries.{IsRightLexicon, IsWordPlace};
ghost use Rattle.xdg_build.specs.Grammars.{grammar_of};

use crate::candidates::candidates;
use crate::nodes::over_nodes;
use crate::refusals::refusal;
use crate::stock::Stock;
use std::alloc::Global;
use xdg_base::{List, OutOfMemory, Stop};
use xdg_check::Checked;
use xdg_packed::Packed;
use xdg_problem::{Parts, Problem, SentenceWord};

/// The problem of a sentence that is not refused.
fn compile(
    alloc: Global,
    checked: &Checked,
    packed: &Packed,
    stock: &mut Stock,
    words: List<SentenceWord>,
) -> Result<Problem, OutOfMemory>
    requires lexicon { IsRightLexicon checked.now.types packed.now.entries }
    requires place { IsWordPlace checked.now.types packed.now.dim packed.now.field }
    requires stock { IsStock (grammar_of checked.now packed.now) stock.old }
    requires admitted { refusal (grammar_of checked.now packed.now) words ≡ None }
    ensures compiled { IfOk result (λ problem. problem ≡ compiled (grammar_of checked.now packed.now) words) }
    ensures keeps { IfOk result (λ _. IsChecked checked.now) }
    ensures stock { OnOk result (IsStock (grammar_of checked.now packed.now) stock.new) }
{
    let _ = checked.principles();
    let nodes = stock.nodes_of(alloc, checked, packed, words.as_slice())?;
    let candidates = candidates(alloc, nodes.as_slice())?;
    let dims = stock.dims.share()?;
    let groups = over_nodes(
        alloc,
        checked,
        packed,
        stock.uses.as_slice(),
        nodes.as_slice(),
    )?;
    Ok(Problem::of(Parts {
        words,
        candidates,
        dims,
        groups,
    }))
}

/// The same, which shares nothing with the problem of another sentence.
fn compile_alone(
    alloc: Global,
    checked: &Checked,
    packed: &Packed,
    words: List<SentenceWord>,
) -> Result<Problem, OutOfMemory>
    requires lexicon { IsRightLexicon checked.now.types packed.now.entries }
    requires place { IsWordPlace checked.now.types packed.now.dim packed.now.field }
    requires admitted { refusal (grammar_of checked.now packed.now) words ≡ None }
    ensures compiled { IfOk result (λ problem. problem ≡ compiled (grammar_of checked.now packed.now) words) }
    ensures keeps { IfOk result (λ _. IsChecked checked.now) }
{
    let mut stock = Stock::new(alloc, checked, packed)?;
    compile(alloc, checked, packed, &mut stock, words)
}

impl Stock {
    /// The problem that the grammar makes of the words of a sentence, as [`build`] makes it. What it shares with the problems of other
    /// sentences is taken from here, and what it has first is kept here.
    ///
    /// # Errors
    ///
    /// Those of [`build`]. After `Stop::OutOfMemory` nothing more is to be built from here.
    #[tactic(auto, using(crate::proofs::Keeping::made_keeps_solutions))]
    pub fn build(
        &mut self,
        alloc: Global,
        checked: &Checked,
        packed: &Packed,
        words: List<SentenceWord>,
    ) -> Result<Problem, Stop>
        requires lexicon { IsRightLexicon checked.now.types packed.now.entries }
        requires place { IsWordPlace checked.now.types packed.now.dim packed.now.field }
        requires stock { IsStock (grammar_of checked.now packed.now) self.old }
        ensures compiled { IfOk result (λ problem. problem ≡ compiled (grammar_of checked.now packed.now) words) }
        ensures sentence { IfOk result (λ problem. refusal (grammar_of checked.now packed.now) words ≡ None) }
        ensures keeps { IfOk result (KeepsSolutions (grammar_of checked.now packed.now) words) }
        ensures refused { IfErr result (IsRefused (grammar_of checked.now packed.now) words) }
        ensures stock { MatchResult result (λ _. IsStock (grammar_of checked.now packed.now) self.new) (λ stop.
            (fault : Fault) → stop ≡ stops.Fault fault → IsStock (grammar_of checked.now packed.now) self.new) }
    {
        match refusal(packed, words.as_slice()) {
            Some(fault) => Err(Stop::Fault(fault)),
            None => Ok(compile(alloc, checked, packed, self, words)?),
        }
    }
}

/// The problem that a grammar makes of the words of a sentence. The packed lexicon is that of the grammar. The analyses
/// and the solutions of the problem are those of the grammar and the words.
///
/// # Errors
///
/// A sentence of no word is refused by `Cause::EmptySentence` at 0, one of more than 128 words by `Cause::TooManyWords`
/// at the 129th, and one with words that no entry has by `Cause::UnknownWord` at the first of these. Where two of them
/// apply, the one that stands first here is told. `Stop::OutOfMemory` says that no memory was to be had.
#[tactic(auto, using(crate::proofs::Keeping::made_keeps_solutions))]
pub fn build(
    alloc: Global,
    checked: &Checked,
    packed: &Packed,
    words: List<SentenceWord>,
) -> Result<Problem, Stop>
    requires lexicon { IsRightLexicon checked.now.types packed.now.entries }
    requires place { IsWordPlace checked.now.types packed.now.dim packed.now.field }
    ensures compiled { IfOk result (λ problem. problem ≡ compiled (grammar_of checked.now packed.now) words) }
    ensures sentence { IfOk result (λ problem. refusal (grammar_of checked.now packed.now) words ≡ None) }
    ensures keeps { IfOk result (KeepsSolutions (grammar_of checked.now packed.now) words) }
    ensures refused { IfErr result (IsRefused (grammar_of checked.now packed.now) words) }
{
    match refusal(packed, words.as_slice()) {
        Some(fault) => Err(Stop::Fault(fault)),
        None => Ok(compile_alone(alloc, checked, packed, words)?),
    }
}
