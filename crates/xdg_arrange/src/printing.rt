//! Arrangements, one after another.

ghost use Rattle.std.specs.Prelude.{◌≡◌, ◌≢◌, ◌≤◌, ◌<◌, ◌+◌, ◌⊎◌, ◌==◌, ◌^◌, cond, length, IfOk, OnOk};
ghost use Rattle.xdg_arrange.specs.Found.{IsOneFind, Writes, arrangement_line};
ghost use Rattle.xdg_arrange.specs.Lists.{word_limit};
ghost use Rattle.xdg_arrange.specs.Texts.{AreArranged};
ghost use Rattle.xdg_build.specs.Compiled.{compiled};
ghost use Rattle.xdg_build.specs.Solutions.{KeepsSolutions};
ghost use Rattle.xdg_build.specs.Stocks.{IsStock};
ghost use Rattle.xdg_inputs.specs.Answers.{grammar_in};
ghost use Rattle.xdg_io.specs.Rose.{Rose};
ghost use Rattle.xdg_linear.specs.Ranks.{words_at};
ghost use Rattle.xdg_inputs.specs.Runs.{LeavesFront};
ghost use Rattle.xdg_inputs.specs.RightLexicons.{HasRightLexicon};

use crate::searching::{Searched, print_arrangement};
use std::alloc::Global;
use xdg_base::{List, OutOfMemory};
use xdg_build::Stock;
use xdg_inputs::{Expanded, Status};
use xdg_io::Sink;
use xdg_linear::Arrangements;
use xdg_problem::{Problem, SentenceWord};
use xdg_text::{write_complete, write_spent};

/// The words that stand at ranks, in the order of these.
fn words_at(
    alloc: Global,
    words: &[SentenceWord],
    ranks: &[u8],
) -> Result<List<SentenceWord>, OutOfMemory>
    ensures { IfOk result (λ made. made ≡ words_at words.now ranks.now) }
{
    let mut made = List::new(alloc);
    for rank in ranks {
        let Some(word) = words.get(usize::from(*rank)) else {
            continue;
        };
        made.push(SentenceWord {
            text: word.text.copy(alloc)?,
            at: word.at,
        })?;
    }
    Ok(made)
}

/// The problem of the words at ranks, with what the problems of a grammar share from a stock of the grammar. Each of the words has an
/// entry, so it is not refused.
fn problem_at(
    alloc: Global,
    expanded: &Expanded,
    stock: &mut Stock,
    words: &List<SentenceWord>,
    ranks: &[u8],
) -> Result<Problem, OutOfMemory>
    requires lexicon { HasRightLexicon expanded.now }
    requires stock { IsStock (grammar_in expanded.now) stock.old }
    ensures stock { OnOk result (IsStock (grammar_in expanded.now) stock.new) }
    ensures compiled { IfOk result (λ problem. problem ≡ compiled (grammar_in expanded.now) (words_at words.now ranks.now)) }
    ensures keeps { IfOk result (KeepsSolutions (grammar_in expanded.now) (words_at words.now ranks.now)) }
{
    let words = words_at(alloc, words.as_slice(), ranks)?;
    match stock.build(alloc, &expanded.checked, &expanded.lexicon, words) {
        Ok(problem) => Ok(problem),
        Err(_) => Err(OutOfMemory),
    }
}

/// Searches the arrangement by ranks, and prints what is found.
fn print_ranks<K: Sink>(
    alloc: Global,
    budget: u64,
    expanded: &Expanded,
    stock: &mut Stock,
    words: &List<SentenceWord>,
    ranks: &[u8],
    number: u64,
    out: &mut K,
) -> Searched
    requires lexicon { HasRightLexicon expanded.now }
    requires stock { IsStock (grammar_in expanded.now) stock.old }
    ensures stock { result ≢ Searched.OutOfMemory → IsStock (grammar_in expanded.now) stock.new }
    ensures written { Writes result budget
        (compiled (grammar_in expanded.now) (words_at words.now ranks.now))
        (arrangement_line number (words_at words.now ranks.now)) (K.held out.old) (K.held out.new) }
    ensures one { result ≢ Searched.OutOfMemory → IsOneFind budget (compiled (grammar_in expanded.now) (words_at words.now ranks.now)) }
    ensures keeps { result ≢ Searched.OutOfMemory →
        KeepsSolutions (grammar_in expanded.now) (words_at words.now ranks.now)
        (compiled (grammar_in expanded.now) (words_at words.now ranks.now)) }
    ensures cause { result ≡ Searched.Failed → Rose (K.faults out.old) (K.faults out.new) }
    ensures lasting { K.faults out.old ≤ K.faults out.new }
    ensures quiet { result ≢ Searched.Failed → K.faults out.new ≡ K.faults out.old }
{
    match problem_at(alloc, expanded, stock, words, ranks) {
        Ok(problem) => print_arrangement(alloc, &problem, budget, number, out),
        Err(OutOfMemory) => Searched::OutOfMemory,
    }
}

/// How many arrangements are printed with one more, of which so many analyses were found.
fn with_printed(printed: u64, found: u64) -> u64
    requires { printed + 1 < 2 ^ 64 }
    ensures { result ≡ printed + cond (found == 0) 0 1 }
{
    if found == 0 { printed } else { printed + 1 }
}

/// Prints the arrangements of words, in rising order of their ranks, and the last line. The search of each is charged a budget of its
/// own, and the first one that spends it is the last.
pub(crate) fn print_arrangements<K: Sink>(
    alloc: Global,
    budget: u64,
    expanded: &Expanded,
    words: &List<SentenceWord>,
    out: &mut K,
) -> Status
    requires few { length words.now ≤ word_limit }
    requires lexicon { HasRightLexicon expanded.now }
    ensures leaves { LeavesFront
        (AreArranged budget (record { grammar = grammar_in expanded.now; words = words.now }))
        result (K.held out.old) (K.held out.new) }
    ensures write_fault { result ≡ Status.WriteFault → Rose (K.faults out.old) (K.faults out.new) }
    ensures out_lasting { K.faults out.old ≤ K.faults out.new }
    ensures out_quiet { result ≢ Status.WriteFault → K.faults out.new ≡ K.faults out.old }
    ensures ends { (result ≡ Status.Done) ⊎ ((result ≡ Status.Spent) ⊎ ((result ≡ Status.WriteFault) ⊎ (result ≡ Status.OutOfMemory))) }
{
    let Ok(mut stock) = Stock::new(alloc, &expanded.checked, &expanded.lexicon) else {
        return Status::OutOfMemory;
    };
    let Ok(mut arrangements) = Arrangements::of(alloc, words) else {
        return Status::OutOfMemory;
    };
    let mut printed: u64 = 0;
    // There are never so many arrangements: the bound keeps the number in range.
    'next: for _turn in 0..u64::MAX {
        if !arrangements.advance() {
            let written = write_complete(printed, out);
            if written.is_err() {
                return Status::WriteFault;
            }
            return Status::Done;
        }
        let searched = print_ranks(
            alloc,
            budget,
            expanded,
            &mut stock,
            words,
            arrangements.view(),
            printed + 1,
            out,
        );
        match searched {
            Searched::Whole(found) => printed = with_printed(printed, found),
            Searched::Spent(found) => {
                let written = write_spent(with_printed(printed, found), out);
                if written.is_err() {
                    return Status::WriteFault;
                }
                return Status::Spent;
            }
            Searched::Failed => return Status::WriteFault,
            Searched::OutOfMemory => return Status::OutOfMemory,
        }
    }
    Status::OutOfMemory
}
