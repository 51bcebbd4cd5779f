//! The lines of a text, group by group.

ghost use Rattle.std.specs.Prelude.{◌≡◌, ◌≢◌, ◌≤◌, ◌⊎◌, ℕ, List, length};
ghost use Rattle.xdg_build.specs.Stocks.{IsStock};
ghost use Rattle.xdg_corpus.specs.Outcomes.{AreSearched};
ghost use Rattle.xdg_corpus.specs.Texts.{CanSearch};
ghost use Rattle.xdg_inputs.specs.Answers.{grammar_in, meaning_of};
ghost use Rattle.xdg_inputs.specs.RightLexicons.{HasRightLexicon};
ghost use Rattle.xdg_io.specs.Rose.{Rose};
ghost use Rattle.xdg_corpus.specs.Runs.{LeavesPart};

use crate::ahead::answer_and_take;
use crate::group::{Group, take_group};
use crate::sizes::{FEWEST, bytes_before, next_size};
use crate::writing::write_group;
use std::alloc::Global;
use std::thread::Threads;
use xdg_base::OutOfMemory;
use xdg_build::Stock;
use xdg_command::CorpusOptions;
use xdg_inputs::{Expanded, Status};
use xdg_io::Sink;

/// Prints the lines of a text in groups, one after the other, of which the first line has number 1.
fn print_groups<R: Threads + Sync, K: Sink>(
    rt: &R,
    alloc: Global,
    options: &CorpusOptions,
    expanded: &Expanded,
    mut stock: Stock,
    text: &str,
    out: &mut K,
) -> Status
    requires small { length text.now ≤ 4194304 }
    requires lexicon { HasRightLexicon expanded.now }
    requires range { CanSearch options.now }
    requires stock { IsStock (grammar_in expanded.now) stock }
    ensures leaves { LeavesPart (AreSearched options.now (meaning_of expanded.now) text.now) result (K.held out.old) (K.held out.new) }
    ensures write_fault { result ≡ Status.WriteFault → Rose (K.faults out.old) (K.faults out.new) }
    ensures out_lasting { K.faults out.old ≤ K.faults out.new }
    ensures out_quiet { result ≢ Status.WriteFault → K.faults out.new ≡ K.faults out.old }
    ensures ends { (result ≡ Status.Done) ⊎ ((result ≡ Status.WriteFault) ⊎ (result ≡ Status.OutOfMemory)) }
{
    let Ok((mut group, mut rest)) = take_group(alloc, options, expanded, &mut stock, FEWEST, text)
    else {
        return Status::OutOfMemory;
    };
    let mut number: u64 = 1;
    let mut size = FEWEST;
    let mut from = text;
    let mut before = Group::new(alloc);
    while !from.is_empty() {
        let jobs = group.jobs.as_slice();
        let (answered, taken) = answer_and_take(
            rt, alloc, options, expanded, jobs, before, stock, size, rest,
        );
        let Ok(answered) = answered else {
            return Status::OutOfMemory;
        };
        let written = write_group(
            alloc,
            number,
            group.sentences.as_slice(),
            answered.as_slice(),
            out,
        );
        if written.is_err() {
            return Status::WriteFault;
        }
        let Ok((next, later, left)) = taken else {
            return Status::OutOfMemory;
        };
        size = next_size(size, bytes_before(rest, later), answered.as_slice());
        number += group.sentences.len() as u64;
        before = group;
        group = next;
        stock = left;
        from = rest;
        rest = later;
    }
    Status::Done
}

/// Prints the lines of a text: groups of lines, one after the other. The lines of a group are searched side by side, and their texts are
/// written in order before the next group is searched, which is made meanwhile. The first two groups have 16 lines, and each further one
/// twice as many as the one before, up to 64, or up to 1,024 where the lines of that one have at most 64 bytes on average. Where the texts of
/// a group have more than 1,048,576 bytes together, the second one behind it has 16 again; texts of fewer bytes are put together, and written
/// at once. So the searches that run at once take memory, and the problems of two groups and the texts of one, those of few bytes twice. What
/// problems share is made once.
pub(crate) fn print_lines<R: Threads + Sync, K: Sink>(
    rt: &R,
    alloc: Global,
    options: &CorpusOptions,
    expanded: &Expanded,
    text: &str,
    out: &mut K,
) -> Status
    requires small { length text.now ≤ 4194304 }
    requires lexicon { HasRightLexicon expanded.now }
    requires range { CanSearch options.now }
    ensures leaves { LeavesPart (AreSearched options.now (meaning_of expanded.now) text.now) result (K.held out.old) (K.held out.new) }
    ensures write_fault { result ≡ Status.WriteFault → Rose (K.faults out.old) (K.faults out.new) }
    ensures out_lasting { K.faults out.old ≤ K.faults out.new }
    ensures out_quiet { result ≢ Status.WriteFault → K.faults out.new ≡ K.faults out.old }
    ensures ends { (result ≡ Status.Done) ⊎ ((result ≡ Status.WriteFault) ⊎ (result ≡ Status.OutOfMemory)) }
{
    match Stock::new(alloc, &expanded.checked, &expanded.lexicon) {
        Ok(stock) => print_groups(rt, alloc, options, expanded, stock, text, out),
        Err(OutOfMemory) => Status::OutOfMemory,
    }
}
