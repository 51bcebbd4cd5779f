//! The command `drill`.

ghost use Rattle.std.specs.Prelude.{◌≡◌, ◌≢◌, ◌≤◌, ◌⊎◌, length};
ghost use Rattle.xdg_inputs.specs.Answers.{meaning_of};
ghost use Rattle.xdg_inputs.specs.RightLexicons.{HasRightLexicon};
ghost use Rattle.xdg_io.specs.Rose.{Rose};
ghost use Rattle.xdg_io.specs.Texts.{WritesText};
ghost use Rattle.xdg_inputs.specs.Outcomes.{MeaningThen};
ghost use Rattle.xdg_inputs.specs.Runs.{Leaves, Wrote};
ghost use Rattle.xdg_searches.specs.Outcomes.{DrillOf, DrillSentence, Drilled, drill_line};
ghost use Rattle.xdg_searches.specs.Runs.{DrillEnds};

use crate::counting::{Counts, count_judged};
use crate::generator::{grammar_text, sentence_text};
use crate::printing::status_of;
use std::alloc::Global;
use xdg_ast::Grammar;
use xdg_base::OutOfMemory;
use xdg_command::BUDGET;
use xdg_engine::props;
use xdg_facts::Ending;
use xdg_inputs::{Expanded, Status, expand_tree, problem_in, read_tree, refuse, stopped_in};
use xdg_io::{Failed, Sink};
use xdg_problem::Problem;
use xdg_text::{Word, write_line};

/// Writes the one line of a drill.
fn write_counts<K: Sink>(
    number: u64,
    words: usize,
    entries: usize,
    counts: Counts,
    out: &mut K,
) -> Result<(), Failed>
    ensures { WritesText result (K.held out.old) (K.held out.new) (K.faults out.old) (K.faults out.new) (drill_line number words entries counts) }
{
    let line = [
        Word::Number(number),
        Word::Plain("words"),
        Word::Number(words as u64),
        Word::Plain("entries"),
        Word::Number(entries as u64),
        Word::Plain("analyses"),
        Word::Number(counts.analyses),
        Word::Plain("broken"),
        Word::Number(counts.broken),
        Word::Plain("spent"),
    ];
    match counts.ending {
        Ending::Complete => write_line("drill", &line[..9], out),
        Ending::First => write_line("drill", &line[..9], out),
        Ending::Spent => write_line("drill", &line, out),
    }
}

/// Judges the analyses of a sentence and prints how many there are.
fn drill_problem<K: Sink>(
    alloc: Global,
    number: u64,
    expanded: &Expanded,
    problem: &Problem,
    out: &mut K,
) -> Status
    ensures leaves { Leaves (Drilled number (meaning_of expanded.now) problem.now) result (K.held out.old) (K.held out.new) }
    ensures write_fault { result ≡ Status.WriteFault → Rose (K.faults out.old) (K.faults out.new) }
    ensures out_lasting { K.faults out.old ≤ K.faults out.new }
    ensures out_quiet { result ≢ Status.WriteFault → K.faults out.new ≡ K.faults out.old }
    ensures ends { (result ≡ Status.Done) ⊎ ((result ≡ Status.Spent) ⊎ ((result ≡ Status.WriteFault) ⊎ (result ≡ Status.OutOfMemory))) }
{
    let Ok(propagators) = props(alloc, problem) else {
        return Status::OutOfMemory;
    };
    let Ok(counts) = count_judged(alloc, problem, propagators.as_slice(), BUDGET) else {
        return Status::OutOfMemory;
    };
    let words = problem.parts().words.len();
    let written = write_counts(number, words, expanded.lexicon.len(), counts, out);
    if written.is_err() {
        return Status::WriteFault;
    }
    status_of(counts.ending)
}

/// Makes the problem of the generated sentence and prints how many analyses it has, or the fault line of what is refused.
fn drill_expanded<K: Sink>(alloc: Global, number: u64, expanded: &Expanded, out: &mut K) -> Status
    requires { HasRightLexicon expanded.now }
    ensures leaves { Leaves (DrillSentence number (meaning_of expanded.now)) result (K.held out.old) (K.held out.new) }
    ensures write_fault { result ≡ Status.WriteFault → Rose (K.faults out.old) (K.faults out.new) }
    ensures out_lasting { K.faults out.old ≤ K.faults out.new }
    ensures wrote { Wrote DrillEnds result (K.faults out.old) (K.faults out.new) (K.held out.old) (K.held out.new) }
{
    let Ok(sentence) = sentence_text(alloc, number) else {
        return Status::OutOfMemory;
    };
    match problem_in(alloc, expanded, false, sentence.as_str().as_bytes()) {
        Ok(problem) => drill_problem(alloc, number, expanded, &problem, out),
        Err(refusal) => refuse(refusal, Status::BadSentence, out),
    }
}

/// Finds out what the generated grammar means, and prints how many analyses its sentence has, or the fault line of what is refused.
fn drill_tree<K: Sink>(
    alloc: Global,
    number: u64,
    text: &[u8],
    tree: Grammar,
    out: &mut K,
) -> Status
    requires { length text.now ≤ 4194304 }
    ensures leaves { Leaves (MeaningThen (record { text = text.now; tree = tree }) (DrillSentence number)) result (K.held out.old) (K.held out.new) }
    ensures write_fault { result ≡ Status.WriteFault → Rose (K.faults out.old) (K.faults out.new) }
    ensures out_lasting { K.faults out.old ≤ K.faults out.new }
    ensures wrote { Wrote DrillEnds result (K.faults out.old) (K.faults out.new) (K.held out.old) (K.held out.new) }
{
    match expand_tree(alloc, tree) {
        Ok(expanded) => drill_expanded(alloc, number, &expanded, out),
        Err(stop) => refuse(stopped_in(text, stop), Status::BadGrammar, out),
    }
}

/// Makes a grammar and a sentence from a number, reads, checks and expands the one, finds all analyses of the other and judges each,
/// and prints how much that was. A grammar or a sentence that is refused gets its fault line, as that of a file does.
pub fn drill<K: Sink>(alloc: Global, number: u64, out: &mut K) -> Status
    ensures leaves { Leaves (DrillOf number) result (K.held out.old) (K.held out.new) }
    ensures write_fault { result ≡ Status.WriteFault → Rose (K.faults out.old) (K.faults out.new) }
    ensures out_lasting { K.faults out.old ≤ K.faults out.new }
    ensures wrote { Wrote DrillEnds result (K.faults out.old) (K.faults out.new) (K.held out.old) (K.held out.new) }
{
    let Ok(text) = grammar_text(alloc, number) else {
        return Status::OutOfMemory;
    };
    let bytes = text.as_str().as_bytes();
    match read_tree(alloc, bytes) {
        Ok(tree) => drill_tree(alloc, number, bytes, tree, out),
        Err(stop) => refuse(stopped_in(bytes, stop), Status::BadText, out),
    }
}
