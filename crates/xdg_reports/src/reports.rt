//! The commands `check`, `lexicon` and `print`: a report on a grammar is a text, which is written in one place.

ghost use Rattle.std.specs.Prelude.{◌≡◌, ◌≢◌, ◌≤◌, ◌⊎◌, ℕ, List, Option, Some, length, IfOk};
ghost use Rattle.xdg_io.specs.Rose.{Rose};
ghost use Rattle.xdg_inputs.specs.Loaded.{read_of};
ghost use Rattle.xdg_inputs.specs.Outcomes.{IsDone};
ghost use Rattle.xdg_inputs.specs.Runs.{Leaves, Wrote};
ghost use Rattle.xdg_reports.specs.Outcomes.{ReportOf, ReportThen, counts_line};
ghost use Rattle.xdg_reports.specs.Runs.{EndsOf};

use std::alloc::Global;
use xdg_base::{Bytes, OutOfMemory};
use xdg_inputs::{Loaded, Status, expand_tree, load_tree, refuse, stopped_in};
use xdg_io::{Failed, Shelf, Sink, write_all};
use xdg_print::{lexicon_text, print};
use xdg_text::{Kept, Word, write_line};

/// A report on a grammar.
#[derive(Clone, Copy, Debug)]
pub enum Report {
    /// How much it holds: the numbers of its used dimensions, of its classes and of its entries.
    Check,
    /// Its entries.
    Lexicon,
    /// Its canonical text.
    Print,
}

/// Writes the text of a run that is done.
fn write_text<K: Sink>(text: &[u8], out: &mut K) -> Status
    ensures leaves { Leaves (IsDone text.now) result (K.held out.old) (K.held out.new) }
    ensures ends { (result ≡ Status.Done) ⊎ (result ≡ Status.WriteFault) }
    ensures write_fault { result ≡ Status.WriteFault → Rose (K.faults out.old) (K.faults out.new) }
    ensures out_lasting { K.faults out.old ≤ K.faults out.new }
    ensures out_quiet { result ≢ Status.WriteFault → K.faults out.new ≡ K.faults out.old }
{
    match write_all(out, text) {
        Ok(()) => Status::Done,
        Err(Failed) => Status::WriteFault,
    }
}

/// The line of `check`.
fn counts_line(alloc: Global, dims: usize, classes: usize, entries: usize) -> Result<Bytes, Failed>
    ensures { IfOk result (λ line. line ≡ counts_line dims classes entries) }
{
    let words = [
        Word::Plain("dims"),
        Word::Number(dims as u64),
        Word::Plain("classes"),
        Word::Number(classes as u64),
        Word::Plain("entries"),
        Word::Number(entries as u64),
    ];
    let mut kept = Kept::new(alloc);
    write_line("ok", &words, &mut kept)?;
    Ok(kept.into_bytes())
}

/// Prints how much the grammar of a text holds, or the fault line of what is refused.
fn check_loaded<K: Sink>(alloc: Global, loaded: Loaded, out: &mut K) -> Status
    requires { length loaded.text.items ≤ 4194304 }
    ensures leaves { Leaves (ReportThen Report.Check (read_of loaded)) result (K.held out.old) (K.held out.new) }
    ensures write_fault { result ≡ Status.WriteFault → Rose (K.faults out.old) (K.faults out.new) }
    ensures out_lasting { K.faults out.old ≤ K.faults out.new }
    ensures wrote { Wrote (EndsOf Report.Check) result (K.faults out.old) (K.faults out.new) (K.held out.old) (K.held out.new) }
    ensures command { (result ≡ Status.Usage → ⊥) × (result ≡ Status.ReadFault → ⊥) }
{
    let Loaded { text, tree } = loaded;
    let expanded = match expand_tree(alloc, tree) {
        Ok(expanded) => expanded,
        Err(stop) => return refuse(stopped_in(&text, stop), Status::BadGrammar, out),
    };
    let dims = expanded.checked.types().used().len();
    let classes = expanded.checked.classes().len();
    match counts_line(alloc, dims, classes, expanded.lexicon.len()) {
        Ok(line) => write_text(line.as_slice(), out),
        Err(Failed) => Status::OutOfMemory,
    }
}

/// Prints the entries of the grammar of a text, or the fault line of what is refused.
fn list_loaded<K: Sink>(alloc: Global, loaded: Loaded, out: &mut K) -> Status
    requires { length loaded.text.items ≤ 4194304 }
    ensures leaves { Leaves (ReportThen Report.Lexicon (read_of loaded)) result (K.held out.old) (K.held out.new) }
    ensures write_fault { result ≡ Status.WriteFault → Rose (K.faults out.old) (K.faults out.new) }
    ensures out_lasting { K.faults out.old ≤ K.faults out.new }
    ensures wrote { Wrote (EndsOf Report.Lexicon) result (K.faults out.old) (K.faults out.new) (K.held out.old) (K.held out.new) }
    ensures command { (result ≡ Status.Usage → ⊥) × (result ≡ Status.ReadFault → ⊥) }
{
    let Loaded { text, tree } = loaded;
    let expanded = match expand_tree(alloc, tree) {
        Ok(expanded) => expanded,
        Err(stop) => return refuse(stopped_in(&text, stop), Status::BadGrammar, out),
    };
    match lexicon_text(alloc, expanded.checked.types(), &expanded.lexicon) {
        Ok(text) => write_text(text.as_str().as_bytes(), out),
        Err(OutOfMemory) => Status::OutOfMemory,
    }
}

/// Prints the canonical text of the grammar of a text.
fn print_loaded<K: Sink>(alloc: Global, loaded: Loaded, out: &mut K) -> Status
    ensures leaves { Leaves (ReportThen Report.Print (read_of loaded)) result (K.held out.old) (K.held out.new) }
    ensures write_fault { result ≡ Status.WriteFault → Rose (K.faults out.old) (K.faults out.new) }
    ensures out_lasting { K.faults out.old ≤ K.faults out.new }
    ensures wrote { Wrote (EndsOf Report.Print) result (K.faults out.old) (K.faults out.new) (K.held out.old) (K.held out.new) }
    ensures command { (result ≡ Status.Usage → ⊥) × (result ≡ Status.ReadFault → ⊥) }
{
    match print(alloc, &loaded.tree) {
        Ok(text) => write_text(text.as_str().as_bytes(), out),
        Err(OutOfMemory) => Status::OutOfMemory,
    }
}

/// Loads a grammar and prints a report on it, or the fault line of what is refused.
pub fn print_report<H: Shelf, K: Sink>(
    alloc: Global,
    report: Report,
    name: &str,
    shelf: &mut H,
    out: &mut K,
) -> Status
    ensures leaves { (files : List ℕ → Option (List ℕ)) → H.files shelf.old ≡ Some files
        → Leaves (ReportOf report name.now files) result (K.held out.old) (K.held out.new) }
    ensures read_fault { result ≡ Status.ReadFault → Rose (H.faults shelf.old name.now) (H.faults shelf.new name.now) }
    ensures write_fault { result ≡ Status.WriteFault → Rose (K.faults out.old) (K.faults out.new) }
    ensures files { H.files shelf.new ≡ H.files shelf.old }
    ensures shelf_lasting { (other : List ℕ) → H.faults shelf.old other ≤ H.faults shelf.new other }
    ensures shelf_quiet { (other : List ℕ) → result ≢ Status.ReadFault → H.faults shelf.new other ≡ H.faults shelf.old other }
    ensures out_lasting { K.faults out.old ≤ K.faults out.new }
    ensures wrote { Wrote (EndsOf report) result (K.faults out.old) (K.faults out.new) (K.held out.old) (K.held out.new) }
    ensures command { result ≡ Status.Usage → ⊥ }
{
    let loaded = match load_tree(alloc, shelf, name) {
        Ok(loaded) => loaded,
        Err(refusal) => return refuse(refusal, Status::BadText, out),
    };
    match report {
        Report::Check => check_loaded(alloc, loaded, out),
        Report::Lexicon => list_loaded(alloc, loaded, out),
        Report::Print => print_loaded(alloc, loaded, out),
    }
}
