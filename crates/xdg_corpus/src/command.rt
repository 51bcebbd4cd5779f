//! The command `corpus`.

ghost use Rattle.std.specs.Prelude.{◌≡◌, ◌≢◌, ◌≤◌, ◌⊎◌, ℕ, List, [], Option, Some, length};
ghost use Rattle.xdg_corpus.specs.Outcomes.{CorpusEnds, CorpusOf, LinesThen};
ghost use Rattle.xdg_corpus.specs.Texts.{CanSearch};
ghost use Rattle.xdg_inputs.specs.Answers.{meaning_of};
ghost use Rattle.xdg_inputs.specs.RightLexicons.{HasRightLexicon};
ghost use Rattle.xdg_io.specs.Rose.{Rose};
ghost use Rattle.xdg_inputs.specs.Loaded.{read_of};
ghost use Rattle.xdg_inputs.specs.Outcomes.{MeaningThen};
ghost use Rattle.xdg_corpus.specs.Runs.{LeavesPart};

use crate::input::{read_input, text_of};
use crate::printing::print_lines;
use std::alloc::Global;
use std::thread::Threads;
use xdg_command::CorpusOptions;
use xdg_inputs::{Expanded, Loaded, Status, expand_tree, load_tree, refuse, stopped_in};
use xdg_io::{Shelf, Sink, Source};

/// Reads the lines of the input and prints them, or the fault line of what is refused.
fn corpus_expanded<R: Threads + Sync, S: Source, K: Sink>(
    rt: &R,
    alloc: Global,
    options: &CorpusOptions,
    expanded: &Expanded,
    input: &mut S,
    out: &mut K,
) -> Status
    requires lexicon { HasRightLexicon expanded.now }
    requires range { CanSearch options.now }
    ensures leaves { (content : List ℕ) → S.left input.old ≡ Some content
        → LeavesPart (LinesThen options.now content (meaning_of expanded.now)) result (K.held out.old) (K.held out.new) }
    ensures unwritten { result ≡ Status.ReadFault → K.held out.new ≡ K.held out.old }
    ensures read_fault { result ≡ Status.ReadFault → Rose (S.faults input.old) (S.faults input.new) }
    ensures write_fault { result ≡ Status.WriteFault → Rose (K.faults out.old) (K.faults out.new) }
    ensures input_lasting { S.faults input.old ≤ S.faults input.new }
    ensures input_quiet { result ≢ Status.ReadFault → S.faults input.new ≡ S.faults input.old }
    ensures out_lasting { K.faults out.old ≤ K.faults out.new }
    ensures out_quiet { result ≢ Status.WriteFault → K.faults out.new ≡ K.faults out.old }
    ensures ends { CorpusEnds result }
    ensures all_read { (content : List ℕ) → result ≡ Status.Done → S.left input.old ≡ Some content → S.left input.new ≡ Some [] }
    ensures accepted { (result ≡ Status.BadText → ⊥) × (result ≡ Status.BadGrammar → ⊥) }
{
    let bytes = match read_input(alloc, input) {
        Ok(bytes) => bytes,
        Err(refusal) => return refuse(refusal, Status::BadSentence, out),
    };
    match text_of(&bytes) {
        Ok(text) => print_lines(rt, alloc, options, expanded, text, out),
        Err(refusal) => refuse(refusal, Status::BadSentence, out),
    }
}

/// Searches the lines of the input by the grammar of a text, or prints the fault line of what is refused.
fn corpus_loaded<R: Threads + Sync, S: Source, K: Sink>(
    rt: &R,
    alloc: Global,
    options: &CorpusOptions,
    loaded: Loaded,
    input: &mut S,
    out: &mut K,
) -> Status
    requires short { length loaded.text.items ≤ 4194304 }
    requires range { CanSearch options.now }
    ensures leaves { (content : List ℕ) → S.left input.old ≡ Some content
        → LeavesPart (MeaningThen (read_of loaded) (LinesThen options.now content)) result (K.held out.old) (K.held out.new) }
    ensures unwritten { result ≡ Status.ReadFault → K.held out.new ≡ K.held out.old }
    ensures read_fault { result ≡ Status.ReadFault → Rose (S.faults input.old) (S.faults input.new) }
    ensures write_fault { result ≡ Status.WriteFault → Rose (K.faults out.old) (K.faults out.new) }
    ensures input_lasting { S.faults input.old ≤ S.faults input.new }
    ensures input_quiet { result ≢ Status.ReadFault → S.faults input.new ≡ S.faults input.old }
    ensures out_lasting { K.faults out.old ≤ K.faults out.new }
    ensures out_quiet { result ≢ Status.WriteFault → K.faults out.new ≡ K.faults out.old }
    ensures ends { CorpusEnds result }
    ensures unread { (result ≡ Status.BadText) ⊎ (result ≡ Status.BadGrammar) → S.left input.new ≡ S.left input.old }
    ensures all_read { (content : List ℕ) → result ≡ Status.Done → S.left input.old ≡ Some content → S.left input.new ≡ Some [] }
{
    let Loaded { text, tree } = loaded;
    match expand_tree(alloc, tree) {
        Ok(expanded) => corpus_expanded(rt, alloc, options, &expanded, input, out),
        Err(stop) => refuse(stopped_in(&text, stop), Status::BadGrammar, out),
    }
}

/// Loads a grammar, and prints the analyses of each line of the input with its number, or its fault line; or prints the fault line of a
/// grammar or an input that is refused. Lines are searched in groups of 16 to 1,024, those of a group side by side. The search of each
/// line is charged a budget of its own.
pub fn corpus<R: Threads + Sync, H: Shelf, S: Source, K: Sink>(
    rt: &R,
    alloc: Global,
    options: &CorpusOptions,
    shelf: &mut H,
    input: &mut S,
    out: &mut K,
) -> Status
    requires { CanSearch options.now }
    ensures leaves { (files : List ℕ → Option (List ℕ)) (content : List ℕ) → H.files shelf.old ≡ Some files → S.left input.old ≡ Some content
        → LeavesPart (CorpusOf options.now files content) result (K.held out.old) (K.held out.new) }
    ensures unwritten { result ≡ Status.ReadFault → K.held out.new ≡ K.held out.old }
    ensures read_fault { result ≡ Status.ReadFault
        → Rose (H.faults shelf.old options.now.grammar) (H.faults shelf.new options.now.grammar) ⊎ Rose (S.faults input.old) (S.faults input.new) }
    ensures write_fault { result ≡ Status.WriteFault → Rose (K.faults out.old) (K.faults out.new) }
    ensures files { H.files shelf.new ≡ H.files shelf.old }
    ensures shelf_lasting { (other : List ℕ) → H.faults shelf.old other ≤ H.faults shelf.new other }
    ensures shelf_quiet { (other : List ℕ) → result ≢ Status.ReadFault → H.faults shelf.new other ≡ H.faults shelf.old other }
    ensures input_lasting { S.faults input.old ≤ S.faults input.new }
    ensures input_quiet { result ≢ Status.ReadFault → S.faults input.new ≡ S.faults input.old }
    ensures out_lasting { K.faults out.old ≤ K.faults out.new }
    ensures out_quiet { result ≢ Status.WriteFault → K.faults out.new ≡ K.faults out.old }
    ensures ends { CorpusEnds result }
    ensures unread { (result ≡ Status.BadText) ⊎ (result ≡ Status.BadGrammar) → S.left input.new ≡ S.left input.old }
    ensures all_read { (content : List ℕ) → result ≡ Status.Done → S.left input.old ≡ Some content → S.left input.new ≡ Some [] }
{
    match load_tree(alloc, shelf, options.grammar.as_str()) {
        Ok(loaded) => corpus_loaded(rt, alloc, options, loaded, input, out),
        Err(refusal) => refuse(refusal, Status::BadText, out),
    }
}
