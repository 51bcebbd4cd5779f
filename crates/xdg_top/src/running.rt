//! The one call that the program makes.

ghost use Rattle.std.specs.Prelude.{◌≡◌, ◌≢◌, ◌≤◌, ◌<◌, ◌⊎◌, ℕ, List, [], Option, Some, map};
ghost use Rattle.std.specs.String.{string_bytes};
ghost use Rattle.xdg_command.specs.Commands.{IsCommand};
ghost use Rattle.xdg_command.specs.declared.commands.Command as declared;
ghost use Rattle.xdg_io.specs.Rose.{Rose};
ghost use Rattle.xdg_inputs.specs.Runs.{Leaves};
ghost use Rattle.xdg_top.specs.Outcomes.{CommandOf, IsNoCommand, IsUsage, OutcomeOf, WantsSome};
ghost use Rattle.xdg_top.specs.Runs.{AreEarly, CommandWrote, EndsWith, FailsToRead, IsRefusedFile, LeavesBy, LeavesOf, ReadFailed, ReadsInput};

use std::alloc::Global;
use std::thread::Threads;
use xdg_arrange::arrange;
use xdg_base::OutOfMemory;
use xdg_best::best_sentence;
use xdg_command::{Command, command};
use xdg_corpus::corpus;
use xdg_inputs::Status;
use xdg_io::{Failed, Shelf, Sink, Source};
use xdg_reports::{Report, explain_analysis, print_report};
use xdg_searches::{drill, parse_sentence, resume_analysis};
use xdg_text::write_usage;

/// Runs a command.
fn run_command<R: Threads + Sync, H: Shelf, S: Source, K: Sink>(
    rt: &R,
    alloc: Global,
    command: &Command,
    shelf: &mut H,
    input: &mut S,
    out: &mut K,
) -> Status
    requires { WantsSome command.now }
    ensures leaves { (files : List ℕ → Option (List ℕ)) (content : List ℕ) → H.files shelf.old ≡ Some files →
        (ReadsInput command.now → S.left input.old ≡ Some content)
        → LeavesOf command.now (CommandOf command.now files content) result (K.held out.old) (K.held out.new) }
    ensures wrote { CommandWrote command.now result (K.faults out.old) (K.faults out.new) (K.held out.old) (K.held out.new) }
    ensures read_fault { result ≡ Status.ReadFault →
        FailsToRead command.now (H.faults shelf.old) (H.faults shelf.new) (S.faults input.old) (S.faults input.new) }
    ensures write_fault { result ≡ Status.WriteFault → Rose (K.faults out.old) (K.faults out.new) }
    ensures files { H.files shelf.new ≡ H.files shelf.old }
    ensures shelf_lasting { (name : List ℕ) → H.faults shelf.old name ≤ H.faults shelf.new name }
    ensures shelf_quiet { (name : List ℕ) → result ≢ Status.ReadFault → H.faults shelf.new name ≡ H.faults shelf.old name }
    ensures input_lasting { S.faults input.old ≤ S.faults input.new }
    ensures input_quiet { result ≢ Status.ReadFault → S.faults input.new ≡ S.faults input.old }
    ensures out_lasting { K.faults out.old ≤ K.faults out.new }
    ensures unread { IsRefusedFile result → S.left input.new ≡ S.left input.old }
    ensures files_alone { (ReadsInput command.now → ⊥) → S.left input.new ≡ S.left input.old }
    ensures all_read { (content : List ℕ) → ReadsInput command.now → (result ≡ Status.Done) ⊎ (result ≡ Status.Spent) →
        S.left input.old ≡ Some content → S.left input.new ≡ Some [] }
{
    match command {
        Command::Parse(options) => parse_sentence(rt, alloc, options, shelf, input, out),
        Command::Resume(options) => resume_analysis(alloc, options, shelf, out),
        Command::Explain(options) => explain_analysis(alloc, options, shelf, out),
        Command::Check { grammar } => {
            print_report(alloc, Report::Check, grammar.as_str(), shelf, out)
        }
        Command::Lexicon { grammar } => {
            print_report(alloc, Report::Lexicon, grammar.as_str(), shelf, out)
        }
        Command::Print { grammar } => {
            print_report(alloc, Report::Print, grammar.as_str(), shelf, out)
        }
        Command::Drill { number } => drill(alloc, *number, out),
        Command::Corpus(options) => corpus(rt, alloc, options, shelf, input, out),
        Command::Arrange(options) => arrange(alloc, options, shelf, input, out),
        Command::Best(options) => best_sentence(alloc, options, shelf, input, out),
    }
}

/// Runs the command that the words after the program's name are: reads the files that it names and the input, and
/// writes the text of its outcome. The status says how that went. Sentences that are searched side by side are searched in threads
/// of the runtime.
pub fn run<R: Threads + Sync, H: Shelf, S: Source, K: Sink>(
    rt: &R,
    alloc: Global,
    words: &[String],
    shelf: &mut H,
    input: &mut S,
    out: &mut K,
) -> Status
    // Where the files and the input are told, what was added is the text of the one outcome. Only `corpus` and `arrange` may have written
    // some of it where memory was wanting.
    ensures leaves { (files : List ℕ → Option (List ℕ)) (content : List ℕ) → H.files shelf.old ≡ Some files → S.left input.old ≡ Some content →
        LeavesBy (map string_bytes words.now) (OutcomeOf (map string_bytes words.now) files content) result (K.held out.old) (K.held out.new) }

    // The input needs to be told only for a command that reads it, and of words that are no command nothing needs to be told.
    ensures reports { (files : List ℕ → Option (List ℕ)) (content : List ℕ) (given : declared.Command) → H.files shelf.old ≡ Some files →
        IsCommand (map string_bytes words.now) given → (ReadsInput given → S.left input.old ≡ Some content) →
        LeavesOf given (CommandOf given files content) result (K.held out.old) (K.held out.new) }
    ensures usage_text { IsNoCommand (map string_bytes words.now) → Leaves IsUsage result (K.held out.old) (K.held out.new) }
    ensures nothing_written { (result ≡ Status.ReadFault) ⊎ ((result ≡ Status.OutOfMemory) × (AreEarly (map string_bytes words.now) → ⊥)) →
        K.held out.new ≡ K.held out.old }

    // The words alone decide whether they are a command, and the command decides which statuses it can end with.
    ensures usage { result ≡ Status.Usage → IsNoCommand (map string_bytes words.now) }
    ensures no_command { IsNoCommand (map string_bytes words.now) → (result ≡ Status.Usage) ⊎ ((result ≡ Status.WriteFault) ⊎ (result ≡ Status.OutOfMemory)) }
    ensures of_command { (given : declared.Command) → IsCommand (map string_bytes words.now) given → EndsWith given result }

    // A failure of a device is told by its count.
    ensures read_fault { result ≡ Status.ReadFault →
        ReadFailed (map string_bytes words.now) (H.faults shelf.old) (H.faults shelf.new) (S.faults input.old) (S.faults input.new) }
    ensures write_fault { result ≡ Status.WriteFault → Rose (K.faults out.old) (K.faults out.new) }

    // And where a count rises the status tells it: a failure is neither passed over nor told as another.
    ensures read_wins { (name : List ℕ) → (H.faults shelf.old name < H.faults shelf.new name) ⊎ (S.faults input.old < S.faults input.new) →
        result ≡ Status.ReadFault }
    ensures shelf_quiet { (name : List ℕ) → result ≢ Status.ReadFault → H.faults shelf.new name ≡ H.faults shelf.old name }
    ensures input_quiet { result ≢ Status.ReadFault → S.faults input.new ≡ S.faults input.old }
    ensures out_quiet { result ≢ Status.WriteFault → K.faults out.new ≡ K.faults out.old }

    // What is lent stays, but for what is read and written.
    ensures files { H.files shelf.new ≡ H.files shelf.old }
    ensures shelf_lasting { (name : List ℕ) → H.faults shelf.old name ≤ H.faults shelf.new name }
    ensures input_lasting { S.faults input.old ≤ S.faults input.new }
    ensures out_lasting { K.faults out.old ≤ K.faults out.new }
    ensures unread { (result ≡ Status.Usage) ⊎ IsRefusedFile result → S.left input.new ≡ S.left input.old }
    ensures files_alone { ((given : declared.Command) → IsCommand (map string_bytes words.now) given → ReadsInput given → ⊥) →
        S.left input.new ≡ S.left input.old }
    ensures all_read { (given : declared.Command) (content : List ℕ) → IsCommand (map string_bytes words.now) given → ReadsInput given →
        (result ≡ Status.Done) ⊎ (result ≡ Status.Spent) → S.left input.old ≡ Some content → S.left input.new ≡ Some [] }
{
    let command = match command(alloc, words) {
        Ok(Some(command)) => command,
        Ok(None) => {
            return match write_usage(out) {
                Ok(()) => Status::Usage,
                Err(Failed) => Status::WriteFault,
            };
        }
        Err(OutOfMemory) => return Status::OutOfMemory,
    };
    run_command(rt, alloc, &command, shelf, input, out)
}
