//! Groups of lines.

ghost use Rattle.std.specs.Prelude.{◌≡◌, ◌≤◌, ◌<◌, ◌∷◌, ◌++◌, ℕ, List, [], length, IfErr, IfOk, MatchResult, OnOk};
ghost use Rattle.xdg_base.specs.declared.faults.Fault as faults;
ghost use Rattle.xdg_base.specs.declared.faults.Stop.TheVariants as stops;
ghost use Rattle.xdg_build.specs.Stocks.{IsStock};
ghost use Rattle.xdg_corpus.specs.Groups.{AsksFor, HasLines, TakesLines};
ghost use Rattle.xdg_corpus.specs.Texts.{CanSearch};
ghost use Rattle.xdg_inputs.specs.Answers.{grammar_in, meaning_of};
ghost use Rattle.xdg_inputs.specs.RightLexicons.{HasRightLexicon};
ghost use Rattle.xdg_inputs.specs.Sentences.{StopsWords};

use crate::lines::first_line;
use std::alloc::Global;
use xdg_base::{Fault, LineColumn, OutOfMemory, Stop};
use xdg_build::Stock;
use xdg_command::CorpusOptions;
use xdg_engine::{AnyProp, props};
use xdg_inputs::{Expanded, Refusal, problem_from, stopped_in};
use xdg_split::Job;

/// What stands for a line.
#[derive(Debug, Drop)]
pub(crate) enum Sentence {
    /// Its words are refused, at this line and column of it.
    Refused(Fault, LineColumn),
    /// It is searched by the job with this place among those of its group.
    Job(usize),
}

/// Lines, and the searches of those that are not refused.
#[derive(Drop)]
pub(crate) struct Group {
    /// What stands for each line, in their order.
    pub(crate) sentences: Vec<Sentence>,
    /// The searches, in the order of their lines.
    pub(crate) jobs: Vec<Job<AnyProp>>,
}

impl Group {
    /// A group without lines.
    pub(crate) fn new(alloc: Global) -> Group
        ensures sentences { result.sentences.items ≡ [] }
        ensures jobs { result.jobs.items ≡ [] }
    {
        Group {
            sentences: Vec::new(alloc),
            jobs: Vec::new(alloc),
        }
    }

    /// Adds a line that is refused.
    fn refuse(&mut self, fault: Fault, place: LineColumn) -> Result<(), OutOfMemory>
        ensures sentences { OnOk result (self.new.sentences.items ≡ self.old.sentences.items ++ Sentence.Refused fault place ∷ []) }
        ensures jobs { OnOk result (self.new.jobs.items ≡ self.old.jobs.items) }
    {
        self.sentences.push(Sentence::Refused(fault, place))?;
        Ok(())
    }

    /// Adds a line with its search.
    fn ask(&mut self, job: Job<AnyProp>) -> Result<(), OutOfMemory>
        ensures sentences { OnOk result (self.new.sentences.items ≡ self.old.sentences.items ++ Sentence.Job (length self.old.jobs.items) ∷ []) }
        ensures jobs { OnOk result (self.new.jobs.items ≡ self.old.jobs.items ++ job ∷ []) }
    {
        let place = self.jobs.len();
        self.jobs.push(job)?;
        self.sentences.push(Sentence::Job(place))?;
        Ok(())
    }
}

/// The search of a line.
fn job_of(
    alloc: Global,
    options: &CorpusOptions,
    expanded: &Expanded,
    stock: &mut Stock,
    line: &str,
) -> Result<Job<AnyProp>, Stop>
    requires small { length line.now ≤ 4194304 }
    requires lexicon { HasRightLexicon expanded.now }
    requires range { CanSearch options.now }
    requires stock { IsStock (grammar_in expanded.now) stock.old }
    ensures found { IfOk result (AsksFor (meaning_of expanded.now) options.now line.now) }
    ensures refused { IfErr result (StopsWords (meaning_of expanded.now) options.now.segment line.now) }
    ensures stock { MatchResult result (λ _. IsStock (grammar_in expanded.now) stock.new) (λ stop.
        (fault : faults.Fault) → stop ≡ stops.Fault fault → IsStock (grammar_in expanded.now) stock.new) }
{
    let problem = problem_from(alloc, expanded, stock, options.segment, line)?;
    let Ok(propagators) = props(alloc, &problem) else {
        return Err(Stop::OutOfMemory);
    };
    Ok(Job::of(problem, propagators, options.budget, options.first))
}

/// Adds a line to a group: its search, or its refusal.
fn add_line(
    alloc: Global,
    options: &CorpusOptions,
    expanded: &Expanded,
    stock: &mut Stock,
    line: &str,
    group: &mut Group,
) -> Result<(), OutOfMemory>
    requires small { length line.now ≤ 4194304 }
    requires lexicon { HasRightLexicon expanded.now }
    requires range { CanSearch options.now }
    requires stock { IsStock (grammar_in expanded.now) stock.old }
    ensures stock { OnOk result (IsStock (grammar_in expanded.now) stock.new) }
    ensures lines { OnOk result
        ((taken : List (List ℕ)) → HasLines (meaning_of expanded.now) options.now taken group.old
        → HasLines (meaning_of expanded.now) options.now (taken ++ line.now ∷ []) group.new) }
{
    match job_of(alloc, options, expanded, stock, line) {
        Ok(job) => group.ask(job),
        Err(stop) => match stopped_in(line.as_bytes(), stop) {
            Refusal::Text(fault, place) => group.refuse(fault, place),
            _ => Err(OutOfMemory),
        },
    }
}

/// The group of the first lines of a text, as many as a size tells or all of them, and the text behind them.
pub(crate) fn take_group<'a>(
    alloc: Global,
    options: &CorpusOptions,
    expanded: &Expanded,
    stock: &mut Stock,
    size: usize,
    text: &'a str,
) -> Result<(Group, &'a str), OutOfMemory>
    requires small { length text.now ≤ 4194304 }
    requires lexicon { HasRightLexicon expanded.now }
    requires range { CanSearch options.now }
    requires stock { IsStock (grammar_in expanded.now) stock.old }
    requires size { 1 ≤ size }
    ensures stock { OnOk result (IsStock (grammar_in expanded.now) stock.new) }
    ensures takes { IfOk result (λ made. TakesLines (meaning_of expanded.now) options.now text.entry.now made.0 made.1.now) }
    ensures some { IfOk result (λ made. 0 < length text.entry.now → length made.1.now < length text.entry.now) }
{
    let mut group = Group::new(alloc);
    let mut rest = text;
    while group.sentences.len() < size && !rest.is_empty() {
        let (line, later) = first_line(rest);
        add_line(alloc, options, expanded, stock, line, &mut group)?;
        rest = later;
    }
    Ok((group, rest))
}
