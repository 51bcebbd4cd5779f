//! The group behind one that is searched.

ghost use Rattle.std.specs.Prelude.{◌<◌, ◌≤◌, length, IfOk};
ghost use Rattle.std.specs.List.{AllZip};
ghost use Rattle.xdg_build.specs.Stocks.{IsStock};
ghost use Rattle.xdg_corpus.specs.Groups.{TakesLines};
ghost use Rattle.xdg_corpus.specs.Texts.{CanSearch};
ghost use Rattle.xdg_inputs.specs.Answers.{grammar_in, meaning_of};
ghost use Rattle.xdg_inputs.specs.RightLexicons.{HasRightLexicon};
ghost use Rattle.xdg_split.specs.Answers.{IsAnswer};

use crate::group::{Group, take_group};
use std::alloc::Global;
use std::thread::{Threads, join};
use xdg_base::{List, OutOfMemory};
use xdg_build::Stock;
use xdg_command::CorpusOptions;
use xdg_engine::AnyProp;
use xdg_inputs::Expanded;
use xdg_split::{Answer, Job, answers};

/// Gives back the memory of a group whose texts are written, and then takes the next group of a text, as `take_group` does. The stock
/// comes back behind them.
fn next_group<'a>(
    alloc: Global,
    options: &CorpusOptions,
    expanded: &Expanded,
    written: Group,
    mut stock: Stock,
    size: usize,
    text: &'a str,
) -> Result<(Group, &'a str, Stock), OutOfMemory>
    requires small { length text.now ≤ 4194304 }
    requires lexicon { HasRightLexicon expanded.now }
    requires range { CanSearch options.now }
    requires stock { IsStock (grammar_in expanded.now) stock }
    requires size { 1 ≤ size }
    ensures stock { IfOk result (λ made. IsStock (grammar_in expanded.now) made.2) }
    ensures takes { IfOk result (λ made. TakesLines (meaning_of expanded.now) options.now text.entry.now made.0 made.1.now) }
    ensures some { IfOk result (λ made. 0 < length text.entry.now → length made.1.now < length text.entry.now) }
{
    drop(written);
    match take_group(alloc, options, expanded, &mut stock, size, text) {
        Ok((group, rest)) => Ok((group, rest, stock)),
        Err(OutOfMemory) => Err(OutOfMemory),
    }
}

/// Searches the jobs of a group, and meanwhile, in this thread, gives back the memory of the group before and takes the next group of a
/// text. Each of the two may fail by itself where memory runs out.
pub(crate) fn answer_and_take<'a, R: Threads + Sync>(
    rt: &R,
    alloc: Global,
    options: &CorpusOptions,
    expanded: &Expanded,
    jobs: &[Job<AnyProp>],
    written: Group,
    stock: Stock,
    size: usize,
    text: &'a str,
) -> (
    Result<List<Answer>, OutOfMemory>,
    Result<(Group, &'a str, Stock), OutOfMemory>,
)
    requires small { length text.now ≤ 4194304 }
    requires lexicon { HasRightLexicon expanded.now }
    requires range { CanSearch options.now }
    requires stock { IsStock (grammar_in expanded.now) stock }
    requires size { 1 ≤ size }
    ensures answers { IfOk result.0 (λ answers. AllZip IsAnswer jobs.now answers) }
    ensures stock { IfOk result.1 (λ made. IsStock (grammar_in expanded.now) made.2) }
    ensures takes { IfOk result.1 (λ made. TakesLines (meaning_of expanded.now) options.now text.entry.now made.0 made.1.now) }
    ensures some { IfOk result.1 (λ made. 0 < length text.entry.now → length made.1.now < length text.entry.now) }
{
    join(
        rt,
        || answers(rt, alloc, jobs),
        move || next_group(alloc, options, expanded, written, stock, size, text),
    )
}
