//! Words as commands.

ghost use Rattle.std.specs.Prelude.{◌≡◌, IfOk, map, option_map};
ghost use Rattle.std.specs.String.{string_bytes};
ghost use Rattle.xdg_command.specs.Answers.{IsExactly};
ghost use Rattle.xdg_command.specs.Commands.{IsCommand};
ghost use Rattle.xdg_command.specs.Readings.{IsArrange, IsBest, IsCorpus, IsDrill, IsExplain, IsOfVerb, IsOneFile, IsParse, IsResume};
ghost use Rattle.xdg_command.specs.Verbs.{verb_of};
ghost use Rattle.xdg_command.specs.declared.commands.Command.{Command};

use crate::matching::matches;
use crate::{
    ArrangeOptions, BestOptions, Command, CorpusOptions, ExplainOptions, ParseOptions,
    ResumeOptions, syntax, values,
};
use std::alloc::Global;
use xdg_base::{OutOfMemory, Text};

/// What the first word asks for.
#[derive(Clone, Copy, Debug)]
enum Verb {
    Parse,
    Resume,
    Explain,
    Check,
    Lexicon,
    Print,
    Drill,
    Corpus,
    Arrange,
    Best,
}

/// The name of a file, if one is given.
fn file_name(alloc: Global, given: Option<&str>) -> Result<Option<Text>, OutOfMemory>
    ensures { IfOk result (λ name. name ≡ option_map (λ text. text.now) given.entry) }
{
    match given {
        Some(name) => Ok(Some(Text::from_str(alloc, name)?)),
        None => Ok(None),
    }
}

/// The one operand of words without options.
fn one_file(alloc: Global, words: &[String]) -> Result<Option<Text>, OutOfMemory>
    ensures { IfOk result (IsExactly (IsOneFile (map string_bytes words.now))) }
{
    let Some(found) = matches(syntax::one_file(alloc)?, words)? else {
        return Ok(None);
    };
    let Some(grammar) = found.get_str("grammar") else {
        return Ok(None);
    };
    Ok(Some(Text::from_str(alloc, grammar)?))
}

/// The operands and the option of `explain`.
fn explain(alloc: Global, words: &[String]) -> Result<Option<ExplainOptions>, OutOfMemory>
    ensures { IfOk result (IsExactly (IsExplain (map string_bytes words.now))) }
{
    let Some(found) = matches(syntax::explain(alloc)?, words)? else {
        return Ok(None);
    };
    let Some(grammar) = found.get_str("grammar") else {
        return Ok(None);
    };
    let Some(analysis) = found.get_str("analysis") else {
        return Ok(None);
    };
    let grammar = Text::from_str(alloc, grammar)?;
    let analysis = Text::from_str(alloc, analysis)?;
    let rules = file_name(alloc, found.get_str("rules"))?;
    Ok(Some(ExplainOptions {
        grammar,
        analysis,
        rules,
    }))
}

/// The number that is the one operand of words without options.
fn drill(alloc: Global, words: &[String]) -> Result<Option<u64>, OutOfMemory>
    ensures { IfOk result (IsExactly (IsDrill (map string_bytes words.now))) }
{
    match one_file(alloc, words)? {
        Some(text) => Ok(values::drill_number(text.as_str())),
        None => Ok(None),
    }
}

/// The operand and the options of `parse`.
fn parse(alloc: Global, words: &[String]) -> Result<Option<ParseOptions>, OutOfMemory>
    ensures { IfOk result (IsExactly (IsParse (map string_bytes words.now))) }
{
    let Some(found) = matches(syntax::parse(alloc)?, words)? else {
        return Ok(None);
    };
    let Some(grammar) = found.get_str("grammar") else {
        return Ok(None);
    };
    let Some(budget) = values::budget(found.get_str("budget")) else {
        return Ok(None);
    };
    let Some(first) = values::first(found.get_str("first")) else {
        return Ok(None);
    };
    let Some(text) = values::text_form(found.get_str("text")) else {
        return Ok(None);
    };
    let grammar = Text::from_str(alloc, grammar)?;
    let segment = found.get_flag("segment");
    let split = found.get_flag("split");
    let rules = file_name(alloc, found.get_str("rules"))?;
    Ok(Some(ParseOptions {
        grammar,
        budget,
        first,
        segment,
        text,
        split,
        rules,
    }))
}

/// The operands and the options of `resume`.
fn resume(alloc: Global, words: &[String]) -> Result<Option<ResumeOptions>, OutOfMemory>
    ensures { IfOk result (IsExactly (IsResume (map string_bytes words.now))) }
{
    let Some(found) = matches(syntax::resume(alloc)?, words)? else {
        return Ok(None);
    };
    let Some(grammar) = found.get_str("grammar") else {
        return Ok(None);
    };
    let Some(analysis) = found.get_str("analysis") else {
        return Ok(None);
    };
    let Some(budget) = values::budget(found.get_str("budget")) else {
        return Ok(None);
    };
    let Some(first) = values::first(found.get_str("first")) else {
        return Ok(None);
    };
    let Some(text) = values::text_form(found.get_str("text")) else {
        return Ok(None);
    };
    let grammar = Text::from_str(alloc, grammar)?;
    let analysis = Text::from_str(alloc, analysis)?;
    let rules = file_name(alloc, found.get_str("rules"))?;
    Ok(Some(ResumeOptions {
        grammar,
        analysis,
        budget,
        first,
        text,
        rules,
    }))
}

/// The operand and the options of `corpus`.
fn corpus(alloc: Global, words: &[String]) -> Result<Option<CorpusOptions>, OutOfMemory>
    ensures { IfOk result (IsExactly (IsCorpus (map string_bytes words.now))) }
{
    let Some(found) = matches(syntax::corpus(alloc)?, words)? else {
        return Ok(None);
    };
    let Some(grammar) = found.get_str("grammar") else {
        return Ok(None);
    };
    let Some(budget) = values::budget(found.get_str("budget")) else {
        return Ok(None);
    };
    let Some(first) = values::first(found.get_str("first")) else {
        return Ok(None);
    };
    let grammar = Text::from_str(alloc, grammar)?;
    let segment = found.get_flag("segment");
    Ok(Some(CorpusOptions {
        grammar,
        budget,
        first,
        segment,
    }))
}

/// The operand and the options of `arrange`.
fn arrange(alloc: Global, words: &[String]) -> Result<Option<ArrangeOptions>, OutOfMemory>
    ensures { IfOk result (IsExactly (IsArrange (map string_bytes words.now))) }
{
    let Some(found) = matches(syntax::arrange(alloc)?, words)? else {
        return Ok(None);
    };
    let Some(grammar) = found.get_str("grammar") else {
        return Ok(None);
    };
    let Some(budget) = values::budget(found.get_str("budget")) else {
        return Ok(None);
    };
    let grammar = Text::from_str(alloc, grammar)?;
    let segment = found.get_flag("segment");
    Ok(Some(ArrangeOptions {
        grammar,
        budget,
        segment,
    }))
}

/// The operands and the options of `best`.
fn best(alloc: Global, words: &[String]) -> Result<Option<BestOptions>, OutOfMemory>
    ensures { IfOk result (IsExactly (IsBest (map string_bytes words.now))) }
{
    let Some(found) = matches(syntax::best(alloc)?, words)? else {
        return Ok(None);
    };
    let Some(grammar) = found.get_str("grammar") else {
        return Ok(None);
    };
    let Some(costs) = found.get_str("costs") else {
        return Ok(None);
    };
    let Some(budget) = values::budget(found.get_str("budget")) else {
        return Ok(None);
    };
    let grammar = Text::from_str(alloc, grammar)?;
    let costs = Text::from_str(alloc, costs)?;
    let segment = found.get_flag("segment");
    Ok(Some(BestOptions {
        grammar,
        costs,
        budget,
        segment,
    }))
}

/// The command that a word spells.
#[tactic(auto, unfolding(crate::specs::Verbs::verb_of))]
fn verb_of(word: &str) -> Option<Verb>
    ensures { result ≡ verb_of word.now }
{
    match word {
        "parse" => Some(Verb::Parse),
        "resume" => Some(Verb::Resume),
        "explain" => Some(Verb::Explain),
        "check" => Some(Verb::Check),
        "lexicon" => Some(Verb::Lexicon),
        "print" => Some(Verb::Print),
        "drill" => Some(Verb::Drill),
        "corpus" => Some(Verb::Corpus),
        "arrange" => Some(Verb::Arrange),
        "best" => Some(Verb::Best),
        _ => None,
    }
}

/// The command with this name that the later words make, or `None` where they make none.
fn with_name(alloc: Global, verb: Verb, words: &[String]) -> Result<Option<Command>, OutOfMemory>
    ensures { IfOk result (IsExactly (IsOfVerb verb (map string_bytes words.now))) }
{
    match verb {
        Verb::Parse => match parse(alloc, words)? {
            Some(options) => Ok(Some(Command::Parse(options))),
            None => Ok(None),
        },
        Verb::Resume => match resume(alloc, words)? {
            Some(options) => Ok(Some(Command::Resume(options))),
            None => Ok(None),
        },
        Verb::Explain => match explain(alloc, words)? {
            Some(options) => Ok(Some(Command::Explain(options))),
            None => Ok(None),
        },
        Verb::Check => match one_file(alloc, words)? {
            Some(grammar) => Ok(Some(Command::Check { grammar })),
            None => Ok(None),
        },
        Verb::Lexicon => match one_file(alloc, words)? {
            Some(grammar) => Ok(Some(Command::Lexicon { grammar })),
            None => Ok(None),
        },
        Verb::Print => match one_file(alloc, words)? {
            Some(grammar) => Ok(Some(Command::Print { grammar })),
            None => Ok(None),
        },
        Verb::Drill => match drill(alloc, words)? {
            Some(number) => Ok(Some(Command::Drill { number })),
            None => Ok(None),
        },
        Verb::Corpus => match corpus(alloc, words)? {
            Some(options) => Ok(Some(Command::Corpus(options))),
            None => Ok(None),
        },
        Verb::Arrange => match arrange(alloc, words)? {
            Some(options) => Ok(Some(Command::Arrange(options))),
            None => Ok(None),
        },
        Verb::Best => match best(alloc, words)? {
            Some(options) => Ok(Some(Command::Best(options))),
            None => Ok(None),
        },
    }
}

/// The command that the words after the program's name are, or `None` where they are none. The first word is the name of the
/// command, and each command reads the later words in its own way.
pub fn command(alloc: Global, words: &[String]) -> Result<Option<Command>, OutOfMemory>
    ensures exact { IfOk result (IsExactly (IsCommand (map string_bytes words.now))) }
    ensures one { (a b : Command) → IsCommand (map string_bytes words.now) a → IsCommand (map string_bytes words.now) b → a ≡ b }
{
    let Some((name, later)) = words.split_first() else {
        return Ok(None);
    };
    match verb_of(name.as_str()) {
        Some(verb) => with_name(alloc, verb, later),
        None => Ok(None),
    }
}
