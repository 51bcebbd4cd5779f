//! What the program is asked to do.

use xdg_base::Text;
use xdg_text::Form;

/// What `parse` is asked to do.
#[derive(Debug, Drop)]
pub struct ParseOptions {
    /// The name of the grammar file.
    pub grammar: Text,
    /// How many counted prefixes the search may charge, 1 to 1,000,000,000.
    pub budget: u64,
    /// After how many analyses to stop, 1 to 1,000,000, or `None` to go on to the last.
    pub first: Option<u64>,
    /// Whether words are cut by the Unicode rules of word boundaries.
    pub segment: bool,
    /// In which of their two texts analyses are printed.
    pub text: Form,
    /// Whether the branches of the first word's entries are searched side by side, each with the whole budget.
    pub split: bool,
    /// The name of the file of further rules, if one is given.
    pub rules: Option<Text>,
}

/// What `resume` is asked to do.
#[derive(Debug, Drop)]
pub struct ResumeOptions {
    /// The name of the grammar file.
    pub grammar: Text,
    /// The name of the file of the analysis behind which the search goes on.
    pub analysis: Text,
    /// How many counted prefixes the search may charge, 1 to 1,000,000,000.
    pub budget: u64,
    /// After how many analyses to stop, 1 to 1,000,000, or `None` to go on to the last.
    pub first: Option<u64>,
    /// In which of their two texts analyses are printed.
    pub text: Form,
    /// The name of the file of further rules, if one is given.
    pub rules: Option<Text>,
}

/// What `explain` is asked to do.
#[derive(Debug, Drop)]
pub struct ExplainOptions {
    /// The name of the grammar file.
    pub grammar: Text,
    /// The name of the file of the analysis.
    pub analysis: Text,
    /// The name of the file of further rules, if one is given.
    pub rules: Option<Text>,
}

/// What `corpus` is asked to do.
#[derive(Debug, Drop)]
pub struct CorpusOptions {
    /// The name of the grammar file.
    pub grammar: Text,
    /// How many counted prefixes the search of each line may charge, 1 to 1,000,000,000.
    pub budget: u64,
    /// After how many analyses of a line to stop, 1 to 1,000,000, or `None` to go on to the last.
    pub first: Option<u64>,
    /// Whether words are cut by the Unicode rules of word boundaries.
    pub segment: bool,
}

/// What `arrange` is asked to do.
#[derive(Debug, Drop)]
pub struct ArrangeOptions {
    /// The name of the grammar file.
    pub grammar: Text,
    /// How many counted prefixes the search of each arrangement may charge, 1 to 1,000,000,000.
    pub budget: u64,
    /// Whether words are cut by the Unicode rules of word boundaries.
    pub segment: bool,
}

/// What `best` is asked to do.
#[derive(Debug, Drop)]
pub struct BestOptions {
    /// The name of the grammar file.
    pub grammar: Text,
    /// The name of the costs file.
    pub costs: Text,
    /// How many counted prefixes the search may charge, 1 to 1,000,000,000.
    pub budget: u64,
    /// Whether words are cut by the Unicode rules of word boundaries.
    pub segment: bool,
}

/// A command with its operands and options.
#[derive(Debug, Drop)]
pub enum Command {
    /// `parse`: the analyses of the sentence that the input gives.
    Parse(ParseOptions),
    /// `resume`: the analyses of a sentence behind a given one.
    Resume(ResumeOptions),
    /// `explain`: which principles of a grammar an analysis keeps.
    Explain(ExplainOptions),
    /// `check`: whether a grammar is right, and how much it holds.
    Check {
        /// The name of the grammar file.
        grammar: Text,
    },
    /// `lexicon`: the entries of a grammar.
    Lexicon {
        /// The name of the grammar file.
        grammar: Text,
    },
    /// `print`: the canonical text of a grammar.
    Print {
        /// The name of the grammar file.
        grammar: Text,
    },
    /// `drill`: how many analyses the sentence of a generated grammar has, and how many of them break a principle.
    Drill {
        /// The number that the grammar and the sentence are made from, 0 to 999,999.
        number: u64,
    },
    /// `corpus`: the analyses of each line that the input gives.
    Corpus(CorpusOptions),
    /// `arrange`: the arrangements of the words that the input gives, those that have an analysis, with their analyses.
    Arrange(ArrangeOptions),
    /// `best`: an analysis of least cost of the sentence that the input gives, and its cost.
    Best(BestOptions),
}
