//! How a run ended.

ghost use Rattle.std.specs.Prelude.{◌≡◌};
ghost use Rattle.xdg_inputs.specs.Codes.{code_of};

/// How a run ended.
#[derive(Clone, Copy, Debug, PartialEq, Eq)]
pub enum Status {
    /// The whole text was written.
    Done,
    /// The words are no command.
    Usage,
    /// The grammar text is refused.
    BadText,
    /// The grammar is refused.
    BadGrammar,
    /// The sentence is refused.
    BadSentence,
    /// The budget is spent.
    Spent,
    /// A file or the input could not be read.
    ReadFault,
    /// The text could not be written whole.
    WriteFault,
    /// Memory was wanting.
    OutOfMemory,
    /// The analysis file is refused.
    BadAnalysis,
    /// The rules file is refused.
    BadRules,
    /// The costs file is refused.
    BadCosts,
}

impl Status {
    /// The number with which the program ends.
    pub fn code(self) -> u8
        ensures { result ≡ code_of self }
    {
        match self {
            Status::Done => 0,
            Status::Usage => 2,
            Status::BadText => 3,
            Status::BadGrammar => 4,
            Status::BadSentence => 5,
            Status::Spent => 6,
            Status::ReadFault => 7,
            Status::WriteFault => 8,
            Status::OutOfMemory => 9,
            Status::BadAnalysis => 10,
            Status::BadRules => 11,
            Status::BadCosts => 12,
        }
    }
}
