//! Why an input is refused, and where.

ghost use Rattle.std.specs.Prelude.{◌≡◌, ◌<◌};
ghost use Rattle.xdg_base.specs.Faults.{number_of, name_of, tells_reached, fault_at};

/// No memory was to be had. It is the error of the standard library, so that what a call of that library gives stands for itself.
pub use std::alloc::AllocError as OutOfMemory;

/// Why an input is refused. Each cause has a number, told by [`number`].
#[derive(Clone, Copy, Debug, PartialEq, Eq)]
pub enum Cause {
    /// The bytes are not UTF-8.
    BadUtf8,
    /// A character begins no token.
    BadChar,
    /// A quoted text or a comment is not closed.
    OpenText,
    /// No grammar begins with the tokens up to this one.
    Unexpected,
    /// A name is not defined.
    UnknownName,
    /// A name, a constant, a key or a part is given twice where one is allowed.
    Twice,
    /// A named type or a class leads back to itself.
    Cycle,
    /// A type or a term is not of the wanted kind.
    WrongKind,
    /// A constant is not in the wanted type.
    NotMember,
    /// A required dimension, argument or feature is not given.
    MissingArg,
    /// No principle has that name.
    UnknownPrinciple,
    /// A principle or a class is given a parameter that it does not have, or lacks one.
    WrongParams,
    /// A cardinality is empty or has a number above the greatest.
    CardRange,
    /// The dimension `lex` is not used, or has no feature `word` of type `string`.
    NoLex,
    /// A text passes its limit of bytes.
    TooLong,
    /// More brackets stand open than may.
    TooDeep,
    /// The class uses pass their limit.
    TooManyUses,
    /// The combinations or the entries pass their limit.
    TooManyEntries,
    /// Labels, tuples, dimensions or attributes pass their limit.
    TooWide,
    /// A domain has more constants than a domain may have.
    DomainTooBig,
    /// The sentence has no word.
    EmptySentence,
    /// The sentence has more words than a sentence may have.
    TooManyWords,
    /// A word has no entry.
    UnknownWord,
    /// The bytes are no analysis text of the grammar.
    NotAnalysis,
    /// A rules text has more rules than it may have.
    TooManyRules,
    /// More quantifiers of a rule stand open than may.
    TooNested,
    /// There are more words to arrange than are arranged.
    ArrangeLimit,
    /// An entry number is 0 or above the number of entries.
    NoEntry,
}

/// The number of a cause, as fault lines print it.
pub fn number(cause: Cause) -> u8
    ensures { result ≡ number_of cause }
{
    match cause {
        Cause::BadUtf8 => 20,
        Cause::BadChar => 21,
        Cause::OpenText => 22,
        Cause::Unexpected => 23,
        Cause::UnknownName => 30,
        Cause::Twice => 31,
        Cause::Cycle => 32,
        Cause::WrongKind => 33,
        Cause::NotMember => 34,
        Cause::MissingArg => 35,
        Cause::UnknownPrinciple => 36,
        Cause::WrongParams => 37,
        Cause::CardRange => 38,
        Cause::NoLex => 39,
        Cause::TooLong => 40,
        Cause::TooDeep => 41,
        Cause::TooManyUses => 42,
        Cause::TooManyEntries => 43,
        Cause::TooWide => 44,
        Cause::DomainTooBig => 45,
        Cause::EmptySentence => 50,
        Cause::TooManyWords => 51,
        Cause::UnknownWord => 52,
        Cause::NotAnalysis => 60,
        Cause::TooManyRules => 70,
        Cause::TooNested => 71,
        Cause::ArrangeLimit => 72,
        Cause::NoEntry => 73,
    }
}

impl Cause {
    /// The name of a cause, as fault lines print it.
    pub fn name(self) -> &'static str
        ensures { result.now ≡ name_of self }
    {
        match self {
            Cause::BadUtf8 => "BadUtf8",
            Cause::BadChar => "BadChar",
            Cause::OpenText => "OpenText",
            Cause::Unexpected => "Unexpected",
            Cause::UnknownName => "UnknownName",
            Cause::Twice => "Twice",
            Cause::Cycle => "Cycle",
            Cause::WrongKind => "WrongKind",
            Cause::NotMember => "NotMember",
            Cause::MissingArg => "MissingArg",
            Cause::UnknownPrinciple => "UnknownPrinciple",
            Cause::WrongParams => "WrongParams",
            Cause::CardRange => "CardRange",
            Cause::NoLex => "NoLex",
            Cause::TooLong => "TooLong",
            Cause::TooDeep => "TooDeep",
            Cause::TooManyUses => "TooManyUses",
            Cause::TooManyEntries => "TooManyEntries",
            Cause::TooWide => "TooWide",
            Cause::DomainTooBig => "DomainTooBig",
            Cause::EmptySentence => "EmptySentence",
            Cause::TooManyWords => "TooManyWords",
            Cause::UnknownWord => "UnknownWord",
            Cause::NotAnalysis => "NotAnalysis",
            Cause::TooManyRules => "TooManyRules",
            Cause::TooNested => "TooNested",
            Cause::ArrangeLimit => "ArrangeLimit",
            Cause::NoEntry => "NoEntry",
        }
    }

    /// Whether a fault of this cause tells how far a limit was passed.
    pub fn tells_reached(self) -> bool
        ensures { result ≡ tells_reached self }
    {
        match self {
            Cause::TooLong
            | Cause::TooDeep
            | Cause::TooManyUses
            | Cause::TooManyEntries
            | Cause::TooWide
            | Cause::DomainTooBig
            | Cause::TooManyWords
            | Cause::TooManyRules
            | Cause::TooNested
            | Cause::ArrangeLimit => true,
            _ => false,
        }
    }
}

/// A refusal of a text.
#[derive(Clone, Copy, Debug, PartialEq, Eq)]
pub struct Fault {
    /// Why.
    pub cause: Cause,
    /// The byte place in the text concerned, from 0.
    pub at: u32,
    /// The number reached where a limit was passed, and else 0.
    pub reached: u64,
}

impl Fault {
    /// A fault of a cause that tells no number, at a byte place.
    pub fn at(cause: Cause, at: u32) -> Fault
        ensures { result ≡ fault_at cause at }
    {
        Fault {
            cause,
            at,
            reached: 0,
        }
    }
}

/// Why a call has no answer.
#[derive(Clone, Copy, Debug, PartialEq, Eq)]
pub enum Stop {
    /// The input is refused.
    Fault(Fault),
    /// No memory was to be had.
    OutOfMemory,
}

impl From<OutOfMemory> for Stop {
    ghost use Rattle.std.specs.Prelude.{◌≡◌};
    ghost use Rattle.xdg_base.specs.declared.faults.Stop.TheVariants as stops;

    ghost from_gives = { λ _ stop. stop ≡ stops.OutOfMemory };

    fn from(_: OutOfMemory) -> Stop {
        Stop::OutOfMemory
    }
}
