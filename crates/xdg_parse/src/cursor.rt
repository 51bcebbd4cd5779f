//! A cursor over tokens, which looks at one of them ahead.

ghost use Rattle.std.specs.Prelude.{◌≡◌, Ok, option_map};
ghost use Rattle.xdg_ast.specs.Lexemes.{lexeme_of, lexemes_of};
ghost use Rattle.xdg_ast.specs.Language as spec;
ghost use Rattle.xdg_ast.specs.Grammar.{is_constant};
ghost use Rattle.xdg_ast.specs.Derives.{place_of};
ghost use Rattle.xdg_parse.specs.Steps.{Reads, Takes, Opens};

use std::alloc::AllocFailed;
use std::marker::Model;
use xdg_ast::{Kind, Token};
use xdg_base::{OutOfMemory, Span};

/// Why reading stops at the next token, or at the end.
#[derive(Clone, Copy, Debug)]
pub enum Why {
    /// No memory was to be had.
    Memory,
    /// Nothing goes on with it.
    Unexpected,
    /// It opens one bracket too many.
    TooDeep,
}

impl From<OutOfMemory> for Why {
    ghost use Rattle.xdg_parse.specs.declared.cursor.Why.TheVariants.{Memory};

    ghost from_gives = { λ _ why. why ≡ Memory };

    fn from(_: OutOfMemory) -> Why {
        Why::Memory
    }
}

/// A cursor over the tokens of a text: those that are left, and where the last one that was read ends. Each call takes
/// constant time.
#[derive(Drop)]
pub struct Cursor<'l, 'a> {
    left: &'l [Token<'a>],
    ended: u32,
}

impl<'l, 'a> Model for Cursor<'l, 'a> {
    ghost use Rattle.xdg_ast.specs.Language.{State};
    ghost use Rattle.xdg_ast.specs.Lexemes.{lexemes_of};

    ghost Value = { State };

    ghost view = { λ c. record { ended = c.ended; left = lexemes_of c.left.now } };
}

impl<'l, 'a> Cursor<'l, 'a> {
    /// A cursor before the first of these tokens.
    pub fn new(tokens: &'l [Token<'a>]) -> Cursor<'l, 'a>
        ensures { result ≡ record { ended = 0; left = lexemes_of tokens.now } }
    {
        Cursor {
            left: tokens,
            ended: 0,
        }
    }

    /// The kind of the next token, if there is one.
    #[tactic(auto, unfolding(xdg_ast::specs::Language::kind_of))]
    pub fn kind(&self) -> Option<Kind>
        ensures { result ≡ spec.kind_of self.now.left }
    {
        match self.left.split_first() {
            None => None,
            Some((token, _)) => Some(token.kind),
        }
    }

    /// Whether the next token is of this kind.
    #[tactic(auto, unfolding(xdg_ast::specs::Language::kind_of))]
    pub fn sees(&self, kind: Kind) -> bool
        ensures { result ≡ spec.sees (spec.is kind) self.now.left }
    {
        match self.left.split_first() {
            None => false,
            Some((token, _)) => kind as u8 == token.kind as u8,
        }
    }

    /// Whether the next token is a constant.
    #[tactic(auto, unfolding(xdg_ast::specs::Language::kind_of))]
    pub fn sees_constant(&self) -> bool
        ensures { result ≡ spec.sees is_constant self.now.left }
    {
        match self.left.split_first() {
            None => false,
            Some((token, _)) => {
                token.kind as u8 == Kind::Name as u8 || token.kind as u8 == Kind::Quoted as u8
            }
        }
    }

    /// Where the next token starts, in bytes from the start of the text, and 0 where there is none.
    #[tactic(auto, unfolding(xdg_ast::specs::Language::start_of))]
    pub fn start(&self) -> u32
        ensures { result ≡ spec.start_of self.now.left }
    {
        match self.left.split_first() {
            None => 0,
            Some((token, _)) => token.span.start,
        }
    }

    /// Where the next token starts, in bytes from the start of the text, or the end where there is none.
    pub fn place(&self, end: u32) -> u32
        ensures { result ≡ place_of end self.now.left }
    {
        match self.left.split_first() {
            None => end,
            Some((token, _)) => token.span.start,
        }
    }

    /// The span from there to the end of the last token that was read.
    pub fn span_from(&self, start: u32) -> Span
        ensures { result ≡ record { start = start; end = self.now.ended } }
    {
        Span {
            start,
            end: self.ended,
        }
    }

    /// Goes past the next token, if there is one.
    #[tactic(auto, unfolding(xdg_ast::specs::Language::skip))]
    pub(crate) fn skip(&mut self)
        ensures { self.new ≡ spec.skip self.old }
    {
        if let Some((token, _)) = self.left.split_first() {
            self.ended = token.span.end;
            let left: &'l [Token<'a>] = self.left;
            self.left = &left[1..];
        }
    }

    /// The next token.
    #[tactic(auto, unfolding(xdg_ast::specs::Language::next))]
    pub(crate) fn next(&mut self) -> Result<Token<'a>, Why>
        ensures { Takes (spec.next self.old) result self.new }
    {
        let Some((token, _)) = self.left.split_first() else {
            return Err(Why::Unexpected);
        };
        let token = *token;
        self.skip();
        Ok(token)
    }

    /// Goes past the next token, which is of this kind, and answers it. The error is [`Why::Unexpected`] where it is of
    /// another, or where there is none.
    #[tactic(auto, unfolding(xdg_ast::specs::Language::read_token))]
    pub fn expect(&mut self, kind: Kind) -> Result<Token<'a>, Why>
        ensures { Takes ((spec.token (spec.is kind)).read self.old) result self.new }
    {
        if !self.sees(kind) {
            return Err(Why::Unexpected);
        }
        self.next()
    }

    /// The next token, which is a constant.
    #[tactic(auto, unfolding(xdg_ast::specs::Language::read_token))]
    pub(crate) fn constant(&mut self) -> Result<Token<'a>, Why>
        ensures { Takes ((spec.token is_constant).read self.old) result self.new }
    {
        if !self.sees_constant() {
            return Err(Why::Unexpected);
        }
        self.next()
    }

    /// Goes past the next token and answers it, if it is of this kind.
    #[tactic(auto, unfolding(xdg_ast::specs::Language::kind_of, xdg_ast::specs::Language::next, xdg_ast::specs::Language::read_token))]
    pub fn eat(&mut self, kind: Kind) -> Option<Token<'a>>
        ensures { (spec.optional (spec.token (spec.is kind))).read self.old ≡ Ok (option_map lexeme_of result, self.new) }
    {
        if !self.sees(kind) {
            return None;
        }
        let (token, _) = self.left.split_first()?;
        let token = *token;
        self.skip();
        Some(token)
    }

    /// Goes past an opening bracket of this kind, and answers how many may be opened in it where `within` may be opened
    /// here.
    ///
    /// # Errors
    ///
    /// - [`Why::Unexpected`] where the next token is no such bracket;
    /// - [`Why::TooDeep`] where it is one, and none may be opened here.
    pub fn open(&mut self, kind: Kind, within: u32) -> Result<u32, Why>
        ensures { Opens (spec.is kind) within self.old result self.new }
    {
        if !self.sees(kind) {
            return Err(Why::Unexpected);
        }
        if within == 0 {
            return Err(Why::TooDeep);
        }
        self.skip();
        Ok(within - 1)
    }
}
