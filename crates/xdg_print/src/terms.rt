//! Terms and their parts.

ghost use Rattle.std.specs.Prelude.{◌≡◌, OnOk};
ghost use Rattle.xdg_ast.specs.Trees.{in_square_brackets, names_words, card_words, gen_phrase, term_words, elem_words, terms_words};
ghost use Rattle.xdg_print.specs.Printed.{put, is_joined, is_disjoined};

use crate::printer::Printer;
use xdg_ast::{CardKind, ElemKind, GenKind, Kind, Name, Pair, Params, Term, TermKind};
use xdg_base::OutOfMemory;

/// Whether a generator stands in brackets in a conjunction.
#[tactic(auto, using(crate::proofs::WrittenTerms::gen_steps))]
fn is_joined(generator: &GenKind) -> bool
    ensures { result ≡ is_joined (gen_phrase generator.now) }
{
    match generator {
        GenKind::Const(_) => false,
        _ => true,
    }
}

/// Whether a generator stands in brackets in a disjunction.
#[tactic(auto, using(crate::proofs::WrittenTerms::gen_steps))]
fn is_disjoined(generator: &GenKind) -> bool
    ensures { result ≡ is_disjoined (gen_phrase generator.now) }
{
    match generator {
        GenKind::Or(_) => true,
        _ => false,
    }
}

impl Printer {
    /// Adds a cardinality.
    #[tactic(auto, unfolding(xdg_ast::specs::Trees::card_words), using(crate::proofs::Written::put_braces))]
    fn card(&mut self, card: &CardKind) -> Result<(), OutOfMemory>
        ensures { OnOk result (self.new ≡ put (card_words card.now) self.old) }
    {
        match card {
            CardKind::One => self.mark(Kind::Exclamation),
            CardKind::Maybe => self.mark(Kind::Question),
            CardKind::Any => self.mark(Kind::Star),
            CardKind::Some1 => self.mark(Kind::Plus),
            CardKind::Numbers(nums) => {
                self.mark(Kind::Hash)?;
                self.mark(Kind::LeftBrace)?;
                self.nums(nums.as_slice())?;
                self.mark(Kind::RightBrace)
            }
            CardKind::Interval(low, high) => {
                self.mark(Kind::Hash)?;
                self.mark(Kind::LeftBracket)?;
                self.num(low)?;
                self.num(high)?;
                self.mark(Kind::RightBracket)
            }
        }
    }

    /// Adds a generator.
    #[tactic(auto, using(crate::proofs::WrittenTerms::gen_steps))]
    fn generator(&mut self, generator: &GenKind) -> Result<(), OutOfMemory>
        ensures { OnOk result (self.new ≡ put (gen_phrase generator.now).words self.old) }
    {
        match generator {
            GenKind::Const(name) => self.name(name),
            GenKind::And(members) => {
                let mut first = true;
                for member in members.as_slice() {
                    let brackets = is_joined(&member.kind);
                    self.open(Kind::Ampersand, first, brackets)?;
                    self.generator(&member.kind)?;
                    self.close(brackets)?;
                    first = false;
                }
                Ok(())
            }
            GenKind::Or(members) => {
                let mut first = true;
                for member in members.as_slice() {
                    let brackets = is_disjoined(&member.kind);
                    self.open(Kind::Bar, first, brackets)?;
                    self.generator(&member.kind)?;
                    self.close(brackets)?;
                    first = false;
                }
                Ok(())
            }
        }
    }

    /// Adds names in square brackets.
    #[tactic(auto, using(crate::proofs::Put::put_append))]
    fn names_in_brackets(&mut self, names: &[Name]) -> Result<(), OutOfMemory>
        ensures { OnOk result (self.new ≡ put (in_square_brackets (names_words names.now)) self.old) }
    {
        self.mark(Kind::LeftBracket)?;
        self.names(names)?;
        self.mark(Kind::RightBracket)
    }

    /// Adds a term in the body of a class with these parameters.
    #[cycle(term)]
    #[tactic(auto, using(crate::proofs::WrittenTerms::term_steps))]
    pub(crate) fn term(&mut self, params: &Params, term: &TermKind) -> Result<(), OutOfMemory>
        ensures { OnOk result (self.new ≡ put (term_words params.now term.now) self.old) }
    {
        match term {
            TermKind::Const(name) => self.constant_in(params, name.text.as_str()),
            TermKind::Param(name) => self.name(name),
            TermKind::Number(n) => self.number(*n),
            TermKind::Card(card) => self.card(&card.kind),
            TermKind::Braces(elems) => {
                self.mark(Kind::LeftBrace)?;
                for elem in elems.as_slice() {
                    self.elem(params, &elem.kind)?;
                }
                self.mark(Kind::RightBrace)
            }
            TermKind::Tuple(names) => self.names_in_brackets(names.as_slice()),
            TermKind::Gen(generator) => {
                self.mark(Kind::Dollar)?;
                self.generator(&generator.kind)
            }
        }
    }

    /// Adds an element of a term in braces.
    #[cycle(term)]
    #[tactic(auto, using(crate::proofs::WrittenTerms::elem_steps))]
    fn elem(&mut self, params: &Params, elem: &ElemKind) -> Result<(), OutOfMemory>
        ensures { OnOk result (self.new ≡ put (elem_words params.now elem.now) self.old) }
    {
        match elem {
            ElemKind::Count(name, card) => {
                self.name(name)?;
                self.card(&card.kind)
            }
            ElemKind::Keyed(name, term) => {
                self.name(name)?;
                self.mark(Kind::Colon)?;
                self.term(params, &term.get().kind)
            }
            ElemKind::Const(name) => self.name(name),
            ElemKind::Tuple(names) => self.names_in_brackets(names.as_slice()),
        }
    }

    /// Adds what is said of features or arguments, in braces.
    pub(crate) fn terms(&mut self, params: &Params, pairs: &[Pair<Term>]) -> Result<(), OutOfMemory>
        ensures { OnOk result (self.new ≡ put (terms_words params.now pairs.now) self.old) }
    {
        self.mark(Kind::LeftBrace)?;
        for pair in pairs {
            self.name(&pair.key)?;
            self.mark(Kind::Colon)?;
            self.term(params, &pair.value.kind)?;
        }
        self.mark(Kind::RightBrace)
    }
}
