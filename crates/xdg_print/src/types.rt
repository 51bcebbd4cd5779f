//! Types.

ghost use Rattle.std.specs.Prelude.{◌≡◌, [], ◌∷◌, OnOk};
ghost use Rattle.xdg_ast.specs.declared.token.Kind.TheVariants as k;
ghost use Rattle.xdg_ast.specs.Words.{mark};
ghost use Rattle.xdg_ast.specs.Trees.{in_braces, in_parentheses, names_words, type_words};
ghost use Rattle.xdg_print.specs.Printed.{put};

use crate::printer::Printer;
use xdg_ast::{Kind, Name, TypeKind};
use xdg_base::OutOfMemory;

impl Printer {
    /// Adds a type.
    #[cycle(types)]
    #[tactic(auto, using(crate::proofs::Written::type_steps))]
    pub(crate) fn type_term(&mut self, given: &TypeKind) -> Result<(), OutOfMemory>
        ensures { OnOk result (self.new ≡ put (type_words given.now) self.old) }
    {
        match given {
            TypeKind::Empty => self.names_in_braces(&[]),
            TypeKind::Domain(names) => self.names_in_braces(names.as_slice()),
            TypeKind::Rec(pairs) => {
                self.mark(Kind::LeftBrace)?;
                for pair in pairs.as_slice() {
                    self.name(&pair.key)?;
                    self.mark(Kind::Colon)?;
                    self.type_term(&pair.value.kind)?;
                }
                self.mark(Kind::RightBrace)
            }
            TypeKind::Tuple(types) => {
                self.open_type(Kind::Tuple)?;
                for field in types.as_slice() {
                    self.type_term(&field.kind)?;
                }
                self.mark(Kind::RightParenthesis)
            }
            TypeKind::Set(of) => self.type_of(Kind::Set, &of.get().kind),
            TypeKind::ISet(of) => self.type_of(Kind::ISet, &of.get().kind),
            TypeKind::Valency(of) => self.type_of(Kind::Valency, &of.get().kind),
            TypeKind::Map(key, value) => {
                self.open_type(Kind::Map)?;
                self.type_term(&key.get().kind)?;
                self.type_term(&value.get().kind)?;
                self.mark(Kind::RightParenthesis)
            }
            TypeKind::Card => self.mark(Kind::Card),
            TypeKind::Bool => self.mark(Kind::Bool),
            TypeKind::Int => self.mark(Kind::Int),
            TypeKind::Str => self.mark(Kind::String),
            TypeKind::Named(name) => self.name(name),
        }
    }

    /// Adds a type that is made of one other.
    #[cycle(types)]
    #[tactic(auto, using(crate::proofs::Put::put_append))]
    fn type_of(&mut self, word: Kind, given: &TypeKind) -> Result<(), OutOfMemory>
        ensures { OnOk result (self.new ≡ put (mark word ∷ in_parentheses (type_words given.now)) self.old) }
    {
        self.open_type(word)?;
        self.type_term(given)?;
        self.mark(Kind::RightParenthesis)
    }

    /// Adds names in braces.
    #[tactic(auto, using(crate::proofs::Put::put_append))]
    fn names_in_braces(&mut self, names: &[Name]) -> Result<(), OutOfMemory>
        ensures { OnOk result (self.new ≡ put (in_braces (names_words names.now)) self.old) }
    {
        self.mark(Kind::LeftBrace)?;
        self.names(names)?;
        self.mark(Kind::RightBrace)
    }

    /// Adds the word of a type and its opening bracket.
    fn open_type(&mut self, word: Kind) -> Result<(), OutOfMemory>
        ensures { OnOk result (self.new ≡ put (mark word ∷ mark k.LeftParenthesis ∷ []) self.old) }
    {
        self.mark(word)?;
        self.mark(Kind::LeftParenthesis)
    }
}
