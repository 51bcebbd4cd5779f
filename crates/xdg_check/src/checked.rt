//! A grammar that was checked.

ghost use Rattle.std.specs.Prelude.{◌≡◌};
ghost use Rattle.xdg_names.specs.Texts.{place_of};

use std::marker::Model;
use xdg_ast::Expr;
use xdg_base::{List, Text};
use xdg_names::Index;
use xdg_principles::PrincipleUse;
use xdg_types::TypeTable;

/// A class.
#[derive(Debug, Drop)]
pub struct Class {
    /// Its name.
    pub name: Text,
    /// The names of its parameters, in the order of its definition.
    pub params: List<Text>,
    /// Its body, in which each use of a class binds each of that class's parameters.
    pub body: Expr,
    /// How many uses of classes its body has, those in the bodies of the used classes included, or the greatest `u64`.
    pub uses: u64,
    /// How many combinations its body has, or the greatest `u64`.
    pub combos: u64,
}

/// A `defentry`.
#[derive(Debug, Drop)]
pub struct EntryDef {
    /// Its body, in which each use of a class binds each of that class's parameters.
    pub body: Expr,
    /// The byte place of its word `defentry`, from 0.
    pub at: u32,
}

/// A grammar in which nothing is wrong, after Debusmann's lexicalised grammars (2006, chapter 2).
#[derive(Debug, Drop)]
pub struct Checked {
    pub(crate) types: TypeTable,
    pub(crate) principles: List<PrincipleUse>,
    // The names of the classes, in the order of the text.
    pub(crate) names: Index,
    pub(crate) classes: List<Class>,
    pub(crate) entries: List<EntryDef>,
    // The places of the classes, each after those that its body uses.
    pub(crate) order: List<usize>,
    // Where entries say their words.
    pub(crate) words: (usize, usize),
}

impl Model for Checked {
    ghost use Rattle.std.specs.Coded.{codes};
    ghost use Rattle.std.specs.Prelude.{◌≡◌};
    ghost use Rattle.xdg_ast.specs.contracts.expressions.ExprKind as expr;
    ghost use Rattle.xdg_ast.specs.contracts.terms.ElemKind as elem;
    ghost use Rattle.xdg_ast.specs.contracts.terms.GenKind as generator;
    ghost use Rattle.xdg_ast.specs.contracts.terms.TermKind as term;
    ghost use Rattle.xdg_domain.specs.contracts.types.Ty as ty;
    ghost use Rattle.xdg_packed.specs.Entries.{IsWordPlace};
    ghost use Rattle.xdg_problem.specs.contracts.formula.Formula as formula;
    ghost use Rattle.xdg_check.specs.Checked.{Parts, IsChecked};
    ghost use Rattle.xdg_check.specs.Counts.{class_texts};

    ghost Value = { Parts };

    ghost coded = { Prim.hlevel
        (codes, ty.the_row.coded, generator.the_row.coded, elem.the_row.coded, term.the_row.coded, expr.the_row.coded, formula.the_row.coded) };

    ghost view = { λ c. record { types = c.types; principles = c.principles; classes = c.classes; entries = c.entries; order = c.order } };

    ghost invariant = { λ c. IsChecked (record { types = c.types; principles = c.principles; classes = c.classes; entries = c.entries; order = c.order })
        × (c.names ≡ class_texts c.classes) × IsWordPlace c.types c.words.0 c.words.1 };
}

impl Checked {
    ghost use Rattle.xdg_check.specs.Checked.{IsChecked};
    ghost use Rattle.xdg_check.specs.Counts.{class_texts};
    ghost use Rattle.xdg_packed.specs.Entries.{IsWordPlace};

    /// The dimensions with their types, and which of them are used, lent.
    pub fn types(&self) -> &TypeTable
        ensures same { result.now ≡ self.now.types }
        ensures keeps { IsChecked self.now }
    {
        &self.types
    }

    /// The uses of principles in all dimensions, used or not, in the order of the text, lent.
    pub fn principles(&self) -> &[PrincipleUse]
        ensures same { result.now ≡ self.now.principles }
        ensures keeps { IsChecked self.now }
    {
        self.principles.as_slice()
    }

    /// The classes in the order of the text, lent.
    pub fn classes(&self) -> &[Class]
        ensures same { result.now ≡ self.now.classes }
        ensures keeps { IsChecked self.now }
    {
        self.classes.as_slice()
    }

    /// The entries in the order of the text, lent.
    pub fn entries(&self) -> &[EntryDef]
        ensures same { result.now ≡ self.now.entries }
        ensures keeps { IsChecked self.now }
    {
        self.entries.as_slice()
    }

    /// The places of all classes, from 0, each class after those that its body uses, lent.
    pub fn order(&self) -> &[usize]
        ensures same { result.now ≡ self.now.order }
        ensures keeps { IsChecked self.now }
    {
        self.order.as_slice()
    }

    /// Where entries say their words: the place of the dimension `lex` among the used dimensions, and that of its feature `word`
    /// of type `string`, both from 0.
    pub fn word_place(&self) -> (usize, usize)
        ensures place { IsWordPlace self.now.types result.0 result.1 }
        ensures keeps { IsChecked self.now }
    {
        self.words
    }

    /// The place of the class with that name, from 0, if there is one.
    pub fn place_of(&self, name: &str) -> Option<usize>
        ensures { result ≡ place_of (class_texts self.now.classes) name.now }
    {
        self.names.find(name)
    }
}
