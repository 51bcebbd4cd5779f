//! The named types of a grammar.

ghost use Rattle.std.specs.Prelude.{◌≡◌, ℕ, List, map};
ghost use Rattle.xdg_domain.specs.Shapes.{Shape};
ghost use Rattle.xdg_types.specs.Meaning.{meaning};
ghost use Rattle.xdg_types.specs.Written.{tree};
ghost use Rattle.xdg_typing.specs.Heads.{Knows, IsHeadOf};
ghost use Rattle.xdg_typing.specs.Weights.{Weighs, weight_of};

use crate::weights::weigh;
use xdg_ast::{TypeKind, TypeTerm};
use xdg_names::Index;

/// The types that the names of a grammar's types lead to, by number.
#[derive(Drop)]
pub struct Definitions<'a> {
    /// The names of the definitions, in the order of the text.
    pub names: Index,
    /// For each definition the type that it leads to, which is no name.
    pub heads: Vec<&'a TypeTerm>,
    /// For each definition how many parts its type has, names followed, a count that stops at the greatest u64.
    pub weights: Vec<u64>,
}

impl<'a> Definitions<'a> {
    /// The type that a type leads to where it is a name, and else the type itself.
    pub fn head(&self, ty: &'a TypeTerm) -> &'a TypeTerm
        ensures { (names : List ℕ → Shape) → Knows names self.now.names (map (λ head. head.now) self.now.heads.items)
            → IsHeadOf names ty.now.kind result.now.kind }
    {
        let TypeKind::Named(name) = &ty.kind else {
            return ty;
        };
        let Some(number) = self.names.find(name.text.as_str()) else {
            return ty;
        };
        match self.heads.get(number) {
            Some(head) => head,
            None => ty,
        }
    }

    /// How many parts a type has, with itself, names followed: the types and constants in it. The count stops at the greatest u64. It takes time
    /// linear in the type as it is written.
    pub fn weight(&self, ty: &TypeTerm) -> u64
        ensures { (names : List ℕ → Shape) → Weighs names self.now.names self.now.weights.items → result ≡ weight_of (meaning names (tree ty.now.kind)) }
    {
        weigh(&self.names, self.weights.as_slice(), &ty.kind)
    }
}
