//! The classes of a grammar by name, and in an order in which each comes after those that it uses.

ghost use Rattle.std.specs.Prelude.{◌≡◌, map};
ghost use Rattle.xdg_names.specs.Texts.{place_of};
ghost use Rattle.xdg_classes.specs.Definitions as spec;
ghost use Rattle.xdg_ast.specs.Texts.{texts};
ghost use Rattle.xdg_classes.specs.Ordered.{class_at};
ghost use Rattle.xdg_classes.specs.Lent.{class_def};

use crate::definitions::ClassDef;
use xdg_base::List;
use xdg_names::Index;

/// The classes of a grammar, lent from its statements.
#[derive(Drop)]
pub struct Classes<'a> {
    /// Their names, which differ, in the order of the text.
    pub(crate) names: Index,
    /// The classes in the same order.
    pub(crate) definitions: List<ClassDef<'a>>,
    /// Their places, each after those of the classes that its class uses.
    pub(crate) order: List<usize>,
}

impl<'a> Classes<'a> {
    /// The place of the class with that name among all, from 0, if there is one.
    pub fn find(&self, name: &str) -> Option<usize>
        ensures place { result ≡ place_of self.now.names name.now }
        ensures class { self.now.names ≡ texts (spec.class_names (map class_def self.now.definitions))
            → class_at (map class_def self.now.definitions) result ≡ spec.class_named (map class_def self.now.definitions) name.now }
    {
        self.names.find(name)
    }

    /// The classes in the order of the text, lent.
    pub fn definitions(&self) -> &[ClassDef<'a>]
        ensures { result.now ≡ self.now.definitions }
    {
        self.definitions.as_slice()
    }

    /// The places of the classes, each once, after those of the classes that its class uses.
    pub fn order(&self) -> &[usize]
        ensures { result.now ≡ self.now.order }
    {
        self.order.as_slice()
    }
}
