//! The parameters of a class, among which the names in its body are looked up.

ghost use Rattle.std.specs.Prelude.{◌≡◌, [], IfOk};
ghost use Rattle.xdg_ast.specs.Grammar.{params_of};
ghost use Rattle.xdg_base.specs.Texts.{has_text};

use crate::grammar::ClassParam;
use std::alloc::Global;
use std::collections::BTreeSet;
use std::marker::Model;
use xdg_base::{List, OutOfMemory, Text};

/// The names of the parameters of a class, seen as the list of them.
#[derive(Debug, Drop)]
pub struct Params {
    names: List<Text>,
    /// The same names, in order.
    sorted: BTreeSet<String>,
}

impl Model for Params {
    ghost use Rattle.std.specs.Prelude.{◌≡◌, List, ℕ};
    ghost use Rattle.std.specs.BTreeSet.{contains_text};
    ghost use Rattle.std.specs.Coded.{coded_list, coded_ℕ};
    ghost use Rattle.xdg_base.specs.Texts.{has_text};

    ghost Value = { List (List ℕ) };

    ghost coded = { coded_list (coded_list coded_ℕ) };

    ghost view = { λ params. params.names };

    ghost invariant = { λ params. (text : List ℕ) → contains_text params.sorted text ≡ has_text params.names text };
}

impl Params {
    /// Of no class, or of a class without parameters. It takes no memory.
    pub fn none(alloc: Global) -> Params
        ensures { result ≡ [] }
    {
        Params {
            names: List::new(alloc),
            sorted: BTreeSet::new(alloc),
        }
    }

    /// Of the class with these parameters. The time is that of sorting them.
    pub fn of(alloc: Global, params: &[ClassParam]) -> Result<Params, OutOfMemory>
        ensures { IfOk result (λ made. made ≡ params_of params.now) }
    {
        let mut names = List::new(alloc);
        let mut sorted = BTreeSet::new(alloc);
        for param in params {
            let name = &param.name.text;
            names.push(name.copy(alloc)?)?;
            sorted.insert(String::from_str(alloc, name.as_str())?)?;
        }
        Ok(Params { names, sorted })
    }

    /// Whether a parameter has this name. The time is logarithmic in the number of parameters.
    pub fn contains(&self, text: &str) -> bool
        ensures { result ≡ has_text self.now text.now }
    {
        self.sorted.contains(text)
    }
}
