//! What classes ask of their uses.

ghost use Rattle.std.specs.Prelude.{◌≡◌, List, map, option_map, IfOk};
ghost use Rattle.std.specs.Option.{option_copied};
ghost use Rattle.xdg_types.specs.NameFaults.{with_all, different};
ghost use Rattle.xdg_classes.specs.Definitions.{ClassDef as Definition, class_named};
ghost use Rattle.xdg_classes.specs.NameFaults as spec;
ghost use Rattle.xdg_classes.specs.Known.{shown, KnowsClasses};
ghost use Rattle.xdg_classes.specs.Lent.{class_def};

use crate::definitions::ClassDef;
use crate::repeats::params_again;
use std::alloc::Global;
use xdg_ast::ClassParam;
use xdg_base::{List, OutOfMemory};
use xdg_names::Index;

/// What a class asks of its uses.
#[derive(Drop)]
pub(crate) struct Params<'a> {
    /// The different names of its parameters.
    pub(crate) known: Index,
    /// The different names of its parameters without default, in the order of the text.
    pub(crate) needed: List<&'a str>,
}

/// What all classes ask.
#[derive(Drop)]
pub(crate) struct Known<'a> {
    /// The different names of the classes.
    names: Index,
    /// For each of these names what the first class with that name asks.
    params: List<Params<'a>>,
}

/// Adds the name of a parameter, where it has no default and is new.
fn add_needed<'a>(
    alloc: Global,
    seen: &mut Index,
    param: &'a ClassParam,
    made: &mut List<&'a str>,
) -> Result<(), OutOfMemory>
    ensures seen { IfOk result (λ _. seen.new ≡ with_all seen.old (spec.bare param.now)) }
    ensures made { map (λ text. text.now) made.old ≡ seen.old → IfOk result (λ _. map (λ text. text.now) made.new ≡ seen.new) }
{
    if param.preset.is_some() {
        return Ok(());
    }
    let name = param.name.text.as_str();
    if seen.add(alloc, name)? {
        made.push(name)?;
    }
    Ok(())
}

/// The different names of the parameters without default, in the order of the text.
fn needed<'a>(alloc: Global, params: &'a [ClassParam]) -> Result<List<&'a str>, OutOfMemory>
    ensures { IfOk result (λ made. map (λ text. text.now) made ≡ different (spec.bare_names params.now)) }
{
    let mut seen = Index::new(alloc);
    let mut made = List::new(alloc);
    for param in params {
        add_needed(alloc, &mut seen, param, &mut made)?;
    }
    Ok(made)
}

/// What a class with these parameters asks.
fn asked<'a>(alloc: Global, params: &'a [ClassParam]) -> Result<Params<'a>, OutOfMemory>
    ensures { IfOk result (λ made. shown made ≡ spec.asked params.now) }
{
    let mut known = Index::new(alloc);
    let _ = params_again(alloc, &mut known, params)?;
    let needed = needed(alloc, params)?;
    Ok(Params { known, needed })
}

impl<'a> Known<'a> {
    /// What these classes ask.
    pub(crate) fn new(alloc: Global, definitions: &[ClassDef<'a>]) -> Result<Known<'a>, OutOfMemory>
        ensures { IfOk result (λ made. KnowsClasses (map class_def definitions.now) made.names (map shown made.params)) }
    {
        let mut names = Index::new(alloc);
        let mut params = List::new(alloc);
        for definition in definitions {
            if names.add(alloc, definition.name.text.as_str())? {
                params.push(asked(alloc, definition.params)?)?;
            }
        }
        Ok(Known { names, params })
    }

    /// What the first class with that name asks, if there is one.
    pub(crate) fn find(&self, name: &str) -> Option<&Params<'a>>
        ensures { (cs : List Definition) → KnowsClasses cs self.now.names (map shown self.now.params)
            → option_map shown (option_copied result) ≡ option_map spec.asked_by (class_named cs name.now) }
    {
        match self.names.find(name) {
            None => None,
            Some(place) => self.params.get(place),
        }
    }
}
