//! The types that are wanted of the parameters of one class.

ghost use Rattle.std.specs.Prelude.{◌≡◌, ◌++◌, ◌∷◌, [], length, map, IfOk};
ghost use Rattle.xdg_domain.specs.Shapes.{shape};
ghost use Rattle.xdg_classes.specs.Given.{given, shapes_of, Grows};

use crate::same::has_type;
use std::alloc::Global;
use xdg_base::{List, OutOfMemory};
use xdg_domain::Ty;
use xdg_names::Index;

/// The types that are wanted of the parameters of a class.
#[derive(Drop)]
pub(crate) struct WantedTypes<'a> {
    /// The parameters of which a type is wanted.
    pub(crate) params: Index,
    /// At the same places their types, none of them twice.
    pub(crate) types: Vec<List<&'a Ty>>,
}

impl<'a> WantedTypes<'a> {
    /// Of no parameter. It takes no memory.
    pub(crate) fn none(alloc: Global) -> WantedTypes<'a>
        ensures params { result.params ≡ [] }
        ensures types { result.types.items ≡ [] }
    {
        WantedTypes {
            params: Index::new(alloc),
            types: Vec::new(alloc),
        }
    }

    /// The types that are wanted of the parameter with that name, if there are any.
    pub(crate) fn of(&self, param: &str) -> Option<&List<&'a Ty>>
        ensures { shapes_of result ≡ given self.now param.now }
    {
        match self.params.find(param) {
            None => None,
            Some(at) => self.types.get(at),
        }
    }

    /// Adds a type of a parameter, unless it has that type already.
    pub(crate) fn add(&mut self, alloc: Global, param: &str, ty: &'a Ty) -> Result<(), OutOfMemory>
        ensures { IfOk result (λ _. Grows self.old self.new ((param.now, shape ty.now) ∷ [])) }
    {
        if self.params.add(alloc, param)? {
            let mut types = List::new(alloc);
            types.push(ty)?;
            self.types.push(types)?;
            return Ok(());
        }
        let Some(at) = self.params.find(param) else {
            return Err(OutOfMemory);
        };
        let Some(types) = self.types.get_mut(at) else {
            return Err(OutOfMemory);
        };
        if has_type(types.as_slice(), ty) {
            return Ok(());
        }
        types.push(ty)?;
        Ok(())
    }
}
