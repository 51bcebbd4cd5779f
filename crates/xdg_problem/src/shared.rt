//! Lists that are shared.

ghost use Rattle.std.specs.Prelude.{◌≡◌, length, slice_get, IfOk};
ghost use Rattle.std.specs.Option.{option_copied};

use std::alloc::Global;
use std::marker::Model;
use std::sync::Arc;
use xdg_base::{List, OutOfMemory};

/// A list that no one changes any more. All that hold it share it, also among threads, and its memory is given back with the last of
/// these.
#[derive(Debug, Drop)]
pub struct SharedList<T> {
    shared: Arc<List<T>>,
}

impl<T> Model for SharedList<T> {
    ghost use Rattle.std.specs.Prelude.{List};
    ghost use Rattle.std.specs.Arc.{arc_value};
    ghost use Rattle.std.specs.Coded.{coded_list};

    ghost Value = { List T };

    ghost coded = { coded_list T.code };

    ghost view = { λ list. arc_value list.shared };
}

impl<T> SharedList<T> {
    /// The elements in order, lent.
    pub fn as_slice(&self) -> &[T]
        ensures { result.now ≡ self.now }
    {
        self.shared.as_slice()
    }

    /// The number of elements.
    pub fn len(&self) -> usize
        ensures { result ≡ length self.now }
    {
        self.shared.len()
    }

    /// The element at a place, which counts from 0.
    pub fn get(&self, at: usize) -> Option<&T>
        ensures { option_copied result ≡ slice_get self.now at }
    {
        self.shared.get(at)
    }
}

impl<T: Drop> SharedList<T> {
    /// Moves a list to the heap, to be shared. On want of memory the list is dropped.
    pub fn of(alloc: Global, list: List<T>) -> Result<SharedList<T>, OutOfMemory>
        ensures { IfOk result (λ made. made ≡ list) }
    {
        Ok(SharedList {
            shared: Arc::new(alloc, list)?,
        })
    }

    /// The same list once more. It copies nothing and takes no memory; an error says that the list has as many owners as can be counted.
    pub fn share(&self) -> Result<SharedList<T>, OutOfMemory>
        ensures { IfOk result (λ made. made ≡ self.now) }
    {
        Ok(SharedList {
            shared: Arc::try_clone(&self.shared)?,
        })
    }
}
