//! When propagators were still.

ghost use Rattle.std.specs.Prelude.{◌≡◌, ℕ, ◌<◌, Some, None, IfOk, length, slice_index_or, slice_set};

use std::alloc::Global;
use std::marker::Model;
use xdg_base::OutOfMemory;
use xdg_store::Mark;

/// For each of some propagators the mark at which it was still last, as far as that is known.
#[derive(Debug, Drop)]
pub(crate) struct Rests {
    marks: Vec<Option<Mark>>,
}

impl Model for Rests {
    ghost use Rattle.std.specs.Prelude.{ℕ, List, Option};

    ghost Value = { List (Option ℕ) };

    ghost view = { λ r. r.marks.items };
}

/// Clears each place.
fn clear(marks: &mut Vec<Option<Mark>>)
    ensures length { length marks.new.items ≡ length marks.old.items }
    ensures each { (at : ℕ) → at < length marks.new.items → slice_index_or marks.new.items at None ≡ None }
{
    for at in 0..marks.len() {
        marks[at] = None;
    }
}

/// Puts a mark into each place.
fn fill(marks: &mut Vec<Option<Mark>>, mark: Mark)
    ensures length { length marks.new.items ≡ length marks.old.items }
    ensures each { (at : ℕ) → at < length marks.new.items → slice_index_or marks.new.items at None ≡ Some mark }
{
    for at in 0..marks.len() {
        marks[at] = Some(mark);
    }
}

impl Rests {
    /// Of so many propagators nothing is known.
    pub(crate) fn start(alloc: Global, count: usize) -> Result<Rests, OutOfMemory>
        ensures { IfOk result (λ rests. length rests ≡ count) }
    {
        let marks = vec![in alloc; None; count]?;
        Ok(Rests { marks })
    }

    /// The mark of one.
    pub(crate) fn mark_of(&self, at: usize) -> Option<Mark>
        requires { at < length self.now }
        ensures { result ≡ slice_index_or self.now at None }
    {
        match self.marks[at] {
            Some(mark) => Some(mark),
            None => None,
        }
    }

    /// Gives one another mark.
    pub(crate) fn set(&mut self, at: usize, mark: Mark)
        requires { at < length self.old }
        ensures { self.new ≡ slice_set self.old at (Some mark) }
    {
        self.marks[at] = Some(mark);
    }

    /// Of none of them anything is known any more.
    pub(crate) fn forget_all(&mut self)
        ensures length { length self.new ≡ length self.old }
        ensures each { (at : ℕ) → at < length self.new → slice_index_or self.new at None ≡ None }
    {
        clear(&mut self.marks);
    }

    /// Gives all the same mark.
    pub(crate) fn set_all(&mut self, mark: Mark)
        ensures length { length self.new ≡ length self.old }
        ensures each { (at : ℕ) → at < length self.new → slice_index_or self.new at None ≡ Some mark }
    {
        fill(&mut self.marks, mark);
    }
}
