//! What searches find.

ghost use Rattle.std.specs.Prelude.{◌≡◌, ◌≢◌, ◌++◌, [], IfOk, IsTrue};
ghost use Rattle.xdg_split.specs.Finds.{IsCut, Joins};

use std::alloc::Global;
use xdg_base::OutOfMemory;
use xdg_facts::Ending;
use xdg_problem::Analysis;

/// The solutions that the searches of jobs have found so far, one job behind the other, and how that ends.
#[derive(Drop)]
pub struct Found {
    /// The solutions, in the order of the jobs and of each search.
    pub found: Vec<Analysis>,
    /// Whether these are all, or as many as were asked for, or the budget of a job was spent.
    pub ending: Ending,
}

impl Found {
    /// No solutions, which are all of no jobs. They take no memory.
    pub fn none(alloc: Global) -> Found
        ensures found { result.found.items ≡ [] }
        ensures ending { result.ending ≡ Ending.Complete }
    {
        Found {
            found: Vec::new(alloc),
            ending: Ending::Complete,
        }
    }

    /// Whether nothing that later jobs find belongs to them.
    pub fn has_ended(&self) -> bool
        ensures { IsTrue result → self.now.ending ≢ Ending.Complete }
    {
        match self.ending {
            Ending::Complete => false,
            Ending::First => true,
            Ending::Spent => true,
        }
    }

    /// These, and behind them what was found by later searches, in which as many were wanted. Where these didn't end complete, they
    /// are all that there is.
    pub(crate) fn followed_by(self, later: Found, first: Option<u64>) -> Result<Found, OutOfMemory>
        ensures { IfOk result (λ joined. Joins first self.ending self.found.items later.ending later.found.items joined.ending joined.found.items) }
    {
        match self.ending {
            Ending::Complete => {
                let joined = append(self, later)?;
                Ok(joined.cut(first))
            }
            Ending::First => Ok(self),
            Ending::Spent => Ok(self),
        }
    }

    /// As many of these as are wanted, where there are as many, or all.
    fn cut(self, first: Option<u64>) -> Found
        ensures { IsCut first self.ending self.found.items result.ending result.found.items }
    {
        let Found { mut found, ending } = self;
        if let Some(wanted) = first {
            if wanted <= found.len() as u64 {
                found.truncate(wanted as usize);
                return Found {
                    found,
                    ending: Ending::First,
                };
            }
        }
        Found { found, ending }
    }
}

/// Analyses and those that were found later, with the ending of these.
fn append(front: Found, later: Found) -> Result<Found, OutOfMemory>
    ensures found { IfOk result (λ joined. joined.found.items ≡ front.found.items ++ later.found.items) }
    ensures ending { IfOk result (λ joined. joined.ending ≡ later.ending) }
{
    let Found {
        mut found,
        ending: _,
    } = front;
    let Found {
        found: mut more,
        ending,
    } = later;
    found.append(&mut more)?;
    Ok(Found { found, ending })
}
