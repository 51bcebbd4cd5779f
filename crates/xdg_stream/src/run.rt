//! A whole run: the answers of a search from its start on, up to its end, to a wanted number of answers or to its budget.

ghost use Rattle.std.specs.Prelude.{◌≡◌, ◌≤◌, ◌++◌, ◌∷◌, [], List, IfOk, length, take};
ghost use Rattle.std.specs.Vec.{vec_capacity};
ghost use Rattle.xdg_facts.specs.Fits.{Fits};
ghost use Rattle.xdg_facts.specs.Answered.{Answered};
ghost use Rattle.xdg_stream.specs.Outcomes.{IsOutcome};
ghost use Rattle.xdg_stream.specs.Vectors.{vectors};

use crate::{Front, Search, Step};
use std::alloc::Global;
use xdg_base::OutOfMemory;
use xdg_facts::Ending;

/// What a run answered.
#[derive(Drop)]
pub struct Outcome {
    /// The whole vectors that are counted, in rising order.
    pub answers: Vec<Vec<u16>>,
    /// How they ended.
    pub ending: Ending,
}

/// The numbers of a front.
///
/// # Errors
///
/// Fails where memory runs out.
pub fn numbers_of<F: Front>(alloc: Global, front: &F) -> Result<Vec<u16>, OutOfMemory>
    ensures { IfOk result (λ numbers. numbers.items ≡ F.numbers front.now) }
{
    Vec::from_slice(alloc, front.prefix())
}

/// Numbers in a vector that has room for more.
fn with_room(alloc: Global, room: usize, numbers: &[u16]) -> Result<Vec<u16>, OutOfMemory>
    requires { length numbers.now ≤ room }
    ensures items { IfOk result (λ made. made.items ≡ numbers.now) }
    ensures room { IfOk result (λ made. room ≤ vec_capacity made) }
{
    let mut made = Vec::with_capacity(alloc, room)?;
    for number in numbers {
        made.push_reserved(*number);
    }
    Ok(made)
}

/// All whole vectors after a start that are counted, or as many as are wanted, or as many as the budget reaches.
///
/// # Errors
///
/// Fails where memory runs out.
pub fn collect<F: Front + Drop>(
    alloc: Global,
    front: F,
    budget: u64,
    after: &[u16],
    wanted: Option<usize>,
) -> Result<Outcome, OutOfMemory>
    requires empty { F.numbers front ≡ [] }
    requires fits { Fits (F.shape front) after.now }
    ensures { IfOk result (λ outcome. Answered outcome.ending (F.shape front) (F.counted front) after.now budget wanted (vectors outcome.answers.items)) }
{
    let reached = with_room(alloc, front.decisions(), after)?;
    let mut search = Search::start(front, budget, reached);
    let mut answers = Vec::new(alloc);
    'draw: loop {
        if wanted == Some(answers.len()) {
            return Ok(Outcome {
                answers,
                ending: Ending::First,
            });
        }
        match search.advance() {
            Step::Found => answers.push(numbers_of(alloc, search.front())?)?,
            Step::End => {
                return Ok(Outcome {
                    answers,
                    ending: Ending::Complete,
                });
            }
            Step::Spent => {
                return Ok(Outcome {
                    answers,
                    ending: Ending::Spent,
                });
            }
        }
    }
}

/// `collect`, said of the list of the counted prefixes after the start and that of the solutions.
///
/// Called by trials alone: a whole search as one value, for fronts of their own. Commands take solution after solution from a stream.
///
/// # Errors
///
/// Fails where memory runs out.
pub fn solve<F: Front + Drop>(
    alloc: Global,
    front: F,
    budget: u64,
    after: &[u16],
    wanted: Option<usize>,
) -> Result<Outcome, OutOfMemory>
    requires empty { F.numbers front ≡ [] }
    requires fits { Fits (F.shape front) after.now }
    ensures { IfOk result (λ outcome. IsOutcome (F.shape front) (F.counted front) after.now budget wanted outcome.ending (vectors outcome.answers.items)) }
{
    collect(alloc, front, budget, after, wanted)
}
