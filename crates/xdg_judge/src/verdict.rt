//! What a judge says of one principle use.

ghost use Rattle.std.specs.Prelude.{◌≡◌, ◌∷◌, []};
ghost use Rattle.xdg_judge.specs.Verdicts.{tuple_of};

use xdg_problem::Condition;

/// Up to four numbers, of which the first `len` count: nodes and labels, each by its number from 0, or how many nodes
/// have no mother.
#[derive(Clone, Copy, Debug)]
pub struct Tuple4 {
    pub len: u8,
    pub items: [u8; 4],
}

/// What is said of one principle use: that its relation holds, or the first of its conditions that is broken with the
/// least tuple that breaks it, compared item by item.
#[derive(Clone, Copy, Debug)]
pub enum Verdict {
    /// Its relation holds.
    Kept,
    /// The first condition that is broken, and the least tuple that breaks it.
    Broken { condition: Condition, tuple: Tuple4 },
}

impl Tuple4 {
    /// The empty tuple.
    pub(crate) fn none() -> Tuple4
        ensures { tuple_of result ≡ [] }
    {
        Tuple4 {
            len: 0,
            items: [0, 0, 0, 0],
        }
    }

    /// The tuple of one number.
    pub(crate) fn one(a: u8) -> Tuple4
        ensures { tuple_of result ≡ a ∷ [] }
    {
        Tuple4 {
            len: 1,
            items: [a, 0, 0, 0],
        }
    }

    /// The tuple of two numbers.
    pub(crate) fn two(a: u8, b: u8) -> Tuple4
        ensures { tuple_of result ≡ a ∷ b ∷ [] }
    {
        Tuple4 {
            len: 2,
            items: [a, b, 0, 0],
        }
    }

    /// The tuple of three numbers.
    pub(crate) fn three(a: u8, b: u8, c: u8) -> Tuple4
        ensures { tuple_of result ≡ a ∷ b ∷ c ∷ [] }
    {
        Tuple4 {
            len: 3,
            items: [a, b, c, 0],
        }
    }
}
