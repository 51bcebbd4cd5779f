//! The search on a problem that is worked out by hand: three decisions of two values, where neighbours differ.
//!
//! Counted are [0], [0, 1], [0, 1, 0], [1], [1, 0] and [1, 0, 1], in this order.

ghost use Rattle.std.specs.Prelude.{◌≡◌, ◌≤◌, ◌∷◌, [], ℕ, List, take};
ghost use Rattle.xdg_facts.specs.Fits.{Fits};
ghost use Rattle.xdg_stream.specs.Apart.{IsApart, apart_closed};

use std::alloc::Global;
use std::marker::Model;
use std::test::Fail;
use xdg_base::OutOfMemory;
use xdg_facts::Ending;
use xdg_stream::{Front, Outcome, Search, Step, solve};

/// A prefix of three numbers, each 0 or 1.
#[derive(Drop)]
struct Apart {
    numbers: [u16; 3],
    len: usize,
}

impl Model for Apart {
    ghost Value = { List ℕ };

    ghost view = { λ a. take a.len a.numbers };

    ghost invariant = { λ a. a.len ≤ 3 };
}

impl Front for Apart {
    type Given = ();

    ghost problem = { λ _. tt };

    ghost shape = { λ _. 2 ∷ 2 ∷ 2 ∷ [] };

    ghost counted = { λ _ p. IsApart p };

    ghost numbers = { λ a. a };

    ghost closed = { λ _. apart_closed };

    fn prefix(&self) -> &[u16] {
        &self.numbers[..self.len]
    }

    fn decisions(&self) -> usize {
        3
    }

    fn size(&self, _decision: usize) -> u16 {
        2
    }

    fn push(&mut self, value: u16) -> bool {
        if self.len > 0 && self.numbers[self.len - 1] == value {
            return false;
        }
        self.numbers[self.len] = value;
        self.len += 1;
        true
    }

    // Behind a number only the other one is counted.
    fn follow(&mut self, most: u64) -> u64 {
        if most == 0 || self.len == 0 || self.len == 3 {
            return 0;
        }
        self.numbers[self.len] = 1 - self.numbers[self.len - 1];
        self.len += 1;
        1
    }

    // So only in the place of the first number a greater one may be counted.
    fn back(&mut self) -> Option<u16> {
        if self.len == 0 {
            return None;
        }
        self.len = 0;
        Some(self.numbers[0])
    }
}

fn start() -> Apart
    ensures { result ≡ [] }
{
    Apart {
        numbers: [0; 3],
        len: 0,
    }
}

fn run(
    alloc: Global,
    budget: u64,
    after: &[u16],
    wanted: Option<usize>,
) -> Result<Outcome, OutOfMemory>
    requires { Fits (2 ∷ 2 ∷ 2 ∷ []) after.now }
{
    solve(alloc, start(), budget, after, wanted)
}

#[test]
fn starts_behind_what_is_not_counted(rt: HostRuntime) -> Result<(), Fail> {
    let outcome = run(rt.alloc(), 5, &[0, 0, 1], None)?;
    assert_eq!(rt; outcome.ending, Ending::Complete);
    assert_eq!(rt; outcome.answers.len(), 2);
    Ok(())
}

#[test]
fn starts_behind_a_solution(rt: HostRuntime) -> Result<(), Fail> {
    let outcome = run(rt.alloc(), 3, &[0, 1, 0], None)?;
    assert_eq!(rt; outcome.ending, Ending::Complete);
    assert_eq!(rt; outcome.answers.len(), 1);
    assert_eq!(rt; outcome.answers[0].as_slice(), [1, 0, 1].as_slice());
    Ok(())
}

#[test]
fn says_the_end_again(rt: HostRuntime) -> Result<(), Fail> {
    let mut search = Search::start(start(), 6, Vec::with_capacity(rt.alloc(), 3)?);
    assert_eq!(rt; search.advance(), Step::Found);
    assert_eq!(rt; search.advance(), Step::Found);
    assert_eq!(rt; search.advance(), Step::End);
    assert_eq!(rt; search.advance(), Step::End);
    assert_eq!(rt; search.charged(), 6);
    Ok(())
}

#[test]
fn ends_within_a_run(rt: HostRuntime) -> Result<(), Fail> {
    let mut search = Search::start(start(), 2, Vec::with_capacity(rt.alloc(), 3)?);
    assert_eq!(rt; search.advance(), Step::Spent);
    assert_eq!(rt; search.charged(), 2);
    Ok(())
}
