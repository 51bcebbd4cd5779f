//! A finite set of numbers, as the rising list of its members.

ghost use Rattle.std.specs.Prelude.{◌≡◌, ℕ, [], ◌||◌, ◌&&◌, IfOk};
ghost use Rattle.std.specs.List.{range_with_len};
ghost use Rattle.std.specs.List.Sorted.{IsStrictlyIncreasing};
ghost use Rattle.xdg_facts.specs.Rises.{has};

use std::alloc::Global;
use std::marker::Model;
use xdg_base::OutOfMemory;

/// A set of the numbers of constants or of tuples, seen as the list of its members, which rises
/// strictly.
#[derive(Debug, Drop)]
pub struct SetOf {
    numbers: Vec<u16>,
}

impl Model for SetOf {
    ghost use Rattle.std.specs.Prelude.{List, ℕ};
    ghost use Rattle.std.specs.List.Sorted.{IsStrictlyIncreasing};
    ghost use Rattle.std.specs.Coded.{coded_list, coded_ℕ};

    ghost Value = { List ℕ };

    ghost coded = { coded_list coded_ℕ };

    ghost view = { λ set. set.numbers.items };

    ghost invariant = { λ set. IsStrictlyIncreasing set.numbers.items };
}

impl SetOf {
    /// The set without members. It takes no memory.
    pub fn none(alloc: Global) -> SetOf
        ensures { result ≡ [] }
    {
        SetOf {
            numbers: Vec::new(alloc),
        }
    }

    /// The numbers below the count.
    pub fn full(alloc: Global, count: u16) -> Result<SetOf, OutOfMemory>
        ensures { IfOk result (λ made. made ≡ range_with_len 0 count) }
    {
        let mut numbers = Vec::new(alloc);
        let mut next = 0;
        while next < count {
            numbers.push(next)?;
            next += 1;
        }
        Ok(SetOf { numbers })
    }

    /// The set of the numbers of a slice, which may stand there in any order and more than once.
    pub fn of(alloc: Global, numbers: &[u16]) -> Result<SetOf, OutOfMemory>
        ensures members { IfOk result (λ made. (n : ℕ) → has made n ≡ has numbers.now n) }
        ensures rising { IfOk result IsStrictlyIncreasing }
    {
        let mut list = Vec::from_slice(alloc, numbers)?;
        list.sort_unstable();
        list.dedup();
        Ok(SetOf { numbers: list })
    }

    /// Whether the number is a member.
    pub fn contains(&self, number: u16) -> bool
        ensures value { result ≡ has self.now number }
        ensures rising { IsStrictlyIncreasing self.now }
    {
        self.numbers.as_slice().contains(&number)
    }

    /// The members of both sets together. The time is linear.
    pub fn union(&self, alloc: Global, other: &SetOf) -> Result<SetOf, OutOfMemory>
        ensures members { IfOk result (λ made. (n : ℕ) → has made n ≡ (has self.now n || has other.now n)) }
        ensures rising { IfOk result IsStrictlyIncreasing }
    {
        let mine = self.numbers.as_slice();
        let theirs = other.numbers.as_slice();
        let mut numbers = Vec::new(alloc);
        let mut i = 0;
        let mut j = 0;
        while i < mine.len() && j < theirs.len() {
            let x = mine[i];
            let y = theirs[j];
            if x < y {
                numbers.push(x)?;
                i += 1;
            } else if y < x {
                numbers.push(y)?;
                j += 1;
            } else {
                numbers.push(x)?;
                i += 1;
                j += 1;
            }
        }
        let (_, later) = mine.split_at(i);
        numbers.extend_from_slice(later)?;
        let (_, more) = theirs.split_at(j);
        numbers.extend_from_slice(more)?;
        Ok(SetOf { numbers })
    }

    /// The members that both sets have. The time is linear.
    pub fn meet(&self, alloc: Global, other: &SetOf) -> Result<SetOf, OutOfMemory>
        ensures members { IfOk result (λ made. (n : ℕ) → has made n ≡ (has self.now n && has other.now n)) }
        ensures rising { IfOk result IsStrictlyIncreasing }
    {
        let mine = self.numbers.as_slice();
        let theirs = other.numbers.as_slice();
        let mut numbers = Vec::new(alloc);
        let mut i = 0;
        let mut j = 0;
        while i < mine.len() && j < theirs.len() {
            let x = mine[i];
            let y = theirs[j];
            if x < y {
                i += 1;
            } else if y < x {
                j += 1;
            } else {
                numbers.push(x)?;
                i += 1;
                j += 1;
            }
        }
        Ok(SetOf { numbers })
    }

    /// The members in order, lent.
    pub fn as_slice(&self) -> &[u16]
        ensures same { result.now ≡ self.now }
        ensures rising { IsStrictlyIncreasing self.now }
    {
        self.numbers.as_slice()
    }

    /// A copy.
    pub fn copy(&self, alloc: Global) -> Result<SetOf, OutOfMemory>
        ensures { IfOk result (λ made. made ≡ self.now) }
    {
        let numbers = Vec::from_slice(alloc, self.numbers.as_slice())?;
        Ok(SetOf { numbers })
    }
}
