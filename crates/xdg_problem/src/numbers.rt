//! Rising lists of numbers.

ghost use Rattle.std.specs.Prelude.{◌≡◌};
ghost use Rattle.std.specs.List.Sorted.{IsStrictlyIncreasing};

use std::marker::Model;

/// Numbers that rise strictly: the members of a set, or those of a cardinality.
#[derive(Debug, Drop)]
pub struct Nums {
    numbers: Vec<u16>,
}

impl Model for Nums {
    ghost use Rattle.std.specs.Prelude.{List, ℕ};
    ghost use Rattle.std.specs.List.Sorted.{IsStrictlyIncreasing};
    ghost use Rattle.std.specs.Coded.{coded_list, coded_ℕ};

    ghost Value = { List ℕ };

    ghost coded = { coded_list coded_ℕ };

    ghost view = { λ nums. nums.numbers.items };

    ghost invariant = { λ nums. IsStrictlyIncreasing nums.numbers.items };
}

impl Nums {
    /// The numbers of a vector.
    pub fn of(numbers: Vec<u16>) -> Nums
        requires { IsStrictlyIncreasing numbers.items }
        ensures { result ≡ numbers.items }
    {
        Nums { numbers }
    }

    /// The numbers in order, lent.
    pub fn as_slice(&self) -> &[u16]
        ensures same { result.now ≡ self.now }
        ensures rising { IsStrictlyIncreasing self.now }
    {
        self.numbers.as_slice()
    }
}
