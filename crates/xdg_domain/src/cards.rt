//! The numbers that a cardinality allows, as the bits of one number.

ghost use Rattle.std.specs.Prelude.{◌≡◌, ℕ, ◌<◌, ◌≤◌, [], ◌∷◌, ◌==◌, ◌||◌, true, ◌↔◌, MatchOption, nat_lt};
ghost use Rattle.xdg_domain.specs.Cards.{cards, IsCards, with_card, common};
ghost use Rattle.xdg_facts.specs.Rises.{has};

use std::marker::Model;

/// Numbers from 0 to 127, at least one of them: how many edges a cardinality allows. It is copied
/// as one number, and no call takes memory.
#[derive(Clone, Debug)]
pub struct CardSet {
    // Bit n tells whether n is allowed.
    bits: u128,
}

impl Model for CardSet {
    ghost use Rattle.std.specs.Prelude.{ℕ, List, ◌<◌, ◌^◌};
    ghost use Rattle.std.specs.Coded.{coded_list, coded_ℕ};
    ghost use Rattle.xdg_domain.specs.Bits.{same_bits};
    ghost use Rattle.xdg_facts.specs.BitSets.{members, number};

    ghost Value = { List ℕ };

    ghost coded = { coded_list coded_ℕ };

    ghost view = { λ s. members s.bits };

    ghost invariant = { λ s. (0 < s.bits) × (s.bits < 2 ^ 128) };

    ghost inverse = { λ s. record { bits = number s } };

    ghost inverse_ok = { λ s within. same_bits s within.1 };
}

impl Copy for CardSet {}

impl CardSet {
    /// All numbers from 0 to 127.
    pub fn all() -> CardSet
        ensures value { result ≡ cards (λ _. true) }
        ensures members { (n : ℕ) → has result n ≡ nat_lt n 128 }
        ensures cards { IsCards result }
    {
        CardSet { bits: u128::MAX }
    }

    /// One number alone.
    pub fn one(number: u8) -> CardSet
        requires { number < 128 }
        ensures value { result ≡ number ∷ [] }
        ensures cards { IsCards result }
    {
        CardSet {
            bits: 1u128 << number,
        }
    }

    /// Whether the number is allowed.
    pub fn contains(&self, number: u8) -> bool
        ensures value { result ≡ has self.now number }
        ensures cards { IsCards self.now }
    {
        let bits = self.bits;
        if number >= 128 {
            return false;
        }
        (bits >> number) & 1 == 1
    }

    /// The same numbers, and one more.
    pub fn with(self, number: u8) -> CardSet
        requires { number < 128 }
        ensures value { result ≡ with_card self number }
        ensures members { (n : ℕ) → has result n ≡ ((n == number) || has self n) }
        ensures cards { IsCards result }
    {
        CardSet {
            bits: self.bits | (1u128 << number),
        }
    }

    /// The numbers that both allow, where there is one.
    pub fn meet(&self, other: &CardSet) -> Option<CardSet>
        ensures { MatchOption result (common self.now other.now ≡ []) (λ joined. (joined ≡ common self.now other.now) × IsCards joined) }
    {
        let bits = self.bits & other.bits;
        if bits == 0 {
            return None;
        }
        Some(CardSet { bits })
    }

    /// The least number.
    pub fn least(&self) -> u8
        ensures member { has self.now result ≡ true }
        ensures least { (n : ℕ) → has self.now n ≡ true → result ≤ n }
        ensures below { result < 128 }
    {
        self.bits.trailing_zeros() as u8
    }

    /// The greatest number.
    pub fn greatest(&self) -> u8
        ensures member { has self.now result ≡ true }
        ensures greatest { (n : ℕ) → has self.now n ≡ true → n ≤ result }
        ensures below { result < 128 }
    {
        127 - self.bits.leading_zeros() as u8
    }

    /// Whether both allow the same numbers.
    pub fn equals(&self, other: &CardSet) -> bool
        ensures { (result ≡ true) ↔ (self.now ≡ other.now) }
    {
        self.bits == other.bits
    }
}
