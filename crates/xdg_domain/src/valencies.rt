//! What is allowed by key, as the list of the keys with their cardinalities.

ghost use Rattle.std.specs.Prelude.{◌≡◌, ℕ, [], ◌∷◌, ◌++◌, IfOk, OnOk, OnErr, MatchOption};
ghost use Rattle.xdg_domain.specs.Keys.{KeysBelow};
ghost use Rattle.xdg_domain.specs.Valencies.{said_at, KeysRise, both_say, Clash};

use crate::cards::CardSet;
use std::alloc::Global;
use std::marker::Model;
use xdg_base::OutOfMemory;

/// Cardinalities by key, seen as the list of the keys with what each allows. The keys rise strictly.
#[derive(Debug, Drop)]
pub struct CardMap {
    entries: Vec<(u8, CardSet)>,
}

impl Model for CardMap {
    ghost use Rattle.std.specs.Prelude.{List, ℕ};
    ghost use Rattle.xdg_domain.specs.Valencies.{KeysRise};
    ghost use Rattle.std.specs.Coded.{coded_list, coded×, coded_ℕ};

    ghost Value = { List (ℕ × List ℕ) };

    ghost coded = { coded_list (coded× coded_ℕ (coded_list coded_ℕ)) };

    ghost view = { λ map. map.entries.items };

    ghost invariant = { λ map. KeysRise 0 map.entries.items };
}

impl CardMap {
    /// The map that says nothing of any key. It takes no memory.
    pub fn none(alloc: Global) -> CardMap
        ensures { result ≡ [] }
    {
        CardMap {
            entries: Vec::new(alloc),
        }
    }

    /// The map that says something of one key alone.
    pub fn said(alloc: Global, key: u8, cards: CardSet) -> Result<CardMap, OutOfMemory>
        ensures { IfOk result (λ made. made ≡ (key, cards) ∷ []) }
    {
        let mut entries = Vec::new(alloc);
        entries.push((key, cards))?;
        Ok(CardMap { entries })
    }

    /// What is said of the key, if anything is.
    pub fn get(&self, key: u8) -> Option<CardSet>
        ensures { result ≡ said_at self.now key }
    {
        for entry in self.entries.as_slice() {
            if entry.0 == key {
                return Some(entry.1);
            }
        }
        None
    }

    /// Both maps together, key by key: what one alone says of a key is taken over, and what both
    /// say of it are the numbers that both allow. None where they allow no number in common for
    /// some key. The time is linear.
    pub fn join(&self, alloc: Global, other: &CardMap) -> Result<Option<CardMap>, OutOfMemory>
        ensures { IfOk result (λ told. MatchOption told
            ((key : ℕ) × Clash (said_at self.now key) (said_at other.now key))
            (λ made. (key : ℕ) → (said_at made key ≡ both_say (said_at self.now key) (said_at other.now key))
            × (Clash (said_at self.now key) (said_at other.now key) → ⊥))) }
    {
        let mine = self.entries.as_slice();
        let theirs = other.entries.as_slice();
        let mut entries = Vec::new(alloc);
        let mut i = 0;
        let mut j = 0;
        while i < mine.len() && j < theirs.len() {
            let one = mine[i];
            let two = theirs[j];
            if one.0 < two.0 {
                entries.push(one)?;
                i += 1;
            } else if two.0 < one.0 {
                entries.push(two)?;
                j += 1;
            } else {
                match one.1.meet(&two.1) {
                    None => return Ok(None),
                    Some(cards) => {
                        entries.push((one.0, cards))?;
                        i += 1;
                        j += 1;
                    }
                }
            }
        }
        let (_, later) = mine.split_at(i);
        entries.extend_from_slice(later)?;
        let (_, more) = theirs.split_at(j);
        entries.extend_from_slice(more)?;
        Ok(Some(CardMap { entries }))
    }

    /// Adds what is said of a key above all of which something is said. On want of memory the map
    /// stays as it was.
    pub fn add(&mut self, key: u8, cards: CardSet) -> Result<(), OutOfMemory>
        requires above { KeysBelow key self.old }
        ensures ok { OnOk result (self.new ≡ self.old ++ (key, cards) ∷ []) }
        ensures err { OnErr result (self.new ≡ self.old) }
    {
        self.entries.push((key, cards))?;
        Ok(())
    }

    /// The keys with what each allows, in order, lent.
    pub fn as_slice(&self) -> &[(u8, CardSet)]
        ensures same { result.now ≡ self.now }
        ensures rising { KeysRise 0 self.now }
    {
        self.entries.as_slice()
    }

    /// A copy.
    pub fn copy(&self, alloc: Global) -> Result<CardMap, OutOfMemory>
        ensures { IfOk result (λ made. made ≡ self.now) }
    {
        let entries = Vec::from_slice(alloc, self.entries.as_slice())?;
        Ok(CardMap { entries })
    }

    /// That the keys rise. It does nothing.
    pub(crate) fn rises(&self)
        ensures { KeysRise 0 self.now }
    {
        let _ = &self.entries;
    }
}
