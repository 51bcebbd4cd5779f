//! Entries, each kept once.

ghost use Rattle.std.specs.Prelude.{◌≡◌, ◌<◌, [], ◌∷◌, ◌++◌, length, get_or, true, false, IfOk, OnOk};
ghost use Rattle.xdg_facts.specs.Membership.{In};
ghost use Rattle.xdg_packed.specs.Lexicon.{AreAsLong, word_of};
ghost use Rattle.xdg_packed.specs.Packing.{kept, AreKept};

use crate::tables::Tables;
use crate::words::text_at;
use std::alloc::Global;
use xdg_base::OutOfMemory;
use xdg_domain::Entry;
use xdg_names::Index;

/// Different entries, in the order in which they were added.
#[derive(Debug, Drop)]
pub(crate) struct EntrySet {
    /// How many entries there are.
    pub(crate) count: usize,
    /// How many different records there are, those of each dimension counted by themselves.
    pub(crate) rows: usize,
    /// What the entries say in each dimension.
    pub(crate) tables: Tables,
    // For each entry the text that spells at which places its records stand.
    keys: Index,
}

impl EntrySet {
    /// Without entries. It takes no memory.
    pub(crate) fn new(alloc: Global) -> EntrySet
        ensures right { AreKept [] result }
        ensures none { kept result ≡ [] }
    {
        EntrySet {
            count: 0,
            rows: 0,
            tables: Tables::new(alloc),
            keys: Index::new(alloc),
        }
    }

    /// Adds an entry at the end, unless it stands there already, and tells whether it is new. Its records move in, and are dropped
    /// where they stand there already. More than 4,294,967,295 entries are want of memory, on which nothing is told of the entries.
    /// The time is linear in what the entry says.
    pub(crate) fn add(&mut self, alloc: Global, entry: Entry) -> Result<bool, OutOfMemory>
        requires right { AreKept (kept self.old) self.old }
        requires equal { AreAsLong (kept self.old ++ entry ∷ []) }
        ensures right { OnOk result (AreKept (kept self.new) self.new) }
        ensures known { IfOk result (λ added. added ≡ false → In (kept self.old) entry × (kept self.new ≡ kept self.old)) }
        ensures new { IfOk result (λ added. added ≡ true → (In (kept self.old) entry → ⊥) × (kept self.new ≡ kept self.old ++ entry ∷ [])) }
    {
        if self.count >= u32::MAX as usize {
            return Err(OutOfMemory);
        }
        self.tables.add(alloc, entry)?;
        let key = self.tables.key(alloc, self.count)?;
        if !self.keys.add(alloc, key.as_str())? {
            self.tables.take_back();
            return Ok(false);
        }
        self.rows = self.tables.rows()?;
        self.count += 1;
        Ok(true)
    }

    /// The word of the entry with that number, from 0, that it says for a field of its record of a dimension.
    pub(crate) fn word(&self, dim: usize, field: usize, number: usize) -> &str
        requires right { AreKept (kept self.now) self.now }
        requires number { number < length (kept self.now) }
        requires dim { dim < length (get_or (kept self.now) number []) }
        ensures { result.now ≡ word_of dim field (get_or (kept self.now) number []) }
    {
        text_at(self.tables.tables.as_slice()[dim].record(number), field)
    }
}
