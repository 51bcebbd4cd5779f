//! A lexicon while it is packed.

ghost use Rattle.std.specs.Prelude.{◌≡◌, ◌<◌, [], ◌∷◌, ◌++◌, length, get_or, IfOk};
ghost use Rattle.xdg_packed.specs.Entries.{count_of};
ghost use Rattle.xdg_packed.specs.Lexicon.{AreAsLong, HasWord, word_of};
ghost use Rattle.xdg_packed.specs.Packing.{Puts};

use crate::entry_set::EntrySet;
use crate::packed::Packed;
use crate::words::{WordIndex, word_at};
use std::alloc::Global;
use std::marker::Model;
use xdg_base::{EntryNo, OutOfMemory};
use xdg_domain::Entry;

/// A lexicon while it is packed: entries are added one after the other, each once. Seen as the lexicon so far.
#[derive(Debug, Drop)]
pub struct Packing {
    dim: usize,
    field: usize,
    entries: EntrySet,
    // The words of the entries.
    index: WordIndex,
}

impl Model for Packing {
    ghost use Rattle.std.specs.Coded.{codes};
    ghost use Rattle.xdg_domain.specs.contracts.values.Value as value;
    ghost use Rattle.xdg_packed.specs.Lexicon.{Lexicon};
    ghost use Rattle.xdg_packed.specs.Packing.{kept, IsPacking};

    ghost Value = { Lexicon };

    ghost coded = { Prim.hlevel (codes, value.the_row.coded) };

    ghost view = { λ packing. record { entries = kept packing.entries; dim = packing.dim; field = packing.field } };

    ghost invariant = { λ packing. IsPacking (record { entries = kept packing.entries; dim = packing.dim; field = packing.field })
        packing.entries packing.index };
}

/// A lexicon to which an entry was added.
#[derive(Debug, Drop)]
pub struct Added {
    /// The lexicon with the entry.
    pub packing: Packing,
    /// How many of its entries have the word of that entry.
    pub of_word: usize,
}

impl Packing {
    /// Without entries, each of which will say its word for one field of its record of one dimension: `dim` is the place of the
    /// dimension `lex` among the used dimensions and `field` the place of its feature `word`, both from 0. It takes no memory.
    pub fn new(alloc: Global, dim: usize, field: usize) -> Packing
        ensures { result ≡ record { entries = []; dim = dim; field = field } }
    {
        Packing {
            dim,
            field,
            entries: EntrySet::new(alloc),
            index: WordIndex::new(alloc),
        }
    }

    /// Adds an entry at the end, unless it stands there already, and tells how many entries its word then has. Its records move in,
    /// and are dropped where they stand there already. More than 4,294,967,295 entries are want of memory, on which all is dropped.
    /// The time is linear in what the entry says.
    pub fn add(self, alloc: Global, entry: Entry) -> Result<Added, OutOfMemory>
        requires word { HasWord self.dim self.field entry }
        requires equal { AreAsLong (self.entries ++ entry ∷ []) }
        ensures place { IfOk result (λ added. (added.packing.dim ≡ self.dim) × (added.packing.field ≡ self.field)) }
        ensures puts { IfOk result (λ added. Puts self.entries entry added.packing.entries) }
        ensures count { IfOk result (λ added. added.of_word ≡ count_of self.dim self.field added.packing.entries (word_of self.dim self.field entry)) }
    {
        let Packing {
            dim,
            field,
            mut entries,
            mut index,
        } = self;
        let number = entries.count;
        let of_word = index.of(word_at(entry.as_slice(), dim, field)).len();
        if !entries.add(alloc, entry)? {
            let packing = Packing {
                dim,
                field,
                entries,
                index,
            };
            return Ok(Added { packing, of_word });
        }
        let word = entries.word(dim, field, number);
        index.add(alloc, word, EntryNo(number as u32))?;
        let of_word = of_word + 1;
        let packing = Packing {
            dim,
            field,
            entries,
            index,
        };
        Ok(Added { packing, of_word })
    }

    /// The number of entries.
    pub fn len(&self) -> usize
        ensures { result ≡ length self.now.entries }
    {
        self.entries.count
    }

    /// The word of the entry with that number, from 0.
    pub fn word(&self, number: usize) -> &str
        requires { number < length self.now.entries }
        ensures { result.now ≡ word_of self.now.dim self.now.field (get_or self.now.entries number []) }
    {
        self.entries.word(self.dim, self.field, number)
    }

    /// How many entries a word has.
    pub fn count(&self, word: &str) -> usize
        ensures { result ≡ count_of self.now.dim self.now.field self.now.entries word.now }
    {
        self.index.of(word).len()
    }

    /// The packed lexicon. Nothing is copied.
    pub fn finish(self) -> Packed
        ensures { result ≡ self }
    {
        let Packing {
            dim,
            field,
            entries,
            index,
        } = self;
        let EntrySet {
            count,
            rows,
            tables,
            ..
        } = entries;
        Packed {
            dim,
            field,
            count,
            rows,
            tables: tables.tables,
            index,
        }
    }
}
