//! A packed lexicon.

ghost use Rattle.std.specs.Prelude.{◌≡◌, ℕ, ◌<◌, ◌≤◌, ◌-◌, ◌^◌, [], length, get_or, All, IfOk};
ghost use Rattle.xdg_packed.specs.Lexicon.{columns, AreAsLong, HasWord, words_of, numbers_of, CountsRows, IsFirstAlike};
ghost use Rattle.xdg_packed.specs.Packing.{IsLexicon};

use crate::table::{Table, copy_of};
use crate::tables::tables_of;
use crate::words::{WordIndex, index_words};
use std::alloc::Global;
use std::marker::Model;
use xdg_base::{EntryNo, List, OutOfMemory};
use xdg_domain::{Entry, Fields};

/// The entries of an expanded lexicon, packed, seen as the list of the entries, with the place of the dimension and of the
/// field at which each of them says its word. Each different record of a dimension is kept once.
#[derive(Debug, Drop)]
pub struct Packed {
    /// The place of the dimension.
    pub(crate) dim: usize,
    /// The place of the field.
    pub(crate) field: usize,
    /// How many entries there are.
    pub(crate) count: usize,
    /// How many different records there are, those of each dimension counted by themselves.
    pub(crate) rows: usize,
    /// What the entries say in each dimension.
    pub(crate) tables: Vec<Table>,
    /// The words of the entries.
    pub(crate) index: WordIndex,
}

impl Model for Packed {
    ghost use Rattle.std.specs.Coded.{codes};
    ghost use Rattle.xdg_domain.specs.contracts.values.Value as value;
    ghost use Rattle.xdg_packed.specs.Lexicon.{Lexicon};
    ghost use Rattle.xdg_packed.specs.Packing.{unpacked, IsPacked};

    ghost Value = { Lexicon };

    ghost coded = { Prim.hlevel (codes, value.the_row.coded) };

    ghost view = { λ packed. record { entries = unpacked packed.tables.items packed.count; dim = packed.dim; field = packed.field } };

    ghost invariant = { λ packed. IsPacked (record { entries = unpacked packed.tables.items packed.count; dim = packed.dim; field = packed.field })
        packed.tables.items packed.rows packed.index.words packed.index.numbers.items };
}

/// One entry of a packed lexicon, seen as the list of its records.
#[derive(Drop)]
pub struct EntryView<'a> {
    packed: &'a Packed,
    number: usize,
}

impl<'a> Model for EntryView<'a> {
    ghost use Rattle.std.specs.Prelude.{◌<◌, [], length, get_or};
    ghost use Rattle.std.specs.Coded.{coded_list, coded×, coded_ℕ};
    ghost use Rattle.xdg_domain.specs.contracts.values.Value as value;
    ghost use Rattle.xdg_packed.specs.Lexicon.{Entry};

    ghost Value = { Entry };

    ghost coded = { coded_list (coded_list (coded× coded_ℕ value.the_row.coded)) };

    ghost view = { λ entry. get_or entry.packed.now.entries entry.number [] };

    ghost invariant = { λ entry. entry.number < length entry.packed.now.entries };
}

/// Packs the entries of a lexicon, each of which says its word, a text, for one field of its record of one dimension: `dim` is
/// the place of the dimension `lex` among the used dimensions and `field` the place of its feature `word`, both from 0. There
/// are at most 4,294,967,295 entries, with a record for each used dimension. The time is linear in what the entries say. It is for the
/// tests of crates above (`xdg_trials`): a lexicon is packed while it grows (`Packing`).
pub fn pack(
    alloc: Global,
    dim: usize,
    field: usize,
    entries: &[Entry],
) -> Result<Packed, OutOfMemory>
    requires words { All (HasWord dim field) entries.now }
    requires equal { AreAsLong entries.now }
    requires few { length entries.now ≤ 2 ^ 32 - 1 }
    ensures { IfOk result (λ packed. packed ≡ record { entries = entries.now; dim = dim; field = field }) }
{
    let tables = tables_of(alloc, entries)?;
    let rows = tables.rows()?;
    let index = index_words(alloc, dim, field, entries)?;
    Ok(Packed {
        dim,
        field,
        count: entries.len(),
        rows,
        tables: tables.tables,
        index,
    })
}

impl Packed {
    /// The number of entries.
    pub fn len(&self) -> usize
        ensures len { result ≡ length self.now.entries }
        ensures right { IsLexicon self.now }
    {
        self.count
    }

    /// The entry with that number. It takes no memory.
    pub fn entry(&self, no: EntryNo) -> EntryView<'_>
        requires { no.0 < length self.now.entries }
        ensures { result ≡ get_or self.now.entries no.0 [] }
    {
        EntryView {
            packed: self,
            number: no.0 as usize,
        }
    }

    /// The first entry that says what the entry with that number says in the dimension with that place, which counts from 0. Entries
    /// with one record there have one such entry. Nothing is searched, and nothing takes memory.
    pub fn first_alike(&self, no: EntryNo, dim: usize) -> EntryNo
        requires entry { no.0 < length self.now.entries }
        requires dim { dim < length (get_or self.now.entries no.0 []) }
        ensures within { result.0 < length self.now.entries }
        ensures first { IsFirstAlike self.now dim no.0 result.0 }
    {
        EntryNo(self.tables.as_slice()[dim].first_alike(no.0 as usize))
    }

    /// The numbers of the entries of a word, rising; none for an unknown word. The word is looked up by an index, and nothing
    /// takes memory.
    pub fn of_word(&self, word: &str) -> &[EntryNo]
        ensures { result.now ≡ numbers_of (words_of self.now) word.now }
    {
        self.index.of(word)
    }

    /// The number of different records, those of each dimension counted by themselves. That many are kept.
    pub fn rows(&self) -> usize
        ensures counted { CountsRows (columns self.now.entries) result }
        ensures only { (count : ℕ) → CountsRows (columns self.now.entries) count → count ≡ result }
    {
        self.rows
    }

    /// The entries, each with its records, as a list of their own. The time is linear in what they say.
    pub fn entries(&self, alloc: Global) -> Result<List<Entry>, OutOfMemory>
        ensures { IfOk result (λ made. made ≡ self.now.entries) }
    {
        let mut made = List::new(alloc);
        for number in 0..self.count {
            made.push(self.copy_of_entry(alloc, number)?)?;
        }
        Ok(made)
    }

    /// A copy of the entry with that number.
    fn copy_of_entry(&self, alloc: Global, number: usize) -> Result<Entry, OutOfMemory>
        requires { number < length self.now.entries }
        ensures { IfOk result (λ made. made ≡ get_or self.now.entries number []) }
    {
        let mut made = List::new(alloc);
        for table in self.tables.as_slice() {
            made.push(copy_of(alloc, table.record(number))?)?;
        }
        Ok(made)
    }

    /// What an entry says in a dimension.
    fn record(&self, number: usize, dim: usize) -> &Fields
        requires entry { number < length self.now.entries }
        requires dim { dim < length (get_or self.now.entries number []) }
        ensures { result.now ≡ get_or (get_or self.now.entries number []) dim [] }
    {
        self.tables.as_slice()[dim].record(number)
    }
}

impl<'a> EntryView<'a> {
    /// What the entry says in the dimension with that place, which counts from 0. It takes no memory.
    pub fn fields(&self, dim: usize) -> &'a Fields
        requires { dim < length self.now }
        ensures { result.now ≡ get_or self.now dim [] }
    {
        self.packed.record(self.number, dim)
    }
}
