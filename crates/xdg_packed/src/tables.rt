//! The tables of a lexicon while entries are added, one for each dimension.

ghost use Rattle.std.specs.Prelude.{◌≡◌, ℕ, ◌<◌, ◌≤◌, ◌-◌, ◌^◌, [], length, get_or, map, IfOk, OnOk};
ghost use Rattle.xdg_packed.specs.Lexicon.{columns, AreAsLong, CountsRows};
ghost use Rattle.xdg_packed.specs.Tables.{records, key, no_table, AreTables, AddsEntry, IsRight, IsWithoutLast};

use crate::spelling::push_number;
use crate::table::{Table, copy_of};
use std::alloc::Global;
use xdg_base::{List, OutOfMemory, Text};
use xdg_domain::{Entry, Fields};
use xdg_names::Index;

/// The tables, and beside each the spellings of its different records.
#[derive(Debug, Drop)]
pub(crate) struct Tables {
    /// A table for each dimension; none before the first entry.
    pub(crate) tables: Vec<Table>,
    // The spellings of the different records of each.
    spellings: Vec<Index>,
}

impl Tables {
    /// Without tables. It takes no memory.
    pub(crate) fn new(alloc: Global) -> Tables
        ensures right { AreTables result.tables.items result.spellings.items }
        ensures none { result.tables.items ≡ [] }
    {
        Tables {
            tables: Vec::new(alloc),
            spellings: Vec::new(alloc),
        }
    }

    /// Makes as many tables as an entry has records, where there are none.
    fn widen(&mut self, alloc: Global, width: usize) -> Result<(), OutOfMemory>
        requires right { AreTables self.old.tables.items self.old.spellings.items }
        requires within { length self.old.tables.items ≤ width }
        ensures right { OnOk result (AreTables self.new.tables.items self.new.spellings.items) }
        ensures wide { OnOk result (length self.new.tables.items ≡ width) }
        ensures same { OnOk result ((dim : ℕ) → get_or self.new.tables.items dim no_table ≡ get_or self.old.tables.items dim no_table) }
    {
        for _ in self.tables.len()..width {
            self.tables.push(Table::new(alloc))?;
            self.spellings.push(Index::new(alloc))?;
        }
        Ok(())
    }

    /// Adds an entry, each record of it to the table of its dimension, from the last to the first. The time is linear in what it says.
    pub(crate) fn add(&mut self, alloc: Global, entry: Entry) -> Result<(), OutOfMemory>
        requires right { AreTables self.old.tables.items self.old.spellings.items }
        requires within { length self.old.tables.items ≤ length entry }
        requires few { (dim : ℕ) → length (get_or self.old.tables.items dim no_table).places < 2 ^ 32 - 1 }
        ensures right { OnOk result (AreTables self.new.tables.items self.new.spellings.items) }
        ensures adds { OnOk result (AddsEntry self.old.tables.items self.new.tables.items entry) }
    {
        self.widen(alloc, entry.len())?;
        let mut rest = entry;
        while let Some(fields) = rest.pop() {
            let dim = rest.len();
            self.tables[dim].add(alloc, &mut self.spellings[dim], fields)?;
        }
        Ok(())
    }

    /// Takes back the entry that was added last.
    pub(crate) fn take_back(&mut self)
        ensures long { length self.new.tables.items ≡ length self.old.tables.items }
        ensures each { (dim : ℕ) → IsWithoutLast (get_or self.old.tables.items dim no_table) (get_or self.new.tables.items dim no_table) }
        ensures spellings { self.new.spellings.items ≡ self.old.spellings.items }
    {
        for dim in 0..self.tables.len() {
            self.tables[dim].take_back();
        }
    }

    /// The text that spells at which places the records of the entry with that number stand. Different entries have different ones.
    pub(crate) fn key(&self, alloc: Global, number: usize) -> Result<Text, OutOfMemory>
        requires { (dim : ℕ) → dim < length self.now.tables.items → number < length (get_or self.now.tables.items dim no_table).places }
        ensures { IfOk result (λ made. made ≡ key self.now.tables.items number) }
    {
        let mut out = Text::new(alloc);
        for table in self.tables.as_slice() {
            out.push_str(",")?;
            push_number(&mut out, u64::from(table.places.as_slice()[number]))?;
        }
        out.push_str(";")?;
        Ok(out)
    }

    /// How many different records there are, those of each dimension counted by themselves. More than a `usize` counts don't fit the
    /// memory.
    pub(crate) fn rows(&self) -> Result<usize, OutOfMemory>
        requires { (dim : ℕ) → IsRight (get_or self.now.tables.items dim no_table) }
        ensures { IfOk result (λ rows. CountsRows (map records self.now.tables.items) rows) }
    {
        let mut rows = 0usize;
        for table in self.tables.as_slice() {
            match rows.checked_add(table.rows()) {
                None => return Err(OutOfMemory),
                Some(sum) => rows = sum,
            }
        }
        Ok(rows)
    }
}

/// The tables of these entries, which are copied.
pub(crate) fn tables_of(alloc: Global, entries: &[Entry]) -> Result<Tables, OutOfMemory>
    requires equal { AreAsLong entries.now }
    requires few { length entries.now ≤ 2 ^ 32 - 1 }
    ensures right { IfOk result (λ made. AreTables made.tables.items made.spellings.items) }
    ensures columns { IfOk result (λ made. map records made.tables.items ≡ columns entries.now) }
{
    let mut made = Tables::new(alloc);
    for entry in entries {
        made.add(alloc, copy_of_entry(alloc, entry.as_slice())?)?;
    }
    Ok(made)
}

/// A copy of an entry.
fn copy_of_entry(alloc: Global, entry: &[Fields]) -> Result<Entry, OutOfMemory>
    ensures { IfOk result (λ made. made ≡ entry.now) }
{
    let mut made = List::new(alloc);
    for fields in entry {
        made.push(copy_of(alloc, fields)?)?;
    }
    Ok(made)
}
