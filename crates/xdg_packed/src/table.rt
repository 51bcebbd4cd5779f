//! The records of one dimension, each different one kept once.

ghost use Rattle.std.specs.Prelude.{◌≡◌, ◌↔◌, ◌<◌, ◌≤◌, ◌-◌, ◌^◌, ◌⊎◌, [], ◌∷◌, ◌++◌, length, get_or, true, IfOk, OnOk};
ghost use Rattle.xdg_packed.specs.Lexicon.{CountsDifferent};
ghost use Rattle.xdg_packed.specs.Rows.{AddsFirst, AreSpelled, IsFirst, IsKnownRow, IsNewRow};
ghost use Rattle.xdg_packed.specs.Tables.{records, AddsRecord, IsRight, IsWithoutLast, no_table};

use crate::spelling::spell_fields;
use std::alloc::Global;
use xdg_base::{List, OutOfMemory};
use xdg_domain::{Fields, same_fields};
use xdg_names::Index;

/// What the entries of a lexicon say in one dimension.
#[derive(Debug, Drop)]
pub(crate) struct Table {
    // The different records.
    rows: List<Fields>,
    // For each of them the number of the first entry that has it.
    firsts: List<u32>,
    /// For each entry the place of its record among them.
    pub(crate) places: List<u32>,
}

impl Table {
    /// Without entries. It takes no memory.
    pub(crate) fn new(alloc: Global) -> Table
        ensures { result ≡ no_table }
    {
        Table {
            rows: List::new(alloc),
            firsts: List::new(alloc),
            places: List::new(alloc),
        }
    }

    /// Adds the record of one entry more, given the spellings of the different records. The record moves in where it is new, and is
    /// dropped where it stands there. The time is linear in what it says.
    pub(crate) fn add(
        &mut self,
        alloc: Global,
        spellings: &mut Index,
        fields: Fields,
    ) -> Result<(), OutOfMemory>
        requires right { IsRight self.old }
        requires spelled { AreSpelled self.old.rows spellings.old }
        requires few { length self.old.places < 2 ^ 32 - 1 }
        ensures right { OnOk result (IsRight self.new) }
        ensures spelled { OnOk result (AreSpelled self.new.rows spellings.new) }
        ensures adds { OnOk result (AddsRecord self.old self.new fields) }
    {
        let likely = last_of(self.places.as_slice());
        let place = next_place(alloc, &mut self.rows, spellings, likely, fields)?;
        add_first(&mut self.firsts, place, self.places.len() as u32)?;
        self.places.push(place)
    }

    /// Takes back what was added last.
    pub(crate) fn take_back(&mut self)
        ensures { IsWithoutLast self.old self.new }
    {
        self.places.pop();
    }

    /// The record of the entry with that place, which counts from 0.
    pub(crate) fn record(&self, at: usize) -> &Fields
        requires right { IsRight self.now }
        requires within { at < length self.now.places }
        ensures { result.now ≡ get_or (records self.now) at [] }
    {
        &self.rows.as_slice()[self.places.as_slice()[at] as usize]
    }

    /// The number of the first entry with the record of the entry with that place, which counts from 0. It takes no memory.
    pub(crate) fn first_alike(&self, at: usize) -> u32
        requires right { IsRight self.now }
        requires within { at < length self.now.places }
        ensures { IsFirst (records self.now) at result }
    {
        self.firsts.as_slice()[self.places.as_slice()[at] as usize]
    }

    /// The number of different records.
    pub(crate) fn rows(&self) -> usize
        requires { IsRight self.now }
        ensures { CountsDifferent (records self.now) result }
    {
        self.rows.len()
    }
}

/// The last of these places, and 0 where there is none.
fn last_of(places: &[u32]) -> u32 {
    match places.last() {
        None => 0,
        Some(place) => *place,
    }
}

/// The place of a record among different records, given a place at which it is likely to stand: there it is compared, and
/// looked up only where it differs. One that is new goes last.
fn next_place(
    alloc: Global,
    rows: &mut List<Fields>,
    spellings: &mut Index,
    likely: u32,
    fields: Fields,
) -> Result<u32, OutOfMemory>
    requires spelled { AreSpelled rows.old spellings.old }
    requires few { length rows.old < 2 ^ 32 - 1 }
    ensures { IfOk result (λ place. IsKnownRow rows.old spellings.old rows.new spellings.new fields place
        ⊎ IsNewRow rows.old spellings.old rows.new spellings.new fields place) }
{
    if is_row(rows.as_slice(), likely as usize, &fields) {
        return Ok(likely);
    }
    place_of(alloc, rows, spellings, fields)
}

/// Whether a place is one of these records, and the record there is the given one.
fn is_row(rows: &[Fields], place: usize, fields: &Fields) -> bool
    ensures { (result ≡ true) ↔ ((place < length rows.now) × (get_or rows.now place [] ≡ fields.now)) }
{
    if place >= rows.len() {
        return false;
    }
    same_fields(rows[place].as_slice(), fields.as_slice())
}

/// The place of a record among different records, by its spelling. One that is new goes last.
fn place_of(
    alloc: Global,
    rows: &mut List<Fields>,
    spellings: &mut Index,
    fields: Fields,
) -> Result<u32, OutOfMemory>
    requires spelled { AreSpelled rows.old spellings.old }
    requires few { length rows.old < 2 ^ 32 - 1 }
    ensures { IfOk result (λ place. IsKnownRow rows.old spellings.old rows.new spellings.new fields place
        ⊎ IsNewRow rows.old spellings.old rows.new spellings.new fields place) }
{
    let spelling = spell_fields(alloc, &fields)?;
    match spellings.find(spelling.as_str()) {
        Some(place) => Ok(place as u32),
        None => {
            let place = rows.len() as u32;
            rows.push(fields)?;
            spellings.add(alloc, spelling.as_str())?;
            Ok(place)
        }
    }
}

/// Adds the number of an entry to the first entries of the different records, where the place of its record is a new one.
fn add_first(firsts: &mut List<u32>, place: u32, number: u32) -> Result<(), OutOfMemory>
    ensures { OnOk result (AddsFirst firsts.old firsts.new place number) }
{
    if (place as usize) < firsts.len() {
        return Ok(());
    }
    firsts.push(number)
}

/// A copy of a record.
pub(crate) fn copy_of(alloc: Global, fields: &Fields) -> Result<Fields, OutOfMemory>
    ensures { IfOk result (λ made. made ≡ fields.now) }
{
    let mut made = List::new(alloc);
    for field in fields.as_slice() {
        made.push((field.0, field.1.copy(alloc)?))?;
    }
    Ok(made)
}
