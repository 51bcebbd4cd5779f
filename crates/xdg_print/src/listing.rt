//! The lines of the lexicon.

ghost use Rattle.std.specs.Prelude.{◌≡◌, ◌<◌, [], ◌∷◌, length, IfOk, IfSome, OnOk};
ghost use Rattle.xdg_domain.specs.Shapes.{fields_of, AreTypes};
ghost use Rattle.xdg_domain.specs.Values.{EachSaid, IsFieldOf};
ghost use Rattle.xdg_packed.specs.Entries.{AreEntries, IsEntry};
ghost use Rattle.xdg_print.specs.Printed.{put_lines};
ghost use Rattle.xdg_types.specs.Table.{typed};
ghost use Rattle.xdg_print.specs.LexiconText.{dim_line, dim_lines, end_line, entries_line, entries_lines, entry_line, entry_lines, lexicon_text, word_at};
ghost use Rattle.xdg_print.specs.WordPlaces.{place_of_word};

use crate::printer::Printer;
use crate::values::put_features;
use std::alloc::Global;
use xdg_ast::Kind;
use xdg_base::{EntryNo, OutOfMemory, Text};
use xdg_domain::Fields;
use xdg_packed::{EntryView, Packed, text_at, word_place};
use xdg_types::{DimType, TypeTable};

/// The word that an entry says at the place.
fn word_of<'a>(entry: &EntryView<'a>, place: Option<(usize, usize)>) -> &'a str
    requires { IfSome place (λ at. at.0 < length entry.now) }
    ensures { result.now ≡ word_at place entry.now }
{
    match place {
        None => "",
        Some((dim, field)) => text_at(entry.fields(dim), field),
    }
}

/// Where entries say their words, if they have one.
fn place_of_words(types: &TypeTable) -> Option<(usize, usize)>
    ensures place { result ≡ place_of_word types.now }
    ensures within { IfSome result (λ at. at.0 < length types.now.used) }
{
    // This call tells that names differ.
    let _ = types.dims();
    word_place(types)
}

/// Adds the line `entry E "W"`.
fn put_entry_line(printer: &mut Printer, place: u32, word: &str) -> Result<(), OutOfMemory>
    ensures { OnOk result (printer.new ≡ put_lines (entry_line place word.now ∷ []) printer.old) }
{
    printer.begin("")?;
    printer.constant("entry")?;
    printer.number(place)?;
    printer.quoted(word)?;
    printer.end()
}

/// Adds the line `dim D {..}`.
#[tactic(auto, using(crate::proofs::Put::put_append))]
fn put_dim_line(printer: &mut Printer, dim: &DimType, said: &Fields) -> Result<(), OutOfMemory>
    requires right { AreTypes (fields_of (typed dim.now.fields)) }
    requires said { EachSaid (IsFieldOf (fields_of (typed dim.now.fields))) said.now }
    ensures { OnOk result (printer.new ≡ put_lines (dim_line dim.now said.now ∷ []) printer.old) }
{
    printer.begin("")?;
    printer.mark(Kind::Dim)?;
    printer.constant(dim.name.as_str())?;
    printer.mark(Kind::LeftBrace)?;
    put_features(printer, dim.fields.as_slice(), said.as_slice())?;
    printer.mark(Kind::RightBrace)?;
    printer.end()
}

/// Adds a line for each used dimension.
fn put_dim_lines(
    printer: &mut Printer,
    types: &TypeTable,
    entry: &EntryView<'_>,
) -> Result<(), OutOfMemory>
    requires { IsEntry types.now entry.now }
    ensures { OnOk result (printer.new ≡ put_lines (dim_lines types.now.dims types.now.used entry.now) printer.old) }
{
    let dims = types.dims();
    let used = types.used();
    for (place, at) in used.iter().enumerate() {
        put_dim_line(printer, &dims[*at], entry.fields(place))?;
    }
    Ok(())
}

/// Adds the line `end`.
fn put_end_line(printer: &mut Printer) -> Result<(), OutOfMemory>
    ensures { OnOk result (printer.new ≡ put_lines (end_line ∷ []) printer.old) }
{
    printer.begin("")?;
    printer.constant("end")?;
    printer.end()
}

/// Adds the line `entries E`.
fn put_entries_line(printer: &mut Printer, count: u32) -> Result<(), OutOfMemory>
    ensures { OnOk result (printer.new ≡ put_lines (entries_line count ∷ []) printer.old) }
{
    printer.begin("")?;
    printer.constant("entries")?;
    printer.number(count)?;
    printer.end()
}

/// Adds the lines of an entry with this number.
#[tactic(auto, using(crate::proofs::Put::put_lines_append))]
fn put_entry(
    printer: &mut Printer,
    types: &TypeTable,
    place: Option<(usize, usize)>,
    number: u32,
    entry: &EntryView<'_>,
) -> Result<(), OutOfMemory>
    requires within { IfSome place (λ at. at.0 < length types.now.used) }
    requires entry { IsEntry types.now entry.now }
    ensures { OnOk result (printer.new ≡ put_lines (entry_lines types.now place number entry.now) printer.old) }
{
    put_entry_line(printer, number, word_of(entry, place))?;
    put_dim_lines(printer, types, entry)?;
    put_end_line(printer)
}

/// Adds the lines of the entries, numbered from 1.
fn put_entries(
    printer: &mut Printer,
    types: &TypeTable,
    place: Option<(usize, usize)>,
    lexicon: &Packed,
) -> Result<(), OutOfMemory>
    requires within { IfSome place (λ at. at.0 < length types.now.used) }
    requires entries { AreEntries types.now lexicon.now.entries }
    ensures { OnOk result (printer.new ≡ put_lines (entries_lines types.now place 1 lexicon.now.entries) printer.old) }
{
    let count = lexicon.len() as u32;
    for at in 0..count {
        put_entry(printer, types, place, at + 1, &lexicon.entry(EntryNo(at)))?;
    }
    Ok(())
}

/// The expanded lexicon as it is printed: for each entry, numbered from 1, the line `entry E "W"` with its word, a line
/// `dim D {..}` for each used dimension in the order of their uses, and `end`; at last the line `entries E` with their
/// number. All features of a dimension are written, in the order of their type: constants as names where they can be, else
/// quoted, tuples in square brackets, sets in full, a cardinality as `!`, `?`, `*`, `+` or `#{..}`; a valency lists the keys
/// whose cardinality isn't {0}, a map those whose value isn't the default. The time is linear in what the entries say.
///
/// # Errors
///
/// Want of memory.
pub fn lexicon_text(alloc: Global, types: &TypeTable, lexicon: &Packed) -> Result<Text, OutOfMemory>
    requires { AreEntries types.now lexicon.now.entries }
    ensures { IfOk result (λ text. text ≡ lexicon_text types.now lexicon.now.entries) }
{
    let mut printer = Printer::new(alloc);
    put_entries(&mut printer, types, place_of_words(types), lexicon)?;
    put_entries_line(&mut printer, lexicon.len() as u32)?;
    Ok(printer.into_text())
}
