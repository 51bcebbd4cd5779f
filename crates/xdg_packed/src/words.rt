//! The words of a lexicon, each with the numbers of its entries.

ghost use Rattle.std.specs.Prelude.{◌≡◌, ℕ, List, ◌≤◌, ◌-◌, ◌^◌, [], ◌∷◌, ◌++◌, length, map, IfOk, OnOk};
ghost use Rattle.xdg_domain.specs.declared.values.Value.{out-Value};
ghost use Rattle.xdg_packed.specs.Lexicon.{text_in, said_in, word_of, numbers_of};
ghost use Rattle.xdg_packed.specs.Words.{IsWordIndex};

use std::alloc::Global;
use xdg_base::{EntryNo, List, OutOfMemory};
use xdg_domain::{Entry, Fields, Value};
use xdg_names::Index;

/// The words of a lexicon, each with the rising list of the numbers of its entries.
#[derive(Debug, Drop)]
pub(crate) struct WordIndex {
    // The different words.
    words: Index,
    // For each word the numbers of its entries.
    numbers: Vec<List<EntryNo>>,
}

impl WordIndex {
    /// Without words. It takes no memory.
    pub(crate) fn new(alloc: Global) -> WordIndex
        ensures { IsWordIndex [] result.words result.numbers.items }
    {
        WordIndex {
            words: Index::new(alloc),
            numbers: Vec::new(alloc),
        }
    }

    /// Adds the number of an entry to its word's numbers.
    pub(crate) fn add(
        &mut self,
        alloc: Global,
        word: &str,
        number: EntryNo,
    ) -> Result<(), OutOfMemory>
        requires { length self.old.numbers.items ≡ length self.old.words }
        ensures as_many { OnOk result (length self.new.numbers.items ≡ length self.new.words) }
        ensures index { OnOk result ((before : List (List ℕ)) → number.0 ≡ length before → IsWordIndex before self.old.words self.old.numbers.items
            → IsWordIndex (before ++ word.now ∷ []) self.new.words self.new.numbers.items) }
    {
        match self.words.find(word) {
            Some(place) => self.numbers[place].push(number),
            None => {
                let mut first = List::new(alloc);
                first.push(number)?;
                self.numbers.push(first)?;
                self.words.add(alloc, word)?;
                Ok(())
            }
        }
    }

    /// The numbers of the entries of a word, rising; none for an unknown word.
    pub(crate) fn of(&self, word: &str) -> &[EntryNo]
        requires { length self.now.numbers.items ≡ length self.now.words }
        ensures { (said : List (List ℕ)) → IsWordIndex said self.now.words self.now.numbers.items → result.now ≡ numbers_of said word.now }
    {
        match self.words.find(word) {
            None => &[],
            Some(place) => self.numbers[place].as_slice(),
        }
    }
}

/// The index of the words of these entries. The time is linear in the number of entries.
pub(crate) fn index_words(
    alloc: Global,
    dim: usize,
    field: usize,
    entries: &[Entry],
) -> Result<WordIndex, OutOfMemory>
    requires few { length entries.now ≤ 2 ^ 32 - 1 }
    ensures { IfOk result (λ made. IsWordIndex (map (word_of dim field) entries.now) made.words made.numbers.items) }
{
    let mut made = WordIndex::new(alloc);
    for (i, entry) in entries.iter().enumerate() {
        let word = word_at(entry.as_slice(), dim, field);
        made.add(alloc, word, EntryNo(i as u32))?;
    }
    Ok(made)
}

/// The word of an entry: what it says, if that is a text, for that field of that dimension, or else nothing.
pub(crate) fn word_at(entry: &[Fields], dim: usize, field: usize) -> &str
    ensures { result.now ≡ word_of dim field entry.now }
{
    match entry.get(dim) {
        None => "",
        Some(fields) => text_at(fields, field),
    }
}

/// The text that a record says for the field with that place, which counts from 0; an empty one where it says none.
pub fn text_at(fields: &Fields, field: usize) -> &str
    ensures { result.now ≡ said_in fields.now field }
{
    for said in fields.as_slice() {
        if said.0 as usize == field {
            return text_of(&said.1);
        }
    }
    ""
}

/// The text that a value is, or else nothing.
fn text_of(value: &Value) -> &str
    ensures { result.now ≡ text_in (out-Value value.now) }
{
    match value {
        Value::Str(text) => text.as_str(),
        _ => "",
    }
}
