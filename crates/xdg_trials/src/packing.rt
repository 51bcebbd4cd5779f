//! Lexicons in which equal records are kept once.

use std::alloc::Global;
use std::test::Fail;
use xdg_base::Stop;
use xdg_inputs::{Expanded, expand_tree, read_tree};
use xdg_lexicon::expand;
use xdg_packed::{Packed, pack};

/// How many bytes a text may have.
const LONGEST: usize = 1_000_000;

/// Two dimensions, trees and valency.
const PLAIN: &str = "usedim id usedim lex
defdim lex {defentrytype {word: string}}
defdim id {
deftype id.label {det subj}
deflabeltype id.label
defentrytype {in: valency(id.label) out: valency(id.label)}
useprinciple principle.graph {dims {D: id}}
useprinciple principle.tree {dims {D: id}}
useprinciple principle.valency {dims {D: id}}
}
defentry {dim id {in: {det?}} dim lex {word: \"the\"}}
defentry {dim id {in: {subj?} out: {det!}} dim lex {word: \"dog\"}}
defentry {dim id {out: {subj!}} dim lex {word: \"barks\"}}
";

/// What a grammar text means.
fn expanded(alloc: Global, text: &str) -> Result<Expanded, Stop> {
    if text.len() > LONGEST {
        return Err(Stop::OutOfMemory);
    }
    let tree = read_tree(alloc, text.as_bytes())?;
    expand_tree(alloc, tree)
}

/// The lexicon of a grammar, packed when all of its entries are there.
fn packed_together(alloc: Global, expanded: &Expanded) -> Result<Packed, Stop> {
    let (dim, field) = expanded.checked.word_place();
    let entries = expand(alloc, &expanded.checked)?;
    Ok(pack(alloc, dim, field, entries.as_slice())?)
}

/// How many records a lexicon keeps, how many entries it has, and which of them are a word's.
fn told(alloc: Global, lexicon: &Packed, word: &str) -> Result<String, Fail> {
    let mut told = format!(in alloc; "{} {}:", lexicon.rows(), lexicon.len())?;
    for number in lexicon.of_word(word) {
        told.push_str(format!(in alloc; " {}", number.0)?.as_str())?;
    }
    Ok(told)
}

/// A grammar whose entries differ in their words mostly, up to most of its entries.
const NOUNS: &str = "usedim id usedim lex
defdim lex {defentrytype {word: string}}
defdim id {
deftype id.label {det adj subj}
deflabeltype id.label
defentrytype {in: valency(id.label) out: valency(id.label) sense: {x y}}
useprinciple principle.graph {dims {D: id}}
useprinciple principle.tree {dims {D: id}}
useprinciple principle.valency {dims {D: id}}
}
defclass one W {dim lex {word: W} & dim id {sense: x}}
defclass two W {dim lex {word: W} & (dim id {sense: x} | dim id {sense: y})}
defentry {one {W: the} & dim id {in: {det!}}}
defentry {two {W: adj1} & dim id {in: {adj!}}}
defentry {two {W: adj2} & dim id {in: {adj!}}}
defentry {two {W: adj3} & dim id {in: {adj!}}}
defentry {two {W: adj4} & dim id {in: {adj!}}}
defentry {one {W: sleeps} & dim id {out: {subj!}}}
";

/// That grammar with a thousand nouns.
fn with_nouns(alloc: Global) -> Result<String, Fail> {
    let mut text = String::from_str(alloc, NOUNS)?;
    for number in 1..1_001u32 {
        let line = format!(in alloc;
            "defentry {{one {{W: n{}}} & dim id {{in: {{subj!}} out: {{det! adj*}}}}}}\n",
            number
        )?;
        text.push_str(line.as_str())?;
    }
    Ok(text)
}

#[test]
fn equal_records_are_kept_once(rt: HostRuntime) -> Result<(), Fail> {
    let alloc = rt.alloc();
    let plain = expanded(alloc, PLAIN)?;
    assert_eq!(rt; told(alloc, &plain.lexicon, "purrs")?.as_str(), "6 3:");
    let nouns = expanded(alloc, with_nouns(alloc)?.as_str())?;
    assert_eq!(rt;
        told(alloc, &nouns.lexicon, "adj1")?.as_str(),
        "1011 1010: 1 2"
    );
    Ok(())
}

#[test]
fn entries_are_packed_as_they_come(rt: HostRuntime) -> Result<(), Fail> {
    let alloc = rt.alloc();
    let nouns = expanded(alloc, NOUNS)?;
    let together = packed_together(alloc, &nouns)?;
    assert_eq!(rt; told(alloc, &nouns.lexicon, "adj4")?.as_str(), "10 10: 7 8");
    assert_eq!(rt; told(alloc, &together, "adj4")?.as_str(), "10 10: 7 8");
    Ok(())
}
