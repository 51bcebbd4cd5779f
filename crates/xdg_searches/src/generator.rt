//! The texts of a drill.

ghost use Rattle.std.specs.Prelude.{◌≡◌, ◌≤◌, ◌++◌, decimal, length, IfOk, OnOk};
ghost use Rattle.xdg_searches.specs.Generated as spec;

use itoa::Buffer;
use std::alloc::Global;
use xdg_base::{OutOfMemory, Text};

/// The lines before the entries: the dimensions, and two classes of words, of one sense and of two.
const FIRST_LINES: &str = "usedim id usedim lex
defdim lex {defentrytype {word: string}}
defdim id {
deftype id.label {det adj subj}
deflabeltype id.label
defentrytype {in: valency(id.label) out: valency(id.label) sense: {x y}}
useprinciple principle.graph {dims {D: id}}
useprinciple principle.tree {dims {D: id}}
useprinciple principle.valency {dims {D: id}}
}
defclass one W {dim lex {word: W} & dim id {sense: x}}
defclass two W {dim lex {word: W} & (dim id {sense: x} | dim id {sense: y})}
defentry {one {W: the} & dim id {in: {det!}}}
";

/// How many adjectives the grammar has.
const ADJECTIVES: u64 = 4;

/// How many adjectives the sentence has, 1 to 4.
fn adjectives(number: u64) -> u64
    ensures { result ≡ spec.adjectives number }
{
    1 + number % ADJECTIVES
}

/// How many nouns the grammar has, 1,000 to 1,999.
fn nouns(number: u64) -> u64
    ensures { result ≡ spec.nouns number }
{
    1000 + number % 1000
}

/// Which of the nouns the sentence has, counted from 1.
fn noun(number: u64) -> u64
    ensures { result ≡ spec.noun number }
{
    1 + number % nouns(number)
}

/// Adds a number between two texts.
fn push_number(text: &mut Text, before: &str, number: u64, after: &str) -> Result<(), OutOfMemory>
    ensures { OnOk result (text.new ≡ text.old ++ (before.now ++ (decimal number ++ after.now))) }
{
    let mut buffer = Buffer::new();
    text.push_str(before)?;
    text.push_str(buffer.format(number))?;
    text.push_str(after)
}

/// Adds each number from 1 up to a count, between two texts.
#[tactic(auto, using(crate::proofs::Numbering::numbered_more, crate::proofs::Numbering::numbered_none))]
fn push_numbered(text: &mut Text, before: &str, after: &str, count: u64) -> Result<(), OutOfMemory>
    ensures { OnOk result (text.new ≡ text.old ++ spec.numbered before.now after.now count) }
{
    for number in 0..count {
        push_number(text, before, number + 1, after)?;
    }
    Ok(())
}

/// The text of the grammar: the grammar of plain sentences with adjectives, each of two senses, and with 1,000 nouns and more.
///
/// # Errors
///
/// Fails where memory runs out.
pub fn grammar_text(alloc: Global, number: u64) -> Result<Text, OutOfMemory>
    ensures text { IfOk result (λ text. text ≡ spec.grammar_text number) }
    ensures short { IfOk result (λ text. length text ≤ 4194304) }
{
    let mut text = Text::new(alloc);
    text.push_str(FIRST_LINES)?;
    push_numbered(
        &mut text,
        "defentry {two {W: adj",
        "} & dim id {in: {adj!}}}\n",
        ADJECTIVES,
    )?;
    push_numbered(
        &mut text,
        "defentry {one {W: n",
        "} & dim id {in: {subj!} out: {det! adj*}}}\n",
        nouns(number),
    )?;
    text.push_str("defentry {one {W: sleeps} & dim id {out: {subj!}}}\n")?;
    Ok(text)
}

/// The sentence: one to four adjectives and a noun of the grammar between `the` and `sleeps`.
///
/// # Errors
///
/// Fails where memory runs out.
pub fn sentence_text(alloc: Global, number: u64) -> Result<Text, OutOfMemory>
    ensures text { IfOk result (λ text. text ≡ spec.sentence_text number) }
    ensures short { IfOk result (λ text. length text ≤ 65536) }
{
    let mut text = Text::new(alloc);
    text.push_str("the")?;
    push_numbered(&mut text, " adj", "", adjectives(number))?;
    push_number(&mut text, " n", noun(number), " sleeps")?;
    Ok(text)
}
