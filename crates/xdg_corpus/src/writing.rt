//! What is written of a group.

ghost use Rattle.std.specs.Prelude.{◌≡◌, ◌<◌, ◌+◌, ◌++◌, ◌^◌, length, IfOk};
ghost use Rattle.xdg_corpus.specs.Groups.{group_text, own_text};
ghost use Rattle.xdg_corpus.specs.Texts.{sentence_line};
ghost use Rattle.xdg_io.specs.Texts.{WritesText};

use crate::group::Sentence;
use crate::sizes::are_long;
use std::alloc::Global;
use xdg_base::Bytes;
use xdg_io::{Failed, Sink, write_all};
use xdg_split::Answer;
use xdg_text::{Kept, Word, fault_line, write_line};

/// Writes the text of a line alone.
fn write_own<K: Sink>(sentence: &Sentence, answers: &[Answer], out: &mut K) -> Result<(), Failed>
    ensures { WritesText result (K.held out.old) (K.held out.new) (K.faults out.old) (K.faults out.new) (own_text answers.now sentence.now) }
{
    match sentence {
        Sentence::Refused(fault, place) => fault_line(fault, *place, out),
        Sentence::Job(place) => match answers.get(*place) {
            Some(answer) => write_all(out, answer.bytes.as_slice()),
            None => Ok(()),
        },
    }
}

/// Writes the number of a line, and its text.
fn write_sentence<K: Sink>(
    number: u64,
    sentence: &Sentence,
    answers: &[Answer],
    out: &mut K,
) -> Result<(), Failed>
    ensures { WritesText result (K.held out.old) (K.held out.new) (K.faults out.old) (K.faults out.new)
        (sentence_line number ++ own_text answers.now sentence.now) }
{
    write_line("sentence", &[Word::Number(number)], out)?;
    write_own(sentence, answers, out)
}

/// Writes the texts of lines in their order, of which the first has this number, piece by piece.
#[tactic(auto, using(xdg_io::proofs::Parts::start))]
fn write_texts<K: Sink>(
    first: u64,
    sentences: &[Sentence],
    answers: &[Answer],
    out: &mut K,
) -> Result<(), Failed>
    requires { first + length sentences.now < 2 ^ 64 }
    ensures { WritesText result (K.held out.old) (K.held out.new) (K.faults out.old) (K.faults out.new) (group_text answers.now first sentences.now) }
{
    for (place, sentence) in sentences.iter().enumerate() {
        write_sentence(first + place as u64, sentence, answers, out)?;
    }
    Ok(())
}

/// The texts of lines in their order, of which the first has this number.
fn text_of_group(
    alloc: Global,
    first: u64,
    sentences: &[Sentence],
    answers: &[Answer],
) -> Result<Bytes, Failed>
    requires { first + length sentences.now < 2 ^ 64 }
    ensures { IfOk result (λ text. text ≡ group_text answers.now first sentences.now) }
{
    let mut kept = Kept::new(alloc);
    write_texts(first, sentences, answers, &mut kept)?;
    Ok(kept.into_bytes())
}

/// Writes the texts of lines in their order, of which the first has this number. Short ones are written in one piece, where there is memory for
/// it: a call of the system takes as long as the text of a short line.
pub(crate) fn write_group<K: Sink>(
    alloc: Global,
    first: u64,
    sentences: &[Sentence],
    answers: &[Answer],
    out: &mut K,
) -> Result<(), Failed>
    requires { first + length sentences.now < 2 ^ 64 }
    ensures { WritesText result (K.held out.old) (K.held out.new) (K.faults out.old) (K.faults out.new) (group_text answers.now first sentences.now) }
{
    if are_long(answers) {
        return write_texts(first, sentences, answers, out);
    }
    match text_of_group(alloc, first, sentences, answers) {
        Ok(text) => write_all(out, text.as_slice()),
        Err(Failed) => write_texts(first, sentences, answers, out),
    }
}
