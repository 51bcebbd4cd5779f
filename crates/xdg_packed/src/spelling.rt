//! Values as texts, so that different values have different texts, and values can be looked up as texts are.

ghost use Rattle.std.specs.Prelude.{◌≡◌, ◌+◌, ◌<◌, [], ◌∷◌, ◌++◌, IfOk, OnOk};
ghost use Rattle.xdg_packed.specs.Spelling as spec;

use std::alloc::Global;
use xdg_base::{OutOfMemory, Text};
use xdg_domain::{CardMap, CardSet, Fields, Value};

/// The text that spells a record.
pub(crate) fn spell_fields(alloc: Global, fields: &Fields) -> Result<Text, OutOfMemory>
    ensures { IfOk result (λ made. made ≡ spec.spelling_of_fields fields.now) }
{
    let mut out = Text::new(alloc);
    push_fields(&mut out, fields)?;
    Ok(out)
}

/// Adds the spelling of a record.
fn push_fields(out: &mut Text, fields: &Fields) -> Result<(), OutOfMemory>
    ensures { OnOk result (out.new ≡ out.old ++ spec.spelling_of_fields fields.now) }
{
    for field in fields.as_slice() {
        out.push_str(",")?;
        push_number(out, u64::from(field.0))?;
        push_value(out, &field.1)?;
    }
    out.push_str(";")
}

/// Adds the spelling of a value: a mark of its variant, and what it holds.
#[cycle(spell)]
fn push_value(out: &mut Text, value: &Value) -> Result<(), OutOfMemory>
    ensures { OnOk result (out.new ≡ out.old ++ spec.spelling value.now) }
{
    match value {
        Value::Const(constant) => {
            out.push_str("c")?;
            push_number(out, u64::from(*constant))
        }
        Value::Tuple(tuple) => {
            out.push_str("t")?;
            push_number(out, u64::from(*tuple))
        }
        Value::Set(set) => {
            out.push_str("s")?;
            push_numbers(out, set.as_slice())
        }
        Value::Card(cards) => {
            out.push_str("n")?;
            push_cards(out, cards)
        }
        Value::Valency(map) => {
            out.push_str("v")?;
            push_valency(out, map)
        }
        Value::Map(map) => {
            out.push_str("m")?;
            for entry in map.as_slice() {
                out.push_str(",")?;
                push_number(out, u64::from(entry.0))?;
                push_value(out, &entry.1)?;
            }
            out.push_str(";")
        }
        Value::Bool(holds) => {
            out.push_str("b")?;
            out.push_str(digit_of(*holds))
        }
        Value::Int(number) => {
            out.push_str("i")?;
            push_number(out, u64::from(*number))
        }
        Value::Str(text) => {
            out.push_str("q")?;
            push_text(out, text.as_str())
        }
        Value::Rec(fields) => {
            out.push_str("r")?;
            for field in fields.as_slice() {
                out.push_str(",")?;
                push_number(out, u64::from(field.0))?;
                push_value(out, &field.1)?;
            }
            out.push_str(";")
        }
    }
}

/// The digit of a truth value.
fn digit_of(holds: bool) -> &'static str
    ensures { result.now ≡ spec.truth holds }
{
    if holds {
        return "1";
    }
    "0"
}

/// Adds the spelling of a number: its digits in base 64, the lowest first, and a full stop.
#[tactic(auto, using(crate::proofs::Writing::digit_written, crate::proofs::Writing::stop_written))]
pub(crate) fn push_number(out: &mut Text, number: u64) -> Result<(), OutOfMemory>
    ensures { OnOk result (out.new ≡ out.old ++ spec.number number) }
{
    let mut rest = number;
    while rest > 0 {
        push_digit(out, (rest % 64) as u8)?;
        rest /= 64;
    }
    out.push_str(".")
}

/// Adds the character of a digit, one of those from `0` on.
fn push_digit(out: &mut Text, digit: u8) -> Result<(), OutOfMemory>
    requires { digit < 64 }
    ensures { OnOk result (out.new ≡ out.old ++ (48 + digit) ∷ []) }
{
    let mut buffer = [0; 4];
    out.push_str(char::from(b'0' + digit).encode_utf8(&mut buffer))
}

/// Adds the spelling of numbers: a comma before each, and a semicolon at the end.
fn push_numbers(out: &mut Text, all: &[u16]) -> Result<(), OutOfMemory>
    ensures { OnOk result (out.new ≡ out.old ++ spec.numbers all.now) }
{
    for number in all {
        out.push_str(",")?;
        push_number(out, u64::from(*number))?;
    }
    out.push_str(";")
}

/// Adds the spelling of the numbers of a cardinality.
fn push_cards(out: &mut Text, cards: &CardSet) -> Result<(), OutOfMemory>
    ensures { OnOk result (out.new ≡ out.old ++ spec.numbers cards.now) }
{
    for number in cards.least()..cards.greatest() + 1 {
        if !cards.contains(number) {
            continue;
        }
        out.push_str(",")?;
        push_number(out, u64::from(number))?;
    }
    out.push_str(";")
}

/// Adds the spelling of cardinalities by key.
fn push_valency(out: &mut Text, map: &CardMap) -> Result<(), OutOfMemory>
    ensures { OnOk result (out.new ≡ out.old ++ spec.keyed spec.numbers map.now) }
{
    for entry in map.as_slice() {
        out.push_str(",")?;
        push_number(out, u64::from(entry.0))?;
        push_cards(out, &entry.1)?;
    }
    out.push_str(";")
}

/// Adds the spelling of a text: its length in bytes, and the text.
fn push_text(out: &mut Text, text: &str) -> Result<(), OutOfMemory>
    ensures { OnOk result (out.new ≡ out.old ++ spec.text text.now) }
{
    push_number(out, text.len() as u64)?;
    out.push_str(text)
}
