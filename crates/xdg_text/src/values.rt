//! The values of attributes.

ghost use Rattle.std.specs.Prelude.{◌++◌, codes};
ghost use Rattle.std.specs.List.{flat_map, join_by};
ghost use Rattle.xdg_io.specs.Texts.{WritesText};
ghost use Rattle.xdg_text.specs.Constants.{constant};
ghost use Rattle.xdg_text.specs.Values.{value_text, led_constant};

use crate::constants::write_constant;
use xdg_base::Text;
use xdg_io::{Failed, Sink, write_all};
use xdg_problem::Shown;

/// Writes a constant.
fn write_text<K: Sink>(text: &Text, sink: &mut K) -> Result<(), Failed>
    ensures { WritesText result (K.held sink.old) (K.held sink.new) (K.faults sink.old) (K.faults sink.new) (constant text.now) }
{
    write_constant(text.as_str(), sink)
}

/// Writes a constant with a space before it.
fn write_led_constant<K: Sink>(text: &Text, sink: &mut K) -> Result<(), Failed>
    ensures { WritesText result (K.held sink.old) (K.held sink.new) (K.faults sink.old) (K.faults sink.new) (led_constant text.now) }
{
    sink.keep(b' ')?;
    write_text(text, sink)
}

/// Writes constants with a space before each.
#[tactic(auto, using(xdg_io::proofs::Parts::loop_steps))]
fn write_led_constants<K: Sink>(texts: &[Text], sink: &mut K) -> Result<(), Failed>
    ensures { WritesText result (K.held sink.old) (K.held sink.new) (K.faults sink.old) (K.faults sink.new) (flat_map led_constant texts.now) }
{
    for text in texts {
        write_led_constant(text, sink)?;
    }
    Ok(())
}

/// Writes constants with a space between two.
#[tactic(auto, using(xdg_io::proofs::Parts::writes_nothing))]
fn write_constants<K: Sink>(texts: &[Text], sink: &mut K) -> Result<(), Failed>
    ensures { WritesText result (K.held sink.old) (K.held sink.new) (K.faults sink.old) (K.faults sink.new) (join_by constant (codes " ") texts.now) }
{
    match texts.split_first() {
        Some((first, others)) => {
            write_text(first, sink)?;
            write_led_constants(others, sink)
        }
        None => Ok(()),
    }
}

/// Writes a tuple in square brackets.
fn write_tuple<K: Sink>(texts: &[Text], sink: &mut K) -> Result<(), Failed>
    ensures { WritesText result (K.held sink.old) (K.held sink.new) (K.faults sink.old) (K.faults sink.new)
        (codes "[" ++ (join_by constant (codes " ") texts.now ++ codes "]")) }
{
    sink.keep(b'[')?;
    write_constants(texts, sink)?;
    write_all(sink, b"]")
}

/// Writes a value of an attribute: one constant, or those of a tuple in square brackets.
pub(crate) fn write_value<K: Sink>(value: &Shown, sink: &mut K) -> Result<(), Failed>
    ensures { WritesText result (K.held sink.old) (K.held sink.new) (K.faults sink.old) (K.faults sink.new) (value_text value.now) }
{
    match value {
        Shown::One(text) => write_text(text, sink),
        Shown::Many(texts) => write_tuple(texts.as_slice(), sink),
    }
}
