//! Constants as a grammar text has them: names where they can be, and else quoted texts.

ghost use Rattle.std.specs.Prelude.{◌≡◌};
ghost use Rattle.std.specs.List.{list_any, flat_map};
ghost use Rattle.xdg_io.specs.Texts.{WritesText};
ghost use Rattle.xdg_text.specs.Constants.{is_escaped, escaped, quoted, constant};

use xdg_base::{is_escaped, is_name};
use xdg_io::{Failed, Sink, write_all};

/// Whether a byte of the text is escaped between quotation marks.
fn has_escaped(bytes: &[u8]) -> bool
    ensures { result ≡ list_any is_escaped bytes.now }
{
    bytes.iter().any(|byte| is_escaped(*byte))
}

/// Writes a byte as it stands between quotation marks.
fn write_escaped_byte<K: Sink>(byte: u8, sink: &mut K) -> Result<(), Failed>
    ensures { WritesText result (K.held sink.old) (K.held sink.new) (K.faults sink.old) (K.faults sink.new) (escaped byte) }
{
    if is_escaped(byte) {
        write_all(sink, &[b'\\', byte])
    } else {
        write_all(sink, &[byte])
    }
}

/// Writes bytes as they stand between quotation marks, one by one.
#[tactic(auto, using(xdg_io::proofs::Parts::loop_steps))]
fn write_escaped_bytes<K: Sink>(bytes: &[u8], sink: &mut K) -> Result<(), Failed>
    ensures { WritesText result (K.held sink.old) (K.held sink.new) (K.faults sink.old) (K.faults sink.new) (flat_map escaped bytes.now) }
{
    for byte in bytes {
        write_escaped_byte(*byte, sink)?;
    }
    Ok(())
}

/// Writes a text as it stands between quotation marks, at once where nothing in it is escaped.
fn write_escaped<K: Sink>(text: &str, sink: &mut K) -> Result<(), Failed>
    ensures { WritesText result (K.held sink.old) (K.held sink.new) (K.faults sink.old) (K.faults sink.new) (flat_map escaped text.now) }
{
    let bytes = text.as_bytes();
    if has_escaped(bytes) {
        write_escaped_bytes(bytes, sink)
    } else {
        write_all(sink, bytes)
    }
}

/// Writes a text between quotation marks.
pub(crate) fn write_quoted<K: Sink>(text: &str, sink: &mut K) -> Result<(), Failed>
    ensures { WritesText result (K.held sink.old) (K.held sink.new) (K.faults sink.old) (K.faults sink.new) (quoted text.now) }
{
    sink.keep(b'"')?;
    write_escaped(text, sink)?;
    write_all(sink, b"\"")
}

/// Writes a constant: as a name where it can be, and else between quotation marks.
pub fn write_constant<K: Sink>(text: &str, sink: &mut K) -> Result<(), Failed>
    ensures { WritesText result (K.held sink.old) (K.held sink.new) (K.faults sink.old) (K.faults sink.new) (constant text.now) }
{
    if is_name(text) {
        write_all(sink, text.as_bytes())
    } else {
        write_quoted(text, sink)
    }
}
