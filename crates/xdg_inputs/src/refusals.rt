//! Texts that are refused.

ghost use Rattle.std.specs.Prelude.{◌≡◌, ◌≢◌, ◌≤◌, ◌<◌, ◌⊎◌, ◌^◌, length};
ghost use Rattle.xdg_io.specs.Rose.{Rose};
ghost use Rattle.xdg_inputs.specs.Places.{line_column};
ghost use Rattle.xdg_base.specs.Faults.{fault_reaching};
ghost use Rattle.xdg_inputs.specs.Refusals.{Refuses, refusal_of};

use crate::Status;
use xdg_base::{Cause, Fault, LineColumn, Stop, place};
use xdg_io::{Failed, Sink};
use xdg_text::fault_line;

/// Why a run ends before anything is printed.
#[derive(Debug, Drop)]
pub enum Refusal {
    /// A device failed.
    Read,
    /// Memory was wanting.
    Memory,
    /// A text is refused, at this line and column.
    Text(Fault, LineColumn),
}

/// The line and the column of a place in a text, or of its end where the text is shorter.
fn place_within(text: &[u8], at: u32) -> LineColumn
    requires { length text.now < 2 ^ 32 }
    ensures { let refused = fault_reaching Cause.BadUtf8 at 0 in result ≡ line_column text.now refused }
{
    if at as usize <= text.len() {
        place(text, at)
    } else {
        place(text, text.len() as u32)
    }
}

/// The refusal of a text for a fault.
pub fn refused_in(text: &[u8], fault: Fault) -> Refusal
    requires { length text.now < 2 ^ 32 }
    ensures { result ≡ Refusal.Text fault (line_column text.now fault) }
{
    Refusal::Text(fault, place_within(text, fault.at))
}

/// The refusal of an input that is not UTF-8 from a place on.
pub fn no_text(input: &[u8], at: usize) -> Refusal
    requires within { at ≤ length input.now }
    requires small { length input.now < 2 ^ 32 }
    ensures { let refused = fault_reaching Cause.BadUtf8 at 0 in result ≡ Refusal.Text refused (line_column input.now refused) }
{
    let fault = Fault::at(Cause::BadUtf8, at as u32);
    refused_in(input, fault)
}

/// The refusal of a text for what stopped a call.
pub fn stopped_in(text: &[u8], stop: Stop) -> Refusal
    requires { length text.now < 2 ^ 32 }
    ensures { result ≡ refusal_of text.now stop }
{
    match stop {
        Stop::Fault(fault) => refused_in(text, fault),
        Stop::OutOfMemory => Refusal::Memory,
    }
}

/// The refusal of a text that is longer than it may be.
pub fn too_long(reached: u64) -> Refusal
    ensures { let refused = fault_reaching Cause.TooLong 0 reached in result ≡ Refusal.Text refused (record { line = 1; column = 1 }) }
{
    let fault = Fault {
        cause: Cause::TooLong,
        at: 0,
        reached,
    };
    Refusal::Text(fault, LineColumn { line: 1, column: 1 })
}

/// Writes the fault line of a text that is refused, which ends the run with a status.
pub fn refuse<K: Sink>(refusal: Refusal, status: Status, out: &mut K) -> Status
    ensures written { Refuses result status refusal (K.held out.old) (K.held out.new) }
    ensures cause { result ≡ Status.WriteFault → (status ≡ Status.WriteFault) ⊎ Rose (K.faults out.old) (K.faults out.new) }
    ensures lasting { K.faults out.old ≤ K.faults out.new }
    ensures quiet { result ≢ Status.WriteFault → K.faults out.new ≡ K.faults out.old }
{
    match refusal {
        Refusal::Read => Status::ReadFault,
        Refusal::Memory => Status::OutOfMemory,
        Refusal::Text(fault, place) => match fault_line(&fault, place, out) {
            Ok(()) => status,
            Err(Failed) => Status::WriteFault,
        },
    }
}
