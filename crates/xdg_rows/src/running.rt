//! Runs of rows over devices in memory.

ghost use Rattle.std.specs.Prelude.{◌≡◌, ◌≢◌, ◌<◌, ◌≤◌, IsTrue, AllPairs};
ghost use Rattle.std.specs.String.{string_bytes};

use crate::counted::Counted;
use crate::row::{Named, Row};
use crate::trial::{Device, Trial};
use std::alloc::Global;
use std::thread::Threads;
use xdg_base::OutOfMemory;
use xdg_io::{MemShelf, MemSink, MemSource};
use xdg_top::run;

/// What a run gives, or what is wanted of it.
#[derive(Drop)]
pub struct Outcome {
    /// The number of its status.
    pub status: u8,
    /// What it printed.
    pub bytes: Vec<u8>,
}

impl Outcome {
    /// An outcome with a copy of these bytes.
    fn copied(alloc: Global, status: u8, bytes: &[u8]) -> Result<Outcome, OutOfMemory> {
        let bytes = Vec::from_slice(alloc, bytes)?;
        Ok(Outcome { status, bytes })
    }

    /// Whether it has this status and these bytes.
    fn is(&self, status: u8, bytes: &[u8]) -> bool {
        self.status == status && self.bytes.as_slice() == bytes
    }
}

/// What a run gives, and whether it made the call that fails.
#[derive(Drop)]
struct Given {
    outcome: Outcome,
    is_failed: bool,
}

/// A run that doesn't give what the row wants: what was wanted, and what it gave, which is nothing where two of the row's files
/// have one name.
#[derive(Drop)]
pub struct Difference {
    /// The run.
    pub trial: Trial,
    pub wanted: Outcome,
    pub given: Option<Outcome>,
}

/// What is found of a run.
#[derive(Drop)]
enum Found {
    /// It gives what is wanted, and no call fails but those that the row says.
    Whole,
    /// It gives what is wanted where the call fails.
    Failed,
    /// It doesn't give what is wanted.
    Apart(Difference),
}

/// Whether no two files have the same name.
fn are_apart(files: &[Named]) -> bool
    ensures { IsTrue result → AllPairs (λ one other. string_bytes one.0 ≢ string_bytes other.0) files.now }
{
    for later in 0..files.len() {
        for earlier in 0..later {
            if files[earlier].0.as_str() == files[later].0.as_str() {
                return false;
            }
        }
    }
    true
}

/// What a run of a row gives, where its files have different names.
fn given_in<R: Threads + Sync>(
    rt: &R,
    alloc: Global,
    row: &Row,
    trial: &Trial,
) -> Result<Option<Given>, OutOfMemory> {
    let devices = &row.devices;
    if devices.cut == 0 || !are_apart(row.files.as_slice()) {
        return Ok(None);
    }
    let fails = trial.fails(Device::Shelf, devices);
    let shelf = MemShelf::new(alloc, row.files.as_slice(), fails);
    let mut shelf = Counted::new(shelf.map_err(|_| OutOfMemory)?);
    let fails = trial.fails(Device::Input, devices);
    let input = MemSource::new(alloc, row.input.as_slice(), devices.cut, fails);
    let mut input = Counted::new(input.map_err(|_| OutOfMemory)?);
    let fails = trial.fails(Device::Output, devices);
    let out = MemSink::new(alloc, trial.room, devices.cut, fails);
    let mut out = Counted::new(out.map_err(|_| OutOfMemory)?);
    let status = run(
        rt,
        alloc,
        row.words.as_slice(),
        &mut shelf,
        &mut input,
        &mut out,
    );
    let is_failed = trial.is_within(Device::Shelf, shelf.calls)
        || trial.is_within(Device::Input, input.calls)
        || trial.is_within(Device::Output, out.calls);
    let outcome = Outcome::copied(alloc, status.code(), out.device.bytes())?;
    Ok(Some(Given { outcome, is_failed }))
}

/// How many bytes of a row's text an output has whose failing call is the given one: of those that it has, no fewer than a byte for
/// each call before, no more than these calls can take, and not all.
fn front_size(row: &Row, call: u64, given: usize) -> usize {
    let calls = (call as usize).saturating_sub(1);
    let most = calls.saturating_mul(row.devices.cut);
    let proper = row.wanted.len().saturating_sub(1);
    given.max(calls).min(most).min(proper)
}

/// The status and the text that are wanted of a run. Where a call of the shelf or the input fails, there is no text, and where one
/// of the output fails, a front of the row's text. So too where rooms are tried and the text has no room.
fn wanted_of<'a>(row: &'a Row, status: u8, trial: &Trial, given: &Given) -> (u8, &'a [u8]) {
    let text = row.wanted.as_slice();
    let size = match &trial.failing {
        Some(failing) if given.is_failed => {
            if failing.device != Device::Output {
                return (7, &[]);
            }
            front_size(row, failing.call[0], given.outcome.bytes.len())
        }
        _ if row.devices.last_room.is_some() && trial.room < text.len() => trial.room,
        _ => return (status, text),
    };
    (8, text.get(..size).unwrap_or(text))
}

/// What is found of a run of a row.
fn tried<R: Threads + Sync>(
    rt: &R,
    alloc: Global,
    row: &Row,
    status: u8,
    trial: Trial,
) -> Result<Found, OutOfMemory> {
    let Some(given) = given_in(rt, alloc, row, &trial)? else {
        return Ok(Found::Apart(Difference {
            trial,
            wanted: Outcome::copied(alloc, status, row.wanted.as_slice())?,
            given: None,
        }));
    };
    let (status, text) = wanted_of(row, status, &trial, &given);
    if given.outcome.is(status, text) {
        return Ok(if given.is_failed {
            Found::Failed
        } else {
            Found::Whole
        });
    }
    Ok(Found::Apart(Difference {
        trial,
        wanted: Outcome::copied(alloc, status, text)?,
        given: Some(given.outcome),
    }))
}

/// The first run of a row that doesn't give what is wanted, if there is one, of those in which each call of a device fails in turn,
/// up to a run that makes no call so far.
fn first_failing_apart<R: Threads + Sync>(
    rt: &R,
    alloc: Global,
    row: &Row,
    status: u8,
    device: Device,
) -> Result<Option<Difference>, OutOfMemory> {
    for call in 1..=u64::MAX {
        let trial = Trial::with_failing(row.devices.room, device, call);
        match tried(rt, alloc, row, status, trial)? {
            Found::Failed => {}
            Found::Whole => return Ok(None),
            Found::Apart(apart) => return Ok(Some(apart)),
        }
    }
    Ok(None)
}

/// The first run of a row that doesn't give what is wanted, if there is one.
pub fn first_apart<R: Threads + Sync>(
    rt: &R,
    alloc: Global,
    row: &Row,
    status: u8,
) -> Result<Option<Difference>, OutOfMemory> {
    let first = row.devices.room;
    for room in first..=row.devices.last_room.unwrap_or(first) {
        if let Found::Apart(apart) = tried(rt, alloc, row, status, Trial::in_room(room))? {
            return Ok(Some(apart));
        }
    }
    if !row.devices.is_each_failed {
        return Ok(None);
    }
    for device in [Device::Shelf, Device::Input, Device::Output] {
        if let Some(apart) = first_failing_apart(rt, alloc, row, status, device)? {
            return Ok(Some(apart));
        }
    }
    Ok(None)
}
