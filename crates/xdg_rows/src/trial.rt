//! How a row is run: in what room, and with which call failing.

use crate::row::Devices;

/// A device of a row.
#[derive(Clone, Copy, PartialEq, Eq)]
pub enum Device {
    /// What files are loaded from.
    Shelf,
    /// The standard input.
    Input,
    /// The standard output.
    Output,
}

impl Device {
    /// What it is called in a table.
    pub fn name(self) -> &'static str {
        match self {
            Device::Shelf => "shelf",
            Device::Input => "input",
            Device::Output => "output",
        }
    }
}

/// A call that fails, in place of those of its device that the row says.
#[derive(Clone, Copy)]
pub struct Failing {
    /// The device that is called.
    pub device: Device,
    /// The number of the call, from 1.
    pub call: [u64; 1],
}

/// A run of a row.
#[derive(Clone, Copy)]
pub struct Trial {
    /// How many bytes the output takes in all.
    pub room: usize,
    /// The call that fails.
    pub failing: Option<Failing>,
}

impl Trial {
    /// A run in which no call fails but those that the row says.
    pub fn in_room(room: usize) -> Trial {
        Trial {
            room,
            failing: None,
        }
    }

    /// A run in which one call fails.
    pub fn with_failing(room: usize, device: Device, call: u64) -> Trial {
        let failing = Some(Failing {
            device,
            call: [call],
        });
        Trial { room, failing }
    }

    /// The numbers of the calls of a device that fail.
    pub fn fails<'a>(&'a self, device: Device, devices: &'a Devices) -> &'a [u64] {
        match &self.failing {
            Some(failing) if failing.device == device => &failing.call,
            _ => devices.fails(device),
        }
    }

    /// Whether the call that fails is among the first calls of its device, so many.
    pub fn is_within(&self, device: Device, calls: u64) -> bool {
        match &self.failing {
            Some(failing) => failing.device == device && failing.call[0] <= calls,
            None => false,
        }
    }
}
