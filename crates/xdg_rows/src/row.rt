//! What a row says.

use crate::content::add_content;
use crate::trial::Device;
use std::alloc::Global;
use std::str;
use xdg_base::OutOfMemory;

/// A text that is named once and used by many rows, or a file of a row.
pub type Named = (String, Vec<u8>);

/// A row: the words of a command, what it reads, how the devices fail, and what is wanted.
#[derive(Drop)]
pub struct Row {
    /// What the row shows.
    pub name: String,
    /// The line of its group at which it begins, from 1.
    pub line: u64,
    /// The words behind the program's name.
    pub words: Vec<String>,
    /// The files that are there, which have different names.
    pub files: Vec<Named>,
    /// The standard input.
    pub input: Vec<u8>,
    /// The status that is wanted.
    pub status: Option<u8>,
    /// The text that is wanted.
    pub wanted: Vec<u8>,
    /// How the devices are and fail.
    pub devices: Devices,
    /// Whether each of its lines could be read.
    pub is_readable: bool,
}

/// How the devices of a row are and fail.
#[derive(Drop)]
pub struct Devices {
    /// How many bytes the input gives, and the output takes, at most at a call.
    pub cut: usize,
    /// How many bytes the output takes in all.
    pub room: usize,
    /// The greatest room, where the row is run with each room from `room` on, and is to fill it with a front of the wanted text.
    pub last_room: Option<usize>,
    /// Whether the row is also run with each call of each device failing in turn.
    pub is_each_failed: bool,
    /// The numbers, from 1, of the calls of the shelf that fail.
    pub shelf_fails: Vec<u64>,
    /// The numbers of the calls of the input that fail.
    pub input_fails: Vec<u64>,
    /// The numbers of the calls of the output that fail.
    pub output_fails: Vec<u64>,
}

/// The room of an output for which a row says none.
const AMPLE: usize = 4_194_304;

impl Devices {
    /// Devices that never fail.
    fn sound(alloc: Global) -> Devices {
        Devices {
            cut: 65_536,
            room: AMPLE,
            last_room: None,
            is_each_failed: false,
            shelf_fails: Vec::new(alloc),
            input_fails: Vec::new(alloc),
            output_fails: Vec::new(alloc),
        }
    }

    /// The numbers of the calls of a device that fail.
    pub fn fails(&self, device: Device) -> &[u64] {
        match device {
            Device::Shelf => self.shelf_fails.as_slice(),
            Device::Input => self.input_fails.as_slice(),
            Device::Output => self.output_fails.as_slice(),
        }
    }

    /// Reads which call of a device fails, as `input 2`, or that each does in turn, `each`. Whether that could be read.
    fn fail(&mut self, said: &str) -> Result<bool, OutOfMemory> {
        if said == "each" {
            self.is_each_failed = true;
            return Ok(true);
        }
        let Some((device, number)) = said.split_once(' ') else {
            return Ok(false);
        };
        let Ok(call) = number.parse::<u64>() else {
            return Ok(false);
        };
        match device {
            "shelf" => self.shelf_fails.push(call)?,
            "input" => self.input_fails.push(call)?,
            "output" => self.output_fails.push(call)?,
            _ => return Ok(false),
        }
        Ok(true)
    }

    /// Reads the first and the last room. Whether they could be read.
    fn set_rooms(&mut self, said: &str) -> bool {
        let Some((first, last)) = said.split_once(' ') else {
            return false;
        };
        let (Ok(first), Ok(last)) = (first.parse::<usize>(), last.parse::<usize>()) else {
            return false;
        };
        self.room = first;
        self.last_room = Some(last);
        first <= last && last <= AMPLE
    }

    /// Reads a line on the devices. Whether it could be read.
    pub fn read(&mut self, key: &str, said: &str) -> Result<bool, OutOfMemory> {
        match key {
            "fails" => self.fail(said),
            "rooms" => Ok(self.set_rooms(said)),
            "room" => match said.parse::<usize>() {
                Ok(room) if room <= AMPLE => {
                    self.room = room;
                    Ok(true)
                }
                _ => Ok(false),
            },
            _ => match said.parse::<usize>() {
                Ok(cut) if cut > 0 => {
                    self.cut = cut;
                    Ok(true)
                }
                _ => Ok(false),
            },
        }
    }
}

impl Row {
    /// A row that says nothing but its name yet.
    pub fn new(alloc: Global, name: &str, line: u64) -> Result<Row, OutOfMemory> {
        Ok(Row {
            name: String::from_str(alloc, name)?,
            line,
            words: Vec::new(alloc),
            files: Vec::new(alloc),
            input: Vec::new(alloc),
            status: None,
            wanted: Vec::new(alloc),
            devices: Devices::sound(alloc),
            is_readable: true,
        })
    }

    /// Adds the words of a command, of which `""` is the empty one. Whether they could be read.
    pub fn add_words(&mut self, alloc: Global, said: &str) -> Result<bool, OutOfMemory> {
        if said.is_empty() {
            return Ok(true);
        }
        for word in said.split(' ') {
            let mut bytes = Vec::new(alloc);
            if word != "\"\"" && !add_content(&mut bytes, "\\", word, &[])? {
                return Ok(false);
            }
            let Ok(text) = str::from_utf8(bytes.as_slice()) else {
                return Ok(false);
            };
            self.words.push(String::from_str(alloc, text)?)?;
        }
        Ok(true)
    }

    /// Adds a file without bytes.
    pub fn add_file(&mut self, alloc: Global, name: &str) -> Result<(), OutOfMemory> {
        let name = String::from_str(alloc, name)?;
        self.files.push((name, Vec::new(alloc)))?;
        Ok(())
    }
}
