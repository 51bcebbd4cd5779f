//! A table that is read line by line. Each row is run as soon as it is whole.

use crate::content::{add_content, find};
use crate::repeated::add_repeated;
use crate::row::{Named, Row};
use crate::running::first_apart;
use crate::telling::{tell_difference, tell_row};
use std::alloc::Global;
use std::thread::Threads;
use xdg_base::OutOfMemory;

/// What the lines of content that come next belong to.
#[derive(Clone, Copy, PartialEq, Eq)]
enum Place {
    Nowhere,
    Text,
    File,
    Input,
    Wanted,
}

/// What was read of a table so far.
#[derive(Drop)]
pub struct Table {
    /// What is told of the rows so far.
    told: String,
    /// The name of the group.
    group: String,
    /// The number of the line in the group, from 1.
    line: u64,
    /// How many rows the group has.
    rows: u64,
    /// How many of them gave what they want.
    passed: u64,
    /// The named texts.
    texts: Vec<Named>,
    /// The row that is being read.
    row: Option<Row>,
    /// What the next lines of content belong to.
    place: Place,
}

impl Table {
    /// A table without lines.
    pub fn new(alloc: Global) -> Table {
        Table {
            told: String::new(alloc),
            group: String::new(alloc),
            line: 0,
            rows: 0,
            passed: 0,
            texts: Vec::new(alloc),
            row: None,
            place: Place::Nowhere,
        }
    }

    /// Reads a line. One that says nothing of the kind that stands there is told.
    pub fn read<R: Threads + Sync>(
        &mut self,
        rt: &R,
        alloc: Global,
        line: &str,
    ) -> Result<(), OutOfMemory> {
        self.line = self.line.saturating_add(1);
        if line.is_empty() || line.starts_with('#') {
            return Ok(());
        }
        let (key, said) = line.split_once(' ').unwrap_or((line, ""));
        let is_read = match key {
            "group" => self.begin_group(rt, alloc, said)?,
            "text" => self.begin_text(rt, alloc, said)?,
            "row" => self.begin_row(rt, alloc, said)?,
            "|" | "." | "\\" | "=" | "*" => self.add_content(alloc, key, said)?,
            _ => self.read_of_row(alloc, key, said)?,
        };
        if is_read {
            return Ok(());
        }
        if let Some(row) = &mut self.row {
            row.is_readable = false;
        }
        let group = self.group.as_str();
        let number = self.line;
        writeln!(self.told, "{group} line {number} can't be read: {line}")
    }

    /// Ends the group, and begins one.
    fn begin_group<R: Threads + Sync>(
        &mut self,
        rt: &R,
        alloc: Global,
        name: &str,
    ) -> Result<bool, OutOfMemory> {
        self.end_group(rt, alloc)?;
        self.group = String::from_str(alloc, name)?;
        self.line = 0;
        Ok(!name.is_empty())
    }

    /// Ends the row, and begins a named text.
    fn begin_text<R: Threads + Sync>(
        &mut self,
        rt: &R,
        alloc: Global,
        name: &str,
    ) -> Result<bool, OutOfMemory> {
        self.end_row(rt, alloc)?;
        if name.is_empty() || find(self.texts.as_slice(), name).is_some() {
            return Ok(false);
        }
        let name = String::from_str(alloc, name)?;
        self.texts.push((name, Vec::new(alloc)))?;
        self.place = Place::Text;
        Ok(true)
    }

    /// Ends the row, and begins one.
    fn begin_row<R: Threads + Sync>(
        &mut self,
        rt: &R,
        alloc: Global,
        name: &str,
    ) -> Result<bool, OutOfMemory> {
        self.end_row(rt, alloc)?;
        self.rows = self.rows.saturating_add(1);
        self.row = Some(Row::new(alloc, name, self.line)?);
        Ok(!self.group.is_empty())
    }

    /// Reads a line that says something of the row.
    fn read_of_row(&mut self, alloc: Global, key: &str, said: &str) -> Result<bool, OutOfMemory> {
        let Some(row) = &mut self.row else {
            return Ok(false);
        };
        self.place = Place::Nowhere;
        match key {
            "xdg" => return row.add_words(alloc, said),
            "fails" | "cut" | "room" | "rooms" => return row.devices.read(key, said),
            "input" => {
                self.place = Place::Input;
                return self.add_more(alloc, said);
            }
            _ => (),
        }
        let (name, more) = said.split_once(' ').unwrap_or((said, ""));
        self.place = match key {
            "file" => {
                row.add_file(alloc, name)?;
                Place::File
            }
            "wants" if row.status.is_none() => {
                row.status = name.parse::<u8>().ok();
                Place::Wanted
            }
            _ => return Ok(false),
        };
        let is_read = row.status.is_some() || self.place == Place::File;
        Ok(self.add_more(alloc, more)? && is_read)
    }

    /// Reads content that stands on the line that begins it, if there is any.
    fn add_more(&mut self, alloc: Global, said: &str) -> Result<bool, OutOfMemory> {
        match said.split_once(' ') {
            Some((mark, more)) => self.add_content(alloc, mark, more),
            None if said.is_empty() => Ok(true),
            None => self.add_content(alloc, said, ""),
        }
    }

    /// Reads a line of content.
    fn add_content(&mut self, alloc: Global, mark: &str, said: &str) -> Result<bool, OutOfMemory> {
        let mut bytes = Vec::new(alloc);
        let texts = self.texts.as_slice();
        let is_read = match mark {
            "*" => add_repeated(alloc, &mut bytes, said, texts)?,
            _ => add_content(&mut bytes, mark, said, texts)?,
        };
        match (self.place, &mut self.row) {
            (Place::Text, _) => match self.texts.last_mut() {
                Some(text) => text.1.extend_from_slice(bytes.as_slice())?,
                None => return Ok(false),
            },
            (Place::File, Some(row)) => match row.files.last_mut() {
                Some(file) => file.1.extend_from_slice(bytes.as_slice())?,
                None => return Ok(false),
            },
            (Place::Input, Some(row)) => row.input.extend_from_slice(bytes.as_slice())?,
            (Place::Wanted, Some(row)) => row.wanted.extend_from_slice(bytes.as_slice())?,
            _ => return Ok(false),
        }
        Ok(is_read)
    }

    /// Runs the row, if there is one, and tells of it where it doesn't give what it wants.
    fn end_row<R: Threads + Sync>(&mut self, rt: &R, alloc: Global) -> Result<(), OutOfMemory> {
        self.place = Place::Nowhere;
        let Some(row) = self.row.take() else {
            return Ok(());
        };
        let status = match row.status {
            Some(status) if row.is_readable => status,
            _ => return tell_row(&mut self.told, self.group.as_str(), &row),
        };
        let Some(apart) = first_apart(rt, alloc, &row, status)? else {
            self.passed = self.passed.saturating_add(1);
            return Ok(());
        };
        tell_row(&mut self.told, self.group.as_str(), &row)?;
        tell_difference(&mut self.told, &apart)
    }

    /// Ends the row, and tells how many of the group's rows give what they want.
    fn end_group<R: Threads + Sync>(&mut self, rt: &R, alloc: Global) -> Result<(), OutOfMemory> {
        self.end_row(rt, alloc)?;
        let group = self.group.as_str();
        let passed = self.passed;
        let rows = self.rows;
        self.passed = 0;
        self.rows = 0;
        if rows == 0 {
            return Ok(());
        }
        writeln!(self.told, "{group} {passed} of {rows}")
    }

    /// What is told of all rows.
    pub fn into_told<R: Threads + Sync>(
        mut self,
        rt: &R,
        alloc: Global,
    ) -> Result<String, OutOfMemory> {
        self.end_group(rt, alloc)?;
        Ok(self.told)
    }
}
