//! The devices of the running program: its files, its input and its output. What they have and hold
//! is not told, but what is read and written is what their streams lose and gain.

ghost use Rattle.std.specs.Prelude.{◌≡◌, ◌≤◌, ◌<◌, ℕ, List, Option, None, length, take, IfOk, OnOk, OnErr};
ghost use Rattle.std.specs.Io.KnownBytes.{ReadConsumes, WriteAppends};
ghost use Rattle.xdg_io.specs.Held.{Appends};
ghost use Rattle.xdg_io.specs.Left.{Takes, EndsAt};
ghost use Rattle.xdg_io.specs.Rose.{Rose};

use crate::{Failed, LoadStop, ReadStop, Shelf, Sink, Source, read_all, write_all};
use std::alloc::Global;
use std::io::{Input, Print, Printer, Read, Write};
use std::rt::Files;
use std::{fs, io};

/// The files of the program, by their paths.
#[derive(Drop)]
pub struct FileShelf<'a, R> {
    runtime: &'a R,
    faults: u64,
}

impl<'a, R: Files> FileShelf<'a, R> {
    /// A shelf that has not failed.
    pub fn new(runtime: &'a R) -> FileShelf<'a, R>
        ensures { result.faults ≡ 0 }
    {
        FileShelf { runtime, faults: 0 }
    }
}

impl<'a, R: Files> Shelf for FileShelf<'a, R> {
    ghost files = { λ _. None };

    ghost faults = { λ shelf _. shelf.faults };

    fn load(&mut self, alloc: Global, name: &str, limit: u64) -> Result<Vec<u8>, LoadStop> {
        let Ok(reader) = fs::open(self.runtime, name) else {
            self.faults = raised(self.faults);
            return Err(LoadStop::Failed);
        };
        let mut source = ReaderSource::new(reader);
        match read_all(alloc, &mut source, limit) {
            Ok(bytes) => Ok(bytes),
            Err(ReadStop::TooLong { reached }) => Err(LoadStop::TooLong { reached }),
            Err(ReadStop::OutOfMemory) => Err(LoadStop::OutOfMemory),
            Err(ReadStop::ReadFault) => {
                self.faults = raised(self.faults);
                Err(LoadStop::Failed)
            }
        }
    }
}

/// The input of the program.
#[derive(Drop)]
pub struct StdinSource<R: Input> {
    source: ReaderSource<R::Reader>,
}

impl<R: Input> StdinSource<R> {
    /// A source that has not failed.
    pub fn new(runtime: &R) -> StdinSource<R>
        ensures { result.source.faults ≡ 0 }
    {
        StdinSource {
            source: ReaderSource::new(runtime.reader()),
        }
    }
}

impl<R: Input> Source for StdinSource<R> {
    ghost left = { λ _. None };

    ghost faults = { λ source. source.source.faults };

    fn read(&mut self, buffer: &mut [u8]) -> Result<usize, Failed>
        requires { 0 < length buffer.old }
        ensures within { IfOk result (λ count. count ≤ length buffer.new) }
        ensures taken { IfOk result (λ count. Takes None None (take count buffer.new)) }
        ensures end { IfOk result (λ count. EndsAt None count) }
        ensures kept { OnErr result (◌≡◌ {A = Option (List ℕ)} None None) }
        ensures cause { OnErr result (Rose self.old.source.faults self.new.source.faults) }
        ensures lasting { self.old.source.faults ≤ self.new.source.faults }
        ensures quiet { OnOk result (self.new.source.faults ≡ self.old.source.faults) }
        ensures stream { ReadConsumes (R.Reader.remaining self.old.source.reader) (R.Reader.remaining self.new.source.reader) result buffer.new }
    {
        self.source.read(buffer)
    }
}

/// How many bytes are kept at most.
const LINES: usize = 4096;

/// The output of the program. Bytes are kept until a line ends behind which none is written at once, or until they are many: so a block of
/// lines is one call of the system, and stands there whole before the next one is searched.
#[derive(Drop)]
pub struct StdoutSink<'a, R> {
    sink: WriterSink<Printer<'a, R>>,
    lines: [u8; LINES],
    kept: usize,
    ghost within: { kept < 4096 },
}

impl<'a, R: Print> StdoutSink<'a, R> {
    /// A sink that has not failed.
    pub fn new(runtime: &'a R) -> StdoutSink<'a, R>
        ensures { result.sink.faults ≡ 0 }
    {
        StdoutSink {
            sink: WriterSink::new(io::writer(runtime)),
            lines: [0; LINES],
            kept: 0,
        }
    }
}

impl<'a, R: Print> Sink for StdoutSink<'a, R> {
    ghost held = { λ _. None };

    ghost faults = { λ sink. sink.sink.faults };

    fn write(&mut self, piece: &[u8]) -> Result<usize, Failed> {
        let count = piece.len().min(LINES - self.kept);
        let end = self.kept + count;
        self.lines[self.kept..end].copy_from_slice(&piece[..count]);
        if end < LINES && self.lines[end - 1] != b'\n' {
            self.kept = end;
            return Ok(count);
        }
        let StdoutSink { sink, lines, kept } = self;
        *kept = 0;
        write_all(sink, &lines[..end])?;
        Ok(count)
    }

    fn keep(&mut self, byte: u8) -> Result<(), Failed> {
        if self.kept + 1 < LINES {
            self.lines[self.kept] = byte;
            self.kept += 1;
            return Ok(());
        }
        self.write(&[byte])?;
        Ok(())
    }
}

/// A source over a reader: what it gives is what the reader's stream loses.
#[derive(Drop)]
pub struct ReaderSource<I> {
    reader: I,
    faults: u64,
}

impl<I: Read> ReaderSource<I> {
    /// A source that has not failed.
    pub fn new(reader: I) -> ReaderSource<I>
        ensures reader { result.reader ≡ reader }
        ensures faults { result.faults ≡ 0 }
    {
        ReaderSource { reader, faults: 0 }
    }
}

impl<I: Read> Source for ReaderSource<I> {
    ghost left = { λ _. None };

    ghost faults = { λ source. source.faults };

    fn read(&mut self, buffer: &mut [u8]) -> Result<usize, Failed>
        requires { 0 < length buffer.old }
        ensures within { IfOk result (λ count. count ≤ length buffer.new) }
        ensures taken { IfOk result (λ count. Takes None None (take count buffer.new)) }
        ensures end { IfOk result (λ count. EndsAt None count) }
        ensures kept { OnErr result (◌≡◌ {A = Option (List ℕ)} None None) }
        ensures cause { OnErr result (Rose self.old.faults self.new.faults) }
        ensures lasting { self.old.faults ≤ self.new.faults }
        ensures quiet { OnOk result (self.new.faults ≡ self.old.faults) }
        ensures stream { ReadConsumes (I.remaining self.old.reader) (I.remaining self.new.reader) result buffer.new }
    {
        match self.reader.read(buffer) {
            Ok(count) => Ok(count),
            Err(_) => {
                self.faults = raised(self.faults);
                Err(Failed)
            }
        }
    }
}

/// A sink over a writer: what it takes is what the writer's stream gains.
#[derive(Drop)]
pub struct WriterSink<W> {
    writer: W,
    faults: u64,
}

impl<W: Write> WriterSink<W> {
    /// A sink that has not failed.
    pub fn new(writer: W) -> WriterSink<W>
        ensures writer { result.writer ≡ writer }
        ensures faults { result.faults ≡ 0 }
    {
        WriterSink { writer, faults: 0 }
    }
}

impl<W: Write> Sink for WriterSink<W> {
    ghost held = { λ _. None };

    ghost faults = { λ sink. sink.faults };

    #[tactic(auto, using(crate::proofs::Streams::gained_nothing))]
    fn write(&mut self, piece: &[u8]) -> Result<usize, Failed>
        requires { 0 < length piece.now }
        ensures some { IfOk result (λ count. 0 < count) }
        ensures within { IfOk result (λ count. count ≤ length piece.now) }
        ensures added { IfOk result (λ count. Appends None None (take count piece.now)) }
        ensures kept { OnErr result (◌≡◌ {A = Option (List ℕ)} None None) }
        ensures cause { OnErr result (Rose self.old.faults self.new.faults) }
        ensures lasting { self.old.faults ≤ self.new.faults }
        ensures quiet { OnOk result (self.new.faults ≡ self.old.faults) }
        ensures stream { WriteAppends (W.contents self.old.writer) (W.contents self.new.writer) result piece.now }
    {
        let Ok(count) = self.writer.write(piece) else {
            self.faults = raised(self.faults);
            return Err(Failed);
        };
        if count == 0 {
            self.faults = raised(self.faults);
            return Err(Failed);
        }
        Ok(count)
    }
}

/// The count after one more failure. It stops at the greatest number of its type.
fn raised(faults: u64) -> u64
    ensures rose { Rose faults result }
    ensures lasting { faults ≤ result }
{
    faults.saturating_add(1)
}
