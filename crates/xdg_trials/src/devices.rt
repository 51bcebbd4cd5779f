//! The devices of the program, and calls of those in memory that no command makes.

ghost use Rattle.std.specs.Prelude.{◌<◌};

use std::alloc::Global;
use std::test::Fail;
use xdg_io::{
    FileShelf, LoadStop, MemShelf, MemSource, NullSink, ReadStop, ReaderSource, SafeShelf,
    SafeSource, Shelf, Sink, StdinSource, StdoutSink, WriterSink, read_all, write_all,
};

fn read_bytes(
    alloc: Global,
    cut: usize,
    fails: &[u64],
    limit: u64,
) -> Result<Result<Vec<u8>, ReadStop>, Fail>
    requires cut { 0 < cut }
    requires limit { limit < 18446744073709551615 }
{
    let mut source = MemSource::new(alloc, b"abcde", cut, fails)?;
    Ok(read_all(alloc, &mut source, limit))
}

#[test]
fn a_source_is_read_to_its_end(rt: HostRuntime) -> Result<(), Fail> {
    let alloc = rt.alloc();
    let bytes = read_bytes(alloc, 2, &[], 5)?;
    assert_eq!(rt; bytes.ok().as_deref(), Some(b"abcde".as_slice()));
    let long = read_bytes(alloc, 1, &[], 4)?;
    assert_eq!(rt; long.err(), Some(ReadStop::TooLong { reached: 5 }));
    let fault = read_bytes(alloc, 1, &[3], 9)?;
    assert_eq!(rt; fault.err(), Some(ReadStop::ReadFault));
    Ok(())
}

#[test]
fn a_shelf_loads_its_files(rt: HostRuntime) -> Result<(), Fail> {
    let alloc = rt.alloc();
    let files = [(
        String::from_str(alloc, "g.xdg")?,
        Vec::from_slice(alloc, b"abc")?,
    )];
    let mut shelf = MemShelf::new(alloc, &files, &[4])?;
    let bytes = shelf.load(alloc, "g.xdg", 3);
    assert_eq!(rt; bytes.ok().as_deref(), Some(b"abc".as_slice()));
    let long = shelf.load(alloc, "g.xdg", 2);
    assert_eq!(rt; long.err(), Some(LoadStop::TooLong { reached: 3 }));
    let absent = shelf.load(alloc, "h.xdg", 3);
    assert_eq!(rt; absent.err(), Some(LoadStop::Failed));
    let failing = shelf.load(alloc, "g.xdg", 3);
    assert_eq!(rt; failing.err(), Some(LoadStop::Failed));
    Ok(())
}

/// Whether a shelf has these bytes for a name.
fn loads(alloc: Global, shelf: &mut SafeShelf, name: &str, wanted: &[u8]) -> bool {
    match shelf.load(alloc, name, 9) {
        Ok(bytes) => bytes.as_slice() == wanted,
        Err(_) => false,
    }
}

/// Whether these bytes are all that a source has left.
fn reads(alloc: Global, source: &mut SafeSource, wanted: &[u8]) -> bool {
    match read_all(alloc, source, 5) {
        Ok(bytes) => bytes.as_slice() == wanted,
        Err(_) => false,
    }
}

#[test]
fn a_source_that_never_fails_is_read(rt: HostRuntime) -> Result<(), Fail> {
    let alloc = rt.alloc();
    let mut source = SafeSource::new(alloc, b"abcde")?;
    assert!(rt; reads(alloc, &mut source, b"abcde"));
    assert!(rt; reads(alloc, &mut source, b""));
    Ok(())
}

#[test]
fn a_shelf_that_never_fails_loads(rt: HostRuntime) -> Result<(), Fail> {
    let alloc = rt.alloc();
    let mut shelf = SafeShelf::new(alloc, b"grammar", b"analysis")?;
    assert!(rt; loads(alloc, &mut shelf, "g.xdg", b"grammar"));
    assert!(rt; loads(alloc, &mut shelf, "a", b"analysis"));
    Ok(())
}

#[test]
fn a_sink_that_never_fails_takes_all(rt: HostRuntime) -> Result<(), Fail> {
    let mut nothing = NullSink::new();
    assert!(rt; write_all(&mut nothing, b"abc").is_ok());
    Ok(())
}

#[test]
fn streams_are_devices(rt: HostRuntime) -> Result<(), Fail> {
    let alloc = rt.alloc();
    let mut source = ReaderSource::new(b"abcde".as_slice());
    let bytes = read_all(alloc, &mut source, 5);
    assert_eq!(rt; bytes.ok().as_deref(), Some(b"abcde".as_slice()));
    let mut sink = WriterSink::new(Vec::new(alloc));
    assert_eq!(rt; sink.write(b"abc"), Ok(3));
    Ok(())
}

#[test]
fn the_devices_of_the_program_answer(rt: HostRuntime) -> Result<(), Fail> {
    let alloc = rt.alloc();
    let mut shelf = FileShelf::new(&rt);
    let absent = shelf.load(alloc, "there/is/no/such.file", 9);
    assert_eq!(rt; absent.err(), Some(LoadStop::Failed));
    let mut output = StdoutSink::new(&rt);
    assert_eq!(rt; write_all(&mut output, b""), Ok(()));
    assert_eq!(rt; write_all(&mut output, b"written\n"), Ok(()));
    let mut input = StdinSource::new(&rt);
    assert!(rt; read_all(alloc, &mut input, 9).is_ok());
    Ok(())
}
