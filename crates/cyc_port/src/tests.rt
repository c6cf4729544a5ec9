// Shelves and sinks, in memory and real, and what their calls answer and leave.
use crate::file_shelf::text_of;
use crate::{
    FileShelf, Gate, MemShelf, MemSink, NamedFile, OpenGate, Shelf, ShelfFault, Sink, SinkFailed,
    SinkStop, StdoutSink,
};
use cyc_text::Text;
use std::alloc::{AllocError, Global};
use std::io::{Error, ErrorKind, Read, Write};
use std::path::PathBuf;
use std::test::Fail;
use std::{env, fs, io, process};

fn named(alloc: Global, name: &[u8], bytes: &[u8]) -> Result<NamedFile, AllocError> {
    Ok(NamedFile {
        name: Text::of(alloc, name)?,
        bytes: Text::of(alloc, bytes)?,
        faults: 0,
        long: 0,
    })
}

#[test]
fn memory_shelf_reads(rt: HostRuntime) -> Result<(), Fail> {
    let alloc = rt.alloc();
    let files = vec![in alloc;
        named(alloc, b"a", b"first")?,
        named(alloc, b"b", b"")?,
        named(alloc, b"a", b"second")?,
    ]?;
    let mut shelf = MemShelf::new(files, vec![in alloc; 1, 2]?);
    for (name, want) in [
        ("a", Ok(b"first".as_slice())),
        ("a", Err(ShelfFault::Failed)),
        ("c", Err(ShelfFault::Failed)),
        ("b", Ok(b"".as_slice())),
        ("c", Err(ShelfFault::Failed)),
        ("a", Ok(b"first".as_slice())),
    ] {
        match shelf.read_all(alloc, name) {
            Ok(text) => assert_eq!(rt; Ok(text.bytes()), want, "{name}"),
            Err(fault) => assert_eq!(rt; Err(fault), want, "{name}"),
        }
    }
    Ok(())
}

fn is_too_long(alloc: Global, len: usize) -> Result<bool, AllocError> {
    let bytes = vec![in alloc; b'#'; len]?;
    let files = vec![in alloc; named(alloc, b"a", &bytes)?]?;
    let mut shelf = MemShelf::new(files, Vec::new(alloc));
    match shelf.read_all(alloc, "a") {
        Ok(text) => Ok(text.bytes().len() != len),
        Err(fault) => Ok(fault == ShelfFault::TooLong),
    }
}

#[test]
fn memory_shelf_tells_long_files(rt: HostRuntime) -> Result<(), Fail> {
    for (len, long) in [(16_777_216, false), (16_777_217, true)] {
        assert_eq!(rt; is_too_long(rt.alloc(), len)?, long, "{len}");
    }
    Ok(())
}

#[test]
fn memory_sink_writes(rt: HostRuntime) -> Result<(), Fail> {
    let stop = SinkStop { call: 1, taken: 2 };
    let mut sink = MemSink::new(rt.alloc(), 6, vec![in rt.alloc(); stop]?)?;
    for (piece, want, written) in [
        (b"".as_slice(), Ok(()), b"".as_slice()),
        (b"ab".as_slice(), Ok(()), b"ab".as_slice()),
        (b"".as_slice(), Ok(()), b"ab".as_slice()),
        (b"cde".as_slice(), Err(SinkFailed), b"abcd".as_slice()),
        (b"ef".as_slice(), Ok(()), b"abcdef".as_slice()),
        (b"g".as_slice(), Err(SinkFailed), b"abcdef".as_slice()),
        (b"".as_slice(), Ok(()), b"abcdef".as_slice()),
    ] {
        assert_eq!(rt; sink.write_all(piece), want, "{piece:?}");
        assert_eq!(rt; sink.bytes(), written, "{piece:?}");
    }
    Ok(())
}

// A name in the system's folder for passing files, apart for each run.
fn passing_name(rt: &HostRuntime, word: &str) -> io::Result<PathBuf> {
    let folder = env::temp_dir(rt)?;
    let id = process::id(rt.process());
    let name = format!(in rt.alloc(); "cyc_port-{word}-{id}")?;
    Ok(folder.join(rt.alloc(), name.as_str())?)
}

fn filled(alloc: Global, len: usize) -> Result<Vec<u8>, AllocError> {
    vec![in alloc; b'#'; len]
}

// Bytes that differ along the list.
fn striped(alloc: Global, len: usize) -> Result<Vec<u8>, AllocError> {
    let mut bytes = Vec::new(alloc);
    for i in 0..len {
        bytes.push((i % 251) as u8)?;
    }
    Ok(bytes)
}

#[test]
fn file_shelf_reads(rt: HostRuntime) -> Result<(), Fail> {
    let path = passing_name(&rt, "shelf")?;
    let name = path.as_str();
    let mut shelf = FileShelf::new(rt.clone()?);
    let missing = shelf.read_all(rt.alloc(), name);
    fs::write(&rt, name, b"net a b\r\n\xff".as_slice())?;
    let short = shelf.read_all(rt.alloc(), name);
    let stripes = striped(rt.alloc(), 70_000)?;
    fs::write(&rt, name, stripes.as_slice())?;
    let wide = shelf.read_all(rt.alloc(), name);
    fs::write(&rt, name, filled(rt.alloc(), 16_777_217)?.as_slice())?;
    let long = shelf.read_all(rt.alloc(), name);
    fs::remove_file(&rt, name)?;
    assert_eq!(rt; missing.err(), Some(ShelfFault::Failed));
    let text = short.ok().ok_or("a text")?;
    assert_eq!(rt; text.bytes(), b"net a b\r\n\xff".as_slice());
    let text = wide.ok().ok_or("a text")?;
    assert!(rt; text.bytes() == stripes.as_slice());
    assert_eq!(rt; long.err(), Some(ShelfFault::TooLong));
    Ok(())
}

// A folder can be opened, and no read of it succeeds.
#[test]
fn file_shelf_fails_on_folders(rt: HostRuntime) -> Result<(), Fail> {
    let folder = env::temp_dir(&rt)?;
    let answer = FileShelf::new(rt.clone()?).read_all(rt.alloc(), folder.as_str());
    assert_eq!(rt; answer.err(), Some(ShelfFault::Failed));
    Ok(())
}

// A reader that is interrupted once, and then fails or gives a byte and ends.
#[derive(Drop)]
struct Halting {
    interrupted: bool,
    fault: Option<ErrorKind>,
    rest: &'static [u8],
}

impl Read for Halting {
    fn read(&mut self, buf: &mut [u8]) -> io::Result<usize> {
        if !self.interrupted {
            self.interrupted = true;
            return Err(Error::from(ErrorKind::Interrupted));
        }
        match self.fault {
            Some(kind) => Err(Error::from(kind)),
            None => self.rest.read(buf),
        }
    }
}

fn opened(fault: Option<ErrorKind>) -> io::Result<Halting> {
    Ok(Halting {
        interrupted: false,
        fault,
        rest: b"a",
    })
}

fn unopened(kind: ErrorKind) -> io::Result<Halting> {
    Err(Error::from(kind))
}

#[test]
fn errors_are_told(rt: HostRuntime) -> Result<(), Fail> {
    let alloc = rt.alloc();
    for (source, want) in [
        (unopened(ErrorKind::NotFound), ShelfFault::Failed),
        (unopened(ErrorKind::OutOfMemory), ShelfFault::Memory),
        (opened(Some(ErrorKind::Other)), ShelfFault::Failed),
        (opened(Some(ErrorKind::OutOfMemory)), ShelfFault::Memory),
    ] {
        assert_eq!(rt; text_of(source, alloc).err(), Some(want));
    }
    let text = text_of(opened(None), alloc).ok().ok_or("a text")?;
    assert_eq!(rt; text.bytes(), b"a".as_slice());
    Ok(())
}

#[test]
fn stdout_sink_writes(rt: HostRuntime) -> Result<(), Fail> {
    let path = passing_name(&rt, "sink")?;
    let name = path.as_str();
    let mut sink = StdoutSink::new(fs::create(&rt, name)?);
    let first = sink.write_all(b"events 0 ");
    let empty = sink.write_all(b"");
    let last = sink.write_all(b"rules 0\n");
    let shown = fs::read(&rt, name)?;
    fs::remove_file(&rt, name)?;
    assert_eq!(rt; (first, empty, last), (Ok(()), Ok(()), Ok(())));
    assert_eq!(rt; shown.as_slice(), b"events 0 rules 0\n".as_slice());
    Ok(())
}

// A writer that takes one byte a call up to `room`, is interrupted once, and may fail to flush.
#[derive(Drop)]
struct Narrow {
    room: usize,
    interrupted: bool,
    flushes: bool,
}

impl Write for Narrow {
    fn write(&mut self, buf: &[u8]) -> io::Result<usize> {
        if !self.interrupted {
            self.interrupted = true;
            return Err(Error::from(ErrorKind::Interrupted));
        }
        if self.room == 0 || buf.is_empty() {
            return Ok(0);
        }
        self.room -= 1;
        Ok(1)
    }

    fn flush(&mut self) -> io::Result<()> {
        if self.flushes {
            Ok(())
        } else {
            Err(Error::from(ErrorKind::Other))
        }
    }
}

#[test]
fn stdout_sink_tells_faults(rt: HostRuntime) {
    for (room, flushes, want) in [
        (3, true, Ok(())),
        (2, true, Err(SinkFailed)),
        (0, true, Err(SinkFailed)),
        (3, false, Err(SinkFailed)),
    ] {
        let mut sink = StdoutSink::new(Narrow {
            room,
            interrupted: false,
            flushes,
        });
        assert_eq!(rt; sink.write_all(b"abc"), want, "{room} {flushes}");
    }
}

#[test]
fn open_gate_returns(_rt: HostRuntime) {
    let gate: &(dyn Gate + Sync) = &OpenGate;
    OpenGate.pass(1001);
    gate.pass(1001);
}
