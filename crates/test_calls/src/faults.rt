//! Scripts whose readers and writers fail, are slow or never end, and scripts that a case file
//! cannot express.
use crate::scripts::{SCRIPT, WRITTEN};
use lexopt::replay::{RunError, run};
use std::alloc::{AllocError, Global};
use std::io;
use std::io::{Read, Write};
use std::test::Fail;

// Reads one byte at a time, and fails at this read, counted from 1. If `fails_at` is 0, no read
// fails.
#[derive(Drop)]
struct Slow<'a> {
    left: &'a [u8],
    reads: usize,
    fails_at: usize,
}

impl Read for Slow<'_> {
    fn read(&mut self, buf: &mut [u8]) -> io::Result<usize> {
        self.reads = self.reads.saturating_add(1);
        if self.reads == self.fails_at {
            return Err(io::Error::from(io::ErrorKind::Other));
        }
        match (self.left.split_first(), buf.first_mut()) {
            (Some((first, others)), Some(place)) => {
                *place = *first;
                self.left = others;
                Ok(1)
            }
            _ => Ok(0),
        }
    }
}

// A reader of line feeds that never ends.
#[derive(Drop)]
struct Endless;

impl Read for Endless {
    fn read(&mut self, buf: &mut [u8]) -> io::Result<usize> {
        buf.fill(b'\n');
        Ok(buf.len())
    }
}

// What a writer does once it is full.
#[derive(Clone, Copy)]
enum Full {
    TakesNothing,
    Fails,
}

// Takes `room` bytes, one at a time. The flush fails if `flushes` is false.
#[derive(Drop)]
struct Narrow {
    taken: Vec<u8>,
    room: usize,
    full: Full,
    flushes: bool,
}

impl Write for Narrow {
    fn write(&mut self, buf: &[u8]) -> io::Result<usize> {
        if self.room == 0 || buf.is_empty() {
            return match self.full {
                Full::TakesNothing => Ok(0),
                Full::Fails => Err(io::Error::from(io::ErrorKind::Other)),
            };
        }
        self.room -= 1;
        self.taken.push(buf[0])?;
        Ok(1)
    }

    fn flush(&mut self) -> io::Result<()> {
        if self.flushes {
            Ok(())
        } else {
            Err(io::Error::from(io::ErrorKind::Other))
        }
    }
}

// Whether the script of a reader has this result, and this output.
fn runs_to<R: Read>(
    alloc: Global,
    reader: &mut R,
    wanted: Result<(), RunError>,
    written: &[u8],
) -> bool {
    let mut text = Vec::new(alloc);
    run(alloc, reader, &mut text) == wanted && text.as_slice() == written
}

// A reader of the stored script that fails at this read.
fn slow_script(fails_at: usize) -> Slow<'static> {
    Slow {
        left: SCRIPT,
        reads: 0,
        fails_at,
    }
}

#[test]
fn reads_that_fail(rt: HostRuntime) {
    let failed = Err(RunError::ReadFailed);
    for fails_at in 1..SCRIPT.len() + 2 {
        assert!(rt; runs_to(rt.alloc(), &mut slow_script(fails_at), failed, b""));
    }
    assert!(rt; runs_to(rt.alloc(), &mut slow_script(0), Ok(()), WRITTEN));
}

// Whether the stored script has this result if its writer takes this many bytes, and the writer
// then has as many bytes of the output.
fn writes_front(
    alloc: Global,
    room: usize,
    full: Full,
    flushes: bool,
    wanted: Result<(), RunError>,
) -> bool {
    let mut narrow = Narrow {
        taken: Vec::new(alloc),
        room,
        full,
        flushes,
    };
    let mut script = SCRIPT;
    run(alloc, &mut script, &mut narrow) == wanted
        && Some(narrow.taken.as_slice()) == WRITTEN.get(..room)
}

#[test]
fn writes_that_fail(rt: HostRuntime) {
    let failed = Err(RunError::WriteFailed);
    for room in 0..WRITTEN.len() {
        assert!(rt; writes_front(rt.alloc(), room, Full::TakesNothing, true, failed));
        assert!(rt; writes_front(rt.alloc(), room, Full::Fails, true, failed));
    }
    assert!(rt; writes_front(rt.alloc(), WRITTEN.len(), Full::Fails, true, Ok(())));
    assert!(rt; writes_front(rt.alloc(), WRITTEN.len(), Full::Fails, false, failed));
}

// Whether a script of this length, of line feeds after this first byte, has this result.
fn has_result(
    alloc: Global,
    first: u8,
    length: usize,
    wanted: Result<(), RunError>,
) -> Result<bool, AllocError> {
    let mut script = vec![in alloc; b'\n'; length]?;
    if let Some(place) = script.first_mut() {
        *place = first;
    }
    Ok(runs_to(alloc, &mut script.as_slice(), wanted, b""))
}

// The first byte of a script, its length and its result.
static LIMITS: [(u8, usize, Result<(), RunError>); 4] = [
    (b'\n', 1_048_576, Ok(())),
    (b'\n', 1_048_577, Err(RunError::TooLong)),
    (b'x', 1_048_576, Err(RunError::BadLine(1))),
    (b'x', 1_048_577, Err(RunError::TooLong)),
];

#[test]
fn limits(rt: HostRuntime) -> Result<(), Fail> {
    assert!(rt; runs_to(rt.alloc(), &mut Endless, Err(RunError::TooLong), b""));
    for (first, length, wanted) in LIMITS.iter() {
        assert!(rt;
            has_result(rt.alloc(), *first, *length, *wanted)?,
            "{first} {length}"
        );
    }
    Ok(())
}

// Scripts without a line feed at the end, with carriage returns, and with bytes that are not UTF-8;
// and what they write and return.
static SCRIPTS: [(&[u8], &[u8], Result<(), RunError>); 8] = [
    (b"", b"", Ok(())),
    (b"w a\nnext", b"Value \"a\"\n", Ok(())),
    (b"w a\r\nnext\n", b"Value \"a\\r\"\n", Ok(())),
    (b"w \xff\nnext\n", b"Value \"\\xFF\"\n", Ok(())),
    (b"w a\\q", b"", Err(RunError::BadLine(1))),
    (b"w a\nnext\nw b", b"", Err(RunError::BadLine(3))),
    (b"next\r\n", b"", Err(RunError::BadLine(1))),
    (b"w a\n\xff\n", b"", Err(RunError::BadLine(2))),
];

#[test]
fn line_ends_and_bytes(rt: HostRuntime) {
    for (script, text, wanted) in SCRIPTS.iter() {
        let mut reader = *script;
        assert!(rt;
            runs_to(rt.alloc(), &mut reader, *wanted, text),
            "{script:?}"
        );
    }
}
