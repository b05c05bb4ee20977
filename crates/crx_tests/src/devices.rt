//! The calls that reach a device of std: `Std` neither repeats nor leaves out a call, and before a failure
//! `UntilFailure` doesn't either; `Uninterrupted` repeats a call that a signal interrupted.

use crate::expecting::{expect, expect_at};
use crx_base::Fault;
use crx_lines::{Sink, Source, Std, Uninterrupted};
use crx_runs::UntilFailure;
use std::io;
use std::io::{ErrorKind, Read, Write};
use std::process::Abort;

/// Counts the calls. A signal interrupts the first one of each kind, the second write takes no byte, the third
/// read returns none; each other read returns one byte, and each other write takes one.
#[derive(Drop)]
struct Counting {
    reads: u32,
    writes: u32,
    flushes: u32,
}

impl Read for Counting {
    fn read(&mut self, buffer: &mut [u8]) -> io::Result<usize> {
        self.reads = self.reads.saturating_add(1);
        if self.reads == 1 {
            return Err(ErrorKind::Interrupted.into());
        }
        if self.reads == 3 || buffer.is_empty() {
            return Ok(0);
        }
        buffer[0] = b'x';
        Ok(1)
    }
}

impl Write for Counting {
    fn write(&mut self, bytes: &[u8]) -> io::Result<usize> {
        self.writes = self.writes.saturating_add(1);
        if self.writes == 1 {
            return Err(ErrorKind::Interrupted.into());
        }
        if self.writes == 2 {
            return Ok(0);
        }
        Ok(bytes.len().min(1))
    }

    fn flush(&mut self) -> io::Result<()> {
        self.flushes = self.flushes.saturating_add(1);
        if self.flushes == 1 {
            return Err(ErrorKind::Interrupted.into());
        }
        Ok(())
    }
}

/// A call of a device.
enum Call<'a> {
    /// A read into a buffer of this length, at most four.
    Read(usize),
    Write(&'a [u8]),
    Flush,
}

/// Returns a call's result, or 0 for a good flush.
fn answer(device: &mut Std<Counting>, call: &Call<'_>) -> Result<usize, Fault> {
    let mut buffer = [0; 4];
    let room = match call {
        Call::Read(room) => *room.min(&4),
        Call::Write(bytes) => return device.write(bytes).map_err(|_| Fault::WriteFailed),
        Call::Flush => {
            return match device.flush() {
                Ok(()) => Ok(0),
                Err(_) => Err(Fault::WriteFailed),
            };
        }
    };
    device
        .read(&mut buffer[..room])
        .map_err(|_| Fault::ReadFailed)
}

/// Calls one after another, each with its result and the counts after it.
const CALLS: &[(Call<'_>, Result<usize, Fault>, [u32; 3])] = &[
    (Call::Read(4), Err(Fault::ReadFailed), [1, 0, 0]),
    (Call::Read(4), Ok(1), [2, 0, 0]),
    (Call::Read(4), Ok(0), [3, 0, 0]),
    (Call::Read(0), Ok(0), [4, 0, 0]),
    (Call::Write(b""), Err(Fault::WriteFailed), [4, 1, 0]),
    (Call::Write(b"ab"), Err(Fault::WriteFailed), [4, 2, 0]),
    (Call::Write(b"ab"), Ok(1), [4, 3, 0]),
    (Call::Write(b""), Ok(0), [4, 4, 0]),
    (Call::Flush, Err(Fault::WriteFailed), [4, 4, 1]),
    (Call::Flush, Ok(0), [4, 4, 2]),
    (Call::Flush, Ok(0), [4, 4, 3]),
    (Call::Write(b"a"), Ok(1), [4, 5, 3]),
];

#[test]
fn asks_the_inner_device_once_a_call(rt: HostRuntime) {
    for (place, (_, _, after)) in CALLS.iter().enumerate() {
        let mut device = Std::new(Counting {
            reads: 0,
            writes: 0,
            flushes: 0,
        });
        for (call, want, _) in CALLS.iter().take(place.saturating_add(1)) {
            expect_at(
                &rt,
                answer(&mut device, call) == *want,
                "calls up to",
                place,
            );
        }
        let inner = device.into_inner();
        let is_so = [inner.reads, inner.writes, inner.flushes] == *after;
        expect_at(&rt, is_so, "counts after call", place);
    }
}

#[test]
fn repeats_a_call_that_was_interrupted(rt: HostRuntime) {
    let mut device = Uninterrupted::new(Counting {
        reads: 0,
        writes: 0,
        flushes: 0,
    });
    expect(&rt, matches!(device.read(&mut [0; 4]), Ok(1)), "a read");
    expect(&rt, matches!(device.write(b"ab"), Ok(0)), "a write");
    expect(&rt, device.flush().is_ok(), "a flush");
    let inner = device.into_inner();
    let is_so = [inner.reads, inner.writes, inner.flushes] == [2, 2, 2];
    expect(&rt, is_so, "each call is made twice");
}

/// Counts the calls into the caller's numbers; each of them succeeds.
#[derive(Drop)]
struct Noting<'a> {
    writes: &'a mut u32,
    flushes: &'a mut u32,
}

impl Write for Noting<'_> {
    fn write(&mut self, bytes: &[u8]) -> io::Result<usize> {
        *self.writes = self.writes.saturating_add(1);
        Ok(bytes.len().min(1))
    }

    fn flush(&mut self) -> io::Result<()> {
        *self.flushes = self.flushes.saturating_add(1);
        Ok(())
    }
}

/// Writes two bytes, of which one is taken, and flushes if `is_flushed`. Returns how many writes and flushes
/// the inner writer saw.
fn counts_of_calls(rt: &impl Abort, is_flushed: bool) -> (u32, u32) {
    let (mut writes, mut flushes) = (0, 0);
    let mut writer = UntilFailure::new(Noting {
        writes: &mut writes,
        flushes: &mut flushes,
    });
    assert!(rt; matches!(writer.write(b"ab"), Ok(1)));
    if is_flushed {
        assert!(rt; writer.flush().is_ok());
    }
    drop(writer);
    (writes, flushes)
}

#[test]
fn each_call_reaches_the_inner_writer_once(rt: HostRuntime) {
    assert!(rt; counts_of_calls(&rt, false) == (1, 0));
    assert!(rt; counts_of_calls(&rt, true) == (1, 1));
}
