//! Calls that are repeated if a signal interrupts them.
ghost use Rattle.std.specs.Prelude.{◌≡◌, ◌≢◌, IfErr};
ghost use Rattle.std.specs.Io.{ReadsAtMost, WritesAtMost};
ghost use Rattle.std.specs.Io.KnownBytes.{Keeps, ReadConsumes, WriteAppends};
ghost use Rattle.std.specs.IoError.{error_kind};

use std::io;
use std::io::{ErrorKind, Read, Write};

/// How often an interrupted call is made before it returns `TimedOut`, so that each call returns.
const MOST_CALLS: u64 = u64::MAX;

/// A reader or a writer of std that returns no interruption: a read, a write or a flush that a signal
/// interrupts is repeated until it succeeds or fails. An interrupted call transfers no byte.
///
/// A device counts each error as a failure, so the program's streams and files are wrapped in this type.
#[derive(Drop)]
pub struct Uninterrupted<D> {
    inner: D,
}

impl<D> Uninterrupted<D> {
    /// Wraps a reader or writer, so that its interrupted calls are repeated.
    pub fn new(inner: D) -> Uninterrupted<D>
        ensures inner { result.inner ≡ inner }
    {
        Uninterrupted { inner }
    }

    /// Returns the reader or writer itself.
    pub fn into_inner(self) -> D
        ensures inner { result ≡ self.inner }
    {
        self.inner
    }
}

impl<D: Read> Read for Uninterrupted<D> {
    ghost remaining = { λ s. D.remaining s.inner };

    /// Calls the reader's `read`, again after each interruption, and returns its result: how many bytes are
    /// now in the front of `buf`, or any other error. Returns `TimedOut` after [`MOST_CALLS`] interruptions.
    fn read(&mut self, buf: &mut [u8]) -> io::Result<usize>
        ensures bound { ReadsAtMost result buf.new }
        ensures bytes { ReadConsumes (D.remaining self.old.inner) (D.remaining self.new.inner) result buf.new }
        ensures uninterrupted { IfErr result (λ e. error_kind e ≢ ErrorKind.Interrupted) }
    {
        for _ in 0..MOST_CALLS {
            match self.inner.read(buf) {
                Err(error) if error.kind() == ErrorKind::Interrupted => {}
                answer => return answer,
            }
        }
        Err(ErrorKind::TimedOut.into())
    }
}

impl<D: Write> Write for Uninterrupted<D> {
    ghost contents = { λ s. D.contents s.inner };

    /// Calls the writer's `write`, again after each interruption, and returns its result: how many of `buf`
    /// it took, which may be 0, or any other error. Returns `TimedOut` after [`MOST_CALLS`] interruptions.
    fn write(&mut self, buf: &[u8]) -> io::Result<usize>
        ensures bound { WritesAtMost result buf.now }
        ensures bytes { WriteAppends (D.contents self.old.inner) (D.contents self.new.inner) result buf.now }
        ensures uninterrupted { IfErr result (λ e. error_kind e ≢ ErrorKind.Interrupted) }
    {
        for _ in 0..MOST_CALLS {
            match self.inner.write(buf) {
                Err(error) if error.kind() == ErrorKind::Interrupted => {}
                answer => return answer,
            }
        }
        Err(ErrorKind::TimedOut.into())
    }

    /// Calls the writer's `flush`, again after each interruption, and returns its result, also any other
    /// error. Returns `TimedOut` after [`MOST_CALLS`] interruptions.
    fn flush(&mut self) -> io::Result<()>
        ensures bytes { Keeps (D.contents self.old.inner) (D.contents self.new.inner) }
        ensures uninterrupted { IfErr result (λ e. error_kind e ≢ ErrorKind.Interrupted) }
    {
        for _ in 0..MOST_CALLS {
            match self.inner.flush() {
                Err(error) if error.kind() == ErrorKind::Interrupted => {}
                answer => return answer,
            }
        }
        Err(ErrorKind::TimedOut.into())
    }
}
