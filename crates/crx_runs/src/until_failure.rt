//! The writer below the output's buffer.

ghost use Rattle.std.specs.Prelude.{◌≡◌, ◌≢◌, ◌<◌, true, false, is_ok, length, OnErr, OnOk, IfErr, IfOk};
ghost use Rattle.std.specs.Io.{WritesAtMost};
ghost use Rattle.std.specs.Io.KnownBytes.{Keeps, WriteAppends};
ghost use Rattle.std.specs.IoError.{error_kind};

use std::io;
use std::io::{ErrorKind, Write};

/// A writer that isn't called again after a failed write or flush: each later call fails without reaching it.
///
/// std's buffer keeps the bytes that it couldn't write and tries them again at its next flush. Above this
/// writer that flush fails, so nothing is written after a failure. An interrupted write took no byte and
/// isn't a failure here, because the buffer repeats it at once.
#[derive(Drop)]
pub struct UntilFailure<W> {
    inner: W,
    failed: bool,
}

impl<W> UntilFailure<W> {
    /// Returns a writer over `inner` that hasn't failed.
    pub fn new(inner: W) -> UntilFailure<W>
        ensures inner { result.inner ≡ inner }
        ensures failed { result.failed ≡ false }
    {
        UntilFailure {
            inner,
            failed: false,
        }
    }
}

impl<W: Write> Write for UntilFailure<W> {
    ghost contents = { λ s. W.contents s.inner };

    /// Writes as `inner` does; taking none of some bytes counts as a failure, an interruption doesn't.
    /// Returns `BrokenPipe`, without a call, after a failed write or flush.
    fn write(&mut self, buf: &[u8]) -> io::Result<usize>
        ensures bound { WritesAtMost result buf.now }
        ensures bytes { WriteAppends (W.contents self.old.inner) (W.contents self.new.inner) result buf.now }
        ensures left_alone { self.old.failed ≡ true → self.new ≡ self.old }
        ensures refused { self.old.failed ≡ true → is_ok result ≡ false }
        ensures noted { IfErr result (λ e. error_kind e ≢ ErrorKind.Interrupted → self.new.failed ≡ true) }
        ensures none_noted { IfOk result (λ n. n ≡ 0 → 0 < length buf.now → self.new.failed ≡ true) }
        ensures good { IfOk result (λ n. 0 < n → self.new.failed ≡ false) }
        ensures interrupted { IfErr result (λ e. error_kind e ≡ ErrorKind.Interrupted
            → (self.old.failed ≡ false) × (self.new.failed ≡ false)) }
        ensures none_asked { length buf.now ≡ 0 → OnOk result (self.new.failed ≡ false) }
    {
        if self.failed {
            return Err(ErrorKind::BrokenPipe.into());
        }
        let written = self.inner.write(buf);
        self.failed = match &written {
            Ok(count) => *count == 0 && !buf.is_empty(),
            Err(error) => error.kind() != ErrorKind::Interrupted,
        };
        written
    }

    /// Flushes `inner` and returns its result; any error, also an interruption, counts as a failure. After a
    /// failed write or flush, returns `BrokenPipe` without calling `inner`.
    fn flush(&mut self) -> io::Result<()>
        ensures bytes { Keeps (W.contents self.old.inner) (W.contents self.new.inner) }
        ensures left_alone { self.old.failed ≡ true → self.new ≡ self.old }
        ensures refused { self.old.failed ≡ true → is_ok result ≡ false }
        ensures noted { OnErr result (self.new.failed ≡ true) }
        ensures good { OnOk result (self.new.failed ≡ false) }
    {
        if self.failed {
            return Err(ErrorKind::BrokenPipe.into());
        }
        let flushed = self.inner.flush();
        self.failed = flushed.is_err();
        flushed
    }
}
