//! A writer that is set after its buffer was made.

ghost use Rattle.crx_program.specs.LateWriters.{late_contents};

use std::io;
use std::io::{ErrorKind, Write};

/// A place for a writer, so that a buffer can be made first. Until the writer is set, each write and flush
/// fails with `NotConnected`.
#[derive(Drop)]
pub struct LateWriter<W> {
    /// The writer, once it is set.
    pub(crate) writer: Option<W>,
}

impl<W: Write> Write for LateWriter<W> {
    ghost contents = { λ s. late_contents W.contents s };

    /// Writes to the writer, or returns `NotConnected` if none is set.
    fn write(&mut self, buf: &[u8]) -> io::Result<usize> {
        match &mut self.writer {
            Some(writer) => writer.write(buf),
            None => Err(ErrorKind::NotConnected.into()),
        }
    }

    /// Flushes the writer, or returns `NotConnected` if none is set.
    fn flush(&mut self) -> io::Result<()> {
        match &mut self.writer {
            Some(writer) => writer.flush(),
            None => Err(ErrorKind::NotConnected.into()),
        }
    }
}
