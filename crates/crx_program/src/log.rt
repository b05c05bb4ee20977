//! Devices with a log of the bytes that passed through them and of the name that opened them. Only contracts
//! read these logs.
ghost use Rattle.std.specs.Prelude.{◌≡◌, ◌<◌, List, ℕ, [], None, ◌++◌};
ghost use Rattle.std.specs.Borrow.{ftrue};
ghost use Rattle.std.proofs.Common.{◌∙◌, refl};
ghost use Rattle.crx_program.specs.Logs.{adds_none, adds_both};
ghost use Rattle.crx_program.specs.meaning.Calls.{Call, with_call};

pub mod opener;

use crate::late_writer::LateWriter;
use crx_lines::{ReadFailed, Sink, Source, Std, Uninterrupted, WriteFailed};
use crx_runs::UntilFailure;
use std::fs::OpenOptions;
use std::io::BufWriter;
use std::marker::{Model, PhantomData};

/// The size of the output's buffer, in bytes, which avoids a system call per line. The reader of lines reads
/// pieces of the same size.
pub const OUTPUT_BUFFER: usize = 65536;

/// Bytes, and the calls that opened files or failed to, in order. Only contracts read them: the log needs no
/// memory, and its methods do nothing at run time.
#[derive(Drop)]
pub struct Log {
    marker: PhantomData<u8>,
    pub ghost bytes: { List ℕ },
    pub ghost calls: { List Call },
}

impl Model for Log {
    ghost also_owns = { λ _. ftrue };
}

impl Log {
    /// Returns an empty log.
    pub(crate) fn new() -> Log
        ensures { (result.bytes ≡ []) × (result.calls ≡ []) }
    {
        Log {
            marker: PhantomData,
        }
    }

    /// Adds `_more` to the end of the log's bytes; does nothing at run time.
    #[inline(always)]
    pub(crate) fn add(&mut self, _more: &[u8])
        ensures { self.new.bytes ≡ self.old.bytes ++ _more.now }
    {}

    /// Adds a call that opens `_name` with the options `_how` to the log; does nothing at run time.
    #[inline(always)]
    fn add_call(&mut self, _name: &[u8], _how: &OpenOptions)
        ensures { self.new.calls ≡ with_call self.old.calls _name.now _how.now }
    {}
}

/// How the device of a file was opened.
#[derive(Drop)]
pub struct Opening {
    /// The name in the call that opened the device, empty if none did.
    name: Log,
    /// The options of the call that opened the file for writing, if there was one.
    how: Option<OpenOptions>,
}

/// A device with a log of its bytes and of its opening. Each call is one call of the inner device.
#[derive(Drop)]
pub struct Logged<S> {
    inner: S,
    /// The bytes that were read or written.
    log: Log,
    opening: Opening,
}

/// A file or stream that is read, or a stream that is written without a buffer, with a log. An interrupted
/// call is repeated.
pub type SourceFile<F> = Logged<Std<Uninterrupted<F>>>;

/// The buffer of an output file, which can be made before the file.
pub type FileBuffer<F> = BufWriter<LateWriter<UntilFailure<Uninterrupted<F>>>>;

/// A stream that is written through a buffer, with a log. An interrupted call is repeated.
pub type TargetStream<F> = Logged<Std<BufWriter<UntilFailure<Uninterrupted<F>>>>>;

/// A file that is written through a buffer, with a log of its name too. An interrupted call is repeated.
pub type TargetFile<F> = Logged<Std<FileBuffer<F>>>;

impl<S> Logged<S> {
    /// Wraps a device, with an empty log and no name.
    pub fn new(inner: S) -> Logged<S>
        ensures inner { result.inner ≡ inner }
        ensures log { result.log.bytes ≡ [] }
        ensures name { result.opening.name.bytes ≡ [] }
        ensures how { result.opening.how ≡ None }
    {
        Logged {
            inner,
            log: Log::new(),
            opening: Opening {
                name: Log::new(),
                how: None,
            },
        }
    }

    /// Returns the inner device, without the log.
    pub fn into_inner(self) -> S
        ensures inner { result ≡ self.inner }
    {
        self.inner
    }

    /// Drops the device and returns its log.
    pub fn into_log(self) -> Log
    where
        S: Drop,
        ensures log { result.bytes ≡ self.log.bytes }
    {
        self.log
    }
}

impl<S: Source> Source for Logged<S> {
    ghost gave = { λ a bytes b. (b.log.bytes ≡ a.log.bytes ++ bytes)
        × (b.opening ≡ a.opening) × S.gave a.inner bytes b.inner × (S.waits b.inner ≡ S.waits a.inner) };

    // A read reported the end.
    ghost at_end = { λ s. S.at_end s.inner × (0 < S.ends s.inner) };

    ghost failures = { λ s. S.failures s.inner };

    ghost ends = { λ s. S.ends s.inner };

    ghost waits = { λ s. S.waits s.inner };

    /// Returns the inner device's answer: whether a read may have to wait; `true` if that isn't known.
    fn may_wait(&self) -> bool {
        self.inner.may_wait()
    }

    /// Reads from the inner device and logs the bytes read: none if it returns `ReadFailed`.
    fn read(&mut self, buffer: &mut [u8]) -> Result<usize, ReadFailed> {
        let count = self.inner.read(buffer)?;
        self.log.add(&buffer[..count]);
        Ok(count)
    }

    ghost gave_none = { λ s. (adds_none s.log.bytes, refl, S.gave_none s.inner, refl) };

    ghost gave_both = { λ a b c xs ys p q. (
      adds_both a.log.bytes b.log.bytes c.log.bytes xs ys p.0 q.0,
      q.1 ∙ p.1,
      S.gave_both a.inner b.inner c.inner xs ys p.2 q.2,
      q.3 ∙ p.3,
    ) };
}

impl<S: Sink> Sink for Logged<S> {
    ghost took = { λ a bytes b. (b.log.bytes ≡ a.log.bytes ++ bytes)
        × (b.opening ≡ a.opening) × S.took a.inner bytes b.inner };

    ghost failures = { λ s. S.failures s.inner };

    ghost is_flushed = { λ s. S.is_flushed s.inner };

    ghost flushes = { λ s. S.flushes s.inner };

    ghost is_current = { λ s. S.is_current s.inner };

    ghost is_awaited = { λ s. S.is_awaited s.inner };

    ghost is_broken = { λ s. S.is_broken s.inner };

    /// Writes to the inner device and logs the bytes that it took: none if it returns `WriteFailed`.
    fn write(&mut self, bytes: &[u8]) -> Result<usize, WriteFailed> {
        let count = self.inner.write(bytes)?;
        self.log.add(&bytes[..count]);
        Ok(count)
    }

    /// Flushes the inner device. Returns `WriteFailed` if that does.
    fn flush(&mut self) -> Result<(), WriteFailed> {
        self.inner.flush()
    }

    /// Marks the inner device's output as awaited.
    fn await_output(&mut self) {
        self.inner.await_output();
    }

    /// Passes the inner device's bytes on if the output is awaited; returns `false` if that fails or failed
    /// before.
    fn pass_on(&mut self) -> bool {
        self.inner.pass_on()
    }

    ghost took_none = { λ s. (adds_none s.log.bytes, refl, S.took_none s.inner) };

    ghost took_both = { λ a b c xs ys p q. (
      adds_both a.log.bytes b.log.bytes c.log.bytes xs ys p.0 q.0,
      q.1 ∙ p.1,
      S.took_both a.inner b.inner c.inner xs ys p.2 q.2,
    ) };
}
