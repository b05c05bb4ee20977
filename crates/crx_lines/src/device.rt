//! The devices that bytes are read from and written to. Each counts its failures, so that a contract can say
//! that a run had none, or which bytes passed before one. A source also counts how often it reported its end,
//! so that a read after it shows.
ghost use Rattle.std.specs.Prelude.{◌≡◌, ℕ, List, [], ◌++◌, ◌<◌, ◌≤◌, length, take, is_ok, true, false, not, Bool, IfOk, Ok, OnOk, OnErr};
ghost use Rattle.std.specs.Fs.{IsFile, file_type};
ghost use Rattle.std.specs.Io.KnownBytes.{Appends, Consumes, IsAtEnd};
ghost use Rattle.std.specs.declared.fs.attrs.Metadata.{Metadata};
ghost use Rattle.std.proofs.KnownBytes.{Appends-nil, Appends-trans, Consumes-nil, Consumes-trans};
ghost use Rattle.crx_lines.specs.meaning.Devices.{ends_after, one_more};

use crate::uninterrupted::Uninterrupted;
use std::fs::{Metadata, OpenFile};
use std::io::{ErrorKind, Read, Write};
use std::rt::Files;
use std::{fs, io};
use thiserror::Error;

/// The error of a read that failed or was interrupted, and that returned no byte.
#[derive(Clone, Copy, Debug, PartialEq, Eq, Error)]
#[error("the read failed")]
pub struct ReadFailed;

/// The error of a write or flush that failed or was interrupted, or of a write of at least one byte that took
/// none.
#[derive(Clone, Copy, Debug, PartialEq, Eq, Error)]
#[error("the write failed")]
pub struct WriteFailed;

/// A device that bytes are read from, once, from front to back.
pub trait Source {
    // Reading these bytes, in this order, leads from the first state to the second.
    ghost gave: { Self → List ℕ → Self → Type 0 };

    // No byte is left, and a read reported it.
    ghost at_end: { Self → Type 0 };

    // How many reads failed; the count stops at the greatest value of 64 bits.
    ghost failures: { Self → ℕ };

    // How many reads reported the end; the count stops at the greatest value of 64 bits.
    ghost ends: { Self → ℕ };

    // Whether a read may have to wait for bytes that don't exist yet.
    ghost waits: { Self → Bool };

    /// Returns whether a read may have to wait for bytes that don't exist yet: `true` if that isn't known.
    fn may_wait(&self) -> bool
        ensures value { result ≡ waits self.now };

    /// Reads some of the next bytes into the front of `buffer`, and returns how many. 0 reports the end
    /// unless `buffer` is empty. Returns `ReadFailed` if the read fails, without losing a byte. The rest of
    /// `buffer`, or all of it after a failure, may have any value.
    fn read(&mut self, buffer: &mut [u8]) -> Result<usize, ReadFailed>
        ensures bound { IfOk result (λ n. n ≤ length buffer.new) }
        ensures bytes { IfOk result (λ n. gave self.old (take n buffer.new) self.new) }
        ensures end { IfOk result (λ n. n ≡ 0 → 0 < length buffer.new → at_end self.new) }
        ensures good { OnOk result (failures self.new ≡ failures self.old) }
        ensures ends { IfOk result (λ n. 0 < length buffer.new
            → ends self.new ≡ ends_after n (ends self.old)) }
        ensures unasked { length buffer.new ≡ 0 → ends self.new ≡ ends self.old }
        ensures none_lost { OnErr result (gave self.old [] self.new) }
        ensures no_end { OnErr result (ends self.new ≡ ends self.old) }
        ensures counted { OnErr result (failures self.new ≡ one_more (failures self.old)) }
        ensures waits { waits self.new ≡ waits self.old };

    ghost gave_none: { (s : Self) → gave s [] s };

    ghost gave_both: { (a b c : Self) (xs ys : List ℕ) → gave a xs b → gave b ys c → gave a (xs ++ ys) c };
}

/// A device that takes bytes, in the order in which they are written.
pub trait Sink {
    // Taking these bytes, in this order, leads from the first state to the second.
    ghost took: { Self → List ℕ → Self → Type 0 };

    // How many writes and flushes failed; the count stops at the greatest value of 64 bits.
    ghost failures: { Self → ℕ };

    // All bytes taken were passed on: a flush succeeded, and no write followed it.
    ghost is_flushed: { Self → Type 0 };

    // How often a flush was called; the count stops at the greatest value of 64 bits.
    ghost flushes: { Self → ℕ };

    // All bytes taken were passed on, by a flush or otherwise.
    ghost is_current: { Self → Type 0 };

    // Whether the output is awaited, so that `pass_on` passes it on.
    ghost is_awaited: { Self → Bool };

    // Whether a `pass_on` has failed. Then every flush fails.
    ghost is_broken: { Self → Bool };

    /// Takes the first of `bytes`, at least one if there is one, and returns how many. They may stay in a
    /// buffer until the output is flushed or passed on. Returns `WriteFailed` if the write fails; then none
    /// is taken.
    fn write(&mut self, bytes: &[u8]) -> Result<usize, WriteFailed>
        ensures bound { IfOk result (λ n. n ≤ length bytes.now) }
        ensures bytes { IfOk result (λ n. took self.old (take n bytes.now) self.new) }
        ensures progress { IfOk result (λ n. 0 < length bytes.now → 0 < n) }
        ensures unflushed { is_flushed self.new → ⊥ }
        ensures unasked { flushes self.new ≡ flushes self.old }
        ensures good { OnOk result (failures self.new ≡ failures self.old) }
        ensures none_taken { OnErr result (took self.old [] self.new) }
        ensures counted { OnErr result (failures self.new ≡ one_more (failures self.old)) }
        ensures awaited { is_awaited self.new ≡ is_awaited self.old }
        ensures unbroken { is_broken self.new ≡ is_broken self.old };

    /// Passes all bytes taken so far to their file or stream, whether or not the output is awaited. Takes no
    /// byte. Returns `WriteFailed` if that fails or a [`Sink::pass_on`] has failed before.
    fn flush(&mut self) -> Result<(), WriteFailed>
        ensures none_taken { took self.old [] self.new }
        ensures flushed { OnOk result (is_flushed self.new) }
        ensures asked { flushes self.new ≡ one_more (flushes self.old) }
        ensures good { OnOk result (failures self.new ≡ failures self.old) }
        ensures counted { OnErr result (failures self.new ≡ one_more (failures self.old)) }
        ensures broken { is_broken self.old ≡ true → is_ok result ≡ false }
        ensures awaited { is_awaited self.new ≡ is_awaited self.old }
        ensures unbroken { is_broken self.new ≡ is_broken self.old };

    /// Marks the output as awaited, for good: someone may be waiting for it, so from now on each
    /// [`Sink::pass_on`] passes it on. Passes nothing on itself.
    fn await_output(&mut self)
        ensures none_taken { took self.old [] self.new }
        ensures unasked { flushes self.new ≡ flushes self.old }
        ensures good { failures self.new ≡ failures self.old }
        ensures awaited { is_awaited self.new ≡ true }
        ensures unbroken { is_broken self.new ≡ is_broken self.old }
        ensures flushed { is_flushed self.new → is_flushed self.old }
        ensures current { is_current self.new → is_current self.old };

    /// Passes the bytes taken to their file or stream if the output is marked as awaited; otherwise does
    /// nothing. Returns `false` if that fails or has failed before, otherwise `true`; after a failure each
    /// flush fails, too, and counts the failure. Takes no byte and doesn't count as a flush.
    fn pass_on(&mut self) -> bool
        ensures none_taken { took self.old [] self.new }
        ensures unasked { flushes self.new ≡ flushes self.old }
        ensures good { failures self.new ≡ failures self.old }
        ensures awaited { is_awaited self.new ≡ is_awaited self.old }
        ensures current { result ≡ true → is_awaited self.new ≡ true → is_current self.new }
        ensures broken { is_broken self.new ≡ not result }
        ensures still_broken { is_broken self.old ≡ true → is_broken self.new ≡ true }
        ensures left_alone { is_awaited self.old ≡ false → self.new ≡ self.old };

    ghost took_none: { (s : Self) → took s [] s };

    ghost took_both: { (a b c : Self) (xs ys : List ℕ) → took a xs b → took b ys c → took a (xs ++ ys) c };
}

/// A reader or a writer of std as a device. Only the counts of a file are known, and whether it is unread.
#[derive(Drop)]
pub struct Std<D> {
    inner: D,
    failures: u64,
    ends: u64,
    /// Whether all bytes written were passed on: a flush or [`Sink::pass_on`] said so.
    flushed: bool,
    flushes: u64,
    /// Whether it is a file that [`open_file`] opened, and nothing was read or written after that.
    is_unread: bool,
    /// Whether a read may have to wait.
    may_wait: bool,
    /// Whether the output is awaited.
    is_awaited: bool,
    /// Whether awaited output couldn't be passed on.
    is_broken: bool,
}

/// Returns whether a read of the file with this `metadata` may have to wait for bytes that don't exist yet:
/// `false` for a regular file, `true` for any other one and if `metadata` is an error.
pub fn reads_may_wait(metadata: &io::Result<Metadata>) -> bool
    ensures waits { result ≡ false
        → (known : Metadata) × (metadata.now ≡ Ok known) × IsFile (file_type known) }
    ensures regular { IfOk metadata.now (λ known. IsFile (file_type known) → result ≡ false) }
{
    match metadata {
        Ok(known) => !known.is_file(),
        Err(_) => true,
    }
}

/// Opens the file `name` for reading through `files`; interrupted calls are repeated. Its reads may have to
/// wait unless it is known to be a regular file. Only this call returns a device marked as unread, which says
/// nothing about earlier reads of the file. Returns the system's error if the file can't be opened, and
/// `IsADirectory` for a folder.
pub fn open_file<H: Files>(files: &H, name: &str) -> io::Result<Std<Uninterrupted<H::File>>>
    ensures unread { IfOk result (λ device. device.is_unread ≡ true) }
    ensures failures { IfOk result (λ device. device.failures ≡ 0) }
    ensures ends { IfOk result (λ device. device.ends ≡ 0) }
    ensures flushed { IfOk result (λ device. device.flushed ≡ false) }
    ensures flushes { IfOk result (λ device. device.flushes ≡ 0) }
    ensures awaited { IfOk result (λ device. device.is_awaited ≡ false) }
    ensures broken { IfOk result (λ device. device.is_broken ≡ false) }
{
    let file = fs::open(files, name)?;
    let metadata = file.metadata();
    if matches!(&metadata, Ok(known) if known.is_dir()) {
        return Err(ErrorKind::IsADirectory.into());
    }
    let may_wait = reads_may_wait(&metadata);
    Ok(Std {
        inner: Uninterrupted::new(file),
        failures: 0,
        ends: 0,
        flushed: false,
        flushes: 0,
        is_unread: true,
        may_wait,
        is_awaited: false,
        is_broken: false,
    })
}

impl<D> Std<D> {
    /// Returns `inner` as a device without a failure, a reported end or a flush so far. Its output isn't
    /// awaited: [`Sink::pass_on`] does nothing before [`Sink::await_output`]. It isn't marked as unread, and
    /// its reads may have to wait.
    pub fn new(inner: D) -> Std<D>
        ensures inner { result.inner ≡ inner }
        ensures failures { result.failures ≡ 0 }
        ensures ends { result.ends ≡ 0 }
        ensures flushed { result.flushed ≡ false }
        ensures flushes { result.flushes ≡ 0 }
        ensures unread { result.is_unread ≡ false }
        ensures waits { result.may_wait ≡ true }
        ensures awaited { result.is_awaited ≡ false }
        ensures broken { result.is_broken ≡ false }
    {
        Std {
            inner,
            failures: 0,
            ends: 0,
            flushed: false,
            flushes: 0,
            is_unread: false,
            may_wait: true,
            is_awaited: false,
            is_broken: false,
        }
    }

    /// Returns the same device, except that [`Source::may_wait`] returns `may_wait` from now on.
    pub fn with_waits(self, may_wait: bool) -> Std<D>
        ensures whole { result ≡ record self { may_wait = may_wait } }
    {
        Std { may_wait, ..self }
    }

    /// Returns the reader or writer itself, without a flush.
    pub fn into_inner(self) -> D
        ensures inner { result ≡ self.inner }
    {
        self.inner
    }

    /// Counts a flush with the result `flushed`, and stores whether it succeeded; flushes nothing itself. If
    /// it failed, also counts a failure and returns `WriteFailed`.
    fn count_flush(&mut self, flushed: io::Result<()>) -> Result<(), WriteFailed>
        ensures ok { is_ok result ≡ is_ok flushed }
        ensures good { OnOk result (self.new.failures ≡ self.old.failures) }
        ensures failed { OnErr result (self.new.failures ≡ one_more self.old.failures) }
        ensures whole { self.new ≡ record self.old
            { flushed = is_ok flushed; flushes = one_more self.old.flushes; failures = self.new.failures } }
    {
        self.flushed = flushed.is_ok();
        self.flushes = self.flushes.saturating_add(1);
        match flushed {
            Ok(()) => Ok(()),
            Err(_) => {
                self.failures = self.failures.saturating_add(1);
                Err(WriteFailed)
            }
        }
    }
}

impl<D: Read> Source for Std<D> {
    ghost gave = { λ a bytes b. Consumes (D.remaining a.inner) (D.remaining b.inner) bytes };

    ghost at_end = { λ s. IsAtEnd (D.remaining s.inner) };

    ghost failures = { λ s. s.failures };

    ghost ends = { λ s. s.ends };

    ghost waits = { λ s. s.may_wait };

    /// Returns whether a read may have to wait: `true` unless the device was opened or changed as one whose
    /// reads don't. Doesn't ask the system.
    fn may_wait(&self) -> bool {
        self.may_wait
    }

    /// Reads by one call of the reader into the front of `buffer`, and returns how many bytes. If that is 0
    /// and `buffer` isn't empty, counts a reported end. Any error, also an interruption, is counted and
    /// returned as `ReadFailed`. In any case the device isn't marked as unread any more.
    fn read(&mut self, buffer: &mut [u8]) -> Result<usize, ReadFailed>
        ensures bound { IfOk result (λ n. n ≤ length buffer.new) }
        ensures bytes { IfOk result (λ n.
            Consumes (D.remaining self.old.inner) (D.remaining self.new.inner) (take n buffer.new)) }
        ensures end { IfOk result (λ n. n ≡ 0 → 0 < length buffer.new → IsAtEnd (D.remaining self.new.inner)) }
        ensures good { OnOk result (self.new.failures ≡ self.old.failures) }
        ensures ends { IfOk result (λ n. 0 < length buffer.new
            → self.new.ends ≡ ends_after n self.old.ends) }
        ensures unasked { length buffer.new ≡ 0 → self.new.ends ≡ self.old.ends }
        ensures none_lost { OnErr result (Consumes (D.remaining self.old.inner) (D.remaining self.new.inner) []) }
        ensures no_end { OnErr result (self.new.ends ≡ self.old.ends) }
        ensures counted { OnErr result (self.new.failures ≡ one_more self.old.failures) }
        ensures waits { self.new.may_wait ≡ self.old.may_wait }
        ensures unread { self.new.is_unread ≡ false }
    {
        self.is_unread = false;
        match self.inner.read(buffer) {
            Ok(0) if !buffer.is_empty() => {
                self.ends = self.ends.saturating_add(1);
                Ok(0)
            }
            Ok(count) => Ok(count),
            Err(_) => {
                self.failures = self.failures.saturating_add(1);
                Err(ReadFailed)
            }
        }
    }

    ghost gave_none = { λ s. Consumes-nil (D.remaining s.inner) };

    ghost gave_both = { λ a b c xs ys p q. Consumes-trans (D.remaining a.inner) (D.remaining b.inner) (D.remaining c.inner) xs ys p q };
}

impl<D: Write> Sink for Std<D> {
    ghost took = { λ a bytes b. Appends (D.contents a.inner) (D.contents b.inner) bytes };

    ghost failures = { λ s. s.failures };

    ghost is_flushed = { λ s. s.flushed ≡ true };

    ghost flushes = { λ s. s.flushes };

    ghost is_current = { λ s. s.flushed ≡ true };

    ghost is_awaited = { λ s. s.is_awaited };

    ghost is_broken = { λ s. s.is_broken };

    /// Writes by one call of the writer, and returns how many of `bytes` it took. Any error, also an
    /// interruption, or taking none of some bytes, is counted and returned as `WriteFailed`. Flushes nothing.
    fn write(&mut self, bytes: &[u8]) -> Result<usize, WriteFailed>
        ensures bound { IfOk result (λ n. n ≤ length bytes.now) }
        ensures bytes { IfOk result (λ n.
            Appends (D.contents self.old.inner) (D.contents self.new.inner) (take n bytes.now)) }
        ensures progress { IfOk result (λ n. 0 < length bytes.now → 0 < n) }
        ensures unflushed { self.new.flushed ≡ true → ⊥ }
        ensures unasked { self.new.flushes ≡ self.old.flushes }
        ensures good { OnOk result (self.new.failures ≡ self.old.failures) }
        ensures none_taken { OnErr result (Appends (D.contents self.old.inner) (D.contents self.new.inner) []) }
        ensures counted { OnErr result (self.new.failures ≡ one_more self.old.failures) }
        ensures awaited { self.new.is_awaited ≡ self.old.is_awaited }
        ensures unbroken { self.new.is_broken ≡ self.old.is_broken }
        ensures unread { self.new.is_unread ≡ false }
    {
        self.flushed = false;
        self.is_unread = false;
        match self.inner.write(bytes) {
            Ok(0) if !bytes.is_empty() => {
                self.failures = self.failures.saturating_add(1);
                Err(WriteFailed)
            }
            Ok(count) => Ok(count),
            Err(_) => {
                self.failures = self.failures.saturating_add(1);
                Err(WriteFailed)
            }
        }
    }

    /// Flushes the writer in any case, and counts the flush. Returns `WriteFailed`, and counts the failure,
    /// if that fails or a [`Sink::pass_on`] has failed before.
    fn flush(&mut self) -> Result<(), WriteFailed> {
        let flushed = self.inner.flush();
        if self.is_broken {
            return self.count_flush(Err(ErrorKind::BrokenPipe.into()));
        }
        self.count_flush(flushed)
    }

    /// Marks the output as awaited, for good, so that each later [`Sink::pass_on`] flushes the writer.
    /// Flushes nothing itself.
    fn await_output(&mut self) {
        self.is_awaited = true;
    }

    /// Flushes the writer if the output is awaited and bytes may be left that weren't passed on; this flush
    /// isn't counted. Returns `false` if it fails; from then on each call returns `false` without flushing,
    /// and each [`Sink::flush`] fails. Otherwise returns `true`.
    fn pass_on(&mut self) -> bool {
        if self.is_awaited && !self.flushed && !self.is_broken {
            self.flushed = self.inner.flush().is_ok();
            self.is_broken = !self.flushed;
        }
        !self.is_broken
    }

    ghost took_none = { λ s. Appends-nil (D.contents s.inner) };

    ghost took_both = { λ a b c xs ys p q. Appends-trans (D.contents a.inner) (D.contents b.inner) (D.contents c.inner) xs ys p q };
}
