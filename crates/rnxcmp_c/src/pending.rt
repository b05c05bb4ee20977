//! A text that the caller of a handle takes piece by piece.

ghost use Rattle.std.specs.Prelude.{⊤, ◌≡◌, ◌<◌, ◌≤◌, ◌+◌, ◌++◌, [], Some, drop, false, length, take, true, IfOk, OnErr, OnOk};
ghost use Rattle.std.proofs.KnownBytes.{Appends-nil, Appends-trans};
ghost use Rattle.crx_lines.specs.meaning.Devices.{one_more};
ghost use Rattle.rnxcmp_c.specs.declared.limits.TheConstants.{WAITING_LIMIT};
ghost use Rattle.rnxcmp_c.specs.meaning.Answers.{placed};

use crate::answer::place;
use crate::limits::WAITING_LIMIT;
use crx_lines::{Sink, WriteFailed};
use std::alloc::Global;

/// A text whose first bytes may have been taken already. At most half of the buffer is such bytes, so moving
/// the rest to the front costs no more than taking did.
#[derive(Drop)]
pub struct Pending {
    bytes: Vec<u8>,
    /// How many bytes of the buffer were taken.
    passed: usize,
    failures: u64,
    flushes: u64,
    flushed: bool,
    ghost half: { passed + passed ≤ length bytes.items },
    ghost bounded: { length bytes.items ≤ passed + WAITING_LIMIT },
}

impl Pending {
    ghost use Rattle.rnxcmp_c.specs.Waiting.{CountsAlike, IsTextRefused, handed_with, waiting};

    /// Returns an empty text.
    pub(crate) fn new(alloc: Global) -> Pending
        ensures none { waiting result ≡ [] }
        ensures unfailed { result.failures ≡ 0 }
    {
        Pending {
            bytes: Vec::new(alloc),
            passed: 0,
            failures: 0,
            flushes: 0,
            flushed: false,
        }
    }

    /// Returns how many bytes wait to be taken.
    pub(crate) fn count(&self) -> usize
        ensures { result ≡ length (waiting self.now) }
    {
        self.bytes.len() - self.passed
    }

    /// Appends `text` and returns `true`. Returns `false`, and appends nothing, if memory for it is refused
    /// or more than [`WAITING_LIMIT`] bytes would wait.
    pub(crate) fn add(&mut self, text: &[u8]) -> bool
        ensures taken { result ≡ true → waiting self.new ≡ waiting self.old ++ text.now }
        ensures unchanged { result ≡ false → waiting self.new ≡ waiting self.old }
        ensures refused { result ≡ false → IsTextRefused self.old (length text.now) }
        ensures counts { CountsAlike self.old self.new }
    {
        if WAITING_LIMIT - self.count() < text.len() {
            return false;
        }
        self.bytes.extend_from_slice(text).is_ok()
    }

    /// Moves the first waiting bytes to the front of `room`, as far as they fit; its rest doesn't change.
    pub(crate) fn move_out(&mut self, room: &mut [u8])
        ensures room { room.new ≡ placed (waiting self.old) room.old }
        ensures left { waiting self.new ≡ drop (length room.old) (waiting self.old) }
        ensures counts { CountsAlike self.old self.new }
        // The waiting bytes are moved only if more than half of the buffer was taken.
        ensures unmoved { handed_with self.old (length room.old) + handed_with self.old (length room.old)
            ≤ length self.old.bytes.items → self.new.bytes.items ≡ self.old.bytes.items }
    {
        let passed = self.passed;
        place(&self.bytes[passed..], room);
        let handed = passed + self.count().min(room.len());
        let left = self.bytes.len() - handed;
        if handed <= left {
            self.passed = handed;
            return;
        }
        self.bytes.copy_within(handed.., 0);
        self.bytes.truncate(left);
        self.passed = 0;
    }

    /// Keeps the first `count` waiting bytes, and drops the rest. At least `count` bytes wait.
    pub(crate) fn cut(&mut self, count: usize)
        requires { count ≤ length (waiting self.old) }
        ensures first { waiting self.new ≡ take count (waiting self.old) }
        ensures counts { CountsAlike self.old self.new }
    {
        let passed = self.passed;
        self.bytes.copy_within(passed..passed + count, 0);
        self.bytes.truncate(count);
        self.passed = 0;
    }
}

impl Sink for Pending {
    ghost use Rattle.rnxcmp_c.specs.Waiting.{IsTextRefused, waiting};

    ghost took = { λ a bytes b. waiting b ≡ waiting a ++ bytes };

    ghost failures = { λ s. s.failures };

    ghost is_flushed = { λ s. s.flushed ≡ true };

    ghost flushes = { λ s. s.flushes };

    ghost is_current = { λ s. ⊤ };

    ghost is_awaited = { λ s. true };

    ghost is_broken = { λ s. false };

    /// Appends all bytes. Returns `WriteFailed`, and appends none, if [`Pending::add`] refuses them.
    fn write(&mut self, bytes: &[u8]) -> Result<usize, WriteFailed>
        ensures all { IfOk result (λ n. n ≡ length bytes.now) }
        ensures taken { OnOk result (waiting self.new ≡ waiting self.old ++ bytes.now) }
        ensures good { OnOk result (self.new.failures ≡ self.old.failures) }
        ensures unchanged { OnErr result (waiting self.new ≡ waiting self.old) }
        ensures refused { OnErr result (IsTextRefused self.old (length bytes.now)) }
        ensures counted { OnErr result (self.new.failures ≡ one_more self.old.failures) }
        ensures unflushed { self.new.flushed ≡ false }
        ensures unasked { self.new.flushes ≡ self.old.flushes }
    {
        self.flushed = false;
        if self.add(bytes) {
            return Ok(bytes.len());
        }
        self.failures = self.failures.saturating_add(1);
        Err(WriteFailed)
    }

    /// Counts the flush. Never fails.
    fn flush(&mut self) -> Result<(), WriteFailed> {
        self.flushed = true;
        self.flushes = self.flushes.saturating_add(1);
        Ok(())
    }

    /// Does nothing: the text stays in memory, where the caller gets it.
    fn await_output(&mut self) {}

    /// Returns `true`: nothing has to be passed on.
    fn pass_on(&mut self) -> bool {
        true
    }

    ghost took_none = { λ s. Appends-nil (Some (waiting s)) };

    ghost took_both = { λ a b c xs ys p q. Appends-trans (Some (waiting a)) (Some (waiting b)) (Some (waiting c)) xs ys p q };
}
