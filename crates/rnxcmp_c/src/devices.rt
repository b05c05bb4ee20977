//! The devices of a run over memory: the source of the caller's input, and sinks for the output and the
//! messages.

ghost use Rattle.std.specs.Prelude.{⊤, ◌≡◌, ◌≢◌, ◌<◌, ◌≤◌, ◌+◌, ◌-◌, ◌++◌, ℕ, [], Ok, Some, false, length, min, take, true, vec_capacity, IfOk, OnErr, OnOk};
ghost use Rattle.crx_lines.specs.meaning.Devices.{ends_after, one_more};
ghost use Rattle.std.proofs.KnownBytes.{Consumes-nil, Consumes-trans};

use crx_lines::{ReadFailed, Sink, Source, WriteFailed};
use std::alloc::Global;

/// A source of bytes in memory. It never fails.
#[derive(Drop)]
pub struct Given<'a> {
    left: &'a [u8],
    ends: u64,
}

impl<'a> Given<'a> {
    /// Returns a source of these bytes.
    pub(crate) fn new(bytes: &'a [u8]) -> Self
        ensures { result.left.now ≡ bytes.now }
    {
        Given {
            left: bytes,
            ends: 0,
        }
    }
}

impl Source for Given<'_> {
    ghost gave = { λ a bytes b. a.left.now ≡ bytes ++ b.left.now };

    ghost at_end = { λ s. s.left.now ≡ [] };

    ghost failures = { λ s. 0 };

    ghost ends = { λ s. s.ends };

    ghost waits = { λ s. true };

    /// Returns `true`, which is always allowed; a read never waits.
    fn may_wait(&self) -> bool {
        true
    }

    /// Copies the next bytes to the front of `buffer` and returns how many, 0 at the end. Never fails.
    fn read(&mut self, buffer: &mut [u8]) -> Result<usize, ReadFailed>
        ensures all { result ≡ Ok (min (length buffer.new) (length self.old.left.now)) }
        ensures bound { IfOk result (λ n. n ≤ length buffer.new) }
        ensures bytes { IfOk result (λ n. self.old.left.now ≡ take n buffer.new ++ self.new.left.now) }
        ensures end { IfOk result (λ n. n ≡ 0 → 0 < length buffer.new → self.new.left.now ≡ []) }
        ensures ends { IfOk result (λ n. 0 < length buffer.new → self.new.ends ≡ ends_after n self.old.ends) }
        ensures good { let none : ℕ = 0 in OnOk result (none ≡ none) }
        ensures unasked { length buffer.new ≡ 0 → self.new.ends ≡ self.old.ends }
        ensures none_lost { OnErr result (self.old.left.now ≡ [] ++ self.new.left.now) }
        ensures no_end { OnErr result (self.new.ends ≡ self.old.ends) }
        ensures counted { let none : ℕ = 0 in OnErr result (none ≡ one_more none) }
    {
        let count = buffer.len().min(self.left.len());
        buffer[..count].copy_from_slice(&self.left[..count]);
        self.left = &self.left[count..];
        if count == 0 && !buffer.is_empty() {
            self.ends = self.ends.saturating_add(1);
        }
        Ok(count)
    }

    ghost gave_none = { λ s. Consumes-nil (Some s.left.now) };

    ghost gave_both = { λ a b c xs ys p q. Consumes-trans (Some a.left.now) (Some b.left.now) (Some c.left.now) xs ys p q };
}

/// A sink that keeps the first bytes, as far as there is room, and counts all. A write fails if memory is
/// refused, or if no more bytes may be taken.
#[derive(Drop)]
pub struct Counted {
    /// The bytes kept.
    pub(crate) bytes: Vec<u8>,
    /// The most bytes to keep.
    room: usize,
    /// How many bytes were taken.
    pub(crate) count: usize,
    /// The most bytes to take.
    most: usize,
    /// How many writes failed.
    pub(crate) failures: u64,
    flushes: u64,
    flushed: bool,
    /// Whether memory was refused.
    lost: bool,
    ghost fits: { length bytes.items ≤ room },
    ghost within: { count ≤ most },
    ghost full: { failures ≢ 0 → lost ≡ false → count ≡ most },
    ghost refused: { lost ≡ true → vec_capacity bytes < room },
}

impl Counted {
    ghost use Rattle.rnxcmp_c.specs.Collecting.{IsEmpty, taken_of};
    ghost use Rattle.rnxcmp_c.specs.Counting.{Took};

    /// Returns an empty sink that keeps up to `room` bytes of a text of at most `limit` bytes; 0: no limit.
    /// It takes one byte more than `limit`, so that a longer text is noticed.
    pub(crate) fn new(alloc: Global, room: usize, limit: u64) -> Self
        ensures { IsEmpty room (taken_of limit) result }
    {
        let unlimited = limit == 0 || limit == u64::MAX;
        Counted {
            bytes: Vec::new(alloc),
            room,
            count: 0,
            most: if unlimited {
                usize::MAX
            } else {
                limit as usize + 1
            },
            failures: 0,
            flushes: 0,
            flushed: false,
            lost: false,
        }
    }
}

impl Sink for Counted {
    ghost use Rattle.rnxcmp_c.specs.Counting.{CannotTake, Took, took-none, took-both};

    ghost took = { Took };

    ghost failures = { λ s. s.failures };

    ghost is_flushed = { λ s. s.flushed ≡ true };

    ghost flushes = { λ s. s.flushes };

    ghost is_current = { λ s. ⊤ };

    ghost is_awaited = { λ s. true };

    ghost is_broken = { λ s. false };

    /// Takes and counts the first of `bytes`, and returns how many. Returns `WriteFailed`, and takes none, if
    /// no more may be taken, or once memory was refused.
    fn write(&mut self, bytes: &[u8]) -> Result<usize, WriteFailed>
        ensures all { IfOk result (λ n. n ≡ min (length bytes.now) (self.old.most - self.old.count)) }
        ensures asked { OnErr result (CannotTake self.old (length bytes.now)) }
        ensures bound { IfOk result (λ n. n ≤ length bytes.now) }
        ensures bytes { IfOk result (λ n. Took self.old (take n bytes.now) self.new) }
        ensures progress { IfOk result (λ n. 0 < length bytes.now → 0 < n) }
        ensures unflushed { self.new.flushed ≡ true → ⊥ }
        ensures unasked { self.new.flushes ≡ self.old.flushes }
        ensures good { OnOk result (self.new.failures ≡ self.old.failures) }
        ensures none_taken { OnErr result (Took self.old [] self.new) }
        ensures counted { OnErr result (self.new.failures ≡ one_more self.old.failures) }
    {
        self.flushed = false;
        let some = bytes.len().min(self.most - self.count);
        if some > 0 || bytes.is_empty() {
            let kept = some.min(self.room - self.bytes.len());
            // After memory was refused nothing more is kept, because the bytes kept are the first ones.
            if !self.lost && self.bytes.reserve(kept).is_ok() {
                match self.bytes.extend_from_slice(&bytes[..kept]) {
                    Ok(()) => {}
                    Err(_) => unreachable!(),
                }
                self.count += some;
                return Ok(some);
            }
            self.lost = true;
        }
        self.failures = self.failures.saturating_add(1);
        Err(WriteFailed)
    }

    /// Counts the flush. Never fails.
    fn flush(&mut self) -> Result<(), WriteFailed> {
        self.flushed = true;
        self.flushes = self.flushes.saturating_add(1);
        Ok(())
    }

    /// Does nothing: the text stays in memory, where the caller gets it.
    fn await_output(&mut self) {}

    /// Returns `true`: nothing has to be passed on.
    fn pass_on(&mut self) -> bool {
        true
    }

    ghost took_none = { took-none };

    ghost took_both = { took-both };
}
