//! A sink over memory that fails when its plans say so.
ghost use Rattle.std.specs.Prelude.{⊤, ◌≡◌, [], ◌++◌, ◌+◌, ◌-◌, ◌<◌, ◌≤◌, length, take, min, is_err, true, false, ◌||◌, IfOk, OnOk, OnErr};
ghost use Rattle.crx_devices.specs.Joining.{taken_both, taken_none};
ghost use Rattle.crx_lines.specs.meaning.Devices.{one_more};

use crate::plan::{Plan, Watch};
use crx_lines::{Sink, WriteFailed};
use std::alloc::{AllocError, Global};

/// A sink that takes bytes while it has room, and fails when its plans say so.
#[derive(Drop)]
pub struct FailingSink {
    memory: Vec<u8>,
    len: usize,
    at_most: usize,
    writes: Watch,
    flushes: Watch,
    failures: u64,
    flushed: bool,
    ghost within: { len ≤ length memory.items },
}

ghost use Rattle.crx_devices.specs.Plans.{after_call, fails, is_stuck, up_to_failure};

impl FailingSink {
    /// Returns a sink with room for `room` bytes, which takes at most `at_most` per call, and whose writes
    /// and flushes fail by these plans. A write also fails if it could take none of some bytes. It allocates
    /// its memory here and none later, and returns `AllocError` if that is refused.
    pub fn new(
        alloc: Global,
        room: usize,
        at_most: usize,
        writes: Plan,
        flushes: Plan,
    ) -> Result<Self, AllocError>
        ensures room { IfOk result (λ s. length s.memory.items ≡ room) }
        ensures len { IfOk result (λ s. s.len ≡ 0) }
        ensures at_most { IfOk result (λ s. s.at_most ≡ at_most) }
        ensures writes { IfOk result (λ s. s.writes.plan ≡ writes) }
        ensures no_write { IfOk result (λ s. s.writes.calls ≡ 0) }
        ensures no_struck_write { IfOk result (λ s. s.writes.struck ≡ false) }
        ensures flushes { IfOk result (λ s. s.flushes.plan ≡ flushes) }
        ensures no_flush { IfOk result (λ s. s.flushes.calls ≡ 0) }
        ensures no_struck_flush { IfOk result (λ s. s.flushes.struck ≡ false) }
        ensures failures { IfOk result (λ s. s.failures ≡ 0) }
        ensures flushed { IfOk result (λ s. s.flushed ≡ false) }
    {
        Ok(FailingSink {
            memory: vec![in alloc; 0; room]?,
            len: 0,
            at_most,
            writes: Watch::new(writes),
            flushes: Watch::new(flushes),
            failures: 0,
            flushed: false,
        })
    }

    /// Returns all bytes taken so far.
    pub fn contents(&self) -> &[u8]
        ensures value { result.now ≡ take self.now.len self.now.memory.items }
    {
        &self.memory[..self.len]
    }

    /// Returns how many writes were made, failed ones too.
    pub fn writes(&self) -> u64
        ensures value { result ≡ self.now.writes.calls }
    {
        self.writes.calls
    }

    /// Returns how many flushes were made, failed ones too.
    pub fn flushes(&self) -> u64
        ensures value { result ≡ self.now.flushes.calls }
    {
        self.flushes.calls
    }

    /// Returns how many writes and flushes failed.
    pub fn failures(&self) -> u64
        ensures value { result ≡ self.now.failures }
    {
        self.failures
    }

    /// Returns whether the last write or flush was a flush that succeeded; `false` before the first call.
    pub fn is_flushed(&self) -> bool
        ensures value { result ≡ self.now.flushed }
    {
        self.flushed
    }
}

impl Sink for FailingSink {
    ghost took = { λ a bytes b. take b.len b.memory.items ≡ take a.len a.memory.items ++ bytes };

    ghost failures = { λ s. s.failures };

    ghost is_flushed = { λ s. s.flushed ≡ true };

    ghost flushes = { λ s. s.flushes.calls };

    ghost is_current = { λ s. ⊤ };

    ghost is_awaited = { λ s. true };

    ghost is_broken = { λ s. false };

    /// Takes the first of `bytes`, as many as `at_most`, the room and the plan allow, and returns how many.
    /// Returns `WriteFailed`, and takes none, if the plan says so or if it could take none of some bytes.
    fn write(&mut self, bytes: &[u8]) -> Result<usize, WriteFailed>
        ensures bound { IfOk result (λ n. n ≤ length bytes.now) }
        ensures bytes { IfOk result (λ n. take self.new.len self.new.memory.items
            ≡ take self.old.len self.old.memory.items ++ take n bytes.now) }
        ensures progress { IfOk result (λ n. 0 < length bytes.now → 0 < n) }
        ensures unflushed { self.new.flushed ≡ true → ⊥ }
        ensures unasked { self.new.flushes.calls ≡ self.old.flushes.calls }
        ensures good { OnOk result (self.new.failures ≡ self.old.failures) }
        ensures none_taken { OnErr result
            (take self.new.len self.new.memory.items ≡ take self.old.len self.old.memory.items ++ []) }
        ensures counted { OnErr result (self.new.failures ≡ one_more self.old.failures) }
        ensures fails { is_err result ≡ (fails self.old.writes self.old.len
            || is_stuck (length bytes.now) self.old.at_most (length self.old.memory.items - self.old.len)) }
        ensures count { IfOk result (λ n. n ≡ up_to_failure self.old.writes self.old.len
            (min (min (length bytes.now) self.old.at_most) (length self.old.memory.items - self.old.len))) }
        ensures len { IfOk result (λ n. self.new.len ≡ self.old.len + n) }
        ensures writes { self.new.writes ≡ after_call self.old.writes self.old.len }
        ensures flushes { self.new.flushes ≡ self.old.flushes }
        ensures flushed { self.new.flushed ≡ false }
        ensures at_most { self.new.at_most ≡ self.old.at_most }
        ensures room { length self.new.memory.items ≡ length self.old.memory.items }
    {
        self.flushed = false;
        let room = self.memory.len() - self.len;
        let wanted = bytes.len().min(self.at_most).min(room);
        match self.writes.next_call(self.len, wanted) {
            Some(count) if count > 0 || bytes.is_empty() => {
                let end = self.len + count;
                self.memory[self.len..end].copy_from_slice(&bytes[..count]);
                self.len = end;
                Ok(count)
            }
            _ => {
                self.failures = self.failures.saturating_add(1);
                Err(WriteFailed)
            }
        }
    }

    /// Counts a flush, and returns `WriteFailed` if and only if the plan of flushes says so. Moves no bytes:
    /// those taken are in memory.
    fn flush(&mut self) -> Result<(), WriteFailed>
        ensures none_taken { take self.new.len self.new.memory.items
            ≡ take self.old.len self.old.memory.items ++ [] }
        ensures good { OnOk result (self.new.failures ≡ self.old.failures) }
        ensures flushed { OnOk result (self.new.flushed ≡ true) }
        ensures asked { self.new.flushes.calls ≡ one_more self.old.flushes.calls }
        ensures counted { OnErr result (self.new.failures ≡ one_more self.old.failures) }
        ensures not_flushed { OnErr result (self.new.flushed ≡ false) }
        ensures fails { is_err result ≡ fails self.old.flushes self.old.len }
        ensures flushes { self.new.flushes ≡ after_call self.old.flushes self.old.len }
        ensures writes { self.new.writes ≡ self.old.writes }
        ensures at_most { self.new.at_most ≡ self.old.at_most }
        ensures room { length self.new.memory.items ≡ length self.old.memory.items }
    {
        self.flushed = self.flushes.next_call(self.len, 0).is_some();
        if !self.flushed {
            self.failures = self.failures.saturating_add(1);
            return Err(WriteFailed);
        }
        Ok(())
    }

    /// Does nothing: the output counts as awaited from the beginning.
    fn await_output(&mut self) {}

    /// Does nothing, and returns `true`: the bytes taken are in memory already. It follows no plan.
    fn pass_on(&mut self) -> bool {
        true
    }

    ghost took_none = { λ s. taken_none (take s.len s.memory.items) };

    ghost took_both = { λ a b c xs ys p q. taken_both (take a.len a.memory.items) (take b.len b.memory.items) (take c.len c.memory.items) xs ys p q };
}
