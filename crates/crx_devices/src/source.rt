//! A source over memory that fails when its plan says so.
ghost use Rattle.std.specs.Prelude.{◌≡◌, [], ◌++◌, ◌+◌, ◌^◌, ◌-◌, ◌<◌, ◌≤◌, length, take, min, is_err, true, IfOk, OnOk, OnErr};
ghost use Rattle.crx_devices.specs.Joining.{given_both};
ghost use Rattle.crx_lines.specs.meaning.Devices.{ends_after, one_more};

use crate::plan::{Plan, Watch};
use crx_lines::{ReadFailed, Source};

/// A source of the bytes that it was made with, which fails when its plan says so.
#[derive(Drop)]
pub struct FailingSource<'a> {
    left: &'a [u8],
    at_most: usize,
    given: usize,
    reads: Watch,
    failures: u64,
    ends: u64,
    ghost gives: { 0 < at_most },
}

impl<'a> FailingSource<'a> {
    /// Returns a source of `bytes` whose reads fail by `plan`, and otherwise return at most `at_most` bytes.
    /// `at_most` has to be at least 1.
    pub fn new(bytes: &'a [u8], at_most: usize, plan: Plan) -> Self
        requires { 0 < at_most }
        ensures left { result.left.now ≡ bytes.now }
        ensures at_most { result.at_most ≡ at_most }
        ensures given { result.given ≡ 0 }
        ensures plan { result.reads.plan ≡ plan }
        ensures calls { result.reads.calls ≡ 0 }
        ensures struck { result.reads.struck ≡ false }
        ensures failures { result.failures ≡ 0 }
        ensures ends { result.ends ≡ 0 }
    {
        FailingSource {
            left: bytes,
            at_most,
            given: 0,
            reads: Watch::new(plan),
            failures: 0,
            ends: 0,
        }
    }

    /// Returns how many reads were made, failed ones too.
    pub fn calls(&self) -> u64
        ensures value { result ≡ self.now.reads.calls }
    {
        self.reads.calls
    }

    /// Returns how many reads failed.
    pub fn failures(&self) -> u64
        ensures value { result ≡ self.now.failures }
    {
        self.failures
    }

    /// Returns how many reads reported the end; a read into an empty buffer never does.
    pub fn ends(&self) -> u64
        ensures value { result ≡ self.now.ends }
    {
        self.ends
    }

    /// Returns the bytes that haven't been read yet.
    pub fn left(&self) -> &'a [u8]
        ensures value { result.now ≡ self.now.left.now }
    {
        self.left
    }
}

ghost use Rattle.std.specs.Prelude.{false};
ghost use Rattle.crx_devices.specs.Plans.{after_call, fails, up_to_failure};

impl Source for FailingSource<'_> {
    ghost gave = { λ a bytes b. a.left.now ≡ bytes ++ b.left.now };

    ghost at_end = { λ s. s.left.now ≡ [] };

    ghost failures = { λ s. s.failures };

    ghost ends = { λ s. s.ends };

    ghost waits = { λ s. true };

    /// Returns `true` always, although no read waits.
    fn may_wait(&self) -> bool {
        true
    }

    /// Reads the next bytes into the front of `buffer`, as many as it, `at_most` and the plan allow, and
    /// returns how many: 0 only if none is left or `buffer` is empty. Returns `ReadFailed`, without a byte,
    /// if and only if the plan says so.
    fn read(&mut self, buffer: &mut [u8]) -> Result<usize, ReadFailed>
        ensures bound { IfOk result (λ n. n ≤ length buffer.new) }
        ensures bytes { IfOk result (λ n. self.old.left.now ≡ take n buffer.new ++ self.new.left.now) }
        ensures end { IfOk result (λ n. n ≡ 0 → 0 < length buffer.new → self.new.left.now ≡ []) }
        ensures good { OnOk result (self.new.failures ≡ self.old.failures) }
        ensures ends { IfOk result (λ n. 0 < length buffer.new → self.new.ends ≡ ends_after n self.old.ends) }
        ensures unasked { length buffer.new ≡ 0 → self.new.ends ≡ self.old.ends }
        ensures none_lost { OnErr result (self.old.left.now ≡ [] ++ self.new.left.now) }
        ensures no_end { OnErr result (self.new.ends ≡ self.old.ends) }
        ensures counted { OnErr result (self.new.failures ≡ one_more self.old.failures) }
        ensures fails { is_err result ≡ fails self.old.reads self.old.given }
        ensures count { IfOk result (λ n. n ≡ up_to_failure self.old.reads self.old.given
            (min (min (length buffer.new) self.old.at_most) (length self.old.left.now))) }
        ensures reads { self.new.reads ≡ after_call self.old.reads self.old.given }
        ensures given { IfOk result (λ n. self.new.given ≡ min (self.old.given + n) (2 ^ 64 - 1)) }
        ensures none_given { OnErr result (self.new.given ≡ self.old.given) }
        ensures at_most { self.new.at_most ≡ self.old.at_most }
    {
        let wanted = buffer.len().min(self.at_most).min(self.left.len());
        let Some(count) = self.reads.next_call(self.given, wanted) else {
            self.failures = self.failures.saturating_add(1);
            return Err(ReadFailed);
        };
        buffer[..count].copy_from_slice(&self.left[..count]);
        self.left = &self.left[count..];
        self.given = self.given.saturating_add(count);
        if count == 0 && !buffer.is_empty() {
            self.ends = self.ends.saturating_add(1);
        }
        Ok(count)
    }

    ghost gave_none = { λ s i. s.left.now };

    ghost gave_both = { λ a b c xs ys p q. given_both a.left.now b.left.now c.left.now xs ys p q };
}
