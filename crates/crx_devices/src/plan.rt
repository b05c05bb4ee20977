//! When the calls of one kind fail: the reads, the writes or the flushes of a device.
ghost use Rattle.std.specs.Prelude.{◌≡◌, false, is_none, IfSome};

/// The point from which a call fails.
#[derive(Clone, Copy, Debug, PartialEq, Eq)]
pub enum When {
    /// No call fails.
    Never,
    /// After this number of calls of its kind: 0 is the first one.
    AfterCalls(u64),
    /// After the device read or took this number of bytes.
    AfterBytes(usize),
}

/// When the calls of one kind fail, and whether only one does.
#[derive(Clone, Copy, Debug, PartialEq, Eq)]
pub struct Plan {
    /// The point from which a call fails.
    pub when: When,
    /// Whether only the first call from that point on fails, or each one.
    pub once: bool,
}

impl Plan {
    /// Returns the plan by which no call fails.
    pub fn never() -> Self
        ensures when { result.when ≡ When.Never }
    {
        Plan {
            when: When::Never,
            once: false,
        }
    }

    /// Returns the plan by which only the first call from the point `when` on fails.
    pub fn once(when: When) -> Self
        ensures when { result.when ≡ when }
        ensures once { result.once ≡ true }
    {
        Plan { when, once: true }
    }

    /// Returns the plan by which each call from the point `when` on fails.
    pub fn from_then_on(when: When) -> Self
        ensures when { result.when ≡ when }
        ensures once { result.once ≡ false }
    {
        Plan { when, once: false }
    }
}

/// A plan, and its state so far.
#[derive(Clone, Copy, Debug, PartialEq, Eq)]
pub struct Watch {
    /// When a call fails.
    pub plan: Plan,
    /// How many calls were made; the count stops at the greatest value of 64 bits.
    pub calls: u64,
    /// Whether a call failed by this plan.
    pub struck: bool,
}

ghost use Rattle.std.specs.Prelude.{true};
ghost use Rattle.crx_devices.specs.declared.plan.When.{When};
ghost use Rattle.crx_devices.specs.Plans.{after_call, fails, up_to_failure};

impl Watch {
    /// Returns the state of `plan` before the first call of its kind: none was made, and none failed.
    pub fn new(plan: Plan) -> Self
        ensures plan { result.plan ≡ plan }
        ensures calls { result.calls ≡ 0 }
        ensures struck { result.struck ≡ false }
    {
        Watch {
            plan,
            calls: 0,
            struck: false,
        }
    }

    /// Counts a call on a device that has read or taken `moved` bytes so far. Returns `None` if the call
    /// fails, otherwise how many of the `wanted` bytes are read or taken: all, or only those before the
    /// plan's `AfterBytes`. After the failure of a plan that fails only `once`, all.
    pub fn next_call(&mut self, moved: usize, wanted: usize) -> Option<usize>
        ensures fails { is_none result ≡ fails self.old moved }
        ensures count { IfSome result (λ n. n ≡ up_to_failure self.old moved wanted) }
        ensures counted { self.new ≡ after_call self.old moved }
    {
        let stands = !(self.plan.once && self.struck);
        let due = match self.plan.when {
            When::Never => false,
            When::AfterCalls(count) => count <= self.calls,
            When::AfterBytes(count) => count <= moved,
        };
        self.calls = self.calls.saturating_add(1);
        if stands && due {
            self.struck = true;
            return None;
        }
        match self.plan.when {
            When::AfterBytes(count) if stands => Some(wanted.min(count - moved)),
            _ => Some(wanted),
        }
    }
}
