//! The state of a run between two calls, except its engine.

use crate::limits::READY_LIMIT;
use crate::pending::Pending;
use crate::piece::Piece;
use crx_base::memory::try_box;
use crx_base::{PaddedCopy, Refused};
use std::alloc::Global;

/// The state of a run between two calls.
#[derive(Drop)]
pub struct HandleState {
    /// The bytes after the last LF, as far as they are kept.
    pub(crate) tail: Piece,
    /// A copy of a line, followed by a blank and more bytes, because fed bytes have nothing after them.
    pub(crate) copy: Box<PaddedCopy>,
    /// The number of the last line taken, 0 before the first.
    pub(crate) number: u64,
    /// Whether a warning was reported.
    pub(crate) warned: bool,
    /// The most bytes of output; 0: no limit.
    pub(crate) limit: u64,
    /// How many bytes the output may still have.
    pub(crate) left: u64,
    /// The output that waits to be taken.
    pub(crate) output: Pending,
    /// The messages that wait to be taken.
    pub(crate) messages: Pending,
}

/// The lengths of both waiting texts at some moment.
#[derive(Clone, Copy)]
pub(crate) struct Mark {
    /// The length of the output.
    pub(crate) output: usize,
    /// The length of the messages.
    pub(crate) messages: usize,
}

impl HandleState {
    ghost use Rattle.std.specs.Prelude.{◌≡◌, ◌<◌, ◌≤◌, false, true, IfOk};
    ghost use Rattle.rnxcmp_c.specs.Holding.{AreCutTo, HoldsNothing, IsMark, IsMarkWithin, ready_in};
    ghost use Rattle.rnxcmp_c.specs.declared.limits.TheConstants.{READY_LIMIT};

    /// Returns the state before the first byte, or `Refused` if memory is refused. `limit`: the most bytes of
    /// output (0: no limit).
    pub(crate) fn new(alloc: Global, limit: u64) -> Result<HandleState, Refused>
        ensures { IfOk result (HoldsNothing limit) }
    {
        let tail = Piece::new(alloc)?;
        let copy = try_box(alloc, PaddedCopy::new())?;
        Ok(HandleState {
            tail,
            copy,
            number: 0,
            warned: false,
            limit,
            left: limit,
            output: Pending::new(alloc),
            messages: Pending::new(alloc),
        })
    }

    /// Returns whether fewer than `READY_LIMIT` bytes wait, so that a line may be taken.
    pub(crate) fn is_low(&self) -> bool
        ensures low { result ≡ true → ready_in self.now < READY_LIMIT }
        ensures high { result ≡ false → READY_LIMIT ≤ ready_in self.now }
    {
        let (output, messages) = (self.output.count(), self.messages.count());
        output < READY_LIMIT && messages < READY_LIMIT - output
    }

    /// Returns the lengths of both waiting texts.
    pub(crate) fn mark(&self) -> Mark
        ensures { IsMark result self.now }
    {
        Mark {
            output: self.output.count(),
            messages: self.messages.count(),
        }
    }

    /// Drops everything that was added to both texts after `mark`; nothing may have been taken since.
    pub(crate) fn cut_back(&mut self, mark: Mark)
        requires { IsMarkWithin mark self.old }
        ensures { AreCutTo mark self.old self.new }
    {
        self.output.cut(mark.output);
        self.messages.cut(mark.messages);
    }
}
