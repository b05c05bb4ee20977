//! A coded epoch and its compact lines.

ghost use Rattle.std.specs.Prelude.{◌≡◌, drop, slice_get};
ghost use Rattle.std.specs.Borrow.{sem};
ghost use Rattle.std.specs.Io.BufRead.{Rests};
ghost use Rattle.std.specs.Option.{option_copied};
ghost use Rattle.crx_compact.specs.contracts.coded.Coded.{the_row};

use crate::block::Block;
use crx_rinex::Epoch;
use std::marker::Model;

/// An epoch and its pending compact lines: the epoch line, the clock line, and a line for each satellite.
#[derive(Drop)]
pub struct Coded {
    pub(crate) epoch: Epoch,
    pub(crate) lines: Block,
}

impl Model for Coded {
    ghost use Rattle.crx_compact.specs.Coded.{CodedEpoch};

    ghost Value = { CodedEpoch };

    ghost view = { λ coded. record { epoch = coded.epoch; lines = coded.lines.lines } };
}

impl Coded {
    /// Borrows the next pending line, without LF, and removes it; returns `None` if none is pending.
    pub fn next_line(&mut self) -> Option<&[u8]>
        ensures value { option_copied result ≡ slice_get self.old.lines 0 }
        ensures* after_borrow { sem 𝓛 (Rests the_row self.entry
            (λ new. new ≡ record self.old { lines = drop 1 self.old.lines })) }
    {
        self.lines.next_line()
    }

    /// Returns the epoch and drops its lines.
    pub fn into_epoch(self) -> Epoch
        ensures epoch { result ≡ self.epoch }
    {
        self.epoch
    }
}
