//! The counts of a check.

ghost use Rattle.std.specs.Prelude.{◌*◌, ◌≤◌};
ghost use Rattle.crx_base.specs.declared.limits.TheConstants.{SATELLITES_LIMIT, TYPES_LIMIT};

use crx_base::limits::VERSION_WIDTH;

/// The counts of a check, and the version of the file.
#[derive(Drop)]
pub struct Totals {
    /// Columns 1 to 9 of the first header line; blanks before it is read.
    pub version: [u8; VERSION_WIDTH],
    /// The number of accepted observation epochs.
    pub epochs: u64,
    /// The number of accepted events.
    pub events: u64,
    /// The number of accepted observations.
    pub observations: u64,
    ghost bounded: { observations ≤ SATELLITES_LIMIT * TYPES_LIMIT * epochs },
}
