//! How far the reading of an input is.

use crx_base::At;

/// Whether an input may have more lines.
#[derive(Clone, Copy, Debug, PartialEq, Eq)]
pub enum Phase {
    /// More lines may follow.
    Open,
    /// The end was reported, and no line is pending.
    Ended,
    /// This fault is returned from now on.
    Stopped(At),
}
