//! The reason why the run of a handle ended early.

use crx_base::At;

/// Why a run ended early.
#[derive(Clone, Copy, Debug, PartialEq, Eq)]
pub enum Stop {
    /// A fault of the input, or refused memory.
    Fault(At),
    /// The output would be longer than its limit.
    Limit,
}
