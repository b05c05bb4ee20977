//! The outcome of a run.

use crx_base::At;

/// The exit status of a run and the fault that ended it.
#[derive(Clone, Copy, Debug, PartialEq, Eq)]
pub struct Outcome {
    /// 0: no message; 1: a fault ended the run; 2: only warnings, or a check found the file not standard.
    pub status: u8,
    /// The fault that ended the run, if one did.
    pub fault: Option<At>,
}
