//! `rnxcmp`: RINEX 3.0x observation files and Compact RINEX 3.0.
#![tactic(auto)]

pub mod host;

pub use crx_command::date::{date_text, default_date};
pub use crx_command::job::{Decision, Job, Tool, UsageFault};
pub use crx_command::plan::plan;
pub use crx_command::word::Word;
pub use crx_program::program::run;
use std::process::ExitCode;

/// Runs the program over the standard streams and exits with its status.
fn main(rt: HostRuntime) -> ExitCode {
    host::run_host(&rt)
}
