//! The run of any engine, from a reader of lines to a writer and its messages.
#![tactic(auto)]

pub mod engine;
pub mod finish;
pub mod message;
pub mod one_line;
pub mod outcome;
mod ready_lines;
pub mod start;
pub mod stepwise;
pub mod until_failure;

pub use engine::{Engine, LineOutput, Step};
pub use outcome::Outcome;
pub use stepwise::{Run, StepOutcome};
pub use until_failure::UntilFailure;
