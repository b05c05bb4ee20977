//! Whole runs of the program over a machine that the caller passes, and messages of runs without a filter.
#![tactic(auto)]

pub mod late_writer;
pub mod log;
pub mod program;
pub mod refusal;
pub mod streams;
