//! The command line: from the program's arguments to a decision.
#![tactic(auto)]

pub mod command;
pub mod date;
pub mod job;
pub mod names;
pub mod plan;
pub mod word;
