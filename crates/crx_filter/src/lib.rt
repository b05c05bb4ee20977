//! The meaning of files, unit by unit, and the filters and the check that follow it: readers of RINEX and of
//! compact text, engines that take lines, and whole runs from a reader to a writer and messages.
#![tactic(auto)]

pub mod checking;
mod checks;
mod compact_reader;
pub mod compaction;
pub mod direction;
pub mod engine;
pub mod expansion;
mod filters;
pub mod laws;
pub mod lender;
pub mod report;
pub mod rinex_reader;
pub mod stage;
pub mod totals;
pub mod types_lines;

pub use checks::check;
pub use compaction::Compactor;
pub use crx_base::{BadDate, Options};
pub use crx_runs::{Outcome, Step, UntilFailure};
pub use expansion::Expander;
pub use filters::{compact, expand};
