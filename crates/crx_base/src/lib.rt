//! The base of every other crate: the faults that a message can name, the limits of the formats, the lines of
//! an input, and the user's choices for a run.
#![tactic(auto)]

pub mod fault;
pub mod laws;
pub mod limits;
pub mod memory;
pub mod options;
pub mod padded;

pub use fault::{At, Fault};
pub use memory::Refused;
pub use options::{BadDate, Options};
pub use padded::{PADDING, Padded, PaddedCopy};
