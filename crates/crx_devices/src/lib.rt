//! Devices over memory that fail only when their plans say so: for tests of failing readers and writers.
#![tactic(auto)]

pub mod plan;
pub mod sink;
pub mod source;

pub use plan::{Plan, When};
pub use sink::FailingSink;
pub use source::FailingSource;
