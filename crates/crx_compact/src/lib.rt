//! Compact RINEX both ways: arcs and the cells of a satellite line, the history by which each epoch is
//! coded or read, the pending lines of both directions, and the laws that join them. The compact text of
//! epochs and its meaning are defined here.
#![tactic(auto)]

pub mod arc;
pub mod block;
pub mod cells;
pub mod coded;
pub mod columns;
pub mod encoder;
mod ghost_tail;
mod history;
pub mod laws;
pub mod same;
mod satellite;
mod satellites;

pub use arc::{ClockArc, ObsArc};
pub use block::Block;
pub use coded::Coded;
pub use columns::Columns;
pub use encoder::Encoder;
