//! The parts of RINEX 3.0x that need no numbers of observations: header lines with their labels and the
//! observation types that they declare, numbers and identifiers in a line's columns, an epoch line's flag and
//! count, and satellites by their identifiers.
#![tactic(auto)]

pub mod cells;
pub mod columns;
pub mod crinex;
pub mod epoch_columns;
pub mod header;
pub mod identifiers;
pub mod labels;
pub mod satellites;
pub mod types;

pub use cells::put_flags;
pub use columns::{
    after_columns, all_blank, identifier, is_labelled, is_same_identifier, padded, put_identifier,
};
pub use epoch_columns::{begins_epoch, is_event_line};
pub use header::{header_first, is_end};
pub use identifiers::Identifiers;
pub use satellites::types_of_satellite;
pub use types::{Types, is_types};
