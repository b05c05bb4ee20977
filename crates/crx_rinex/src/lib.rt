//! RINEX 3.0x observation files: epoch lines and satellite lines, read and printed. The header lines,
//! observation types, identifiers, flags and counts of crx_header are exported here too.
#![tactic(auto)]

pub mod epoch;
pub mod epoch_line;
pub mod laws;
pub mod printed;
pub mod printed_form;
pub mod row_buffer;
pub mod rows_so_far;
pub mod satellite_row;

pub use crx_header::{
    Types, after_columns, all_blank, begins_epoch, header_first, identifier, is_end, is_event_line,
    is_labelled, is_same_identifier, is_types, padded, put_flags, put_identifier,
    types_of_satellite,
};
pub use epoch::Epoch;
pub use epoch_line::{EpochLine, Head};
pub use printed::{Printed, print_head};
pub use printed_form::has_printed_form;
pub use row_buffer::RowBuffer;
pub use rows_so_far::RowsSoFar;
pub use satellite_row::SatRow;
