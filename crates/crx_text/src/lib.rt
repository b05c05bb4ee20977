//! The texts of RINEX and Compact RINEX files: columns, differences of two texts position by position,
//! numbers in columns, and codes of numbers. Also exports lines and devices of crx_lines and faults.
#![tactic(auto)]

pub mod appending;
pub mod block;
pub mod code;
mod code_digits;
pub mod columns;
pub mod copies;
pub mod difference;
mod digits;
mod field;
mod field_text;
mod lanes;
pub mod laws;
pub mod number;
pub mod text;

pub use code::{
    Code, cell_length, code_before_blank, code_print, code_read, step_of_length, write_cell,
    write_difference,
};
pub use copies::{copy_text, put_blanks};
pub use crx_base::{At, Fault};
pub use crx_lines::{
    Line, LineReader, ReadFailed, Sink, Source, Std, WriteFailed, write_all_counted,
};
pub use difference::{
    BadCharacter, all_kept, append_difference, diff_text, patch_bytes, patch_text,
};
pub use number::{
    BadField, clock_print, clock_read, obs_print, obs_print_cell, obs_read, obs_read_cell,
};
pub use text::{Text, TextFull, trim_end};
