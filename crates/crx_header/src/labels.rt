//! The labels of header lines, in columns 61 to 80 (RINEX 3.05, table A2). Code and definitions cite only
//! these.

/// The label of the first line of a header.
pub const VERSION_LABEL: [u8; 20] = *b"RINEX VERSION / TYPE";

/// The label of a line of observation types.
pub const TYPES_LABEL: [u8; 19] = *b"SYS / # / OBS TYPES";

/// The label of the last line of a header.
pub const END_LABEL: [u8; 13] = *b"END OF HEADER";
