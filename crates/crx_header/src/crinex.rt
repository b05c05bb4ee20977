//! The texts of the two lines that compact text begins with. Code and definitions cite only these.

/// The first line: the version of Compact RINEX.
pub const CRINEX_VERSION_LINE: [u8; 80] =
    *b"3.0                 COMPACT RINEX FORMAT                    CRINEX VERS   / TYPE";

/// The version in columns 1 to 20 of a first line.
pub const CRINEX_VERSION: [u8; 3] = *b"3.0";

/// The label of a first line.
pub const CRINEX_VERSION_LABEL: [u8; 20] = *b"CRINEX VERS   / TYPE";

/// The beginning of the second line: the program, in 40 columns.
pub const CRINEX_PROGRAM: [u8; 40] = *b"RNX2CRX profile 1.0                     ";

/// The label of a second line.
pub const CRINEX_PROGRAM_LABEL: [u8; 18] = *b"CRINEX PROG / DATE";
