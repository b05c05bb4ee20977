//! The limits of this project's profile. Code and definitions cite only these.
//!
//! They depend on each other, as the law [`limits_fit`](crate::laws::limits_fit) states: each line that is
//! written has to fit into a line that is read, each count into its columns, and each sum of an arc into 64
//! bits. The prover refuses a number that breaks it.

/// The most bytes of a line's content, the line end not counted.
pub const LINE_LIMIT: usize = 8192;

/// The most bytes of one input.
pub const INPUT_LIMIT: u64 = 1_099_511_627_776;

/// The most observation types of a satellite system.
pub const TYPES_LIMIT: usize = 400;

/// The most satellites of an epoch.
pub const SATELLITES_LIMIT: usize = 999;

/// The highest order of the differences of an arc that is read.
pub const ORDER_LIMIT: u8 = 9;

/// The most digits of a number in a code.
pub const DIGITS_LIMIT: usize = 18;

/// The order of the differences of an arc that is written.
pub const WRITTEN_ORDER: u8 = 3;

/// The columns of the version in a header's first line.
pub const VERSION_WIDTH: usize = 9;

/// The columns of an epoch line before the receiver clock offset.
pub const HEAD_WIDTH: usize = 41;

/// The columns of a satellite's identifier.
pub const NAME_WIDTH: usize = 3;

/// The columns of a cell of a satellite line: an observation and two indicators.
pub const CELL_WIDTH: usize = 16;

/// The columns of an observation, format F14.3.
pub const OBSERVATION_WIDTH: usize = 14;

/// The digits after the point of an observation: it counts thousandths.
pub const OBSERVATION_DECIMALS: usize = 3;

/// The columns of a receiver clock offset, format F15.12.
pub const CLOCK_WIDTH: usize = 15;

/// The digits after the point of a receiver clock offset: it counts units of 10^-12 seconds.
pub const CLOCK_DECIMALS: usize = 12;

/// The most bytes of the date in the second line of a compact file.
pub const DATE_LIMIT: usize = 20;
