//! The limits of a handle. Code and definitions cite them from here.

use crx_base::limits::{LINE_LIMIT, SATELLITES_LIMIT};

/// The most bytes that are kept of a line before its LF: the longest content, CR, and one byte more. A line
/// with this many bytes is too long, whatever follows.
pub const LINE_ROOM: usize = LINE_LIMIT + 2;

/// The number of waiting bytes, output and messages together, from which on no line is taken.
pub const READY_LIMIT: usize = 65536;

/// The most bytes of output of one line: an epoch, whose lines have LF.
pub const BLOCK_LIMIT: usize = (SATELLITES_LIMIT + 2) * (LINE_LIMIT + 1);

/// The most bytes of a text that wait to be taken, including the output of the last line and of the end.
pub const WAITING_LIMIT: usize = READY_LIMIT + 2 * BLOCK_LIMIT;
