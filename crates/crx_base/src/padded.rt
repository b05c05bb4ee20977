//! A line as its reader's buffer holds it: a blank and more bytes follow it, so that code which reads the
//! line needs no test for its end.

ghost use Rattle.std.specs.Prelude.{◌≡◌, ◌≤◌, ◌+◌, length, slice_index};
ghost use Rattle.crx_base.specs.declared.limits.TheConstants.{LINE_LIMIT};
ghost use Rattle.crx_base.specs.declared.padded.TheConstants.{PADDING};

use crate::limits::LINE_LIMIT;

/// How many bytes follow a line, at least, with its blank.
pub const PADDING: usize = 64;

/// A line of a file, followed by a blank, because columns past a line's end are blank, and then by bytes
/// without a meaning.
#[derive(Clone, Copy)]
pub struct Padded<'a> {
    bytes: &'a [u8],
    len: usize,
    ghost room: { len + PADDING ≤ length bytes.now },
    ghost blank: { slice_index bytes.now len ≡ 32 },
}

impl<'a> Padded<'a> {
    ghost use Rattle.std.specs.Prelude.{take};
    ghost use Rattle.crx_base.specs.Padded.{line_in};

    /// Returns the first `len` of `bytes` as a line. After them `bytes` has to have a blank and at least
    /// `PADDING - 1` more bytes.
    #[inline(always)]
    pub fn of(bytes: &'a [u8], len: usize) -> Padded<'a>
        requires room { len + PADDING ≤ length bytes.now }
        requires blank { slice_index bytes.now len ≡ 32 }
        ensures line { line_in result ≡ take len bytes.now }
        ensures len { length (line_in result) ≡ len }
    {
        Padded { bytes, len }
    }

    /// Returns the line itself, without the padding.
    #[inline(always)]
    pub fn line(&self) -> &'a [u8]
        ensures value { result.now ≡ line_in self.now }
    {
        &self.bytes[..self.len]
    }

    /// Returns how many bytes the line has, without the padding.
    #[inline(always)]
    pub fn len(&self) -> usize
        ensures value { result ≡ length (line_in self.now) }
    {
        self.len
    }

    /// Returns the line and the bytes after it: a blank, and at least `PADDING - 1` more.
    #[inline(always)]
    pub fn padded(&self) -> &'a [u8]
        ensures line { take (length (line_in self.now)) result.now ≡ line_in self.now }
        ensures blank { slice_index result.now (length (line_in self.now)) ≡ 32 }
        ensures room { length (line_in self.now) + PADDING ≤ length result.now }
    {
        self.bytes
    }
}

/// Room for the copy of a line that no bytes follow. It takes no memory elsewhere.
#[derive(Drop)]
pub struct PaddedCopy {
    bytes: [u8; LINE_LIMIT + PADDING],
}

impl PaddedCopy {
    ghost use Rattle.crx_base.specs.Padded.{line_in};

    /// Returns room for a line of at most [`LINE_LIMIT`] bytes.
    pub fn new() -> PaddedCopy {
        PaddedCopy {
            bytes: [b' '; LINE_LIMIT + PADDING],
        }
    }

    /// Copies `line`, at most [`LINE_LIMIT`] bytes, over the previous copy, and returns the padded copy.
    pub fn of<'a>(&'a mut self, line: &[u8]) -> Padded<'a>
        requires short { length line.now ≤ LINE_LIMIT }
        ensures line { line_in result ≡ line.now }
    {
        self.bytes[..line.len()].copy_from_slice(line);
        self.bytes[line.len()] = b' ';
        Padded::of(&self.bytes, line.len())
    }
}
