//! The buffer of a reader of lines: the pending bytes, which were read and belong to no line yet, and room
//! after them.
ghost use Rattle.std.specs.Prelude.{◌≡◌, ℕ, ◌+◌, ◌-◌, ◌<◌, ◌≤◌, ◌⊎◌, List, [], ◌++◌, length, take, drop, slice_range, vec_capacity, IfOk, IfErr, OnErr, MatchBool, if◌then◌else◌};
ghost use Rattle.crx_lines.specs.meaning.Devices.{ends_after, tally_of};
ghost use Rattle.crx_lines.specs.Devices.{EndsFill};
ghost use Rattle.crx_base.specs.declared.limits.TheConstants.{LINE_LIMIT};
ghost use Rattle.crx_base.specs.declared.padded.TheConstants.{PADDING};
ghost use Rattle.crx_base.specs.meaning.Lines.{line_of};
ghost use Rattle.crx_lines.specs.declared.window.TheConstants.{LEAST_ROOM, SIZE};

use crate::device::Source;
use crx_base::limits::LINE_LIMIT;
use crx_base::memory::reserve_exact;
use crx_base::padded::PADDING;
use crx_base::{Fault, Padded, Refused};
use std::alloc::Global;
use std::mem;

/// The least number of bytes in use that are free before a read; twice this number are in use at first.
const PIECE: usize = 2048;

/// The least number of the [`SIZE`] bytes that follow the pending ones before a read, in use or not: a line's
/// content, CR and LF.
const LEAST_ROOM: usize = LINE_LIMIT + 2;

/// The bytes of memory for lines, 18 KiB: two of the longest lines, in whole pieces, and dozens of common
/// ones. They are brought into use by doubling, up to 16 KiB. Larger reads are no faster.
pub(crate) const SIZE: usize = (2 * LEAST_ROOM / PIECE + 1) * PIECE;

/// Where in the window the content of a taken line is, and whether only an LF ended the line.
#[derive(Clone, Copy)]
pub(crate) struct Cut {
    pub(crate) from: usize,
    pub(crate) to: usize,
    pub(crate) is_plain: bool,
}

/// A buffer with pending bytes from `start` to `end`, and at least `PADDING` bytes after them. It has memory
/// for `SIZE` bytes and this padding, of which more is used as it fills.
#[derive(Drop)]
pub(crate) struct Window {
    bytes: Vec<u8>,
    start: usize,
    end: usize,
    ghost ordered: { start ≤ end },
    ghost padded: { end + PADDING ≤ length bytes.items },
    ghost memory: { vec_capacity bytes ≡ SIZE + PADDING },
}

impl Window {
    ghost use Rattle.crx_base.specs.Padded.{line_in};
    ghost use Rattle.crx_lines.specs.Window.{IsCut, cut_shown, kept};

    /// Returns an empty buffer with all the memory that it will ever have, which is never on the stack, or
    /// `Refused` if memory is refused.
    pub(crate) fn new(alloc: Global) -> Result<Window, Refused>
        ensures { IfOk result (λ window. kept window ≡ []) }
    {
        let mut bytes = Vec::new(alloc);
        reserve_exact(&mut bytes, SIZE + PADDING)?;
        lengthen(&mut bytes, 2 * PIECE);
        Ok(Window {
            bytes,
            start: 0,
            end: 0,
        })
    }

    /// Returns the pending bytes: those that were read and belong to no line taken so far.
    pub(crate) fn as_slice(&self) -> &[u8]
        ensures value { result.now ≡ kept self.now }
        ensures len { length result.now ≡ self.now.end - self.now.start }
    {
        &self.bytes[self.start..self.end]
    }

    /// Returns the content of a taken line. `cut`: its place as [`Window::cut_line`] returned it; nothing may
    /// have been read since.
    pub(crate) fn padded(&self, cut: Cut) -> Padded<'_>
        requires { IsCut self.now.bytes.items cut }
        ensures value { line_in result ≡ (cut_shown self.now.bytes.items cut).content }
    {
        Padded::of(&self.bytes[cut.from..], cut.to - cut.from)
    }

    /// Takes a line of `len` pending bytes, and the LF after them if `is_ended`; otherwise `len` has to be
    /// all of them. Returns the place of its content, without a CR at the end, and writes a blank over the
    /// byte after the content.
    pub(crate) fn cut_line(&mut self, len: usize, is_ended: bool) -> Cut
        requires { MatchBool is_ended (len < length (kept self.old)) (len ≡ length (kept self.old)) }
        ensures cut { IsCut self.new.bytes.items result }
        ensures shown { cut_shown self.new.bytes.items result
            ≡ line_of (record { bytes = take len (kept self.old); is_ended = is_ended }) }
        ensures kept { kept self.new ≡ drop (len + (if is_ended then 1 else 0)) (kept self.old) }
    {
        let from = self.start;
        let end = from + len;
        let has_return = len > 0 && self.bytes[end - 1] == b'\r';
        let to = end - usize::from(has_return);
        self.bytes[to] = b' ';
        self.start = end + usize::from(is_ended);
        Cut {
            from,
            to,
            is_plain: is_ended & !has_return,
        }
    }

    /// Discards all pending bytes if they are more than `LINE_LIMIT + 1`, too many for a line and a CR, and
    /// returns how many it discarded, or 0.
    pub(crate) fn drop_long_line(&mut self) -> usize
        ensures count { ((result ≡ 0) × (kept self.new ≡ kept self.old))
            ⊎ ((result ≡ length (kept self.old)) × (LINE_LIMIT + 1 < result) × (kept self.new ≡ [])) }
        ensures room { length (kept self.new) ≤ LINE_LIMIT + 1 }
    {
        let count = self.end - self.start;
        if count <= LINE_LIMIT + 1 {
            return 0;
        }
        self.start = 0;
        self.end = 0;
        count
    }

    /// Moves the pending bytes, at most `LINE_LIMIT + 1`, to the front of the buffer if fewer than
    /// [`LEAST_ROOM`] of its [`SIZE`] bytes are after them. If none is pending, only starts again at the
    /// front.
    fn move_to_front(&mut self)
        requires { length (kept self.old) ≤ LINE_LIMIT + 1 }
        ensures kept { kept self.new ≡ kept self.old }
        ensures room { self.new.end + LEAST_ROOM ≤ SIZE }
        ensures unmoved { self.old.end + LEAST_ROOM ≤ SIZE → self.new.bytes.items ≡ self.old.bytes.items }
    {
        if self.start == self.end {
            self.start = 0;
            self.end = 0;
            return;
        }
        if SIZE - self.end < LEAST_ROOM {
            let (start, end) = (self.start, self.end);
            self.bytes.copy_within(start..end, 0);
            self.start = 0;
            self.end = end - start;
        }
    }

    /// Doubles how much of the buffer's memory is in use, up to all, if fewer than [`PIECE`] bytes in use are
    /// free after the pending ones; so small files need little memory. At least [`LEAST_ROOM`] of the
    /// [`SIZE`] bytes have to be after the pending ones.
    fn use_more(&mut self)
        requires { self.old.end + LEAST_ROOM ≤ SIZE }
        ensures kept { kept self.new ≡ kept self.old }
        ensures room { self.new.end + PADDING < length self.new.bytes.items }
    {
        if self.bytes.len() - PADDING - self.end < PIECE {
            let count = (2 * self.bytes.len()).min(SIZE + PADDING);
            lengthen(&mut self.bytes, count);
        }
    }

    /// Reads once from `reader`, at most `most` bytes, appends them to the pending ones, which may be at most
    /// `LINE_LIMIT + 1`, and returns their number, 0 at the input's end. If `most` is 0, reads one byte:
    /// returns 0 at the end, and otherwise loses it and returns `InputTooLong`. Returns `ReadFailed` if the
    /// read fails. Errors don't change the pending bytes.
    pub(crate) fn fill<R: Source>(&mut self, reader: &mut R, most: u64) -> Result<usize, Fault>
        requires { length (kept self.old) ≤ LINE_LIMIT + 1 }
        ensures ok { IfOk result (λ n. (more : List ℕ) × (length more ≡ n) × (n ≤ most)
            × (kept self.new ≡ kept self.old ++ more) × R.gave reader.old more reader.new) }
        ensures end { IfOk result (λ n. n ≡ 0 → R.at_end reader.new) }
        ensures counted { IfOk result (λ n. (R.failures reader.new ≡ R.failures reader.old)
            × (R.ends reader.new ≡ ends_after n (R.ends reader.old))) }
        ensures kept { OnErr result (kept self.new ≡ kept self.old) }
        ensures fault { IfErr result (λ fault. EndsFill fault (λ given. R.gave reader.old given reader.new) most
            (tally_of (R.failures reader.old) (R.ends reader.old))
            (tally_of (R.failures reader.new) (R.ends reader.new))) }
    {
        if most == 0 {
            let mut byte = [0];
            return match reader.read(&mut byte) {
                Ok(0) => Ok(0),
                Ok(_) => Err(Fault::InputTooLong),
                Err(_) => Err(Fault::ReadFailed),
            };
        }
        self.move_to_front();
        self.use_more();
        let end = self.end;
        let room = most.min((self.bytes.len() - PADDING - end) as u64) as usize;
        match reader.read(&mut self.bytes[end..end + room]) {
            Ok(count) => {
                self.end = end + count;
                Ok(count)
            }
            Err(_) => Err(Fault::ReadFailed),
        }
    }
}

/// Lengthens `bytes` with zeros to `count` bytes, for which it has memory. The list is taken out of its place
/// first, because only then does one call of the C library fill it.
fn lengthen(bytes: &mut Vec<u8>, count: usize)
    requires longer { length bytes.old.items ≤ count }
    requires memory { count ≤ vec_capacity bytes.old }
    ensures counted { length bytes.new.items ≡ count }
    ensures kept { take (length bytes.old.items) bytes.new.items ≡ bytes.old.items }
    ensures memory { vec_capacity bytes.new ≡ vec_capacity bytes.old }
{
    let alloc = *bytes.allocator();
    let mut filled = mem::replace(bytes, Vec::new(alloc));
    while filled.len() < count {
        filled.push_reserved(0);
    }
    *bytes = filled;
}
