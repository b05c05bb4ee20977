//! A buffer for the lines of an epoch. They are added one after another and borrowed in that order, one by
//! one or as one text.

ghost use Rattle.std.specs.Prelude.{◌≡◌, ◌≤◌, ◌<◌, ◌+◌, ◌-◌, ◌*◌, ◌++◌, ◌∷◌, ◌↔◌, [], IfOk, IsTrue, drop, length, slice_get, vec_capacity};
ghost use Rattle.std.specs.Borrow.{sem};
ghost use Rattle.std.specs.Io.BufRead.{Rests};
ghost use Rattle.std.specs.Option.{option_copied};
ghost use Rattle.crx_base.specs.declared.limits.TheConstants.{LINE_LIMIT, TYPES_LIMIT};
ghost use Rattle.crx_rinex.specs.meaning.Printing.{printed_row};
ghost use Rattle.crx_compact.specs.Blocks.{HasTakenLine, KeepsItems, lines_text, no_lines};
ghost use Rattle.crx_compact.specs.Placing.{FitsRow, row_tail_of, satellite_after, line_after};
ghost use Rattle.crx_compact.specs.ShownRows.{shown_row};
ghost use Rattle.crx_compact.specs.contracts.block.Block.{the_row};
ghost use Rattle.crx_compact.specs.declared.history.TheConstants.{EPOCH_TEXT_LIMIT};

use crate::cells::CELL_ROOM;
use crate::history::EPOCH_TEXT_LIMIT;
use crate::satellite::SatelliteHistory;
use crx_base::Refused;
use crx_base::limits::{NAME_WIDTH, SATELLITES_LIMIT, TYPES_LIMIT};
use crx_base::memory::reserve_exact;
use crx_text::Text;
use crx_text::block::put_line;
use std::alloc::Global;
use std::marker::Model;
use std::mem;

/// The number of lines before an epoch's rows in compact text. They are known only after its last row.
pub(crate) const FIRST_LINES: usize = 2;

/// The greatest number of lines after these: a row for each satellite, and in RINEX the epoch line before
/// the rows.
pub(crate) const LINES_LIMIT: usize = SATELLITES_LIMIT + 1;

/// The most bytes of a line, with its LF: the compact line of a row with the most types that a system may
/// have. No printed line is longer.
pub(crate) const LINE_ROOM: usize = CELL_ROOM * TYPES_LIMIT + 2 * TYPES_LIMIT + 1;

/// The bytes reserved for the first lines, each at most as long as an epoch text.
pub(crate) const FRONT: usize = FIRST_LINES * (EPOCH_TEXT_LIMIT + 1);

/// The pending lines of an epoch, each followed by LF. Memory for the longest epoch is reserved once, and
/// used only as far as lines are written.
#[derive(Drop)]
pub struct Block {
    /// The lines. The bytes after them are left over from longer texts.
    bytes: Vec<u8>,
    /// The length of each line. The items after these are left over from earlier lines.
    lengths: Vec<u16>,
    /// The number of bytes in use, with the space in front of the lines.
    filled: usize,
    /// The number of lines, with those for which space is left in front.
    count: usize,
    handed_out: usize,
    handed_out_bytes: usize,
    /// The number of lines that can be put in front of the pending ones.
    front: usize,
}

impl Model for Block {
    ghost use Rattle.std.specs.Prelude.{◌+◌, ◌-◌, drop, take, vec_capacity};
    ghost use Rattle.crx_compact.specs.Blocks.{IsBlock, PendingLines, cut};
    ghost use Rattle.crx_compact.specs.declared.block.TheConstants.{FIRST_LINES, LINES_LIMIT};

    ghost Value = { PendingLines };

    ghost view = { λ block. record {
      lines = cut (drop block.handed_out (take block.count block.lengths.items))
          (drop block.handed_out_bytes (take block.filled block.bytes.items));
      left = FIRST_LINES + LINES_LIMIT - block.count;
      front = block.front;
    } };

    ghost invariant = { λ block. IsBlock block.lengths.items block.bytes.items block.count block.filled
        block.handed_out block.handed_out_bytes block.front (vec_capacity block.bytes) };
}

impl Block {
    /// Returns a buffer without lines; no later call reserves memory. Returns `Refused` if memory is
    /// refused.
    pub fn new(alloc: Global) -> Result<Block, Refused>
        ensures empty { IfOk result (λ block. block ≡ no_lines) }
    {
        let mut bytes = Vec::new(alloc);
        reserve_exact(&mut bytes, FRONT + LINES_LIMIT * LINE_ROOM)?;
        let mut lengths = Vec::new(alloc);
        reserve_exact(&mut lengths, FIRST_LINES + LINES_LIMIT)?;
        lengthen(&mut bytes, FRONT, b'\n');
        lengthen(&mut lengths, FIRST_LINES + LINES_LIMIT, 0);
        Ok(Block {
            bytes,
            lengths,
            filled: FRONT,
            count: FIRST_LINES,
            handed_out: FIRST_LINES,
            handed_out_bytes: FRONT,
            front: FIRST_LINES,
        })
    }

    /// Drops all lines. Two lines can then be put in front again.
    pub fn clear(&mut self)
        ensures cleared { self.new ≡ no_lines }
    {
        self.filled = FRONT;
        self.count = FIRST_LINES;
        self.handed_out = FIRST_LINES;
        self.handed_out_bytes = FRONT;
        self.front = FIRST_LINES;
    }

    /// Puts `line`, without LF, in front of the pending lines. It may be called at most twice after
    /// [`Block::new`] or [`Block::clear`], with at most [`EPOCH_TEXT_LIMIT`] bytes each time.
    pub(crate) fn put_front(&mut self, line: &[u8])
        requires front { 0 < self.old.front }
        requires short { length line.now ≤ EPOCH_TEXT_LIMIT }
        ensures lines { self.new.lines ≡ line.now ∷ self.old.lines }
        ensures front { self.new.front + 1 ≡ self.old.front }
        ensures left { self.new.left ≡ self.old.left }
    {
        let start = self.handed_out_bytes - line.len() - 1;
        put_line(&mut self.bytes, start, line);
        self.handed_out -= 1;
        self.handed_out_bytes = start;
        self.lengths[self.handed_out] = line.len() as u16;
        self.front -= 1;
    }

    /// Appends `line`, without LF and of at most `LINE_LIMIT` bytes, after the other lines. At most
    /// [`LINES_LIMIT`] lines may be appended after [`Block::new`] or [`Block::clear`].
    pub(crate) fn put(&mut self, line: &[u8])
        requires left { 0 < self.old.left }
        requires short { length line.now ≤ LINE_LIMIT }
        ensures lines { self.new.lines ≡ self.old.lines ++ line.now ∷ [] }
        ensures taken { HasTakenLine self.old self.new }
    {
        use_bytes(&mut self.bytes, self.filled, line.len() + 1);
        put_line(&mut self.bytes, self.filled, line);
        self.lengths[self.count] = line.len() as u16;
        self.count += 1;
        self.filled += line.len() + 1;
    }

    /// Appends the compact line of a row, coded after the earlier rows of `satellite`, which then includes
    /// the row and has to have memory for its types. Only the first `filled` of `values` may be present;
    /// `flags` are two indicators for each value. At most [`LINES_LIMIT`] lines may be appended after
    /// [`Block::new`] or [`Block::clear`].
    #[inline(always)]
    pub(crate) fn put_row(
        &mut self,
        satellite: &mut SatelliteHistory,
        values: &[Option<i64>],
        filled: usize,
        flags: &[u8],
        scratch: &mut Text,
    )
        requires left { 0 < self.old.left }
        requires fits { FitsRow filled values.now flags.now satellite.old }
        ensures after { satellite.new ≡ satellite_after values.now flags.now satellite.old }
        ensures lines { self.new.lines ≡ self.old.lines
            ++ line_after values.now flags.now satellite.old ∷ [] }
        ensures taken { HasTakenLine self.old self.new }
    {
        use_bytes(&mut self.bytes, self.filled, LINE_ROOM);
        // Read before the line is written, because afterwards both would be loaded again.
        let start = self.filled;
        let bytes = self.bytes.as_mut_slice();
        let length = satellite.write_line(values, filled, flags, scratch, bytes, start);
        bytes[start + length] = b'\n';
        self.lengths[self.count] = length as u16;
        self.count += 1;
        self.filled = start + (length + 1);
    }

    /// Appends the RINEX line of the newest row of `satellite`, whose identifier is `name`, without blanks at
    /// its end. At most [`LINES_LIMIT`] lines may be appended after [`Block::new`] or [`Block::clear`].
    #[inline(always)]
    pub(crate) fn put_printed(&mut self, name: &[u8; NAME_WIDTH], satellite: &SatelliteHistory)
        requires left { 0 < self.old.left }
        requires few { length satellite.now.cells ≤ TYPES_LIMIT }
        ensures lines { self.new.lines ≡ self.old.lines
            ++ printed_row (shown_row (row_tail_of name.now satellite.now)) ∷ [] }
        ensures taken { HasTakenLine self.old self.new }
    {
        use_bytes(&mut self.bytes, self.filled, LINE_ROOM);
        let filled = self.filled;
        let bytes = self.bytes.as_mut_slice();
        let length = satellite.print_line(*name, bytes, filled);
        bytes[filled + length] = b'\n';
        self.lengths[self.count] = length as u16;
        self.count += 1;
        self.filled = filled + (length + 1);
    }

    /// Returns whether no line is pending.
    pub fn is_drained(&self) -> bool
        ensures value { IsTrue result ↔ (self.now.lines ≡ []) }
    {
        self.handed_out == self.count
    }

    /// Borrows the next pending line, without LF, and removes it; returns `None` if none is pending.
    pub fn next_line(&mut self) -> Option<&[u8]>
        ensures value { option_copied result ≡ slice_get self.old.lines 0 }
        ensures* after_borrow { sem 𝓛 (Rests the_row self.entry (λ new.
            new ≡ record self.old { lines = drop 1 self.old.lines })) }
    {
        if self.handed_out == self.count {
            return None;
        }
        let start = self.handed_out_bytes;
        let end = start + self.lengths[self.handed_out] as usize;
        self.handed_out += 1;
        self.handed_out_bytes = end + 1;
        Some(&self.bytes[start..end])
    }

    /// Borrows the text of all pending lines, each followed by LF; it is empty if none is pending. After this
    /// call none is pending.
    pub fn take_text(&mut self) -> &[u8]
        ensures value { result.now ≡ lines_text self.old.lines }
        ensures* after_borrow { sem 𝓛 (Rests the_row self.entry (λ new.
            new ≡ record self.old { lines = [] })) }
    {
        let start = self.handed_out_bytes;
        self.handed_out = self.count;
        self.handed_out_bytes = self.filled;
        &self.bytes[start..self.filled]
    }
}

/// Lengthens `bytes`, if necessary, so that at least `room` bytes follow its first `filled`. Memory for these
/// has to be reserved already.
#[inline(always)]
fn use_bytes(bytes: &mut Vec<u8>, filled: usize, room: usize)
    requires memory { filled + room ≤ vec_capacity bytes.old }
    ensures counted { filled + room ≤ length bytes.new.items }
    ensures kept { KeepsItems bytes.old bytes.new }
{
    if bytes.len() < filled + room {
        lengthen(bytes, filled + room, b'\n');
    }
}

/// Lengthens a list to `count` items by copies of `item`. It has to have the memory, and no more items than
/// `count`. Meanwhile a local variable owns the list, because then one call of the C library fills it.
#[cold]
#[inline(never)]
fn lengthen<T: Copy>(items: &mut Vec<T>, count: usize, item: T)
    requires longer { length items.old.items ≤ count }
    requires memory { count ≤ vec_capacity items.old }
    ensures counted { length items.new.items ≡ count }
    ensures kept { KeepsItems items.old items.new }
{
    let alloc = *items.allocator();
    let mut filled = mem::replace(items, Vec::new(alloc));
    while filled.len() < count {
        filled.push_reserved(item);
    }
    *items = filled;
}
