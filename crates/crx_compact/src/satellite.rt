//! The history of a satellite: its indicators and the arcs of its cells, which each of its lines changes in
//! place (Hatanaka's Compact RINEX 3.0, satellite lines).

ghost use Rattle.std.specs.Prelude.{ℕ, ◌≡◌, ◌≤◌, ◌<◌, ◌+◌, ◌-◌, ◌*◌, ◌++◌, [], Ok, Err, None, true, false, drop, length, map, replicate, take, IfErr, IfOk, IsTrue, ◌↔◌, if◌then◌else◌, vec_capacity};
ghost use Rattle.crx_text.specs.meaning.Columns.{columns, without_end_blanks};
ghost use Rattle.crx_base.specs.declared.limits.TheConstants.{CELL_WIDTH, LINE_LIMIT, NAME_WIDTH, TYPES_LIMIT};
ghost use Rattle.crx_header.specs.meaning.EpochColumns.{begins_epoch};
ghost use Rattle.crx_header.specs.meaning.ObservationTypes.{IsAllowedCount};
ghost use Rattle.crx_header.specs.meaning.Satellites.{is_identifier};
ghost use Rattle.crx_rinex.specs.meaning.Printing.{printed_row};
ghost use Rattle.crx_text.specs.meaning.PrintedCells.{printed_cells};
ghost use Rattle.crx_base.specs.Padded.{line_in};
ghost use Rattle.crx_compact.specs.declared.cells.TheConstants.{CELL_ROOM};
ghost use Rattle.crx_compact.specs.HeldRows.{AreHeldFlags};
ghost use Rattle.crx_compact.specs.Blocks.{IsLinePut};
ghost use Rattle.crx_compact.specs.Placing.{AnswersMarks, AnswersReading, AnswersRoom, FitsFlags, FitsRow, IsMarked, cells_for, resized, row_tail_of, satellite_after, line_after};
ghost use Rattle.crx_compact.specs.ArcSteps.{shown_value};
ghost use Rattle.crx_compact.specs.ShownRows.{AreFirstPrinted, shown_row};

use crate::arc::ObsArc;
use crate::cells::{read_cells, write_cells};
use crate::same::is_same_text;
use crx_base::limits::{CELL_WIDTH, NAME_WIDTH};
use crx_base::memory::reserve_exact;
use crx_base::{Fault, Padded, Refused};
use crx_header::{after_columns, all_blank, put_identifier};
use crx_rinex::{SatRow, put_flags};
use crx_text::block::put_text;
use crx_text::difference::{append_difference, patch_bytes};
use crx_text::{Text, copy_text, obs_print_cell, put_blanks, trim_end};
use std::alloc::Global;
use std::marker::Model;

/// The history of a satellite: two indicators for each of its types, and the arcs of the first types.
#[derive(Drop)]
pub struct SatelliteHistory {
    /// Two for each type that there is room for. Those after its types aren't used.
    indicators: Vec<u8>,
    /// The arcs of the first types. The others have no values and aren't stored, so that the cost of a line
    /// follows its cells, not its types. Memory is reserved for every type that there is room for.
    arcs: Vec<ObsArc>,
    /// The number of types.
    count: usize,
}

impl Model for SatelliteHistory {
    ghost use Rattle.std.specs.Prelude.{◌≤◌, ◌*◌, length, take, vec_capacity};
    ghost use Rattle.crx_base.specs.declared.limits.TheConstants.{TYPES_LIMIT};
    ghost use Rattle.crx_text.specs.meaning.Columns.{without_end_blanks};
    ghost use Rattle.crx_compact.specs.HeldRows.{AreHeldFlags};
    ghost use Rattle.crx_compact.specs.Placing.{IndicatorsMatchRoom, SatelliteTail, cells_for};

    ghost Value = { SatelliteTail };

    ghost view = { λ satellite. record {
      flags = without_end_blanks (take (2 * satellite.count) satellite.indicators.items);
      cells = cells_for satellite.count satellite.arcs.items;
      room = vec_capacity satellite.arcs;
    } };

    ghost invariant = { λ satellite. AreHeldFlags (take (2 * satellite.count) satellite.indicators.items)
        × (length satellite.arcs.items ≤ satellite.count) × (satellite.count ≤ vec_capacity satellite.arcs)
        × IndicatorsMatchRoom (vec_capacity satellite.arcs) (length satellite.indicators.items)
        (vec_capacity satellite.indicators)
        × (vec_capacity satellite.arcs ≤ TYPES_LIMIT) };
}

impl SatelliteHistory {
    /// Returns a satellite with no types, arcs or indicators.
    pub(crate) fn new(alloc: Global) -> SatelliteHistory
        ensures empty { result ≡ record { flags = []; cells = []; room = 0 } }
    {
        SatelliteHistory {
            indicators: Vec::new(alloc),
            arcs: Vec::new(alloc),
            count: 0,
        }
    }

    /// Returns the number of types.
    #[inline(always)]
    pub(crate) fn count(&self) -> usize
        ensures value { result ≡ length self.now.cells }
        ensures few { result ≤ TYPES_LIMIT }
        ensures room { result ≤ self.now.room }
        // The satellite is the same after a resize to its own count.
        ensures whole { self.now ≡ resized result self.now }
    {
        self.count
    }

    /// Returns whether memory for `count` types is reserved.
    #[inline(always)]
    pub(crate) fn has_room(&self, count: usize) -> bool
        ensures value { IsTrue result ↔ (count ≤ self.now.room) }
    {
        count <= self.arcs.capacity()
    }

    /// Reserves memory for `count` types, at most `TYPES_LIMIT`, unless it is reserved already, and adds
    /// none. Returns `Refused` if memory is refused. The stored types never change.
    pub(crate) fn make_room(&mut self, count: usize) -> Result<(), Refused>
        requires allowed { count ≤ TYPES_LIMIT }
        ensures { AnswersRoom count self.old self.new result }
    {
        let room = self.arcs.capacity();
        if count <= room {
            return Ok(());
        }
        reserve_exact(&mut self.indicators, 2 * (count - room))?;
        let more = count - self.arcs.len();
        reserve_exact(&mut self.arcs, more)?;
        let indicators = &mut self.indicators;
        while indicators.len() < 2 * count {
            indicators.push_reserved(b' ');
        }
        Ok(())
    }

    /// Sets the number of types to `count`, for which memory has to be reserved. Of the types that it has,
    /// the first `count` stay; new ones have no arcs and blank indicators.
    #[inline(always)]
    pub(crate) fn resize(&mut self, count: usize)
        requires room { count ≤ self.old.room }
        ensures resized { self.new ≡ resized count self.old }
    {
        let from = self.count;
        self.count = count;
        if count <= from {
            self.arcs.truncate(count);
            return;
        }
        put_blanks(&mut self.indicators[2 * from..2 * count]);
    }

    /// Sets the indicators to `flags`, two for each type, and the number of types to `count`. Returns `false`
    /// if nothing changes, as usual; otherwise `true`, and `scratch` is then the difference of the
    /// indicators, without blanks at its end. Memory for `count` types has to be reserved.
    #[inline(always)]
    fn mark(&mut self, count: usize, flags: &[u8], scratch: &mut Text) -> bool
        requires fits { FitsFlags count flags.now self.old }
        ensures { IsMarked count flags.now self.old self.new (if result then scratch.new else []) }
    {
        if is_same_text(flags, &self.indicators[..2 * self.count]) {
            return false;
        }
        scratch.clear();
        self.change_indicators(count, flags, scratch);
        true
    }

    /// Sets the indicators to `flags`, two for each type, and the number of types to `count`. Makes
    /// `scratch`, which has to be empty, the difference from the indicators before, without blanks at its
    /// end. Memory for `count` types has to be reserved.
    #[inline(never)]
    fn change_indicators(&mut self, count: usize, flags: &[u8], scratch: &mut Text)
        requires fits { FitsFlags count flags.now self.old }
        requires empty { scratch.old ≡ [] }
        ensures { IsMarked count flags.now self.old self.new scratch.new }
    {
        append_difference(&self.indicators[..2 * self.count], flags, scratch);
        scratch.trim_end_blanks();
        self.resize(count);
        put_first(&mut self.indicators, flags);
    }

    /// Writes the compact line of a row over `bytes` from `at` on, without LF, and returns its length; bytes
    /// after it may be overwritten. Only the first `filled` of `values` may be present; `flags` are two
    /// indicators for each value. The history then includes the row, for whose types memory has to be
    /// reserved.
    #[inline(always)]
    pub(crate) fn write_line(
        &mut self,
        values: &[Option<i64>],
        filled: usize,
        flags: &[u8],
        scratch: &mut Text,
        bytes: &mut [u8],
        at: usize,
    ) -> usize
        requires fits { FitsRow filled values.now flags.now self.old }
        requires room { at + (CELL_ROOM * length values.now + 2 * TYPES_LIMIT) < length bytes.old }
        ensures after { self.new ≡ satellite_after values.now flags.now self.old }
        ensures put { IsLinePut (line_after values.now flags.now self.old)
            (CELL_ROOM * length values.now + 2 * TYPES_LIMIT) at bytes.old bytes.new result }
    {
        let has_marks = self.mark(values.len(), flags, scratch);
        let mut end = write_cells(&mut self.arcs, values, filled, bytes, at);
        if has_marks {
            end = put_text(bytes, end, scratch.bytes());
        }
        trim_end(&bytes[at..end]).len()
    }

    /// Reads a line of the satellite, and changes its arcs and indicators by it.
    ///
    /// The first cell with a fault decides: returns `BadField` if its text is no coded value, `NoArc` if it
    /// is a difference and its arc has no values, and `OutOfRange` if its value doesn't fit its columns.
    /// Otherwise returns `BadFlags` if the marks have a character outside 32 to 126, or anything but blanks
    /// after two for each type. After an error some arcs may have changed, but no indicators.
    #[inline(always)]
    pub(crate) fn read(&mut self, line: Padded<'_>, scratch: &mut Text) -> Result<(), Fault>
        requires short { length (line_in line) ≤ LINE_LIMIT }
        requires other { begins_epoch (line_in line) ≡ false }
        requires allowed { IsAllowedCount (length self.old.cells) }
        ensures { AnswersReading (line_in line.entry) self.old self.new result }
    {
        let at = read_cells(&mut self.arcs, self.count, line)?;
        let marks = &line.line()[at..];
        if marks.is_empty() {
            return Ok(());
        }
        patch_indicators(&mut self.indicators, self.count, marks, scratch)
    }

    /// Returns the newest row, named `name`, which has to be an identifier; a type whose arc has no values
    /// has no value. The satellite has to have a type. Returns `OutOfMemory`, its only error, if memory is
    /// refused.
    pub(crate) fn row(&self, alloc: Global, name: [u8; NAME_WIDTH]) -> Result<SatRow, Fault>
        requires named { is_identifier name ≡ true }
        requires allowed { IsAllowedCount (length self.now.cells) }
        ensures ok { IfOk result (λ row. row ≡ shown_row (row_tail_of name self.now)) }
        ensures err { IfErr result (λ fault. fault ≡ Fault.OutOfMemory) }
    {
        let count = self.count;
        let mut row = SatRow::blank(alloc, name, count)?;
        for index in 0..count {
            let value = match self.arcs.get(index) {
                Some(arc) => arc.value(),
                None => None,
            };
            row.set(index, value);
        }
        row.set_flags(&self.indicators[..2 * count]);
        Ok(row)
    }

    /// Prints the RINEX line of the newest row, named `name`, over `bytes` from `at` on, without LF and
    /// blanks at its end, and returns its length; bytes after it may be overwritten.
    #[inline(always)]
    pub(crate) fn print_line(&self, name: [u8; NAME_WIDTH], bytes: &mut [u8], at: usize) -> usize
        requires room { at + (NAME_WIDTH + CELL_WIDTH * length self.now.cells) < length bytes.old }
        ensures { IsLinePut (printed_row (shown_row (row_tail_of name self.now)))
            (NAME_WIDTH + CELL_WIDTH * length self.now.cells) at bytes.old bytes.new result }
    {
        put_identifier(bytes, at, name);
        let count = self.count;
        let flags = &self.indicators[..2 * count];
        let arcs = self.arcs.as_slice();
        print_cells(arcs, flags, bytes, at + NAME_WIDTH);
        if arcs.len() < count {
            print_missing(arcs.len(), count, flags, bytes, at + NAME_WIDTH);
        }
        // The compiler knows that this length isn't below 3: no second test in [`trim_end`].
        let length = NAME_WIDTH + CELL_WIDTH * count;
        trim_end(&bytes[at..at + length]).len()
    }
}

/// Prints a cell for each of `arcs` over `bytes` from `at` on, two per turn of the loop: its newest value, or
/// 14 blanks if it has no values, and in either case two of `flags`, which are one load and one store.
#[inline(always)]
fn print_cells(arcs: &[ObsArc], flags: &[u8], bytes: &mut [u8], at: usize)
    requires paired { 2 * length arcs.now ≤ length flags.now }
    requires room { at + CELL_WIDTH * length arcs.now ≤ length bytes.old }
    ensures put { (count : ℕ) → length flags.now ≡ 2 * count → length arcs.now ≤ count
        → AreFirstPrinted (length arcs.now) count (map shown_value (cells_for count arcs.now))
        flags.now at bytes.old bytes.new }
    ensures long { length bytes.new ≡ length bytes.old }
{
    for pair in 0..arcs.len() / 2 {
        let index = 2 * pair;
        let place = at + CELL_WIDTH * index;
        obs_print_cell(arcs[index].value(), flags, 2 * index, bytes, place);
        let (other, behind) = (index + 1, place + CELL_WIDTH);
        obs_print_cell(arcs[other].value(), flags, 2 * other, bytes, behind);
    }
    if arcs.len() % 2 == 0 {
        return;
    }
    let last = arcs.len() - 1;
    let place = at + CELL_WIDTH * last;
    obs_print_cell(arcs[last].value(), flags, 2 * last, bytes, place);
}

/// Prints the cells of the types from index `first` to before `count`, whose values are missing: 14 blanks
/// and two of `flags` each. The first cell of the line is at index `at`.
#[cold]
#[inline(never)]
fn print_missing(first: usize, count: usize, flags: &[u8], bytes: &mut [u8], at: usize)
    requires paired { length flags.now ≡ 2 * count }
    requires within { first ≤ count }
    requires room { at + CELL_WIDTH * count < length bytes.old }
    ensures put { take (at + CELL_WIDTH * count) bytes.new ≡ take (at + CELL_WIDTH * first) bytes.old
        ++ printed_cells (drop first (replicate count None)) (drop (2 * first) (columns flags.now 1
        (2 * count))) }
    ensures long { length bytes.new ≡ length bytes.old }
{
    for index in first..count {
        obs_print_cell(None, flags, 2 * index, bytes, at + CELL_WIDTH * index);
    }
}

/// Replaces the beginning of `bytes` by `text`, which has to be no longer.
pub(crate) fn put_first(bytes: &mut [u8], text: &[u8])
    requires { length text.now ≤ length bytes.old }
    ensures { take (length text.now) bytes.new ≡ text.now }
{
    copy_text(&mut bytes[..text.len()], text);
}

/// Changes the indicators of the first `count` types by `marks`: a blank, or no mark, leaves an indicator,
/// `&` makes it blank, and any other character replaces it.
///
/// Returns `BadFlags`, with the indicators unchanged, if the marks have a character outside 32 to 126, or
/// anything but blanks after two for each type.
#[inline(never)]
fn patch_indicators(
    indicators: &mut [u8],
    count: usize,
    marks: &[u8],
    scratch: &mut Text,
) -> Result<(), Fault>
    requires fitting { 2 * count ≤ length indicators.old }
    requires allowed { IsAllowedCount count }
    requires held { AreHeldFlags (take (2 * count) indicators.old) }
    requires short { length marks.now ≤ LINE_LIMIT }
    ensures { AnswersMarks count marks.now indicators.old indicators.new result }
{
    if !all_blank(after_columns(marks, 2 * count)) {
        return Err(Fault::BadFlags);
    }
    let Ok(()) = patch_bytes(&indicators[..2 * count], marks, scratch) else {
        return Err(Fault::BadFlags);
    };
    let text = scratch.bytes();
    put_flags(
        &mut indicators[..2 * count],
        &text[..(2 * count).min(text.len())],
    );
    Ok(())
}
