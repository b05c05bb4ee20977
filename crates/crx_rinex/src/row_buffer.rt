//! The row of the satellite line that was read last, in memory that is used again. RINEX 3.05, table A3.

ghost use Rattle.std.specs.Prelude.{ℕ, List, None, ◌≡◌, ◌≤◌, ◌<◌, ◌*◌, ◌+◌, ◌-◌, ◌/◌, codes, length, max, take, Ok, Err, OnOk, IfErr, IfSome, MatchOption, Bool, true, ◌&&◌};
ghost use Rattle.std.specs.List.{list_all};
ghost use Rattle.crx_text.specs.meaning.Texts.{is_kept};
ghost use Rattle.crx_base.specs.Padded.{line_in};
ghost use Rattle.crx_base.specs.declared.limits.TheConstants.{CELL_WIDTH, NAME_WIDTH, TYPES_LIMIT};
ghost use Rattle.crx_text.specs.meaning.Columns.{columns};
ghost use Rattle.crx_text.specs.meaning.Numbers.{observation_of};
ghost use Rattle.crx_rinex.specs.meaning.Observations.{observations_of};
ghost use Rattle.crx_rinex.specs.meaning.Printing.{printed_row};
ghost use Rattle.crx_rinex.specs.SatelliteLines.{blank_row, row_by_cells, AreCellsRead, AreEmptyFrom, AreFirstRead, AreMissingFrom, ArePaired, AreSeen, KeepsEmptyFrom};
ghost use Rattle.crx_rinex.specs.meaning.SatelliteLines.{field, row_of, IsSoundRow};

use crate::satellite_row::print_row;
use crx_base::limits::{CELL_WIDTH, NAME_WIDTH, OBSERVATION_WIDTH, TYPES_LIMIT};
use crx_base::{Fault, Padded};
use crx_header::{Types, after_columns, all_blank, identifier, types_of_satellite};
use crx_text::{Text, all_kept, obs_read_cell};
use std::marker::Model;
use std::simd::prelude::*;

/// The row of the satellite line that was read last. It has room for every row, so that reading one takes no
/// memory.
#[derive(Drop)]
pub struct RowBuffer {
    name: [u8; NAME_WIDTH],
    /// The number of types.
    count: usize,
    /// How many of the first cells may have a value or an indicator. All cells after them are empty, so that
    /// the cost of a row depends on its line, and not on its types.
    filled: usize,
    values: [Option<i64>; TYPES_LIMIT],
    flags: [u8; 2 * TYPES_LIMIT],
}

impl Model for RowBuffer {
    ghost use Rattle.std.specs.Prelude.{take, ◌*◌, ◌≤◌};
    ghost use Rattle.crx_base.specs.declared.limits.TheConstants.{TYPES_LIMIT};
    ghost use Rattle.crx_rinex.specs.meaning.Observations.{Row};
    ghost use Rattle.crx_rinex.specs.meaning.SatelliteLines.{IsSoundRow};
    ghost use Rattle.crx_rinex.specs.SatelliteLines.{AreEmptyFrom};

    ghost Value = { Row };

    ghost view = { λ row. record { name = row.name; values = take row.count row.values; flags = take (2 * row.count) row.flags } };

    ghost invariant = { λ row. IsSoundRow (record { name = row.name; values = take row.count row.values; flags = take (2 * row.count) row.flags }) × (row.count ≤ TYPES_LIMIT) × (row.filled ≤ row.count) × AreEmptyFrom row.filled row.values row.flags };
}

impl RowBuffer {
    /// Returns a buffer before the first line: it has the row of satellite G01 with one type, whose value is
    /// missing and whose indicators are blank.
    pub fn new() -> RowBuffer
        ensures value { result ≡ blank_row (codes "G01") 1 }
    {
        RowBuffer {
            name: *b"G01",
            count: 1,
            filled: 0,
            values: [None; TYPES_LIMIT],
            flags: [b' '; 2 * TYPES_LIMIT],
        }
    }

    /// Reads a satellite line, whose row replaces the row before. `types`: the counts of types that the
    /// header declared.
    ///
    /// Returns `BadSatellite` if columns 1 to 3 hold no identifier of a system with types; otherwise
    /// `BadField` if a field is neither blank nor a number of format F14.3, or more than blanks follow the
    /// last cell; otherwise `BadFlags` if an indicator is `&` or outside 32 to 126. After an error the row
    /// may be any row.
    #[inline(always)]
    pub fn read(&mut self, types: &Types, line: Padded<'_>) -> Result<(), Fault>
        ensures ok { OnOk result (row_of types.now (line_in line.entry) ≡ Ok self.new) }
        ensures err { IfErr result (λ fault. row_of types.now (line_in line.entry) ≡ Err fault) }
    {
        let Some(count) = types_of_satellite(types, line.line()) else {
            return Err(Fault::BadSatellite);
        };
        let fault = match read_first_cells(line, count, &mut self.values, &mut self.flags) {
            None => Fault::BadField,
            Some((reached, is_seen)) => {
                empty_cells(reached, self.filled, &mut self.values, &mut self.flags);
                if are_kept(is_seen, &self.flags[..2 * reached]) {
                    self.name = identifier(line.line(), 1);
                    self.count = count;
                    self.filled = reached;
                    return Ok(());
                }
                Fault::BadFlags
            }
        };
        // As before the first line, with the name and the count, because cells of another count may have been
        // read.
        self.name = *b"G01";
        self.count = 1;
        self.filled = 0;
        self.values = [None; TYPES_LIMIT];
        self.flags = [b' '; 2 * TYPES_LIMIT];
        Err(fault)
    }

    /// Returns the identifier: the system's letter and the satellite's number; `G01` before the first line.
    #[inline(always)]
    pub fn name(&self) -> &[u8; NAME_WIDTH]
        ensures value { result.now ≡ self.now.name }
        ensures sound { IsSoundRow self.now }
    {
        &self.name
    }

    /// Returns the last row's values in thousandths of their units, one for each type; `None` if an
    /// observation is missing. Before the first line there is one, which is missing.
    #[inline(always)]
    pub fn values(&self) -> &[Option<i64>]
        ensures value { result.now ≡ self.now.values }
        ensures sound { IsSoundRow self.now }
    {
        &self.values[..self.count]
    }

    /// Returns an index, at most the number of types, from which on all values are missing. It need not be
    /// the least one: values before it may be missing too. It is 0 before the first line.
    #[inline(always)]
    pub fn filled_count(&self) -> usize
        ensures missing { AreMissingFrom result self.now.values }
    {
        self.filled
    }

    /// Returns the last row's indicators, two for each type: loss of lock and signal strength. Before the
    /// first line there are two blanks.
    #[inline(always)]
    pub fn flags(&self) -> &[u8]
        ensures value { result.now ≡ self.now.flags }
        ensures sound { IsSoundRow self.now }
    {
        &self.flags[..2 * self.count]
    }

    /// Returns how many values of the last row aren't missing: 0 before the first line. The loop is compiled
    /// to vectors: no step per value, as an iterator's count has.
    pub fn observations(&self) -> usize
        ensures value { result ≡ observations_of self.now }
        ensures within { result ≤ TYPES_LIMIT }
    {
        let values = &self.values[..self.filled];
        let mut count = 0;
        for k in 0..values.len() {
            count += usize::from(values[k].is_some());
        }
        count
    }

    /// Replaces `text` by the last row's printed satellite line, without blanks at its end.
    pub fn print(&self, text: &mut Text)
        ensures value { text.new ≡ printed_row self.now }
    {
        print_row(
            self.name,
            &self.values[..self.count],
            &self.flags[..2 * self.count],
            text,
        );
    }
}

/// Returns whether all indicators are characters 32 to 126 other than `&`. If `is_seen`, this was found when
/// their cells were read, and they aren't tested again: a load of many bytes waits until all are stored.
#[inline(always)]
fn are_kept(is_seen: bool, flags: &[u8]) -> bool
    requires { is_seen ≡ true → list_all is_kept flags.now ≡ true }
    ensures { result ≡ list_all is_kept flags.now }
{
    is_seen || all_kept(flags)
}

/// Reads the first cells of the line into `values` and `flags`: the whole ones, at most `count`, and, if
/// these are fewer, the next one, which the line's end cuts or leaves blank. Returns their number, and `true`
/// if all their indicators were seen to be allowed (`false` says nothing). Returns `None` if a field is
/// neither blank nor a number, or more than blanks follow the last of `count` cells; then some cells may have
/// been stored.
#[inline(always)]
fn read_first_cells(
    line: Padded<'_>,
    count: usize,
    values: &mut [Option<i64>],
    flags: &mut [u8],
) -> Option<(usize, bool)>
    requires paired { ArePaired values.old flags.old }
    requires within { count ≤ length values.old }
    ensures read { IfSome result (λ all. AreFirstRead all.0 count (line_in line.entry) values.new flags.new
        × AreSeen all.1 all.0 flags.new) }
    ensures others { IfSome result (λ all. KeepsEmptyFrom all.0 values.old flags.old values.new flags.new) }
    ensures refused { result ≡ None → row_by_cells count (line_in line.entry) ≡ Err Fault.BadField }
{
    let whole = count.min(line.len().saturating_sub(NAME_WIDTH) / CELL_WIDTH);
    let mut is_seen = true;
    for k in 0..whole {
        let cell = u8x16::from_slice(&line.padded()[CELL_WIDTH * k + NAME_WIDTH..]);
        if !read_cell(cell, k, values, flags)? {
            is_seen = false;
        }
    }
    if whole == count {
        if all_blank(after_columns(line.line(), CELL_WIDTH * count + NAME_WIDTH)) {
            return Some((whole, is_seen));
        }
        return None;
    }
    let is_last_seen = read_cell(cut_columns(line), whole, values, flags)?;
    Some((whole + 1, is_seen & is_last_seen))
}

/// Stores the value and the indicators of `cell`, of 16 columns, as those of type `k`, from 0. Returns `true`
/// if the indicators were seen to be characters 32 to 126 other than `&`; `false` says nothing. Returns
/// `None` and stores nothing if the field is neither blank nor a number of format F14.3. The two indicators
/// are one store.
#[inline(always)]
pub(crate) fn read_cell(
    cell: u8x16,
    k: usize,
    values: &mut [Option<i64>],
    flags: &mut [u8],
) -> Option<bool>
    requires within { k < length values.old }
    requires paired { ArePaired values.old flags.old }
    ensures read { (line : List ℕ) → AreCellsRead k line values.old flags.old
        → cell ≡ columns line (CELL_WIDTH * k + NAME_WIDTH + 1) CELL_WIDTH
        → MatchOption result (observation_of (field line k) ≡ None)
        (λ _. AreCellsRead (k + 1) line values.new flags.new) }
    ensures seen { IfSome result (λ is_seen. (before : Bool) → AreSeen before k flags.old
        → AreSeen (before && is_seen) (k + 1) flags.new) }
    ensures others { KeepsEmptyFrom (k + 1) values.old flags.old values.new flags.new }
{
    let is_seen = obs_read_cell(cell, &mut values[k])?;
    cell.extract::<OBSERVATION_WIDTH, 2>()
        .copy_to_slice(&mut flags[2 * k..]);
    Some(is_seen)
}

/// Returns the 16 columns after the last whole cell, with blanks after the line's end; 16 blanks if nothing
/// follows that cell, or the line has at most three columns.
#[inline(always)]
fn cut_columns(line: Padded<'_>) -> u8x16
    ensures { result ≡ columns (line_in line.entry) (CELL_WIDTH * ((length (line_in line.entry) - NAME_WIDTH) / CELL_WIDTH)
        + NAME_WIDTH + 1) CELL_WIDTH }
{
    let after_name = line.len().saturating_sub(NAME_WIDTH);
    let left = after_name % CELL_WIDTH;
    let cell = u8x16::from_slice(&line.padded()[after_name - left + NAME_WIDTH..]);
    // If the line ends after a field, as most do, no mask is made.
    if left == OBSERVATION_WIDTH {
        return cell.shuffle(
            u8x16::splat(b' '),
            [0, 1, 2, 3, 4, 5, 6, 7, 8, 9, 10, 11, 12, 13, 16, 16],
        );
    }
    let places = u8x16::from_array([0, 1, 2, 3, 4, 5, 6, 7, 8, 9, 10, 11, 12, 13, 14, 15]);
    places
        .simd_lt(u8x16::splat(left as u8))
        .select(cell, u8x16::splat(b' '))
}

/// Empties the cells from index `first` to before `end`, if any: no value, and blank indicators.
#[inline(always)]
fn empty_cells(first: usize, end: usize, values: &mut [Option<i64>], flags: &mut [u8])
    requires others { AreEmptyFrom (max first end) values.old flags.old }
    ensures empty { AreEmptyFrom first values.new flags.new }
    ensures values { take first values.new ≡ take first values.old }
    ensures flags { take (2 * first) flags.new ≡ take (2 * first) flags.old }
{
    let mut k = end;
    while k > first {
        k -= 1;
        values[k] = None;
        flags[2 * k] = b' ';
        flags[2 * k + 1] = b' ';
    }
}
