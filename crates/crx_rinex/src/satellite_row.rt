//! Satellite lines. RINEX 3.05, table A3, OBSERVATION record, A1,I2.2,m(F14.3,I1,I1).

ghost use Rattle.std.specs.Prelude.{◌≡◌, ◌≤◌, ◌<◌, ◌+◌, ◌*◌, ◌++◌, ◌⊎◌, true, Ok, Err, is_some, length, All, IfOk, IfErr, MatchResult, None, replicate, slice_get, take, vec_len};
ghost use Rattle.std.specs.List.{list_all};
ghost use Rattle.std.specs.Option.{ForSome};
ghost use Rattle.crx_base.specs.declared.limits.TheConstants.{CELL_WIDTH, NAME_WIDTH, TYPES_LIMIT};
ghost use Rattle.crx_text.specs.meaning.Numbers.{IsValue};
ghost use Rattle.crx_text.specs.Numbers.{IsObservation};
ghost use Rattle.crx_text.specs.meaning.Texts.{is_kept};
ghost use Rattle.crx_header.specs.meaning.ObservationTypes.{IsAllowedCount};
ghost use Rattle.crx_rinex.specs.meaning.Printing.{printed_row};
ghost use Rattle.crx_text.specs.meaning.PrintedCells.{printed_cells};
ghost use Rattle.crx_rinex.specs.SatelliteLines.{blank_row, with_flags, with_value};
ghost use Rattle.crx_rinex.specs.meaning.SatelliteLines.{row_of, IsSoundRow};
ghost use Rattle.crx_header.specs.meaning.Satellites.{is_identifier, types_of_satellite};

use crate::row_buffer::read_cell;
use crx_base::limits::{CELL_WIDTH, NAME_WIDTH, TYPES_LIMIT};
use crx_base::memory::reserve_exact;
use crx_base::{Fault, Refused};
use crx_header::{
    Types, after_columns, all_blank, identifier, padded, put_flags, types_of_satellite,
};
use crx_text::appending::append;
use crx_text::{Text, all_kept, obs_print_cell};
use std::alloc::Global;
use std::marker::Model;
use std::simd::prelude::*;

/// A satellite in an epoch: its identifier, a value for each observation type of its system, and two
/// indicators for each value.
#[derive(Drop)]
pub struct SatRow {
    name: [u8; NAME_WIDTH],
    values: Vec<Option<i64>>,
    flags: Vec<u8>,
}

impl Model for SatRow {
    ghost use Rattle.crx_rinex.specs.meaning.Observations.{Row};
    ghost use Rattle.crx_rinex.specs.meaning.SatelliteLines.{IsSoundRow};

    ghost Value = { Row };

    ghost view = { λ row. record { name = row.name; values = row.values.items; flags = row.flags.items } };

    ghost invariant = { λ row. IsSoundRow (record { name = row.name; values = row.values.items; flags = row.flags.items }) };
}

impl SatRow {
    /// Reads a satellite line of any length, with the counts of types that the header declared (RINEX 3.05,
    /// table A3). Columns after its end count as blank: their values are missing.
    ///
    /// Returns `BadSatellite` if columns 1 to 3 hold no identifier (a letter that has types, a digit or a
    /// blank, a digit); otherwise `OutOfMemory` if memory is refused; otherwise `BadField` if a field is
    /// neither blank nor a number of format F14.3, or more than blanks follow the last cell; otherwise
    /// `BadFlags` if an indicator is outside the characters 32 to 126, or is `&`.
    pub fn read(alloc: Global, types: &Types, line: &[u8]) -> Result<SatRow, Fault>
        ensures ok { IfOk result (λ row. row_of types.now line.now ≡ Ok row) }
        ensures sound { IfOk result IsSoundRow }
        ensures err { IfErr result (λ fault. (row_of types.now line.now ≡ Err fault)
            ⊎ ((fault ≡ Fault.OutOfMemory) × (is_some (types_of_satellite types.now line.now) ≡ true))) }
    {
        let Some(m) = types_of_satellite(types, line) else {
            return Err(Fault::BadSatellite);
        };
        let (mut values, mut flags) = blank_cells(alloc, m)?;
        let read = values.as_mut_slice();
        let marks = flags.as_mut_slice();
        for k in 0..m {
            let cell = u8x16::from_array(padded(line, CELL_WIDTH * k + NAME_WIDTH + 1));
            let Some(_) = read_cell(cell, k, read, marks) else {
                return Err(Fault::BadField);
            };
        }
        if !all_blank(after_columns(line, CELL_WIDTH * m + NAME_WIDTH)) {
            return Err(Fault::BadField);
        }
        if !all_kept(marks) {
            return Err(Fault::BadFlags);
        }
        Ok(SatRow {
            name: identifier(line, 1),
            values,
            flags,
        })
    }

    /// Returns a row with `m` missing values and blank indicators. `name` has to be an identifier, and `m`
    /// from 1 to [`TYPES_LIMIT`]. Returns `OutOfMemory`, its only error, if memory is refused.
    pub fn blank(alloc: Global, name: [u8; NAME_WIDTH], m: usize) -> Result<SatRow, Fault>
        requires named { is_identifier name ≡ true }
        requires allowed { IsAllowedCount m }
        ensures value { MatchResult result
            (λ row. row ≡ blank_row name m) (λ fault. fault ≡ Fault.OutOfMemory) }
    {
        let (values, flags) = blank_cells(alloc, m)?;
        Ok(SatRow {
            name,
            values,
            flags,
        })
    }

    /// Returns the identifier: the system's letter and the satellite's number.
    pub fn name(&self) -> [u8; NAME_WIDTH]
        ensures value { result ≡ self.now.name }
        ensures sound { IsSoundRow self.now }
    {
        self.name
    }

    /// Returns the value of type `k`, from 0, in thousandths of its unit: `Some(None)` if the observation is
    /// missing, and `None` from the count of types on.
    pub fn value(&self, k: usize) -> Option<Option<i64>>
        ensures value { result ≡ slice_get self.now.values k }
        ensures sound { IsSoundRow self.now }
    {
        self.values.get(k).copied()
    }

    /// Returns the values, one for each type, in thousandths of its unit; `None` is a missing observation.
    pub fn values(&self) -> &[Option<i64>]
        ensures value { result.now ≡ self.now.values }
        ensures sound { IsSoundRow self.now }
    {
        &self.values
    }

    /// Returns the indicators, two for each type: loss of lock and signal strength.
    pub fn flags(&self) -> &[u8]
        ensures value { result.now ≡ self.now.flags }
        ensures sound { IsSoundRow self.now }
    {
        &self.flags
    }

    /// Replaces the value of type `k`, from 0, by `value`, in thousandths of its unit; `None` is missing. `k`
    /// has to be below the number of types, and `value` has to fit 14 columns.
    pub fn set(&mut self, k: usize, value: Option<i64>)
        requires within { k < length self.old.values }
        requires ranged { ForSome value IsObservation }
        ensures value { self.new ≡ with_value self.old k value }
    {
        self.values[k] = value;
    }

    /// Writes `flags` over the first indicators, two for each type; the other indicators become blank.
    /// `flags` has to have at most two for each type of the row, all of them characters 32 to 126 other than
    /// `&`.
    pub fn set_flags(&mut self, flags: &[u8])
        requires fitting { length flags.now ≤ 2 * length self.old.values }
        requires kept { list_all is_kept flags.now ≡ true }
        ensures value { self.new ≡ with_flags self.old flags.now }
    {
        put_flags(&mut self.flags, flags);
    }

    /// Replaces `text` by the printed satellite line, without blanks at its end.
    pub fn print(&self, text: &mut Text)
        ensures value { text.new ≡ printed_row self.now }
        ensures sound { IsSoundRow self.now }
    {
        print_row(self.name, &self.values, &self.flags, text);
    }
}

/// Returns `m` missing values, and two blank indicators for each, or `Refused` if memory is refused. `m` has
/// to be at most [`TYPES_LIMIT`].
fn blank_cells(alloc: Global, m: usize) -> Result<(Vec<Option<i64>>, Vec<u8>), Refused>
    requires allowed { m ≤ TYPES_LIMIT }
    ensures values { IfOk result (λ cells. cells.0.items ≡ replicate m None) }
    ensures flags { IfOk result (λ cells. cells.1.items ≡ replicate (2 * m) 32) }
    ensures counted { IfOk result (λ cells. (vec_len cells.0 ≡ m) × (vec_len cells.1 ≡ 2 * m)) }
{
    let mut values = Vec::new(alloc);
    reserve_exact(&mut values, m)?;
    values.resize(m, None).unwrap();
    let mut flags = Vec::new(alloc);
    reserve_exact(&mut flags, 2 * m)?;
    flags.resize(2 * m, b' ').unwrap();
    Ok((values, flags))
}

/// Replaces `text` by the printed satellite line of a row with these parts, without blanks at its end.
/// `flags`: two indicators for each of `values`.
pub(crate) fn print_row(
    name: [u8; NAME_WIDTH],
    values: &[Option<i64>],
    flags: &[u8],
    text: &mut Text,
)
    requires sound { IsSoundRow (record { name = name; values = values.now; flags = flags.now }) }
    ensures value { text.new ≡ printed_row (record { name = name; values = values.now; flags = flags.now }) }
{
    text.clear();
    append(text, &name);
    text.len = print_cells(values, flags, &mut text.bytes, NAME_WIDTH);
    text.trim_end_blanks();
}

/// Prints a cell for each of `values` over the bytes from index `at` on, which `bytes` has to have: the
/// value, or 14 blanks if it is missing, and two of `flags`. Returns the index after the last cell, which is
/// `at` without values.
fn print_cells(values: &[Option<i64>], flags: &[u8], bytes: &mut [u8], at: usize) -> usize
    requires ranged { All IsValue values.now }
    requires paired { length flags.now ≡ 2 * length values.now }
    requires room { at + CELL_WIDTH * length values.now ≤ length bytes.old }
    ensures cells { take result bytes.new ≡ take at bytes.old ++ printed_cells values.now flags.now }
    ensures end { result ≡ at + CELL_WIDTH * length values.now }
{
    let mut end = at;
    for k in 0..values.len() {
        obs_print_cell(values[k], flags, 2 * k, bytes, end);
        end += CELL_WIDTH;
    }
    end
}
