//! Numbers in columns: observations in format F14.3 and receiver clock offsets in format F15.12
//! (RINEX 3.05, table A3). They are read leniently and printed in one spelling.

ghost use Rattle.std.specs.Prelude.{slice_index, ◌≡◌, ◌+◌, ◌-◌, ◌*◌, ◌<◌, ◌≤◌, ◌^◌, ◌%◌, ◌++◌, ◌∷◌, [], Option, length, take, drop, decimal, IfOk, IfSome, MatchBool, None, Some, IfNone, MatchOption, OnSome, true};
ghost use Rattle.std.specs.List.{list_all};
ghost use Rattle.std.specs.Bool.{OnFalse, OnTrue};
ghost use Rattle.std.specs.Option.{ForSome};
ghost use Rattle.std.specs.Result.{result_ok};
ghost use Rattle.crx_text.specs.declared.digits.TheConstants.{WIDEST};
ghost use Rattle.crx_base.specs.declared.limits.TheConstants.{CELL_WIDTH, OBSERVATION_WIDTH, CLOCK_WIDTH};
ghost use Rattle.crx_text.specs.meaning.Numbers.{IsWithin, number_of, observation_of, clock_of, number_text, observation_text, clock_text, size_text, zero_padded};
ghost use Rattle.crx_text.specs.Numbers.{IsObservation, IsClock};
ghost use Rattle.crx_text.specs.meaning.Texts.{is_kept};

use crate::columns::trim_start;
use crate::digits::{WIDEST, digits_read, split_minus, with_sign};
use crate::text::Text;
use crate::{field, field_text};
use crx_base::limits::{
    CELL_WIDTH, CLOCK_DECIMALS, CLOCK_WIDTH, OBSERVATION_DECIMALS, OBSERVATION_WIDTH,
};
use itoa::write_digits;
use std::simd::prelude::*;
use thiserror::Error;

/// The error of a text that spells no number, or that has another number of columns.
#[derive(Clone, Copy, Debug, PartialEq, Eq, Error)]
#[error("bad field")]
pub struct BadField;

/// Reads an observation of 14 columns, in thousandths; a blank field is `None`, a missing observation. Three
/// digits follow the point. Blanks may be before the number, zeros at its beginning and a minus before 0, and
/// the digits before the point may be missing. Returns `BadField` for any other text or length.
pub fn obs_read(field: &[u8]) -> Result<Option<i64>, BadField>
    ensures value { result_ok result ≡ observation_of field.now }
    ensures in_range { IfOk result (λ value. IfSome value IsObservation) }
{
    number_read(field, OBSERVATION_WIDTH, OBSERVATION_DECIMALS)
}

/// Reads the observation of a cell, whose last two columns are indicators, into `value`: in thousandths, or
/// `None` for 14 blanks. Returns `None`, with `value` unchanged, if the first 14 columns spell no
/// observation. `Some(true)`: both indicators are printable and no `&`; `Some(false)`: that isn't known.
///
/// The spellings that files have are read by lanes; few cells are blank, so that is tested after them. The
/// result doesn't hold the value, which would be copied after each call.
#[inline(always)]
pub fn obs_read_cell(cell: u8x16, value: &mut Option<i64>) -> Option<bool>
    ensures value { MatchOption result (observation_of (take OBSERVATION_WIDTH cell) ≡ None)
        (λ _. observation_of (take OBSERVATION_WIDTH cell) ≡ Some value.new) }
    ensures in_range { OnSome result (IfSome value.new IsObservation) }
    ensures same { IfNone result (value.new ≡ value.old) }
    ensures kept { result ≡ Some true → list_all is_kept (drop OBSERVATION_WIDTH cell) ≡ true }
{
    if field::is_plain(cell) {
        *value = Some(field::value(cell));
        return Some(true);
    }
    if cell == u8x16::splat(b' ') {
        *value = None;
        return Some(true);
    }
    if read_by_column(cell, value) {
        return Some(false);
    }
    None
}

// Reads the observation in a cell's first 14 columns, in any spelling, into `value` (`None` for blanks), and
// returns whether it is one; if not, `value` is unchanged. Not inlined, because it would take its caller's
// registers.
#[inline(never)]
fn read_by_column(cell: u8x16, value: &mut Option<i64>) -> bool
    ensures value { MatchBool result (observation_of (take OBSERVATION_WIDTH cell) ≡ Some value.new)
        (observation_of (take OBSERVATION_WIDTH cell) ≡ None) }
    ensures in_range { OnTrue result (IfSome value.new IsObservation) }
    ensures same { OnFalse result (value.new ≡ value.old) }
{
    let text = cell.to_array();
    let Ok(other) = obs_read(&text[..OBSERVATION_WIDTH]) else {
        return false;
    };
    *value = other;
    true
}

/// Prints an observation, in thousandths, right justified into 14 columns, in which it has to fit, or blanks
/// for `None`.
#[inline(always)]
pub fn obs_print(value: Option<i64>, field: &mut [u8; OBSERVATION_WIDTH])
    requires { ForSome value IsObservation }
    ensures written { field.new ≡ observation_text value }
{
    let mut cell = [b' '; CELL_WIDTH];
    obs_print_row(value, &mut cell);
    field.copy_from_slice(&cell[..OBSERVATION_WIDTH]);
}

/// Prints an observation's cell over the 16 bytes from `at` on: the observation, in thousandths, right
/// justified into 14 columns, in which it has to fit, or blanks for `None`; and the two of `indicators` at
/// index `first` and after it.
#[inline(always)]
pub fn obs_print_cell(
    value: Option<i64>,
    indicators: &[u8],
    first: usize,
    bytes: &mut [u8],
    at: usize,
)
    requires in_range { ForSome value IsObservation }
    requires two { first + 1 < length indicators.now }
    requires room { at + CELL_WIDTH ≤ length bytes.old }
    ensures written { take (at + CELL_WIDTH) bytes.new ≡ take at bytes.old ++ (observation_text value
        ++ slice_index indicators.now first ∷ slice_index indicators.now (first + 1) ∷ []) }
    ensures rest { drop (at + CELL_WIDTH) bytes.new ≡ drop (at + CELL_WIDTH) bytes.old }
{
    let end = at + OBSERVATION_WIDTH;
    obs_print_row(value, &mut bytes[at..at + CELL_WIDTH]);
    let (lock, strength) = (indicators[first], indicators[first + 1]);
    bytes[end] = lock;
    bytes[end + 1] = strength;
}

// Prints an observation, which has to fit, or blanks for `None`, into the first 14 of 16 columns; may
// overwrite the last two.
#[inline(always)]
#[tactic(auto, using(crate::proofs::Spellings::printed_texts))]
fn obs_print_row(value: Option<i64>, cell: &mut [u8])
    requires width { length cell.old ≡ CELL_WIDTH }
    requires in_range { ForSome value IsObservation }
    ensures { take OBSERVATION_WIDTH cell.new ≡ observation_text value }
{
    let Some(number) = value else {
        cell.copy_from_slice(&[b' '; CELL_WIDTH]);
        return;
    };
    let size = number.unsigned_abs();
    // A digit in the first column is printed digit by digit. The test is on the millions, from which the
    // lanes' digits are made, because they fit 32 bits.
    if ((size / 1_000_000) as u32) >= 1_000_000 {
        number_print(value, OBSERVATION_DECIMALS, &mut cell[0..OBSERVATION_WIDTH]);
        return;
    }
    field_text::size_print(size, number < 0, cell);
}

/// Reads a receiver clock offset of 15 columns, in units of 10^-12 seconds; a blank field is `None`, no
/// offset. 12 digits follow the point. Blanks may be before the number, zeros at its beginning and a minus
/// before 0, and the digits before the point may be missing. Returns `BadField` for any other text or length.
pub fn clock_read(field: &[u8]) -> Result<Option<i64>, BadField>
    ensures value { result_ok result ≡ clock_of field.now }
    ensures in_range { IfOk result (λ value. IfSome value IsClock) }
{
    number_read(field, CLOCK_WIDTH, CLOCK_DECIMALS)
}

/// Prints a receiver clock offset, in units of 10^-12 seconds, right justified into 15 columns, in which it
/// has to fit, or blanks for `None`.
pub fn clock_print(value: Option<i64>, field: &mut [u8; CLOCK_WIDTH])
    requires { ForSome value IsClock }
    ensures written { field.new ≡ clock_text value }
{
    number_print(value, CLOCK_DECIMALS, field);
}

// Reads a number of `width` columns, column by column, in units of its last digit; blanks are `None`.
// `decimals`: the digits after its point. Blanks and a minus may be before it, and the digits before the
// point may be missing. Returns `BadField` for any other text or length.
#[inline(never)]
#[tactic(auto, using(crate::proofs::Sizes::number_parts, crate::proofs::Sizes::size_parts))]
fn number_read(field: &[u8], width: usize, decimals: usize) -> Result<Option<i64>, BadField>
    requires { width ≤ WIDEST }
    ensures value { result_ok result ≡ number_of width decimals field.now }
    ensures in_range { IfOk result (λ value. IfSome value (IsWithin width)) }
{
    if field.len() != width {
        return Err(BadField);
    }
    let text = trim_start(field);
    if text.is_empty() {
        return Ok(None);
    }
    let (is_below, rest) = split_minus(text);
    if rest.len() <= decimals {
        return Err(BadField);
    }
    let point = rest.len() - decimals - 1;
    if rest[point] != b'.' {
        return Err(BadField);
    }
    let Some(whole) = digits_read(0, &rest[..point]) else {
        return Err(BadField);
    };
    let Some(size) = digits_read(whole, &rest[point + 1..]) else {
        return Err(BadField);
    };
    Ok(Some(with_sign(is_below, size)))
}

// Prints a number, `decimals` digits after its point, right justified into `field`, or blanks for `None`. The
// number has to fit, with a digit before its point.
#[inline(never)]
#[tactic(auto, using(crate::proofs::Spellings::printed_texts))]
fn number_print(value: Option<i64>, decimals: usize, field: &mut [u8])
    requires shape { (0 < decimals) × (decimals + 3 ≤ length field.old) × (length field.old ≤ WIDEST) }
    requires in_range { ForSome value (IsWithin (length field.old)) }
    ensures { field.new ≡ number_text (length field.old) decimals value }
{
    field.fill(b' ');
    if let Some(number) = value {
        let start = size_print(number.unsigned_abs(), decimals, field);
        if number < 0 {
            field[start - 1] = b'-';
        }
    }
}

// Prints a number without its sign, with `decimals` digits after its point, up to the last column of `field`,
// in which it has to fit, and returns the index of its first digit. The columns before it don't change.
#[tactic(auto, using(crate::proofs::PowersOfTen::ten_pow_pos))]
fn size_print(size: u64, decimals: usize, field: &mut [u8]) -> usize
    requires decimals { (0 < decimals) × (decimals < WIDEST) }
    requires room { length (size_text decimals size) ≤ length field.old }
    ensures start { result + length (size_text decimals size) ≡ length field.old }
    ensures written { drop result field.new ≡ size_text decimals size }
    ensures before { take result field.new ≡ take result field.old }
{
    let unit = 10u64.pow(decimals as u32);
    let point = field.len() - decimals - 1;
    padded_print(size % unit, &mut field[point + 1..]);
    field[point] = b'.';
    write_digits(size / unit, field, point)
}

// Prints a number with zeros before it, so that it fills the columns, in which it has to fit.
fn padded_print(number: u64, columns: &mut [u8])
    requires { length (decimal number) ≤ length columns.old }
    ensures { columns.new ≡ zero_padded (length columns.old) number }
{
    columns.fill(b'0');
    let width = columns.len();
    write_digits(number, columns, width);
}
