//! Codes, which are the coded values of satellite lines and of the clock line: Hatanaka's Compact RINEX 3.0.

ghost use Rattle.std.specs.Prelude.{◌≡◌, ◌+◌, ◌<◌, ◌≤◌, [], ◌∷◌, ◌++◌, ◌↔◌, Some, length, take, drop, IfOk, IfSome, OnOk, OnErr, OnSome, IsErr, min};
ghost use Rattle.std.specs.Option.{option_map};
ghost use Rattle.std.specs.Result.{result_ok};

use crate::code_digits::{FEW, digits_before_blank, row_number, write_signed};
use crate::digits::{split_minus, split_minus_of_cell, with_sign};
use crate::lanes::LANES;
use crate::number::BadField;
use crate::text::{Text, TextFull};
use crx_base::Padded;
use crx_base::limits::{DIGITS_LIMIT, LINE_LIMIT, ORDER_LIMIT};
use std::simd::prelude::*;

/// A coded value of compact text.
#[derive(Clone, Copy, Debug, PartialEq, Eq)]
pub enum Code {
    /// No value: the empty text.
    Missing,
    /// The first value of an arc, and the order up to which its differences go.
    Start {
        /// The highest order of the arc's differences.
        order: u8,
        /// The value itself, in its unit.
        value: i64,
    },
    /// The next difference of a started arc.
    Step(i64),
}

ghost use Rattle.crx_text.specs.Codes.{IsPrintable, IsShort};
ghost use Rattle.crx_text.specs.meaning.Codes.{after_cell, code_of, code_text, coded_number, first_cell};
ghost use Rattle.crx_text.specs.declared.code.Code.TheVariants.{Step};
ghost use Rattle.crx_base.specs.Padded.{line_in};
ghost use Rattle.crx_base.specs.declared.limits.TheConstants.{LINE_LIMIT};
ghost use Rattle.crx_text.specs.declared.lanes.TheConstants.{LANES};

/// The most bytes that are written with a code: an order, `&`, a minus, the digits, and three more, because
/// digits are written four at a time.
const CODE_WIDTH: usize = DIGITS_LIMIT + 6;

/// Appends the text of `code` to `text`: `3&123`, `-45`, or nothing for a missing value. Its number may have
/// at most [`DIGITS_LIMIT`] digits, its order may be at most [`ORDER_LIMIT`]. Returns `TextFull`, with `text`
/// unchanged, if `text` would be longer than [`LINE_LIMIT`] bytes.
#[inline]
#[tactic(auto, using(crate::proofs::CodeTexts::code_text_length))]
pub fn code_print(code: Code, text: &mut Text) -> Result<(), TextFull>
    requires { IsPrintable code }
    ensures ok { OnOk result (text.new ≡ text.old ++ code_text code) }
    ensures full { IsErr result ↔ (LINE_LIMIT < length text.old + length (code_text code)) }
    ensures err { OnErr result (text.new ≡ text.old) }
{
    if LINE_LIMIT - text.len < CODE_WIDTH {
        let mut printed = [b' '; CODE_WIDTH];
        let end = write_code(&mut printed, 0, code);
        return text.extend(&printed[..end]);
    }
    text.len = write_code(&mut text.bytes, text.len, code);
    Ok(())
}

/// Writes a code's text and a blank over `buffer` from index `at` on, and returns the index after them. From
/// `at` on `buffer` has to have three bytes more than the text; all three may be overwritten.
#[inline(always)]
pub fn write_cell(buffer: &mut [u8], at: usize, code: Code) -> usize
    requires printable { IsPrintable code }
    requires room { at + length (code_text code) + 3 ≤ length buffer.old }
    ensures written { take result buffer.new ≡ take at buffer.old ++ (code_text code ++ 32 ∷ []) }
    ensures within { result ≡ at + length (code_text code) + 1 }
{
    let end = write_code(buffer, at, code);
    buffer[end] = b' ';
    end + 1
}

/// Writes the text of `difference`, such as `-45`, and a blank over `buffer` from index `at` on, and returns
/// the index after them. `difference` may have at most [`DIGITS_LIMIT`] digits. From `at` on `buffer` has to
/// have three bytes more than the text; all three may be overwritten. Makes no [`Code`].
#[inline(always)]
#[tactic(auto, using(crate::proofs::CodeTexts::code_text_start, crate::proofs::CodeTexts::start_written))]
pub fn write_difference(buffer: &mut [u8], at: usize, difference: i64) -> usize
    requires short { IsShort difference }
    requires room { at + length (code_text (Step difference)) + 3 ≤ length buffer.old }
    ensures written { take result buffer.new ≡ take at buffer.old ++ (code_text (Step difference) ++ 32 ∷ []) }
    ensures within { result ≡ at + length (code_text (Step difference)) + 1 }
{
    let end = write_signed(buffer, at, difference);
    buffer[end] = b' ';
    end + 1
}

// Writes a coded value's text (`3&123`, `-45`, or nothing for a missing value) over `buffer` from index `at`
// on, and returns the index after it. `buffer` has to have three more bytes, which may be overwritten.
#[inline(always)]
#[tactic(auto, using(crate::proofs::CodeTexts::code_text_start, crate::proofs::CodeTexts::start_written))]
fn write_code(buffer: &mut [u8], at: usize, code: Code) -> usize
    requires printable { IsPrintable code }
    requires room { at + length (code_text code) + 3 ≤ length buffer.old }
    ensures written { take result buffer.new ≡ take at buffer.old ++ code_text code }
    ensures within { result ≡ at + length (code_text code) }
{
    match code {
        Code::Missing => at,
        Code::Start { order, value } => {
            buffer[at] = b'0' + order;
            buffer[at + 1] = b'&';
            write_signed(buffer, at + 2, value)
        }
        Code::Step(difference) => write_signed(buffer, at, difference),
    }
}

/// Reads the code that is all of `text`. A number is an optional minus and 1 to [`DIGITS_LIMIT`] digits, with
/// leading zeros and `-0` allowed; an order is one digit of at most [`ORDER_LIMIT`] before `&`; the empty
/// text is a missing value. Returns `BadField` for any other text.
#[tactic(auto, using(crate::proofs::CellNumbers::no_code_with_blank, crate::proofs::CellNumbers::one_cell))]
pub fn code_read(text: &[u8]) -> Result<Code, BadField>
    ensures value { result_ok result ≡ code_of text.now }
    ensures printable { IfOk result IsPrintable }
{
    if text.contains(&b' ') {
        return Err(BadField);
    }
    let (code, _) = code_before_blank(text)?;
    Ok(code)
}

/// Reads the code before the first blank of `line`, or up to its end, and returns it with the index after
/// that blank, or of the end. The empty code is a missing value; any other is an optional minus and 1 to
/// [`DIGITS_LIMIT`] digits, with or without an order (a digit of at most [`ORDER_LIMIT`]) and `&` before
/// them. Returns `BadField` for any other text.
#[inline(always)]
pub fn code_before_blank(line: &[u8]) -> Result<(Code, usize), BadField>
    ensures value { option_map (λ cell. cell.0) (result_ok result) ≡ code_of (first_cell line.now) }
    ensures next { IfOk result (λ cell. drop cell.1 line.now ≡ after_cell line.now) }
    ensures within { IfOk result (λ cell. cell.1 ≤ length line.now) }
    ensures printable { IfOk result (λ cell. IsPrintable cell.0) }
{
    match line {
        [] => Ok((Code::Missing, 0)),
        [b' ', ..] => Ok((Code::Missing, 1)),
        [order, b'&', rest @ ..] => {
            if !order.is_ascii_digit() || *order - b'0' > ORDER_LIMIT {
                return Err(BadField);
            }
            let order = *order - b'0';
            match number_before_blank(rest) {
                Some((value, next)) => Ok((Code::Start { order, value }, next + 2)),
                None => Err(BadField),
            }
        }
        _ => match number_before_blank(line) {
            Some((difference, next)) => Ok((Code::Step(difference), next)),
            None => Err(BadField),
        },
    }
}

/// Returns how many characters the cell at index `at` of a line has, up to a blank or the line's end, but 16
/// if it has more; 0 at a blank or the end, which `at` may not pass. A bit above the bits of the 16
/// characters ends the search, which saves a test.
#[inline(always)]
pub fn cell_length(line: Padded<'_>, at: usize) -> usize
    requires within { at ≤ length (line_in line) }
    ensures value { result < LANES → result ≡ length (first_cell (drop at (line_in line.entry))) }
    ensures most { result ≡ min (length (first_cell (drop at (line_in line.entry)))) LANES }
{
    let blanks = u8x16::from_slice(&line.padded()[at..])
        .simd_eq(u8x16::splat(b' '))
        .to_bitmask();
    (blanks | 0x10000).trailing_zeros() as usize
}

/// Reads the difference in the cell at index `at` of a line. `characters`: its length by [`cell_length`].
/// Returns `None` if the cell is empty, another code or no code, and also if it has seven digits or more,
/// which only [`code_before_blank`] reads.
#[inline(always)]
pub fn step_of_length(line: Padded<'_>, at: usize, characters: usize) -> Option<i64>
    requires within { at ≤ length (line_in line) }
    requires counted { characters < LANES → characters ≡ length (first_cell (drop at (line_in line))) }
    ensures value { IfSome result (λ number.
        code_of (first_cell (drop at (line_in line.entry))) ≡ Some (Step number)) }
    ensures short { IfSome result IsShort }
    ensures few { OnSome result (characters < LANES) }
{
    let (is_below, digits) = split_minus_of_cell(&line.padded()[at..]);
    // A minus in a cell without characters, which doesn't exist, would be too many digits.
    let count = characters.wrapping_sub(usize::from(is_below));
    if count == 0 || count > FEW {
        return None;
    }
    let size = row_number(digits, count)?;
    Some(with_sign(is_below, size))
}

// Returns the number before a text's first blank, or up to its end, and the index after the blank or of the
// end. Returns `None` if it isn't an optional minus and 1 to [`DIGITS_LIMIT`] digits.
#[inline(always)]
fn number_before_blank(text: &[u8]) -> Option<(i64, usize)>
    ensures value { option_map (λ cell. cell.0) result ≡ coded_number (first_cell text.now) }
    ensures next { IfSome result (λ cell. drop cell.1 text.now ≡ after_cell text.now) }
    ensures within { IfSome result (λ cell. cell.1 ≤ length text.now) }
    ensures short { IfSome result (λ cell. IsShort cell.0) }
{
    let (is_below, digits) = split_minus(text);
    let (size, next) = digits_before_blank(digits)?;
    Some((with_sign(is_below, size), next + usize::from(is_below)))
}
