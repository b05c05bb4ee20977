//! Whether a satellite line has the form in which it is printed, by its bytes only. RINEX 3.05, table A3,
//! OBSERVATION record, A1,I2.2,m(F14.3,I1,I1).

ghost use Rattle.std.specs.Prelude.{◌≡◌, List, ℤ, Option, Some, Ok, drop};
ghost use Rattle.std.specs.Bool.{OnTrue};
ghost use Rattle.crx_text.specs.meaning.Numbers.{observation_of, observation_text};
ghost use Rattle.crx_header.specs.meaning.ObservationTypes.{Count};
ghost use Rattle.crx_rinex.specs.meaning.Observations.{Row};
ghost use Rattle.crx_rinex.specs.meaning.Printing.{printed_row};
ghost use Rattle.crx_rinex.specs.meaning.SatelliteLines.{row_of};

use crx_base::limits::{CELL_WIDTH, NAME_WIDTH, OBSERVATION_WIDTH};
use std::simd::prelude::*;

// How many columns are before a field in its lanes, so that the last lane has its last column.
const BEFORE: usize = CELL_WIDTH - OBSERVATION_WIDTH;

// The byte before an odd column, unless that is a minus. The first column is odd by itself, and a zero in the
// last column before the point only after a minus.
const AFTER: [u8; CELL_WIDTH] = *b"--0        - ---";

// The byte in an odd column: a zero, and in the point's column the point.
const ODD: [u8; CELL_WIDTH] = *b"000000000000.000";

/// Returns `true` only if the line, read as a satellite line, is printed as the same bytes, as nearly every
/// one is: it ends with its identifier, a field or an indicator, which isn't blank, and each field has a
/// digit before its point, and no zero before its number or after a minus. `false`, as for an empty line,
/// says nothing, and neither does `true` if the line can't be read.
#[inline(always)]
pub fn has_printed_form(line: &[u8]) -> bool
    ensures form { OnTrue result ((types : List Count) (row : Row) → row_of types line.now ≡ Ok row → printed_row row ≡ line.now) }
{
    let length = line.len();
    if length == 0 || line[length - 1] == b' ' || (length - 1) % CELL_WIDTH > BEFORE {
        return false;
    }
    for k in 0..(length - 1) / CELL_WIDTH {
        let start = CELL_WIDTH * k + (NAME_WIDTH - BEFORE);
        if !is_printed_field(u8x16::from_slice(&line[start..start + CELL_WIDTH])) {
            return false;
        }
    }
    true
}

/// Returns `true` only if the field in the last 14 of `columns`, if it can be read, is surely printed as the
/// same bytes; `false` says nothing.
#[inline(always)]
fn is_printed_field(columns: u8x16) -> bool
    ensures form { OnTrue result ((value : Option ℤ) → observation_of (drop BEFORE columns) ≡ Some value
        → observation_text value ≡ drop BEFORE columns) }
{
    let before = columns.shuffle(
        u8x16::splat(0),
        [16, 16, 2, 2, 3, 4, 5, 6, 7, 8, 9, 10, 11, 16, 16, 16],
    );
    let is_after = before.simd_eq(u8x16::from_array(AFTER)) | before.simd_eq(u8x16::splat(b'-'));
    !(is_after & columns.simd_eq(u8x16::from_array(ODD))).any()
}
