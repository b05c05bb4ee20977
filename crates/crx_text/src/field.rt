//! A cell's 16 columns in one row of lanes: an observation's 14, with blanks, perhaps a minus, digits, and
//! the point in column 11, and two indicators. Nearly every cell is written like this.

ghost use Rattle.std.specs.Prelude.{take, ◌≡◌, ◌==◌, ◌+◌, ◌*◌, ◌^◌, ◌<◌, slice_index, IsTrue};
ghost use Rattle.std.specs.List.{list_any};
ghost use Rattle.std.specs.Simd.Lanes.{Each1};
ghost use Rattle.crx_base.specs.declared.limits.TheConstants.{OBSERVATION_WIDTH};
ghost use Rattle.crx_text.specs.Fields.{IsPlain, weighed, plain_digits};
ghost use Rattle.crx_text.specs.Numbers.{IsObservation};
ghost use Rattle.crx_text.specs.meaning.Numbers.{signed_number};

use crate::digits::with_sign;
use std::simd::prelude::*;

// The lanes of a field's columns among the 16.
const FIELD: u64 = 0x3fff;

// The least byte that a column may have, other than a blank or a minus: a digit, or the point.
const FIRST: [u8; 16] = [
    45, 48, 48, 48, 48, 48, 48, 48, 48, 48, 46, 48, 48, 48, 48, 48,
];

// How far above that byte a column's byte may be; the first column may have a minus, but no digit.
const MOST: [u8; 16] = [0, 9, 9, 9, 9, 9, 9, 9, 9, 9, 0, 9, 9, 9, 9, 9];

// The byte before a blank or a minus: a blank. [`is_plain`] puts 0 before columns 11 to 16, so that only the
// last two of these, the indicators, may be a blank or a minus.
const BEFORE: [u8; 16] = [32, 32, 32, 32, 32, 32, 32, 32, 32, 32, 32, 32, 32, 32, 0, 0];

/// Returns `true` only if a cell's columns are plain (blanks, perhaps a minus, digits, and the point in
/// column 11) and its indicators are digits, blanks or minuses, as they usually are; `false` says nothing.
#[inline(always)]
pub(crate) fn is_plain(columns: u8x16) -> bool
    ensures { IsTrue result → IsPlain columns }
{
    let before = columns.shuffle(
        u8x16::splat(0),
        [0, 0, 1, 2, 3, 4, 5, 6, 7, 8, 16, 16, 16, 16, 16, 16],
    );
    let others = (columns - u8x16::from_array(FIRST)).saturating_sub(u8x16::from_array(MOST));
    let prefix = columns.simd_eq(u8x16::splat(b' ')) | columns.simd_eq(u8x16::splat(b'-'));
    let allowed = before.simd_eq(u8x16::from_array(BEFORE)) & prefix;
    let refused = allowed.select(u8x16::splat(0), others);
    refused.reduce_or() == 0
}

// The weights of three digits.
const WEIGHTS: [u8; 16] = [100, 10, 1, 0, 100, 10, 1, 0, 100, 10, 1, 0, 100, 10, 1, 0];

// Returns the number whose digits are in four groups of three, the most significant first. Two groups at a
// time are joined, in lanes of 64 bits, whose products are the fastest ones.
#[inline(always)]
#[tactic(auto, using(crate::proofs::PlainSizes::pairs_are))]
fn of_groups(groups: u32x4) -> u64
    requires { Each1 (λ group. group < 2 ^ 16) groups }
    ensures { result ≡ ((slice_index groups 0 * 1000 + slice_index groups 1) * 1000 + slice_index groups 2)
        * 1000 + slice_index groups 3 }
{
    let pairs = u64x2::from_le_bytes(groups.to_le_bytes());
    let first = pairs & u64x2::splat(0xffff_ffff);
    let joined = (first * u64x2::splat(1000) + (pairs >> u64x2::splat(32))).to_array();
    joined[0] * 1_000_000 + joined[1]
}

/// Returns the observation, in thousandths, of a cell's columns, which have to be plain: blanks, perhaps a
/// minus, digits, and the point in column 11.
#[inline(always)]
pub(crate) fn value(columns: u8x16) -> i64
    requires { IsPlain columns }
    ensures value { result ≡ signed_number
        (list_any (λ c. c == 45) (take OBSERVATION_WIDTH columns)) (weighed 0 (plain_digits columns)) }
    ensures in_range { IsObservation result }
{
    let has_minus = columns.simd_eq(u8x16::splat(b'-')).to_bitmask() & FIELD != 0;
    // A blank or a minus counts as 0, and the point is left out.
    let digits = columns
        .saturating_sub(u8x16::splat(b'0'))
        .swizzle([1, 2, 3, 0, 4, 5, 6, 0, 7, 8, 9, 0, 11, 12, 13, 0]);
    let size = of_groups(digits.dot4(u8x16::from_array(WEIGHTS)));
    with_sign(has_minus, size)
}
