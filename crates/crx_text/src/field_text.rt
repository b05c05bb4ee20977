//! An observation's text by lanes: the digits of its 14 columns in one row, then the blanks before the first
//! digit.

ghost use Rattle.std.specs.Prelude.{◌≡◌, ◌+◌, ◌-◌, ◌/◌, ◌%◌, ◌^◌, ◌<◌, ◌≤◌, ◌++◌, ◌∷◌, [], if◌then◌else◌, length, take, replicate};
ghost use Rattle.crx_base.specs.declared.limits.TheConstants.{CELL_WIDTH, OBSERVATION_WIDTH, OBSERVATION_DECIMALS};
ghost use Rattle.crx_text.specs.FieldTexts.{group_digits};
ghost use Rattle.crx_text.specs.meaning.Numbers.{size_text};

use crx_base::limits::OBSERVATION_WIDTH;
use std::simd::prelude::*;

// Returns the digits of a size below 10^12 in groups of three: the two groups of its upper half, then the two
// of its lower half, each time the lower group first. A group has its digits, the last one first, and a 0.
#[inline(always)]
fn digits(size: u64) -> u8x16
    requires { size < 10 ^ 12 }
    ensures { result ≡ group_digits (size / 10 ^ 6 % 1000 ∷ size / 10 ^ 9 ∷ size % 1000 ∷ size / 1000 % 1000 ∷ []) }
{
    let high = (size / 1_000_000) as u32;
    let low = (size - u64::from(high) * 1_000_000) as u32;
    // The zeros tell the compiler that each half is small, so that it makes one product instead of four.
    let halves = u64x2::from_le_bytes(u32x4::from_array([high, 0, low, 0]).to_le_bytes());
    // Each half modulo 1000, and its thousands in the upper 32 bits.
    let thousands = (halves * u64x2::splat(274_877_907)) >> u64x2::splat(38);
    let parts = halves + thousands * u64x2::splat((1 << 32) - 1000);
    // One product turns a group, its tenth and its hundredth into digits, without a division. The mask tells
    // the compiler that all factors are small, for which it has a faster product.
    let groups = u32x4::from_le_bytes(parts.to_le_bytes()) & u32x4::splat(1023);
    let tenths = (groups * u32x4::splat(205)) >> u32x4::splat(11);
    let hundredths = (groups * u32x4::splat(41)) >> u32x4::splat(12);
    let parts = tenths + (hundredths << u32x4::splat(8));
    (groups + parts * u32x4::splat(256 - 10)).to_le_bytes()
}

// The bytes that a row's numbers below 10 are added to: blanks, then `0`s; and the same with a minus before
// the digits.
const BASES: [u8; 64] = [
    32, 32, 32, 32, 32, 32, 32, 32, 32, 32, 32, 32, 32, 32, 32, 32, 48, 48, 48, 48, 48, 48, 48, 48,
    48, 48, 48, 48, 48, 48, 48, 48, 32, 32, 32, 32, 32, 32, 32, 32, 32, 32, 32, 32, 32, 32, 32, 45,
    48, 48, 48, 48, 48, 48, 48, 48, 48, 48, 48, 48, 48, 48, 48, 48,
];

// One digit in `COUNTS`: more than any size.
const DIGIT: u64 = 1 << 48;

// The least number of leading zeros of twice a size plus one, in 64 bits.
const LEAST_ZEROS: usize = 23;

// How many digits sizes are printed with, by their number of bits, the greatest number first. If the longer
// sizes of a row have one digit more, the row counts it, less the least of these sizes.
#[rattlefmt::skip]
static COUNTS: [u64; 41] = [
    13 * DIGIT - 1_000_000_000_000,
    12 * DIGIT, 12 * DIGIT, 12 * DIGIT - 100_000_000_000,
    11 * DIGIT, 11 * DIGIT, 11 * DIGIT - 10_000_000_000,
    10 * DIGIT, 10 * DIGIT, 10 * DIGIT, 10 * DIGIT - 1_000_000_000,
    9 * DIGIT, 9 * DIGIT, 9 * DIGIT - 100_000_000,
    8 * DIGIT, 8 * DIGIT, 8 * DIGIT - 10_000_000,
    7 * DIGIT, 7 * DIGIT, 7 * DIGIT, 7 * DIGIT - 1_000_000,
    6 * DIGIT, 6 * DIGIT, 6 * DIGIT - 100_000,
    5 * DIGIT, 5 * DIGIT, 5 * DIGIT - 10_000,
    4 * DIGIT, 4 * DIGIT, 4 * DIGIT, 4 * DIGIT, 4 * DIGIT, 4 * DIGIT, 4 * DIGIT,
    4 * DIGIT, 4 * DIGIT, 4 * DIGIT, 4 * DIGIT, 4 * DIGIT, 4 * DIGIT, 4 * DIGIT,
];

// Returns how many digits a size, in thousandths, is printed with: at least four, because one is before the
// point. The lowest bit is set, which saves a test for 0.
#[inline(always)]
fn count_digits(size: u64) -> usize
    requires short { size < 10 ^ 12 }
    ensures counted { result + 1 ≡ length (size_text OBSERVATION_DECIMALS size) }
{
    let zeros = (2 * size + 1).leading_zeros() as usize;
    ((size + COUNTS[zeros - LEAST_ZEROS]) / DIGIT) as usize
}

/// Prints a size below 10^12, in thousandths, with a minus if `is_below`, right justified into the first 14
/// columns of a cell, with blanks before it, and returns the index of its first digit. Overwrites the two
/// columns of the indicators. No branch depends on the sign, which can't be predicted. The number's start
/// follows from its size and isn't searched for in its digits, so that the processor waits less.
#[inline(always)]
pub(crate) fn size_print(size: u64, is_below: bool, cell: &mut [u8]) -> usize
    requires short { size < 10 ^ 12 }
    requires width { length cell.old ≡ CELL_WIDTH }
    ensures start { result + length (size_text OBSERVATION_DECIMALS size) ≡ OBSERVATION_WIDTH }
    ensures room { 1 ≤ result }
    ensures written { take OBSERVATION_WIDTH cell.new
        ≡ replicate (result - 1) 32 ++ (if is_below then 45 else 32) ∷ size_text OBSERVATION_DECIMALS size }
{
    // The digits in their columns, and a byte that becomes the point when 48 is added.
    let columns = digits(size).shuffle(
        u8x16::splat(254),
        [3, 6, 5, 4, 2, 1, 0, 14, 13, 12, 16, 10, 9, 8, 3, 3],
    );
    let start = OBSERVATION_WIDTH - 1 - count_digits(size);
    let first = if is_below { 48 } else { 16 };
    let text = columns + u8x16::from_slice(&BASES[first - start..]);
    text.copy_to_slice(cell);
    start
}
