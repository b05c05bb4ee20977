//! The digits of codes, read up to a blank and written one after another.

ghost use Rattle.std.specs.Prelude.{◌≡◌, ◌+◌, ◌-◌, ◌*◌, ◌/◌, ◌%◌, ◌<◌, ◌≤◌, ◌^◌, Some, [], ◌∷◌, ◌++◌, length, take, drop, decimal, IfSome};
ghost use Rattle.std.specs.Fmt.{signed_decimal};
ghost use Rattle.std.specs.Int.{to_le_bytes, w32};
ghost use Rattle.crx_text.specs.FirstDigits.{HasFirstDigits, ReadsDigits};
ghost use Rattle.crx_text.specs.declared.code_digits.TheConstants.{FEW, ROW};
ghost use Rattle.crx_base.specs.declared.limits.TheConstants.{DIGITS_LIMIT};

use crx_base::limits::DIGITS_LIMIT;
use std::simd::prelude::*;

// Returns the number that the digits before a text's first blank make, and the index after that blank, or of
// the text's end. Returns `None` for no digit, more than [`DIGITS_LIMIT`], or another character among them.
#[inline(always)]
#[tactic(auto, using(crate::proofs::CellNumbers::no_first_digit))]
pub(crate) fn digits_before_blank(text: &[u8]) -> Option<(u64, usize)>
    ensures { ReadsDigits text.now result }
{
    let (size, count) = first_digits(text);
    if count == 0 {
        return None;
    }
    if count > DIGITS_LIMIT {
        return None;
    }
    if count == text.len() {
        return Some((size, count));
    }
    if text[count] == b' ' {
        return Some((size, count + 1));
    }
    None
}

// Returns the number that the digits at a text's beginning make, and their count, or 0 and 0 without one.
// Reads at most one digit more than [`DIGITS_LIMIT`].
#[inline(never)]
fn first_digits(text: &[u8]) -> (u64, usize)
    ensures { HasFirstDigits text.now result.0 result.1 }
{
    let limit = text.len().min(DIGITS_LIMIT + 1);
    let mut size = 0;
    let mut count = 0;
    while count < limit {
        let digit = text[count];
        if !digit.is_ascii_digit() {
            return (size, count);
        }
        size = size * 10 + u64::from(digit - b'0');
        count += 1;
    }
    (size, count)
}

// The number of characters in a row of lanes.
const ROW: usize = 8;

// How many digits of a row are read at once.
pub(crate) const FEW: usize = 6;

// The least value of a lane that ends the digits; the lane after the seventh digit always ends them.
const ENDS: [u8; 16] = [10, 10, 10, 10, 10, 10, 10, 0, 0, 0, 0, 0, 0, 0, 0, 0];

// The weight of each digit of a row in its group of three, by the count of digits.
#[rattlefmt::skip]
static WEIGHTS: [u8; 8 * (FEW + 1)] = [
    0, 0, 0, 0, 0, 0, 0, 0,
    1, 0, 0, 0, 0, 0, 0, 0,
    10, 1, 0, 0, 0, 0, 0, 0,
    100, 10, 1, 0, 0, 0, 0, 0,
    100, 10, 1, 0, 1, 0, 0, 0,
    100, 10, 1, 0, 10, 1, 0, 0,
    100, 10, 1, 0, 100, 10, 1, 0,
];

// The weight of the second group, and 2^32 times that of the first group, by the count of digits.
static SCALES: [u64; FEW + 1] = [
    0,
    1 << 32,
    1 << 32,
    1 << 32,
    (10 << 32) + 1,
    (100 << 32) + 1,
    (1000 << 32) + 1,
];

// Returns the number of the `count` digits (at most 6) that begin `text`, or `None` unless exactly `count`
// do. `text` has to have 8 characters, which are read at once; the lanes after them never hold a digit. The
// weights of the two groups of three digits depend on `count` only, so that the processor need not wait for
// the digits.
#[inline(always)]
pub(crate) fn row_number(text: &[u8], count: usize) -> Option<u64>
    requires row { ROW ≤ length text.now }
    requires few { count ≤ FEW }
    ensures digits { IfSome result (λ size. HasFirstDigits text.now size count) }
{
    let row = u8x8::from_slice(text).shuffle(
        u8x8::splat(0),
        [0, 1, 2, 3, 4, 5, 6, 7, 8, 9, 10, 11, 12, 13, 14, 15],
    );
    let digits = row - u8x16::splat(b'0');
    let ends = digits.simd_ge(u8x16::from_array(ENDS)).to_bitmask();
    if ends.trailing_zeros() as usize != count {
        return None;
    }
    let weights = u8x8::from_slice(&WEIGHTS[8 * count..]).shuffle(
        u8x8::splat(0),
        [0, 1, 2, 3, 4, 5, 6, 7, 8, 9, 10, 11, 12, 13, 14, 15],
    );
    let groups = digits
        .shuffle(
            u8x16::splat(0),
            [0, 1, 2, 16, 3, 4, 5, 16, 16, 16, 16, 16, 16, 16, 16, 16],
        )
        .dot4(weights);
    let pairs = u64x2::from_le_bytes(groups.to_le_bytes()).to_array();
    Some(pairs[0].wrapping_mul(SCALES[count]) >> 32)
}

static PAIRS: [u8; 200] =
    *b"00010203040506070809101112131415161718192021222324252627282930313233343536373839404142434445464748495051525354555657585960616263646566676869707172737475767778798081828384858687888990919293949596979899";

// Writes a number's minus, if any, and its digits over `buffer` from index `at` on, and returns the index
// after them. `buffer` has to have three more bytes, which may be overwritten.
#[inline(always)]
#[tactic(auto, using(crate::proofs::DigitPairs::signed_decimal_some))]
pub(crate) fn write_signed(buffer: &mut [u8], at: usize, number: i64) -> usize
    requires { at + length (signed_decimal number) + 3 ≤ length buffer.old }
    ensures written { take result buffer.new ≡ take at buffer.old ++ signed_decimal number }
    ensures within { result ≡ at + length (signed_decimal number) }
{
    buffer[at] = b'-';
    write_decimal(buffer, at + usize::from(number < 0), number.unsigned_abs())
}

// Writes a number without a sign over `buffer` from index `at` on, and returns the index after it. `buffer`
// has to have three more bytes, which may be overwritten.
#[inline(always)]
#[tactic(auto, using(itoa::proofs::Decimal::length_four, crate::proofs::DigitPairs::four_written))]
fn write_decimal(buffer: &mut [u8], at: usize, size: u64) -> usize
    requires { at + length (decimal size) + 3 ≤ length buffer.old }
    ensures written { take result buffer.new ≡ take at buffer.old ++ decimal size }
    ensures within { result ≡ at + length (decimal size) }
{
    if size < 10_000 {
        return write_short(buffer, at, size as u32);
    }
    let high = size / 10_000;
    // At most four digits before the last four are written here, without a call.
    let middle = if high < 10_000 {
        write_short(buffer, at, high as u32)
    } else {
        write_long(buffer, at, high)
    };
    write_word(buffer, middle, four_digits((size - high * 10_000) as u32));
    middle + 4
}

// Writes a number without a sign over `buffer` from index `at` on, and returns the index after it. `buffer`
// has to have three more bytes, which may be overwritten. Calls itself for the digits before the last 4.
#[tactic(auto, using(itoa::proofs::Decimal::length_four, crate::proofs::DigitPairs::four_written))]
fn write_long(buffer: &mut [u8], at: usize, size: u64) -> usize
    requires { at + length (decimal size) + 3 ≤ length buffer.old }
    ensures written { take result buffer.new ≡ take at buffer.old ++ decimal size }
    ensures within { result ≡ at + length (decimal size) }
{
    if size < 10_000 {
        return write_short(buffer, at, size as u32);
    }
    let high = size / 10_000;
    let middle = write_long(buffer, at, high);
    write_word(buffer, middle, four_digits((size - high * 10_000) as u32));
    middle + 4
}

// Writes a number below 10,000 over `buffer` from index `at` on, and returns the index after it. `buffer` has
// to have three more bytes, which may be overwritten, because a word holds the number's four columns, shifted
// by the zeros before it. No branch depends on the count of digits, which may differ by value.
#[inline(always)]
#[tactic(auto, using(std::proofs::lemmas::Fmt::decimal_nonempty))]
fn write_short(buffer: &mut [u8], at: usize, size: u32) -> usize
    requires small { size < 10000 }
    requires room { at + length (decimal size) + 3 ≤ length buffer.old }
    ensures written { take result buffer.new ≡ take at buffer.old ++ decimal size }
    ensures within { result ≡ at + length (decimal size) }
{
    let columns = four_digits(size);
    // The lowest bit that is set among the digits shows the first one that isn't 0; a bit above the last one
    // ends the search, because 0 has a digit of its own. Each digit's character has that bit already.
    let zeros = ((columns & 0x1f0f_0f0f).trailing_zeros() / 8) as usize;
    write_word(buffer, at, columns >> (8 * zeros));
    at + 4 - zeros
}

// Returns the characters of the four digits of a number below 10,000, with zeros at the beginning; the first
// one is the word's lowest byte.
#[inline(always)]
#[tactic(auto, using(crate::proofs::DigitPairs::PAIRS_at))]
fn four_digits(size: u32) -> u32
    requires { size < 10000 }
    ensures { to_le_bytes w32 result ≡ (48 + size / 100 / 10)
        ∷ (48 + size / 100 % 10) ∷ (48 + size % 100 / 10) ∷ (48 + size % 100 % 10) ∷ [] }
{
    // A division by one product: the compiler knows less about the number, and its own is slower.
    let high = (size * 5243) >> 19;
    let low = size - high * 100;
    let (high, low) = (high as usize, low as usize);
    u32::from_le_bytes([
        PAIRS[high * 2],
        PAIRS[high * 2 + 1],
        PAIRS[low * 2],
        PAIRS[low * 2 + 1],
    ])
}

// Writes the four bytes of a word over `buffer`, in which they have to fit, from index `at` on, the lowest
// one first.
#[inline(always)]
fn write_word(buffer: &mut [u8], at: usize, word: u32)
    requires { at + 4 ≤ length buffer.old }
    ensures { take (at + 4) buffer.new ≡ take at buffer.old ++ to_le_bytes w32 word }
{
    buffer[at..at + 4].copy_from_slice(&word.to_le_bytes());
}
