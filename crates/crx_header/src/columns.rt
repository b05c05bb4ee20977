//! Labels of header lines and numbers in columns, with the columns of a line.
//! RINEX 3.05, tables A1 and A2.

ghost use Rattle.std.specs.Prelude.{◌≡◌, ◌≤◌, ◌<◌, ◌+◌, ◌++◌, ◌≢◌, length, take, drop, IfSome, MatchBool};
ghost use Rattle.crx_base.specs.declared.limits.TheConstants.{LINE_LIMIT, NAME_WIDTH};
ghost use Rattle.crx_text.specs.meaning.Columns.{columns};
ghost use Rattle.crx_header.specs.meaning.Label.{has_label, number_in};

use crx_base::limits::NAME_WIDTH;
use crx_text::columns::{character, trim_columns, trim_end_columns};
pub use crx_text::columns::{after_columns, all_blank, padded};

/// Returns the number in the three columns of `line` from `first` on (the first column is 1): digits, with
/// blanks before or after them. Returns `None` for anything else, also if all three are blank or after the
/// line's end. Inlined, because it is shorter if `first` is known.
#[inline(always)]
pub fn number(line: &[u8], first: usize) -> Option<usize>
    requires from_one { 1 ≤ first }
    ensures value { result ≡ number_in (columns line.now first 3) }
    ensures small { IfSome result (λ number. number < 1000) }
{
    let digits = trim_columns(line, first, 3);
    if digits.is_empty() {
        return None;
    }
    let mut number = 0;
    for c in digits {
        if !c.is_ascii_digit() {
            return None;
        }
        number = number * 10 + usize::from(*c - b'0');
    }
    Some(number)
}

/// Returns whether columns 61 to 80 of a header line hold `label` and only blanks after it.
pub fn is_labelled(line: &[u8], label: &[u8]) -> bool
    ensures value { result ≡ has_label label.now line.now }
{
    trim_end_columns(line, 61, 20) == label
}

/// Returns the three characters from column `first` on (the first column is 1), unchecked, with blanks after
/// the line's end.
#[inline(always)]
pub fn identifier(line: &[u8], first: usize) -> [u8; NAME_WIDTH]
    requires from_one { 1 ≤ first }
    requires few { first ≤ LINE_LIMIT }
    ensures value { result ≡ columns line.now first NAME_WIDTH }
{
    // Usually it is within the line: then one test of the line's length replaces three.
    if first + 1 < line.len() {
        return [line[first - 1], line[first], line[first + 1]];
    }
    [
        character(line, first),
        character(line, first + 1),
        character(line, first + 2),
    ]
}

/// Writes `name` over the three bytes from index `at` on, which `bytes` has to have. They are stored singly,
/// because a copy would test whether the two texts overlap.
#[inline(always)]
pub fn put_identifier(bytes: &mut [u8], at: usize, name: [u8; NAME_WIDTH])
    requires { at + NAME_WIDTH ≤ length bytes.old }
    ensures put { take (at + NAME_WIDTH) bytes.new ≡ take at bytes.old ++ name }
    ensures rest { drop (at + NAME_WIDTH) bytes.new ≡ drop (at + NAME_WIDTH) bytes.old }
{
    bytes[at] = name[0];
    bytes[at + 1] = name[1];
    bytes[at + 2] = name[2];
}

/// Returns whether two identifiers are the same. Their first two bytes are compared as one number.
#[inline(always)]
pub fn is_same_identifier(one: [u8; NAME_WIDTH], other: [u8; NAME_WIDTH]) -> bool
    ensures same { MatchBool result (one ≡ other) (one ≢ other) }
{
    u16::from_le_bytes([one[0], one[1]]) == u16::from_le_bytes([other[0], other[1]])
        && one[2] == other[2]
}
