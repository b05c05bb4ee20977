//! Comparison of two short texts, such as a satellite's indicators in two epochs, which are usually the
//! same.

ghost use Rattle.std.specs.Prelude.{◌≡◌, ◌≢◌, ◌+◌, ◌≤◌, length};
ghost use Rattle.std.specs.Bool.{MatchBool};

use std::simd::prelude::*;

/// Returns whether two texts of one length, `N` to `2 * N`, are the same, by their first and last `N` bytes.
#[inline(always)]
fn has_same_ends<const N: usize>(text: &[u8], other: &[u8]) -> bool
    requires narrow { N ≤ 64 }
    requires some { N ≤ length text.now }
    requires few { length text.now ≤ N + N }
    requires same_length { length other.now ≡ length text.now }
    ensures { MatchBool result (text.now ≡ other.now) (text.now ≢ other.now) }
{
    let last = text.len() - N;
    Simd::<u8, N>::from_slice(text) == Simd::<u8, N>::from_slice(other)
        && Simd::<u8, N>::from_slice(&text[last..]) == Simd::<u8, N>::from_slice(&other[last..])
}

/// Returns whether two texts are the same; texts of different lengths aren't. The indicators of 2 to 16 types
/// are compared here by their two ends, which may overlap: no call per line.
#[inline(always)]
pub fn is_same_text(text: &[u8], other: &[u8]) -> bool
    ensures same { MatchBool result (text.now ≡ other.now) (text.now ≢ other.now) }
{
    let count = text.len();
    if count != other.len() {
        return false;
    }
    match count {
        4..=8 => has_same_ends::<4>(text, other),
        9..=16 => has_same_ends::<8>(text, other),
        17..=32 => has_same_ends::<16>(text, other),
        _ => is_same_long(text, other),
    }
}

// Returns whether two texts of one length, usually a long one, are the same; those of 17 to 32 types by their
// two ends too.
#[inline(never)]
fn is_same_long(text: &[u8], other: &[u8]) -> bool
    requires same_length { length other.now ≡ length text.now }
    ensures same { MatchBool result (text.now ≡ other.now) (text.now ≢ other.now) }
{
    match text.len() {
        33..=64 => has_same_ends::<32>(text, other),
        _ => text == other,
    }
}
