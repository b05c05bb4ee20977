//! The search for LF, 32 bytes at a time.
ghost use Rattle.std.specs.Prelude.{◌≡◌, ◌≢◌, ℕ, ◌+◌, ◌<◌, ◌≤◌, length, slice_index, IfSome, IfNone};

use std::simd::prelude::*;

/// Returns the index in `bytes` of the first LF at or after index `from`, or `None` if there is none. `from`
/// may be at most the length of `bytes`; then there is none.
pub fn feed_from(bytes: &[u8], from: usize) -> Option<usize>
    requires { from ≤ length bytes.now }
    ensures within { IfSome result (λ at. (from ≤ at) × (at < length bytes.now)) }
    ensures found { IfSome result (λ at. slice_index bytes.now at ≡ 10) }
    ensures first { IfSome result (λ at. (k : ℕ) → from ≤ k → k < at → slice_index bytes.now k ≢ 10) }
    ensures none { IfNone result ((k : ℕ) → from ≤ k → k < length bytes.now → slice_index bytes.now k ≢ 10) }
{
    let mut at = from;
    while at + 32 <= bytes.len() {
        let feeds = u8x32::from_slice(&bytes[at..])
            .simd_eq(u8x32::splat(b'\n'))
            .to_bitmask();
        if feeds != 0 {
            return Some(at + feeds.trailing_zeros() as usize);
        }
        at += 32;
    }
    for last in at..bytes.len() {
        if bytes[last] == b'\n' {
            return Some(last);
        }
    }
    None
}
