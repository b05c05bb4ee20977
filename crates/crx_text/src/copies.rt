//! Copies of short texts, and blanks, without a call of the C library, which costs more than these few bytes.

ghost use Rattle.std.specs.Prelude.{◌≡◌, ◌≤◌, ◌<◌, length, replicate};
ghost use Rattle.crx_base.specs.declared.limits.TheConstants.{LINE_LIMIT};

use crate::difference::BLANKS;
use crate::lanes::LANES;
use std::simd::prelude::*;

/// Copies `from` over `to`, which has the same length, by vectors that may overlap.
#[inline]
pub fn copy_text(to: &mut [u8], from: &[u8])
    requires { length to.old ≡ length from.now }
    ensures copied { to.new ≡ from.now }
{
    let count = from.len();
    if count >= LANES {
        let last = count - LANES;
        let mut at = 0;
        while at < last {
            u8x16::from_slice(&from[at..]).copy_to_slice(&mut to[at..]);
            at += LANES;
        }
        u8x16::from_slice(&from[last..]).copy_to_slice(&mut to[last..]);
        return;
    }
    if count >= 8 {
        u8x8::from_slice(from).copy_to_slice(to);
        u8x8::from_slice(&from[count - 8..]).copy_to_slice(&mut to[count - 8..]);
        return;
    }
    if count >= 4 {
        u8x4::from_slice(from).copy_to_slice(to);
        u8x4::from_slice(&from[count - 4..]).copy_to_slice(&mut to[count - 4..]);
        return;
    }
    if count == 0 {
        return;
    }
    let last = from[count - 1];
    if count > 1 {
        to[0] = from[0];
        to[1] = from[1];
    }
    to[count - 1] = last;
}

/// Overwrites all of `text`, at most `LINE_LIMIT` bytes and usually none, with blanks, by vectors.
#[inline]
pub fn put_blanks(text: &mut [u8])
    requires { length text.old ≤ LINE_LIMIT }
    ensures blank { text.new ≡ replicate (length text.old) 32 }
{
    if text.is_empty() {
        return;
    }
    let count = text.len();
    copy_text(text, &BLANKS[..count]);
}
