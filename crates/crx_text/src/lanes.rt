//! Texts read and written in vectors of 16 characters; the last one may overlap the one before it.

ghost use Rattle.std.specs.Prelude.{◌≡◌, ℕ, ◌+◌, ◌-◌, ◌<◌, ◌≤◌, ◌++◌, ◌==◌, ◌&&◌, length, take, drop};
ghost use Rattle.std.specs.List.{list_all};
ghost use Rattle.std.specs.Simd.Lanes.{chunk, zip2};
ghost use Rattle.crx_text.specs.Texts.{is_allowed};

use std::simd::prelude::*;

/// How many characters a vector holds.
pub(crate) const LANES: usize = 16;

// Returns `others` with more lanes that aren't 0: always the lanes of characters outside 32 to 126, and if
// `IS_TEXT` also the lanes of `&`. The other lanes keep their values.
#[inline(always)]
fn with_others<const IS_TEXT: bool>(others: u8x16, characters: u8x16) -> u8x16
    ensures both { list_all (λ lane. lane == 0) result
        ≡ (list_all (λ lane. lane == 0) others && list_all (is_allowed IS_TEXT) characters) }
{
    let unprintable = (characters - u8x16::splat(32)).saturating_sub(u8x16::splat(94));
    if !IS_TEXT {
        return others | unprintable;
    }
    let ampersands = characters
        .simd_eq(u8x16::splat(b'&'))
        .select(u8x16::splat(255), u8x16::splat(0));
    others | (unprintable | ampersands)
}

// Returns whether all characters are 32 to 126 and, if `IS_TEXT`, none is `&`; `true` for the empty text.
// Nearly always they are, so one test at the end is enough. From 8 characters on the two ends of a text are
// one vector: no test per character for the 8 indicators of four types.
pub(crate) fn all_allowed<const IS_TEXT: bool>(text: &[u8]) -> bool
    ensures { result ≡ list_all (is_allowed IS_TEXT) text.now }
{
    if text.len() >= LANES {
        let last = text.len() - LANES;
        let mut others = u8x16::splat(0);
        let mut at = 0;
        while at < last {
            others = with_others::<IS_TEXT>(others, u8x16::from_slice(&text[at..]));
            at += LANES;
        }
        return with_others::<IS_TEXT>(others, u8x16::from_slice(&text[last..])).reduce_or() == 0;
    }
    if text.len() >= 8 {
        return with_others::<IS_TEXT>(u8x16::splat(0), ends_of_eight(text)).reduce_or() == 0;
    }
    for character in text {
        let character = *character;
        if character < 32 || character > 126 || IS_TEXT && character == b'&' {
            return false;
        }
    }
    true
}

/// Returns the first 8 characters of a text, which has 8 or more, and its last 8.
#[inline(always)]
#[tactic(auto, using(crate::proofs::TextEnds::eight_ends))]
fn ends_of_eight(text: &[u8]) -> u8x16
    requires { 8 ≤ length text.now }
    ensures { result ≡ take 8 text.now ++ drop (length text.now - 8) text.now }
{
    let last = u8x8::from_slice(&text[text.len() - 8..]);
    u8x8::from_slice(text).shuffle(last, [0, 1, 2, 3, 4, 5, 6, 7, 8, 9, 10, 11, 12, 13, 14, 15])
}

/// A rule that makes one character from two at the same position of two texts.
pub(crate) trait Rule {
    ghost rule: { ℕ → ℕ → ℕ };

    /// Returns the character made from an old character and another one.
    fn apply(old: u8, other: u8) -> u8
        ensures value { result ≡ rule old other };

    /// Returns the 16 characters made from 16 pairs.
    fn apply_to(old: u8x16, other: u8x16) -> u8x16
        ensures value { result ≡ zip2 rule old other };
}

/// Writes to `out` the characters that the rule makes from two texts; all three have the same length. Texts
/// shorter than a vector are taken by their two ends from 8 characters on, otherwise one by one.
pub(crate) fn write_by_rule<R: Rule>(old: &[u8], other: &[u8], out: &mut [u8])
    requires { (length other.now ≡ length old.now) × (length out.old ≡ length old.now) }
    ensures { out.new ≡ zip2 R.rule old.now other.now }
{
    let count = old.len();
    if count >= LANES {
        let last = count - LANES;
        let mut at = 0;
        while at < last {
            write_lanes::<R>(old, other, out, at);
            at += LANES;
        }
        write_lanes::<R>(old, other, out, last);
        return;
    }
    if count >= 8 {
        let made = R::apply_to(ends_of_eight(old), ends_of_eight(other));
        made.extract::<0, 8>().copy_to_slice(out);
        made.extract::<8, 8>().copy_to_slice(&mut out[count - 8..]);
        return;
    }
    for column in 0..count {
        out[column] = R::apply(old[column], other[column]);
    }
}

// Writes the 16 characters that the rule makes at the indices from `at` on to the same places of `out`. All
// three texts have the same length and have to have 16 characters from `at` on.
#[inline(always)]
fn write_lanes<R: Rule>(old: &[u8], other: &[u8], out: &mut [u8], at: usize)
    requires room { at + 16 ≤ length old.now }
    requires same_length { (length other.now ≡ length old.now) × (length out.old ≡ length old.now) }
    ensures written { take (at + 16) out.new
        ≡ take at out.old ++ chunk at 16 (zip2 R.rule old.now other.now) }
    ensures long { length out.new ≡ length out.old }
{
    let olds = u8x16::from_slice(&old[at..]);
    let others = u8x16::from_slice(&other[at..]);
    R::apply_to(olds, others).copy_to_slice(&mut out[at..]);
}
