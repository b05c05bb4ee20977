//! Position-wise differences of texts: Hatanaka's Compact RINEX 3.0, epoch lines and indicators.

ghost use Rattle.std.specs.Prelude.{◌≡◌, ◌+◌, ◌≤◌, ◌++◌, length, take, is_ok, OnOk, OnErr};
ghost use Rattle.std.specs.List.{list_all};
ghost use Rattle.crx_text.specs.meaning.Texts.{is_kept, mark_of, by_position, text_difference};
ghost use Rattle.crx_base.specs.meaning.Lines.{is_printable};
ghost use Rattle.crx_text.specs.Texts.{character_of, patched};
ghost use Rattle.crx_base.specs.declared.limits.TheConstants.{LINE_LIMIT};

use crate::lanes::{Rule, all_allowed, write_by_rule};
use crate::text::Text;
use crx_base::limits::LINE_LIMIT;
use std::simd::prelude::*;
use thiserror::Error;

/// The error of a text that holds a character that isn't allowed.
#[derive(Clone, Copy, Debug, PartialEq, Eq, Error)]
#[error("bad character")]
pub struct BadCharacter;

/// Makes `out` the marks that lead from the text `old` to `new` (at most `LINE_LIMIT` bytes): a blank if
/// nothing changes, `&` if a character becomes blank, and otherwise the new character. Blanks follow the
/// shorter text; blanks at the end of the marks are dropped. Returns `BadCharacter`, with `out` unchanged, if
/// `new` holds a byte outside 32 to 126, or `&`.
pub fn diff_text(old: &Text, new: &[u8], out: &mut Text) -> Result<(), BadCharacter>
    requires { length new.now ≤ LINE_LIMIT }
    ensures plain { is_ok result ≡ list_all is_kept new.now }
    ensures ok { OnOk result (out.new ≡ text_difference old.now new.now) }
    ensures err { OnErr result (out.new ≡ out.old) }
{
    if !all_kept(new) {
        return Err(BadCharacter);
    }
    out.len = write_by_position::<Marks>(old.bytes(), new, &mut out.bytes);
    out.trim_end_blanks();
    Ok(())
}

/// Appends to `out` the marks that lead from `old` to `new`, one for each position of the longer text, also
/// blanks at the end: a blank if nothing changes, `&` if a character becomes blank, and otherwise the new
/// character. Blanks follow the shorter text. `out` has to have room for the marks; the bytes aren't tested.
pub fn append_difference(old: &[u8], new: &[u8], out: &mut Text)
    requires old_fits { length out.old + length old.now ≤ LINE_LIMIT }
    requires new_fits { length out.old + length new.now ≤ LINE_LIMIT }
    ensures appended { out.new ≡ out.old ++ by_position mark_of old.now new.now }
{
    let start = out.len;
    out.len += write_by_position::<Marks>(old, new, &mut out.bytes[start..]);
}

/// Makes `out` the text that `marks` (at most `LINE_LIMIT` bytes) make from `old`: a blank leaves the old
/// character, `&` becomes a blank, and any other character replaces the old one. Blanks follow the shorter of
/// both; blanks at the end of `out` are dropped. Returns `BadCharacter`, with `out` unchanged, if `marks`
/// holds a byte outside 32 to 126.
pub fn patch_text(old: &Text, marks: &[u8], out: &mut Text) -> Result<(), BadCharacter>
    requires { length marks.now ≤ LINE_LIMIT }
    ensures printable { is_ok result ≡ list_all is_printable marks.now }
    ensures ok { OnOk result (out.new ≡ patched old.now marks.now) }
    ensures err { OnErr result (out.new ≡ out.old) }
{
    patch_bytes(old.bytes(), marks, out)
}

/// Makes `out` the text that `marks` make from `old`, both at most `LINE_LIMIT` bytes: a blank leaves the old
/// character, `&` becomes a blank, and any other character replaces the old one. Blanks follow the shorter of
/// both; blanks at the end of `out` are dropped. Returns `BadCharacter`, with `out` unchanged, if `marks`
/// holds a byte outside 32 to 126; `old` isn't tested.
pub fn patch_bytes(old: &[u8], marks: &[u8], out: &mut Text) -> Result<(), BadCharacter>
    requires old_fits { length old.now ≤ LINE_LIMIT }
    requires marks_fit { length marks.now ≤ LINE_LIMIT }
    ensures printable { is_ok result ≡ list_all is_printable marks.now }
    ensures ok { OnOk result (out.new ≡ patched old.now marks.now) }
    ensures err { OnErr result (out.new ≡ out.old) }
{
    if !all_allowed::<false>(marks) {
        return Err(BadCharacter);
    }
    out.len = write_by_position::<Characters>(old, marks, &mut out.bytes);
    out.trim_end_blanks();
    Ok(())
}

/// Returns whether marks can be made from `text`: all its bytes are 32 to 126, and none is `&`; `true` if it
/// is empty.
pub fn all_kept(text: &[u8]) -> bool
    ensures value { result ≡ list_all is_kept text.now }
{
    all_allowed::<true>(text)
}

// The rule that makes the mark at a position.
struct Marks;

impl Rule for Marks {
    ghost rule = { mark_of };

    // Returns a blank if both are the same, `&` for a new blank, and otherwise `new`.
    fn apply(old: u8, new: u8) -> u8 {
        if old == new {
            b' '
        } else if new == b' ' {
            b'&'
        } else {
            new
        }
    }

    // Returns the marks of 16 pairs: a blank if both are the same, `&` for a new blank, and otherwise `new`.
    fn apply_to(old: u8x16, new: u8x16) -> u8x16 {
        let blank = u8x16::splat(b' ');
        let other = new.simd_eq(blank).select(u8x16::splat(b'&'), new);
        old.simd_eq(new).select(blank, other)
    }
}

// The rule that makes the character which a mark leaves at a position.
struct Characters;

impl Rule for Characters {
    ghost rule = { character_of };

    // Returns `old` for a blank, a blank for `&`, and otherwise `mark`.
    fn apply(old: u8, mark: u8) -> u8 {
        if mark == b' ' {
            old
        } else if mark == b'&' {
            b' '
        } else {
            mark
        }
    }

    // Returns the characters that 16 marks leave: `old` for a blank, a blank for `&`, and otherwise `mark`.
    #[tactic(auto, using(crate::proofs::LaneWords::character_lanes))]
    fn apply_to(old: u8x16, mark: u8x16) -> u8x16 {
        let blank = u8x16::splat(b' ');
        let other = mark.simd_eq(u8x16::splat(b'&')).select(blank, mark);
        mark.simd_eq(blank).select(old, other)
    }
}

pub(crate) static BLANKS: [u8; LINE_LIMIT] = [b' '; LINE_LIMIT];

// Writes to `out` the characters that the rule makes from two texts, with blanks after the shorter one, and
// returns their number, the length of the longer one. `out` has to be as long, and at most `LINE_LIMIT`.
#[tactic(auto, using(crate::proofs::PositionParts::each_end))]
fn write_by_position<R: Rule>(old: &[u8], other: &[u8], out: &mut [u8]) -> usize
    requires fits { (length old.now ≤ length out.old) × (length other.now ≤ length out.old) }
    requires within { length out.old ≤ LINE_LIMIT }
    ensures written { take result out.new ≡ by_position R.rule old.now other.now }
    ensures within { result ≤ length out.old }
    ensures same_length { length out.new ≡ length out.old }
{
    let common = old.len().min(other.len());
    write_by_rule::<R>(&old[..common], &other[..common], &mut out[..common]);
    if old.len() == other.len() {
        return common;
    }
    if common < old.len() {
        let end = old.len();
        write_by_rule::<R>(&old[common..], &BLANKS[common..end], &mut out[common..end]);
        return end;
    }
    let end = other.len();
    write_by_rule::<R>(
        &BLANKS[common..end],
        &other[common..],
        &mut out[common..end],
    );
    end
}
