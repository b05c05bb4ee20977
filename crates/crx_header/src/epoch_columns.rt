//! The columns of an epoch line before the clock: its flag and its count. RINEX 3.05, table A3, EPOCH record.

ghost use Rattle.std.specs.Prelude.{◌≡◌, ◌≤◌, None, IfSome, if◌then◌else◌};
ghost use Rattle.std.specs.List.{list_all};
ghost use Rattle.crx_base.specs.declared.limits.TheConstants.{SATELLITES_LIMIT};
ghost use Rattle.crx_text.specs.meaning.Texts.{is_kept};
ghost use Rattle.crx_header.specs.meaning.EpochColumns.{begins_epoch, epoch_count, is_event_flag, is_event_line, is_observation_flag, records_in, satellites_in};

use crate::columns::number;
use crx_base::limits::SATELLITES_LIMIT;
use crx_text::columns::{all_blank, character, padded};
use crx_text::difference::all_kept;

/// Returns whether a line begins an epoch or an event: its first character is `>`.
#[inline(always)]
pub fn begins_epoch(line: &[u8]) -> bool
    ensures value { result ≡ begins_epoch line.now }
{
    matches!(line, [b'>', ..])
}

/// Returns whether a line is an event's first one, by its own bytes: it begins with `>` and has a flag from 2
/// to 6 in column 32.
pub fn is_event_line(line: &[u8]) -> bool
    ensures value { result ≡ is_event_line line.now }
{
    begins_epoch(line) && is_event_flag(character(line, 32))
}

/// Returns whether `flag`, a character in column 32, marks an event: 2 to 5, or 6 for cycle slip records.
pub fn is_event_flag(flag: u8) -> bool
    ensures value { result ≡ is_event_flag flag }
{
    matches!(flag, b'2'..=b'6')
}

/// Returns how many records follow an event, from columns 33 to 35 of its first line: 0 if they are blank or
/// after the line's end, and `None` if they hold anything but digits with blanks before or after them.
pub fn records_in(line: &[u8]) -> Option<usize>
    ensures value { result ≡ records_in line.now }
{
    if all_blank(&padded::<3>(line, 33)) {
        Some(0)
    } else {
        number(line, 33)
    }
}

/// Returns whether `flag`, a character in column 32, marks an observation epoch: 0, or 1 for a power failure.
#[inline(always)]
pub fn is_observation_flag(flag: u8) -> bool
    ensures value { result ≡ is_observation_flag flag }
{
    matches!(flag, b'0' | b'1')
}

/// Returns how many satellites `columns`, columns 1 to 41 of a line, announce. Returns `None` unless they
/// begin an observation epoch: `>`, the flag 0, or 1 for a power failure, in column 32, a count of at most
/// [`SATELLITES_LIMIT`] in columns 33 to 35, and only characters from 32 to 126 other than `&`.
pub fn satellites(columns: &[u8]) -> Option<usize>
    ensures value { result ≡ epoch_count columns.now }
    ensures within { IfSome result (λ count. count ≤ SATELLITES_LIMIT) }
{
    if !begins_epoch(columns) || !is_observation_flag(character(columns, 32)) {
        return None;
    }
    satellites_by_count(columns)
}

/// Returns how many satellites `columns`, columns 1 to 41 of a line, announce; that they begin an observation
/// epoch, with `>` and the flag 0 or 1, isn't tested. Returns `None` if columns 33 to 35 hold no count of at
/// most [`SATELLITES_LIMIT`], or a character is `&` or outside 32 to 126.
#[inline(always)]
pub fn satellites_by_count(columns: &[u8]) -> Option<usize>
    ensures value { result ≡ (if list_all is_kept columns.now then satellites_in columns.now else None) }
    ensures within { IfSome result (λ count. count ≤ SATELLITES_LIMIT) }
{
    if !all_kept(columns) {
        return None;
    }
    let count = number(columns, 33)?;
    (count <= SATELLITES_LIMIT).then_some(count)
}
