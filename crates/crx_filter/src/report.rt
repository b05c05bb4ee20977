//! The report of a check, line by line.

ghost use Rattle.std.specs.Prelude.{◌≡◌, ◌+◌, ◌≤◌, ◌++◌, None, Some, MatchBool, codes, decimal, length, slice_get};
ghost use Rattle.std.specs.List.{flat_map};
ghost use Rattle.crx_filter.specs.meaning.Standard.{standard_text, systems_text, count_text, report_lines};
ghost use Rattle.crx_filter.specs.Totals.{found_held};

use crate::totals::Totals;
use crx_base::limits::VERSION_WIDTH;
use crx_header::Types;
use crx_rinex::Epoch;
use crx_text::Text;
use crx_text::appending::append;
use crx_text::columns::trim_columns;
use itoa::Buffer;

/// The number of lines in a report.
pub const REPORT_LINES: usize = 6;

/// Sets `text` to `word` followed by `count` in decimal digits.
fn put_count(text: &mut Text, word: &[u8], count: u64)
    requires { length word.now ≤ 20 }
    ensures { text.new ≡ word.now ++ decimal count }
{
    text.clear();
    append(text, word);
    append(text, Buffer::new().format(count).as_bytes());
}

/// Appends a blank, a system's `letter`, a blank and `count`, its number of types.
fn append_count(text: &mut Text, letter: u8, count: usize)
    requires { length text.old ≤ 1000 }
    ensures value { text.new ≡ text.old ++ count_text (letter, count) }
    ensures size { length text.new ≤ length text.old + 30 }
{
    append(text, b" ");
    append(text, &[letter]);
    append(text, b" ");
    append(text, Buffer::new().format(count).as_bytes());
}

/// Sets `text` to the report's line of systems: each letter in `types` with its count, or `systems none`.
fn put_systems(text: &mut Text, types: &Types)
    ensures { text.new ≡ codes "systems" ++ systems_text types.now }
{
    text.clear();
    append(text, b"systems");
    if types.systems() == 0 {
        append(text, b" none");
        return;
    }
    for index in 0..types.systems() {
        if let Some((letter, count)) = types.entry(index) {
            append_count(text, letter, count);
        }
    }
}

/// Sets `text` to the report's line at `index`, from 0; returns `false`, and keeps `text`, if there is none.
/// `not_standard`: the number of the first line that isn't standard.
pub fn print_report_line(
    index: usize,
    totals: &Totals,
    types: &Types,
    not_standard: Option<u64>,
    text: &mut Text,
) -> bool
    ensures line { MatchBool result
        (slice_get (report_lines (found_held totals.now types.now not_standard)) index ≡ Some text.new)
        (slice_get (report_lines (found_held totals.now types.now not_standard)) index ≡ None) }
{
    match index {
        0 => {
            text.clear();
            append(text, b"format ");
            append(text, trim_columns(&totals.version, 1, VERSION_WIDTH));
        }
        1 => put_systems(text, types),
        2 => put_count(text, b"epochs ", totals.epochs),
        3 => put_count(text, b"events ", totals.events),
        4 => put_count(text, b"observations ", totals.observations),
        5 => match not_standard {
            None => {
                text.clear();
                append(text, b"standard yes");
            }
            Some(number) => put_count(text, b"standard no ", number),
        },
        _ => return false,
    }
    true
}
