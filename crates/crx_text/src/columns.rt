//! Columns of a line: they count from 1, and blanks without end follow a line's end.
//! RINEX 3.05, appendix A (its tables A1 to A3 count columns so).
ghost use Rattle.std.specs.Prelude.{◌≡◌, ◌≤◌, ◌-◌, take, drop, length};
ghost use Rattle.std.specs.List.{list_all};
ghost use Rattle.crx_text.specs.meaning.Columns.{character_at, columns, is_blank, without_blanks, without_end_blanks, without_first_blanks};

use crate::text::trim_end;

/// Returns the character in `column`, which counts from 1: a blank after the line's end.
pub fn character(line: &[u8], column: usize) -> u8
    requires { 1 ≤ column }
    ensures value { result ≡ character_at line.now column }
{
    line.get(column - 1).copied().unwrap_or(b' ')
}

/// Returns the `width` columns after the first `start` ones, as far as they are inside the line; empty if
/// none is.
fn part(line: &[u8], start: usize, width: usize) -> &[u8]
    ensures value { result.now ≡ take width (drop start line.now) }
{
    if start < line.len() {
        let rest = &line[start..];
        let end = rest.len().min(width);
        &rest[..end]
    } else {
        &[]
    }
}

/// Returns a text without the blanks at its beginning.
pub fn trim_start(text: &[u8]) -> &[u8]
    ensures value { result.now ≡ without_first_blanks text.now }
    ensures shorter { length result.now ≤ length text.now }
{
    let mut rest = text;
    while let [b' ', back @ ..] = rest {
        rest = back;
    }
    rest
}

/// Returns whether all characters of a text are blanks; `true` for the empty text.
pub fn all_blank(text: &[u8]) -> bool
    ensures value { result ≡ list_all is_blank text.now }
{
    text.iter().all(|c| *c == b' ')
}

/// Returns the line's part in the `width` columns from `first` (from 1) on, without blanks at its end.
#[tactic(auto, using(crate::proofs::Blanks::end_blanks_columns))]
pub fn trim_end_columns(line: &[u8], first: usize, width: usize) -> &[u8]
    requires from_one { 1 ≤ first }
    ensures value { result.now ≡ without_end_blanks (columns line.now first width) }
{
    trim_end(part(line, first - 1, width))
}

/// Returns the line's part in the `width` columns from `first` (from 1) on, without blanks at both ends.
#[tactic(auto, using(crate::proofs::Blanks::blanks_columns))]
pub fn trim_columns(line: &[u8], first: usize, width: usize) -> &[u8]
    requires from_one { 1 ≤ first }
    ensures value { result.now ≡ without_blanks (columns line.now first width) }
    ensures within { length result.now ≤ width }
{
    trim_end(trim_start(part(line, first - 1, width)))
}

/// Returns the part of a line after `width` columns: nothing if it has no more.
pub fn after_columns(line: &[u8], width: usize) -> &[u8]
    ensures value { result.now ≡ drop width line.now }
{
    if width < line.len() {
        &line[width..]
    } else {
        &[]
    }
}

/// Returns the `N` columns from column `first`, counted from 1, with blanks after the line's end.
pub fn padded<const N: usize>(line: &[u8], first: usize) -> [u8; N]
    requires from_one { 1 ≤ first }
    ensures value { result ≡ columns line.now first N }
{
    let mut text = [b' '; N];
    let found = part(line, first - 1, N);
    text[..found.len()].copy_from_slice(found);
    text
}
