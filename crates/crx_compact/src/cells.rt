//! The cells of a satellite line: values to coded values and back, each by its arc.

ghost use Rattle.std.specs.Prelude.{All, ◌≡◌, ◌≤◌, ◌<◌, ◌+◌, ◌*◌, None, Ok, Err, drop, length, IfOk, IfErr, MatchOption, Some, Option, vec_capacity};
ghost use Rattle.crx_text.specs.meaning.Numbers.{IsValue};
ghost use Rattle.crx_base.specs.declared.limits.TheConstants.{LINE_LIMIT, OBSERVATION_WIDTH};
ghost use Rattle.crx_base.specs.Padded.{line_in};
ghost use Rattle.crx_compact.specs.ArcSteps.{arc_of_code, value_of_code};
ghost use Rattle.crx_text.specs.Codes.{IsShort};
ghost use Rattle.crx_compact.specs.declared.cells.TheConstants.{CELL_ROOM};
ghost use Rattle.crx_compact.specs.Cells.{AnswersCell, AreCellsWritten, value_at_place, CellsAreRead, IsCellWritten, MayReadCell};
ghost use Rattle.crx_compact.specs.Placing.{cells_for};
ghost use Rattle.crx_rinex.specs.SatelliteLines.{AreMissingFrom};
ghost use Rattle.crx_compact.specs.meaning.Cells.{cells_of, cells_read};
ghost use Rattle.crx_base.specs.declared.fault.Fault.TheVariants.{BadField};
ghost use Rattle.crx_text.specs.declared.code.Code.TheVariants.{Step};

use crate::arc::ObsArc;
use crx_base::limits::{DIGITS_LIMIT, OBSERVATION_WIDTH};
use crx_base::{Fault, Padded};
use crx_text::{
    Code, cell_length, code_before_blank, put_blanks, step_of_length, write_cell, write_difference,
};

/// The bytes reserved for a cell in a satellite line: a coded value with its order, `&` and minus sign, and
/// three more, because digits are written four at a time. The cell's blank is one of the three.
pub const CELL_ROOM: usize = DIGITS_LIMIT + 6;

/// Adds `value` to `arc`, writes its coded value and a blank from index `at` on, and returns the index after
/// them; two more bytes may be overwritten. `bytes` has to have [`CELL_ROOM`] bytes from `at` on. For the few
/// coded values that aren't differences of order 3.
#[cold]
#[inline(never)]
fn write_value(arc: &mut ObsArc, value: i64, bytes: &mut [u8], at: usize) -> usize
    requires value { IsValue (Some value) }
    requires room { at + CELL_ROOM ≤ length bytes.old }
    ensures { IsCellWritten (Some value) arc.old arc.new bytes.old at bytes.new result }
{
    let code = arc.push(Some(value));
    write_cell(bytes, at, code)
}

/// Cuts or extends `arcs` to `count` items, for which memory has to be reserved; new arcs have no values.
#[cold]
#[inline(never)]
fn keep_arcs(arcs: &mut Vec<ObsArc>, count: usize)
    requires memory { count ≤ vec_capacity arcs.old }
    ensures kept { arcs.new.items ≡ cells_for count arcs.old.items }
    ensures memory { vec_capacity arcs.new ≡ vec_capacity arcs.old }
{
    arcs.truncate(count);
    while arcs.len() < count {
        arcs.push_reserved(ObsArc::new());
    }
}

/// Writes the coded values of `values`, one for each type, and a blank after each, from index `at` on, adds
/// the values to the arcs, and returns the index after the last blank. A missing value is written as its
/// blank only, and ends its arc. Only the first `filled` values may be present, and only their arcs stay
/// stored. A type without a stored arc has one without values. Up to two more bytes may be overwritten.
/// Memory for an arc of each type has to be reserved, and `bytes` has to have [`CELL_ROOM`] bytes for each.
/// Inlined: no call per line.
///
/// Most values are missing, or coded as differences of order 3: these are written without a call and without
/// a test of the coded value.
#[inline(always)]
pub(crate) fn write_cells(
    arcs: &mut Vec<ObsArc>,
    values: &[Option<i64>],
    filled: usize,
    bytes: &mut [u8],
    at: usize,
) -> usize
    requires values { All IsValue values.now }
    requires missing { AreMissingFrom filled values.now }
    requires memory { length values.now ≤ vec_capacity arcs.old }
    requires few { length values.now ≤ LINE_LIMIT }
    requires room { at + CELL_ROOM * length values.now ≤ length bytes.old }
    ensures written { AreCellsWritten values.now arcs.old.items
        (cells_for (length values.now) arcs.new.items) bytes.old at bytes.new result }
    ensures arcs { length arcs.new.items ≡ filled }
    ensures memory { vec_capacity arcs.new ≡ vec_capacity arcs.old }
{
    if arcs.len() != filled {
        keep_arcs(arcs, filled);
    }
    let arcs = arcs.as_mut_slice();
    let there = &values[..filled];
    let mut end = at;
    for index in 0..there.len() {
        let arc = &mut arcs[index];
        let Some(value) = there[index] else {
            arc.end();
            bytes[end] = b' ';
            end += 1;
            continue;
        };
        end = match arc.push_third(value) {
            Some(difference) => write_difference(bytes, end, difference),
            None => write_value(arc, value, bytes, end),
        };
    }
    let blanks = end + (values.len() - filled);
    put_blanks(&mut bytes[end..blanks]);
    blanks
}

/// Reads the cell at the beginning of `text`, whatever its coded value, applies it to the arc at `index`, and
/// returns the index after the cell and its blank. An empty cell ends the arc. For the few cells that
/// [`read_cell_fast`] doesn't read.
///
/// Returns `BadField` if the cell is no coded value, `NoArc` if it is a difference and the arc has no values,
/// and `OutOfRange` if the value doesn't fit its columns. The arcs are then unchanged.
#[inline(never)]
fn read_cell(arcs: &mut [ObsArc], index: usize, text: &[u8]) -> Result<usize, Fault>
    requires within { index < length arcs.old }
    ensures { AnswersCell index text.now arcs.old arcs.new result }
{
    let Ok((code, length)) = code_before_blank(text) else {
        return Err(Fault::BadField);
    };
    arcs[index].apply(code)?;
    Ok(length)
}

/// Adds to `arc` the value that the difference `number` codes, and returns the value. Returns `None` if the
/// arc has no values or the value doesn't fit its columns; then the arc is unchanged. It is called for the
/// few differences that aren't of order 3 or whose value doesn't fit, and keeps the `Result` of
/// [`ObsArc::apply`] out of the loop.
#[inline(never)]
fn apply_step(arc: &mut ObsArc, number: i64) -> Option<i64>
    requires { IsShort number }
    ensures { MatchOption result (arc.new ≡ arc.old)
        (λ value. (value_of_code OBSERVATION_WIDTH (Step number) arc.old ≡ Ok (Some value))
        × (arc.new ≡ arc_of_code (Step number) arc.old)) }
{
    match arc.apply(Code::Step(number)) {
        Ok(Some(value)) => Some(value),
        _ => None,
    }
}

/// Reads the cell at index `at` of `line` if it is empty, which ends the arc at `index`, or a difference, as
/// most cells are, which is applied to this arc. Returns how many bytes the cell takes with its blank.
/// Returns `None` if it has another coded value, more than six digits, or a fault; then the arcs are
/// unchanged. Differences of order 3 have a form of their own, because most are.
///
/// The end of the cell is known before its number is read, so that the next cell needn't wait for the number.
/// The blank after the line makes the last cell like the others: no branch per line.
#[inline(always)]
fn read_cell_fast(arcs: &mut [ObsArc], index: usize, line: Padded<'_>, at: usize) -> Option<usize>
    requires within { index < length arcs.old }
    requires before { at ≤ length (line_in line) }
    ensures { MayReadCell index (drop at (line_in line.entry)) arcs.old arcs.new result }
{
    let characters = cell_length(line, at);
    let taken = characters + usize::from(at + characters < line.len());
    let arc = &mut arcs[index];
    // Most cells aren't empty: only those without a difference are tested for it.
    let Some(number) = step_of_length(line, at, characters) else {
        if characters == 0 {
            arc.end();
            return Some(taken);
        }
        return None;
    };
    if arc.apply_third(number).is_some() {
        return Some(taken);
    }
    apply_step(arc, number)?;
    Some(taken)
}

/// Reads a cell of `line` for each of `count` types, applies it to the type's arc, and returns the index at
/// which the marks of the indicators begin. An empty cell ends the arc, and so does the line's end for all
/// later types. Memory for `count` arcs has to be reserved; no more are stored than the line has bytes,
/// because each cell takes one, except empty ones at its end.
///
/// The first cell with a fault decides: returns `BadField` if it is no coded value, `NoArc` if it is a
/// difference and its arc has no values, and `OutOfRange` if its value doesn't fit its columns. Other arcs
/// may have changed then.
///
/// The calls for the few other cells are in the loop, because a loop without calls cost more
/// (bench/README.md).
#[inline(always)]
pub(crate) fn read_cells(
    arcs: &mut Vec<ObsArc>,
    count: usize,
    line: Padded<'_>,
) -> Result<usize, Fault>
    requires memory { count ≤ vec_capacity arcs.old }
    ensures ok { IfOk result (λ at. CellsAreRead (cells_for count arcs.old.items) count
        (line_in line.entry) (cells_for count arcs.new.items) at) }
    ensures err { IfErr result (λ fault. cells_read (value_at_place (cells_for count arcs.old.items))
        (cells_of count (line_in line.entry)) ≡ Err fault) }
    ensures arcs { length arcs.new.items ≤ count }
    ensures reached { length arcs.new.items ≤ length (line_in line.entry) }
    ensures memory { vec_capacity arcs.new ≡ vec_capacity arcs.old }
{
    let reached = count.min(line.len());
    if arcs.len() != reached {
        keep_arcs(arcs, reached);
    }
    let arcs = arcs.as_mut_slice();
    let mut at = 0;
    for index in 0..arcs.len() {
        match read_cell_fast(arcs, index, line, at) {
            Some(length) => at += length,
            None => {
                let length = read_cell(arcs, index, &line.line()[at..])?;
                at += length;
            }
        }
    }
    Ok(at)
}
