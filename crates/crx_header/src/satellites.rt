//! The satellite of a line: its identifier, and how many types its system has. RINEX 3.05, table A3, A1,I2.2.

ghost use Rattle.std.specs.Prelude.{◌≡◌, true, IfSome, OnSome};
ghost use Rattle.crx_text.specs.meaning.Columns.{columns};
ghost use Rattle.crx_base.specs.declared.limits.TheConstants.{NAME_WIDTH};
ghost use Rattle.crx_header.specs.meaning.ObservationTypes.{IsAllowedCount};
ghost use Rattle.crx_header.specs.meaning.Satellites.{is_identifier, types_of_satellite};

use crate::types::Types;
use crx_text::columns::character;

/// Returns how many types the satellite of a line has, by its system's letter in column 1. Returns `None` if
/// this system has no types, column 2 is neither a digit nor a blank, or column 3 is no digit.
#[inline(always)]
#[tactic(auto, using(crate::proofs::FirstColumns::identifier_columns))]
pub fn types_of_satellite(types: &Types, line: &[u8]) -> Option<usize>
    ensures value { result ≡ types_of_satellite types.now line.now }
    ensures allowed { IfSome result IsAllowedCount }
    ensures named { OnSome result (is_identifier (columns line.now 1 NAME_WIDTH) ≡ true) }
{
    // The last column first: then one test of the line's length replaces two.
    if !character(line, 3).is_ascii_digit() {
        return None;
    }
    let tens = character(line, 2);
    if !(tens.is_ascii_digit() | (tens == b' ')) {
        return None;
    }
    types.count(character(line, 1))
}
