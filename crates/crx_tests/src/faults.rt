//! The texts of all faults, by themselves and at a line.

use crate::expecting::expect;
use crx_base::{At, Fault};
use std::alloc::{AllocError, Global};
use std::test::Fail;

/// Each fault, its number, and its text at line 7, which ends with its words.
const TABLE: &[(Fault, u8, &str)] = &[
    (Fault::LineTooLong, 1, "line 7 code 1: line too long"),
    (Fault::InputTooLong, 2, "line 7 code 2: input too long"),
    (
        Fault::MissingVersion,
        3,
        "line 7 code 3: missing version line",
    ),
    (
        Fault::UnsupportedVersion,
        4,
        "line 7 code 4: unsupported version",
    ),
    (
        Fault::NotObservation,
        5,
        "line 7 code 5: not an observation file",
    ),
    (Fault::BadTypesLine, 6, "line 7 code 6: bad types line"),
    (Fault::NoEndOfHeader, 7, "line 7 code 7: no end of header"),
    (Fault::NotCompact, 8, "line 7 code 8: not compact RINEX 3.0"),
    (Fault::BadProgLine, 9, "line 7 code 9: bad program line"),
    (Fault::NotAnEpoch, 10, "line 7 code 10: not an epoch line"),
    (Fault::BadEpoch, 11, "line 7 code 11: bad epoch line"),
    (Fault::BadClock, 12, "line 7 code 12: bad clock"),
    (Fault::BadSatellite, 13, "line 7 code 13: bad satellite"),
    (
        Fault::RepeatedSatellite,
        14,
        "line 7 code 14: repeated satellite",
    ),
    (Fault::BadField, 15, "line 7 code 15: bad field"),
    (Fault::NoArc, 16, "line 7 code 16: no arc"),
    (Fault::OutOfRange, 17, "line 7 code 17: out of range"),
    (Fault::BadFlags, 18, "line 7 code 18: bad indicator"),
    (Fault::Truncated, 19, "line 7 code 19: truncated"),
    (Fault::ReadFailed, 20, "line 7 code 20: read failed"),
    (Fault::WriteFailed, 21, "line 7 code 21: write failed"),
    (Fault::OutOfMemory, 22, "line 7 code 22: out of memory"),
];

/// Returns whether a fault has this number and this text at line 7, and whether the words at the end of this
/// are the fault's own text.
fn is_shown(alloc: Global, fault: Fault, code: u8, text: &str) -> Result<bool, AllocError> {
    let Some((_, words)) = text.split_once(": ") else {
        return Ok(false);
    };
    let alone = fault.to_string(alloc)?;
    let at = At { line: 7, fault }.to_string(alloc)?;
    Ok(
        fault.code() == code
            && fault.words() == words
            && alone.as_str() == words
            && at.as_str() == text,
    )
}

#[test]
fn texts_of_faults(rt: HostRuntime) -> Result<(), Fail> {
    for (fault, code, text) in TABLE {
        expect(&rt, is_shown(rt.alloc(), *fault, *code, text)?, text);
    }
    Ok(())
}
