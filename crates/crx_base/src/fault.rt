//! The faults of an input or a device: the one table of numbers and words.

ghost use Rattle.std.specs.Prelude.{◌≡◌};

use std::fmt;
use thiserror::Error;

/// A fault of an input, of a device, or of memory. It is shown as its words.
#[derive(Clone, Copy, Debug, PartialEq, Eq, Error)]
pub enum Fault {
    /// A line's content is longer than the limit.
    LineTooLong,
    /// The input is longer than the limit.
    InputTooLong,
    /// The first header line is not the version line, or there is none.
    MissingVersion,
    /// The version is none of 3, 3.0 and 3.0x.
    UnsupportedVersion,
    /// The file type is not observation data.
    NotObservation,
    /// A line of observation types has no known system letter or no count within the limit.
    BadTypesLine,
    /// The input ends inside the header.
    NoEndOfHeader,
    /// The first line is not that of Compact RINEX 3.0.
    NotCompact,
    /// The second line is not the program line of Compact RINEX.
    BadProgLine,
    /// An epoch line was expected, and the line is none.
    NotAnEpoch,
    /// An epoch line whose flag, count or columns are wrong.
    BadEpoch,
    /// A receiver clock offset that is malformed.
    BadClock,
    /// A satellite identifier that is malformed, or of a system with no observation types.
    BadSatellite,
    /// A satellite identifier that the epoch already has.
    RepeatedSatellite,
    /// An observation, or its code, that is malformed.
    BadField,
    /// A difference of an arc that was never started.
    NoArc,
    /// A number that does not fit its columns.
    OutOfRange,
    /// An indicator that is no printable character, or a mark that isn't allowed at its place.
    BadFlags,
    /// The input ends, or another epoch begins, although more lines are expected.
    Truncated,
    /// The reader failed.
    ReadFailed,
    /// A writer failed.
    WriteFailed,
    /// Memory ran out.
    OutOfMemory,
}

impl Fault {
    ghost use Rattle.crx_base.specs.meaning.Faults.{code_of_fault, is_skippable, words_of_fault};

    /// Returns the fault's number in messages: 1 to 22, in the order of the variants.
    pub fn code(&self) -> u8
        ensures value { result ≡ code_of_fault self.now }
    {
        match self {
            Fault::LineTooLong => 1,
            Fault::InputTooLong => 2,
            Fault::MissingVersion => 3,
            Fault::UnsupportedVersion => 4,
            Fault::NotObservation => 5,
            Fault::BadTypesLine => 6,
            Fault::NoEndOfHeader => 7,
            Fault::NotCompact => 8,
            Fault::BadProgLine => 9,
            Fault::NotAnEpoch => 10,
            Fault::BadEpoch => 11,
            Fault::BadClock => 12,
            Fault::BadSatellite => 13,
            Fault::RepeatedSatellite => 14,
            Fault::BadField => 15,
            Fault::NoArc => 16,
            Fault::OutOfRange => 17,
            Fault::BadFlags => 18,
            Fault::Truncated => 19,
            Fault::ReadFailed => 20,
            Fault::WriteFailed => 21,
            Fault::OutOfMemory => 22,
        }
    }

    /// Returns the fault's words in messages, such as `bad indicator`.
    pub fn words(&self) -> &'static str
        ensures value { result.now ≡ words_of_fault self.now }
    {
        match self {
            Fault::LineTooLong => "line too long",
            Fault::InputTooLong => "input too long",
            Fault::MissingVersion => "missing version line",
            Fault::UnsupportedVersion => "unsupported version",
            Fault::NotObservation => "not an observation file",
            Fault::BadTypesLine => "bad types line",
            Fault::NoEndOfHeader => "no end of header",
            Fault::NotCompact => "not compact RINEX 3.0",
            Fault::BadProgLine => "bad program line",
            Fault::NotAnEpoch => "not an epoch line",
            Fault::BadEpoch => "bad epoch line",
            Fault::BadClock => "bad clock",
            Fault::BadSatellite => "bad satellite",
            Fault::RepeatedSatellite => "repeated satellite",
            Fault::BadField => "bad field",
            Fault::NoArc => "no arc",
            Fault::OutOfRange => "out of range",
            Fault::BadFlags => "bad indicator",
            Fault::Truncated => "truncated",
            Fault::ReadFailed => "read failed",
            Fault::WriteFailed => "write failed",
            Fault::OutOfMemory => "out of memory",
        }
    }

    /// Returns whether a run that skips faults may skip this one, with a warning: only the numbers 1 and 10
    /// to 19. In the header and in an event's records no fault is skipped.
    pub fn is_skippable(&self) -> bool
        ensures value { result ≡ is_skippable self.now }
    {
        let code = self.code();
        code == 1 || (10 <= code && code <= 19)
    }
}

impl fmt::Display for Fault {
    /// Writes the fault's [`words`](Fault::words); fails only if the formatter does.
    fn fmt<W: fmt::Write>(&self, f: &mut fmt::Formatter<W>) -> fmt::Result {
        f.write_str(self.words())
    }
}

/// A fault and the number of its line, counted from 1.
#[derive(Clone, Copy, Debug, PartialEq, Eq, Error)]
#[error("line {line} code {}: {fault}", self.fault.code())]
pub struct At {
    /// The line's number, from 1; 0 if no line was read.
    pub line: u64,
    /// The fault.
    pub fault: Fault,
}
