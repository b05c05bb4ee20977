//! The result of a call, and copying its texts into the caller's memory.

ghost use Rattle.std.specs.Prelude.{◌≡◌};
ghost use Rattle.crx_base.specs.meaning.Faults.{code_of_fault};
ghost use Rattle.rnxcmp_c.specs.meaning.Answers.{bare_answer, fault_code_in, line_in, placed};

use crx_base::{At, Fault};

/// The status if the output doesn't fit into the caller's buffer.
pub const NO_ROOM: u32 = 3;

/// The status if the date is refused.
pub const BAD_DATE: u32 = 4;

/// The status if a handle is open before it is opened, isn't open, or its run has ended.
pub const MISUSED: u32 = 6;

/// The status if the output is longer than its limit.
pub const OUTPUT_LIMIT: u32 = 7;

/// The result of a call.
#[repr(C)]
#[derive(Clone, Copy, Debug, PartialEq, Eq)]
pub struct Answer {
    /// The line of the fault that ended the run, from 1; 0 if no line was read or no fault ended it.
    pub line: u64,
    /// The length of the whole output, in bytes.
    pub output_length: usize,
    /// The length of all messages, in bytes.
    pub messages_length: usize,
    /// 0, 1 or 2, like the exit status of the program; or one of the statuses above.
    pub status: u32,
    /// The number of the fault that ended the run, 0 if none did.
    pub code: u32,
}

/// Returns an answer with this status, line and code of a fault (0 for none), and 0 as the length of both
/// texts.
pub(crate) fn answer_without_texts(status: u32, line: u64, code: u32) -> Answer
    ensures { result ≡ bare_answer status line code }
{
    Answer {
        line,
        output_length: 0,
        messages_length: 0,
        status,
        code,
    }
}

/// Returns the answer of a run that `fault` ended at `line`: status 1, and 0 as the length of both texts.
pub(crate) fn answer_of_fault(line: u64, fault: Fault) -> Answer
    ensures { result ≡ bare_answer 1 line (code_of_fault fault) }
{
    answer_without_texts(1, line, u32::from(fault.code()))
}

/// Returns the fault of a run whose output or messages couldn't be kept: `OutOfMemory` at `line`.
pub(crate) fn no_memory_at(line: u64) -> At
    ensures { result ≡ record { line = line; fault = Fault.OutOfMemory } }
{
    At {
        line,
        fault: Fault::OutOfMemory,
    }
}

/// Returns the line and the number of the fault that ended a run, both 0 if none did.
pub(crate) fn line_and_code(fault: Option<At>) -> (u64, u32)
    ensures line { result.0 ≡ line_in fault }
    ensures code { result.1 ≡ fault_code_in fault }
{
    match fault {
        None => (0, 0),
        Some(at) => (at.line, u32::from(at.fault.code())),
    }
}

/// Copies the text to the front of `room`, as far as it fits; the rest of `room` doesn't change.
pub(crate) fn place(text: &[u8], room: &mut [u8])
    ensures { room.new ≡ placed text.now room.old }
{
    let count = text.len().min(room.len());
    room[..count].copy_from_slice(&text[..count]);
}
