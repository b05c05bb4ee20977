//! The end of a run: the writer is flushed, and the fault is reported.

ghost use Rattle.std.specs.Prelude.{◌≡◌, ◌⊎◌, [], Some, false};
ghost use Rattle.crx_lines.specs.meaning.Devices.{one_more};
ghost use Rattle.crx_runs.specs.Endings.{Finishes, IsReported};
ghost use Rattle.crx_runs.specs.meaning.Spans.{span};

use crate::message::{Severity, message};
use crate::one_line::Halt;
use crate::outcome::Outcome;
use crx_base::{At, Fault, Refused};
use crx_lines::{Sink, write_all_counted};

/// Writes the message of the fault `at`, and returns status 1 with this fault, even if `messages` fails.
/// `_writer` is only in the contract: a writer that hasn't failed was flushed before.
#[inline(never)]
fn report<W: Sink, M: Sink>(_writer: &W, messages: &mut M, at: At) -> Outcome
    requires flushed { (at.fault ≡ Fault.WriteFailed) ⊎ ((before : W)
        × W.took before [] _writer.now × (W.flushes _writer.now ≡ one_more (W.flushes before))) }
    ensures reported { IsReported (span M.Sink messages.old messages.new) at }
    ensures fault { result.fault ≡ Some at }
    ensures status { result.status ≡ 1 }
{
    let outcome = Outcome {
        status: 1,
        fault: Some(at),
    };
    match write_all_counted(messages, message(Severity::Error, at).bytes()) {
        Ok(()) => outcome,
        Err(_) => outcome,
    }
}

/// Flushes `writer`, reports the fault and returns the outcome: status 1 with a fault, 2 if `warned`,
/// otherwise 0. The fault is the one in `ended`; without one there, `WriteFailed` at line `last`, the last
/// one read, if the writer, the flush or a warning failed. A failed writer isn't flushed; after a failed
/// warning nothing is flushed or reported. A failed report doesn't change the outcome.
pub(crate) fn finish<W: Sink, M: Sink>(
    writer: &mut W,
    messages: &mut M,
    last: u64,
    warned: bool,
    ended: Option<Halt>,
) -> Outcome
    ensures { Finishes
        (span W.Sink writer.old writer.new)
        (span M.Sink messages.old messages.new)
        last warned ended result.status result.fault }
{
    let unwritten = At {
        line: last,
        fault: Fault::WriteFailed,
    };
    match ended {
        None => match writer.flush() {
            Ok(()) => Outcome {
                status: if warned { 2 } else { 0 },
                fault: None,
            },
            Err(_) => report(writer, messages, unwritten),
        },
        // The fault stays, whether or not the flush fails.
        Some(Halt::Fault(at)) => match writer.flush() {
            Ok(()) | Err(_) => report(writer, messages, at),
        },
        Some(Halt::Unwritten) => report(writer, messages, unwritten),
        Some(Halt::Unreported) => Outcome {
            status: 1,
            fault: Some(unwritten),
        },
    }
}

/// Flushes `writer`, reports `OutOfMemory` at line 0, and returns it with status 1, even if the flush or the
/// report fails: the end of a run that was refused memory before its first line.
pub fn finish_without_memory<W: Sink, M: Sink>(
    writer: &mut W,
    messages: &mut M,
    refused: Refused,
) -> Outcome
    ensures finished { Finishes
        (span W.Sink writer.old writer.new)
        (span M.Sink messages.old messages.new)
        0 false (Some (Halt.Fault (record { line = 0; fault = Fault.OutOfMemory }))) result.status result.fault }
{
    let at = At {
        line: 0,
        fault: Fault::from(refused),
    };
    finish(writer, messages, 0, false, Some(Halt::Fault(at)))
}
