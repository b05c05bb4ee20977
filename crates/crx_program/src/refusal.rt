//! The messages of a run without a filter.

ghost use Rattle.std.specs.Prelude.{◌≡◌, Some, Err};
ghost use Rattle.crx_command.specs.meaning.Planning.{Refusal, Refused};
ghost use Rattle.crx_command.specs.Planning.{plan_in};
ghost use Rattle.crx_command.specs.meaning.ErrorLines.{error_line};
ghost use Rattle.crx_program.specs.meaning.Program.{IsRefused, IsShown, IsShownOr, at_start};
ghost use Rattle.crx_runs.specs.meaning.Spans.{span};

use crx_base::{At, Fault};
use crx_command::job::UsageFault;
use crx_command::word::Word;
use crx_lines::{Sink, write_all_counted};
use crx_runs::message::{Severity, message};
use std::alloc::Global;

/// The exit status after an error.
pub const FAILED: u8 = 1;

/// Writes `line`, which has its LF, to `messages`. If `messages` fails, the rest of the line is lost and
/// nothing else.
fn show<M: Sink>(messages: &mut M, line: &[u8])
    ensures { IsShown (span M.Sink messages.old messages.new) line.now }
{
    match write_all_counted(messages, line) {
        Ok(()) => {}
        Err(_) => {}
    }
}

/// Reports `fault` as the error of a run at line 0, and returns the exit status, which is 1.
#[inline(never)]
pub fn report_at_start<M: Sink>(messages: &mut M, fault: Fault) -> u8
    ensures shown { IsShown (span M.Sink messages.old messages.new) (at_start fault) }
    ensures status { result ≡ 1 }
{
    show(
        messages,
        message(Severity::Error, At { line: 0, fault }).bytes(),
    );
    FAILED
}

/// Reports `OutOfMemory` at line 0, and returns the exit status, which is 1.
pub fn report_no_memory<M: Sink>(messages: &mut M) -> u8
    ensures shown { IsShown (span M.Sink messages.old messages.new) (at_start Fault.OutOfMemory) }
    ensures status { result ≡ 1 }
{
    report_at_start(messages, Fault::OutOfMemory)
}

/// Reports `ERROR: `, `words` and `name` in one line, with nothing between them, and returns the exit status,
/// which is 1: `file exists: ` and `a.crx` make `ERROR: file exists: a.crx`. If memory for the line is
/// refused, reports `OutOfMemory` at line 0 instead. A failure of `messages` is ignored.
pub fn report<M: Sink>(alloc: Global, messages: &mut M, words: &str, name: &str) -> u8
    ensures shown { IsShownOr (span M.Sink messages.old messages.new) (error_line words.now name.now) }
    ensures status { result ≡ 1 }
{
    match Word::error_line(alloc, words, name) {
        Ok(line) => {
            show(messages, line.text().as_bytes());
            FAILED
        }
        Err(_) => report_no_memory(messages),
    }
}

/// Reports why the arguments are refused (`Memory`: as `OutOfMemory` at line 0), and returns status 1.
pub fn refuse<M: Sink>(alloc: Global, messages: &mut M, fault: &UsageFault) -> u8
    ensures memory { fault.now ≡ UsageFault.Memory
        → IsShown (span M.Sink messages.old messages.new) (at_start Fault.OutOfMemory) }
    ensures refused { (refusal : Refusal) → plan_in (Err fault.now) ≡ Some (Refused refusal)
        → IsRefused (span M.Sink messages.old messages.new) refusal result }
    ensures status { result ≡ 1 }
{
    match fault {
        UsageFault::Parse(text) => {
            show(messages, text.text().as_bytes());
            FAILED
        }
        UsageFault::Memory => report_no_memory(messages),
        other => report(alloc, messages, other.words(), other.subject()),
    }
}
