//! The names of crx_filter: engines line by line, and whole runs.

ghost use Rattle.std.specs.Prelude.{◌≡◌, ◌≤◌, ◌+◌, []};
ghost use Rattle.crx_base.specs.declared.limits.TheConstants.{INPUT_LIMIT};
ghost use Rattle.crx_filter.specs.CompactorState.{compactor_ready, compactor_state};
ghost use Rattle.crx_filter.specs.ExpanderState.{expander_ready, expander_state};
ghost use Rattle.crx_lines.specs.Reading.{line_number};

use crx_filter::{BadDate, Compactor, Expander, Options, Outcome, Step, check, compact, expand};
use crx_text::{At, Line, Sink, Source};
use std::alloc::{AllocError, Global};

fn options(every: Option<u32>, skip: bool, date: &[u8]) -> Result<Options, BadDate> {
    Options::new(every, skip, date)
}

fn warning(notice: At, again: bool) -> Step {
    Step::Warned { notice, again }
}

fn is_ready(step: Step) -> bool {
    match step {
        Step::Quiet => false,
        Step::Ready => true,
        Step::Warned { .. } => false,
    }
}

fn outcome(status: u8, fault: Option<At>) -> Outcome {
    Outcome { status, fault }
}

fn compactor(alloc: Global, options: Options) -> Result<Compactor, AllocError> {
    Compactor::new(alloc, options)
}

fn compactor_fed(compactor: &mut Compactor, line: Line<'_>) -> Result<Step, At>
    requires drained { compactor_ready compactor.old ≡ [] }
    requires next { line_number line ≡ (compactor_state compactor.old).number + 1 }
    requires within { line_number line ≤ INPUT_LIMIT }
{
    compactor.feed(line)
}

fn compactor_passed(compactor: &mut Compactor, number: u64) -> Result<Step, At>
    requires drained { compactor_ready compactor.old ≡ [] }
    requires next { number ≡ (compactor_state compactor.old).number + 1 }
    requires within { number ≤ INPUT_LIMIT }
{
    compactor.overlong(number)
}

fn compactor_ended(compactor: &mut Compactor) -> Result<Step, At>
    requires { compactor_ready compactor.old ≡ [] }
{
    compactor.end()
}

fn compactor_line(compactor: &mut Compactor) -> Option<&[u8]> {
    compactor.next_line()
}

fn is_compactor_drained(compactor: &Compactor) -> bool {
    compactor.is_drained()
}

fn expander(alloc: Global, options: Options) -> Result<Expander, AllocError> {
    Expander::new(alloc, options)
}

fn expander_fed(expander: &mut Expander, line: Line<'_>) -> Result<Step, At>
    requires drained { expander_ready expander.old ≡ [] }
    requires next { line_number line ≡ (expander_state expander.old).number + 1 }
    requires within { line_number line ≤ INPUT_LIMIT }
{
    expander.feed(line)
}

fn expander_passed(expander: &mut Expander, number: u64) -> Result<Step, At>
    requires drained { expander_ready expander.old ≡ [] }
    requires next { number ≡ (expander_state expander.old).number + 1 }
    requires within { number ≤ INPUT_LIMIT }
{
    expander.overlong(number)
}

fn expander_ended(expander: &mut Expander) -> Result<Step, At>
    requires { expander_ready expander.old ≡ [] }
{
    expander.end()
}

fn expander_line(expander: &mut Expander) -> Option<&[u8]> {
    expander.next_line()
}

fn is_expander_drained(expander: &Expander) -> bool {
    expander.is_drained()
}

fn compaction<R: Source, W: Sink, M: Sink>(
    alloc: Global,
    reader: &mut R,
    writer: &mut W,
    messages: &mut M,
    options: Options,
) -> Outcome {
    compact(alloc, reader, writer, messages, options)
}

fn expansion<R: Source, W: Sink, M: Sink>(
    alloc: Global,
    reader: &mut R,
    writer: &mut W,
    messages: &mut M,
    options: Options,
) -> Outcome {
    expand(alloc, reader, writer, messages, options)
}

fn report<R: Source, W: Sink, M: Sink>(
    alloc: Global,
    reader: &mut R,
    writer: &mut W,
    messages: &mut M,
) -> Outcome {
    check(alloc, reader, writer, messages)
}
