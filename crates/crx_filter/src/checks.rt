//! The check of a RINEX file.

ghost use Rattle.crx_filter.specs.meaning.Directions.{check_filter};
ghost use Rattle.crx_filter.specs.meaning.Lossless.{SaysThatItComesBack, WritesOutputOf};
ghost use Rattle.crx_filter.specs.meaning.Promises.{JudgesStandard, Keeps, KeepsPromise};
ghost use Rattle.crx_runs.specs.meaning.Runs.{HasRun, ran_over};
ghost use Rattle.crx_runs.specs.meaning.Spans.{reader_span, span};
ghost use Rattle.crx_filter.specs.meaning.Standard.{checked};

use crate::checking::{Checking, no_options};
use crate::engine::LineEngine;
use crx_lines::{LineReader, Sink, Source};
use crx_runs::finish::finish_without_memory;
use crx_runs::{Outcome, Run};
use std::alloc::Global;

/// Checks a RINEX file and writes its report after the whole input was accepted, or reports the fault that
/// ended the check. The status is 0 if the file is standard, 2 if it isn't, and 1 after a fault. A fault is
/// an error in a line, or `ReadFailed`, `WriteFailed` or `OutOfMemory` if a device or memory failed, or
/// `InputTooLong`. A file with status 0 is restored byte for byte from its compact text.
#[inline(never)]
pub fn check<R: Source, W: Sink, M: Sink>(
    alloc: Global,
    reader: &mut R,
    writer: &mut W,
    messages: &mut M,
) -> Outcome
    ensures runs { HasRun checked check_filter (ran_over R.Source reader.old reader.new
        W.Sink writer.old writer.new M.Sink messages.old messages.new result) }
    ensures lossless { Keeps (SaysThatItComesBack result.status)
        (reader_span R.Source reader.old reader.new)
        (span W.Sink writer.old writer.new) (span M.Sink messages.old messages.new) result.fault }
    ensures standard { KeepsPromise (λ writer _ status _. JudgesStandard writer status)
        (ran_over R.Source reader.old reader.new
        W.Sink writer.old writer.new M.Sink messages.old messages.new result) }
    ensures written { Keeps (WritesOutputOf checked (span W.Sink writer.old writer.new))
        (reader_span R.Source reader.old reader.new)
        (span W.Sink writer.old writer.new) (span M.Sink messages.old messages.new) result.fault }
{
    match LineEngine::<Checking>::new(alloc, no_options()) {
        Ok(engine) => match LineReader::open(alloc) {
            Ok(input) => {
                let mut begun = Run::over(engine, input);
                let Outcome { status, fault } = begun.run(reader, writer, messages);
                // If no fault has ended the run, the status says whether the file is standard.
                let status = match (fault, begun.engine().not_standard()) {
                    (None, None) => 0,
                    (None, Some(_)) => 2,
                    (Some(_), _) => status,
                };
                Outcome { status, fault }
            }
            Err(refused) => finish_without_memory(writer, messages, refused),
        },
        Err(refused) => finish_without_memory(writer, messages, refused),
    }
}
