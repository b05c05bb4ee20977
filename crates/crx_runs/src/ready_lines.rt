//! Writing the output of one line.

ghost use Rattle.std.specs.Prelude.{◌≡◌, [], Some, OnOk, OnErr};
ghost use Rattle.crx_base.specs.meaning.Lines.{lines_text};
ghost use Rattle.crx_runs.specs.Engines.{lines_handed_out};
ghost use Rattle.crx_runs.specs.Taking.{KeepsLines};
ghost use Rattle.crx_runs.specs.meaning.Spans.{TookAll, TookPart, span};

use crate::engine::{Engine, LineOutput};
use crx_lines::{Sink, WriteFailed, write_all_counted};

/// Writes the engine's pending lines, each with LF: usually as one text, one by one if the engine doesn't
/// have them as one. Returns `WriteFailed` if the writer fails; some of the text may be written then, and
/// lines may be pending or lost.
#[inline(always)]
pub(crate) fn write_ready<E: Engine, W: Sink>(
    engine: &mut E,
    writer: &mut W,
) -> Result<(), WriteFailed>
    ensures drained { OnOk result (E.ready engine.new ≡ []) }
    ensures kept { KeepsLines E.Engine engine.old engine.new }
    ensures all { OnOk result (TookAll (span W.Sink writer.old writer.new) (lines_text (E.ready engine.old))) }
    ensures part { OnErr result (TookPart (span W.Sink writer.old writer.new) (lines_text (E.ready engine.old))) }
    ensures awaited { W.is_awaited writer.new ≡ W.is_awaited writer.old }
{
    if let Some(text) = engine.take_text() {
        return match write_all_counted(writer, text) {
            Ok(()) => Ok(()),
            Err((_, failed)) => Err(failed),
        };
    }
    while let Some(line) = engine.next_line() {
        if let Err((_, failed)) = write_all_counted(writer, line) {
            return Err(failed);
        }
        if let Err((_, failed)) = write_all_counted(writer, b"\n") {
            return Err(failed);
        }
    }
    Ok(())
}

/// Writes the pending lines and, if `handed_out` is `LineOutput::AsItIs`, then `content` with LF. Returns
/// `WriteFailed` if the writer fails; some of the text may be written then, and lines may be pending or lost.
#[inline(never)]
pub(crate) fn write_line_output<E: Engine, W: Sink>(
    engine: &mut E,
    writer: &mut W,
    content: &[u8],
    handed_out: LineOutput,
) -> Result<(), WriteFailed>
    ensures drained { OnOk result (E.ready engine.new ≡ []) }
    ensures kept { KeepsLines E.Engine engine.old engine.new }
    ensures all { OnOk result (TookAll (span W.Sink writer.old writer.new)
        (lines_text (lines_handed_out (Some handed_out) content.now (E.ready engine.old)))) }
    ensures part { OnErr result (TookPart (span W.Sink writer.old writer.new)
        (lines_text (lines_handed_out (Some handed_out) content.now (E.ready engine.old)))) }
    ensures awaited { W.is_awaited writer.new ≡ W.is_awaited writer.old }
{
    write_ready(engine, writer)?;
    if let LineOutput::AsItIs = handed_out {
        if let Err((_, failed)) = write_all_counted(writer, content) {
            return Err(failed);
        }
        if let Err((_, failed)) = write_all_counted(writer, b"\n") {
            return Err(failed);
        }
    }
    Ok(())
}
