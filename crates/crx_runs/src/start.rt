//! The start of a run.

ghost use Rattle.std.specs.Prelude.{◌≡◌, [], IfOk, OnErr, is_some, true};
ghost use Rattle.crx_runs.specs.meaning.Filters.{Filter};
ghost use Rattle.crx_runs.specs.Lawful.{IsLawful};
ghost use Rattle.crx_runs.specs.Runs.{result_by};
ghost use Rattle.crx_runs.specs.meaning.Runs.{Runs};
ghost use Rattle.crx_runs.specs.meaning.Spans.{span};
ghost use Rattle.crx_runs.specs.meaning.Spans.{reader_span};

use crate::engine::Engine;
use crate::finish::finish_without_memory;
use crate::outcome::Outcome;
use crate::stepwise::Run;
use crx_base::Refused;
use crx_lines::{LineReader, Sink, Source};
use std::alloc::Global;

/// Runs `engine` over the whole input of `reader` and returns the outcome. If `engine` is `Refused`, or
/// memory for the reader of lines is refused, nothing is read and the fault is `OutOfMemory` at line 0.
pub fn start<E: Engine + Drop, R: Source, W: Sink, M: Sink>(
    alloc: Global,
    engine: Result<E, Refused>,
    reader: &mut R,
    writer: &mut W,
    messages: &mut M,
) -> Outcome
    requires fresh { IfOk engine (λ e. (E.ready e ≡ []) × E.shows e [] []) }
    requires lawful { IfOk engine (λ e. IsLawful (E.filter e)) }
    ensures runs { (filter : Filter) → IsLawful filter → IfOk engine (λ e. E.filter e ≡ filter)
        → Runs (result_by filter) filter
        (reader_span R.Source reader.old reader.new)
        (span W.Sink writer.old writer.new)
        (span M.Sink messages.old messages.new) result.status result.fault }
    ensures memory { OnErr engine (is_some result.fault ≡ true) }
{
    match engine {
        Ok(engine) => match LineReader::open(alloc) {
            Ok(input) => Run::over(engine, input).run(reader, writer, messages),
            Err(refused) => finish_without_memory(writer, messages, refused),
        },
        Err(refused) => finish_without_memory(writer, messages, refused),
    }
}
