//! Whole runs of both filters.

ghost use Rattle.std.specs.Prelude.{◌≡◌, None};
ghost use Rattle.crx_filter.specs.meaning.Accounts.{AccountsForFile, AccountsForText, HasShortBlocks};
ghost use Rattle.crx_filter.specs.meaning.ByResults.{RanWith};
ghost use Rattle.crx_filter.specs.meaning.Canonical.{DependsOnNormalForm};
ghost use Rattle.crx_filter.specs.meaning.CompactText.{IsCompactText, ReadsAnyText};
ghost use Rattle.crx_filter.specs.meaning.Fate.{LeavesLinesOut};
ghost use Rattle.crx_filter.specs.meaning.Lossless.{BringsBackWhatPasses, WritesOutputOf};
ghost use Rattle.crx_filter.specs.meaning.UnitsAndText.{ReadsUnits, WritesUnits};
ghost use Rattle.crx_filter.specs.meaning.WrittenStandard.{WroteStandard};
ghost use Rattle.crx_filter.specs.meaning.Compacted.{compacted};
ghost use Rattle.crx_filter.specs.meaning.Directions.{compaction_filter, expansion_filter};
ghost use Rattle.crx_filter.specs.meaning.Expanded.{expanded};
ghost use Rattle.crx_filter.specs.meaning.Promises.{BringsBackWhatWasCompacted, Keeps, KeepsPromise, SavesAllElse};
ghost use Rattle.crx_filter.specs.meaning.Stretches.{KeepsUndamaged, WritesWholeUnits};
ghost use Rattle.crx_runs.specs.meaning.Runs.{HasRun, IsResult, ran_over};
ghost use Rattle.crx_runs.specs.meaning.Spans.{reader_span, span};

use crate::Options;
use crate::compaction::Compaction;
use crate::engine::LineEngine;
use crate::expansion::Expansion;
use crx_lines::{Sink, Source};
use crx_runs::Outcome;
use crx_runs::start::start;
use std::alloc::Global;

/// Compacts a RINEX 3.0x observation file into Compact RINEX 3.0. It reads the file once from front to back,
/// writes each line as soon as it is ready, and reports warnings and the fault that ends the run, one line
/// each. The status is 1 with a fault, 2 after warnings, otherwise 0.
///
/// If no device or memory failed and the input has at most [`INPUT_LIMIT`](crx_base::limits::INPUT_LIMIT)
/// bytes, the output, the messages, the status and the fault are exactly those of the compaction of the whole
/// input. Otherwise the fault is `ReadFailed`, `WriteFailed`, `OutOfMemory` or `InputTooLong`, and the output
/// is a prefix of the defined output.
///
/// `options`: full epochs, date, and whether faults are skipped. A skipped fault, in an epoch or in the line
/// that should begin a unit, drops the unit and all lines up to a later `>`, with a warning; others end the
/// run. Files with the same normal form, their units' printed text, have the same compact text.
#[inline(never)]
pub fn compact<R: Source, W: Sink, M: Sink>(
    alloc: Global,
    reader: &mut R,
    writer: &mut W,
    messages: &mut M,
    options: Options,
) -> Outcome
    ensures runs { HasRun (λ input. compacted input options) (compaction_filter options)
        (ran_over R.Source reader.old reader.new
        W.Sink writer.old writer.new M.Sink messages.old messages.new result) }
    ensures units { KeepsPromise (WritesUnits options) (ran_over R.Source reader.old reader.new
        W.Sink writer.old writer.new M.Sink messages.old messages.new result) }
    ensures canonical { KeepsPromise (DependsOnNormalForm options) (ran_over R.Source reader.old reader.new
        W.Sink writer.old writer.new M.Sink messages.old messages.new result) }
    ensures written { Keeps (WritesOutputOf (λ input. compacted input options) (span W.Sink writer.old writer.new))
        (reader_span R.Source reader.old reader.new)
        (span W.Sink writer.old writer.new) (span M.Sink messages.old messages.new) result.fault }
    ensures accounted { KeepsPromise (RanWith (AccountsForFile options)) (ran_over R.Source reader.old reader.new
        W.Sink writer.old writer.new M.Sink messages.old messages.new result) }
    ensures left_out { KeepsPromise (RanWith (LeavesLinesOut options)) (ran_over R.Source reader.old reader.new
        W.Sink writer.old writer.new M.Sink messages.old messages.new result) }
    ensures blocks { KeepsPromise (RanWith (HasShortBlocks options)) (ran_over R.Source reader.old reader.new
        W.Sink writer.old writer.new M.Sink messages.old messages.new result) }
{
    start(
        alloc,
        LineEngine::<Compaction>::new(alloc, options),
        reader,
        writer,
        messages,
    )
}

/// Expands Compact RINEX 3.0 into RINEX 3.0x, in the same way: under the conditions of [`compact`] the
/// output, the messages, the status and the fault are those of the expansion of the whole input. The only
/// option that it uses is whether faults are skipped, with warnings; otherwise the first ends the run.
///
/// A file that passes a check is restored byte for byte from its compact text, and the compact text of units
/// that make a file becomes their RINEX text. Compact text that follows the format is expanded to the file
/// that it encodes, whoever wrote it, and no other text ends with status 0. If no fault ends the run,
/// whatever the text, the output is a standard file unless a line of it ends in CR. Then each unit is read
/// from its own lines after the first two, and a warning drops the other lines, never past the next `>`.
#[inline(never)]
pub fn expand<R: Source, W: Sink, M: Sink>(
    alloc: Global,
    reader: &mut R,
    writer: &mut W,
    messages: &mut M,
    options: Options,
) -> Outcome
    ensures runs { HasRun (λ input. expanded input options) (expansion_filter options)
        (ran_over R.Source reader.old reader.new
        W.Sink writer.old writer.new M.Sink messages.old messages.new result) }
    ensures lossless { Keeps (BringsBackWhatPasses (span W.Sink writer.old writer.new)
        (span M.Sink messages.old messages.new) result.status result.fault)
        (reader_span R.Source reader.old reader.new)
        (span W.Sink writer.old writer.new) (span M.Sink messages.old messages.new) result.fault }
    ensures units { KeepsPromise ReadsUnits (ran_over R.Source reader.old reader.new
        W.Sink writer.old writer.new M.Sink messages.old messages.new result) }
    ensures any_writer { KeepsPromise (λ writer messages status fault.
        ReadsAnyText (λ whole. IsResult whole writer messages status fault)) (ran_over R.Source reader.old reader.new
        W.Sink writer.old writer.new M.Sink messages.old messages.new result) }
    ensures no_other { KeepsPromise (λ _ _ status _ text. status ≡ 0 → IsCompactText text)
        (ran_over R.Source reader.old reader.new
        W.Sink writer.old writer.new M.Sink messages.old messages.new result) }
    ensures standard { result.fault ≡ None → WroteStandard (span W.Sink writer.old writer.new) }
    ensures way_back { KeepsPromise BringsBackWhatWasCompacted (ran_over R.Source reader.old reader.new
        W.Sink writer.old writer.new M.Sink messages.old messages.new result) }
    ensures salvage { KeepsPromise (SavesAllElse options) (ran_over R.Source reader.old reader.new
        W.Sink writer.old writer.new M.Sink messages.old messages.new result) }
    ensures damage { KeepsPromise (KeepsUndamaged options) (ran_over R.Source reader.old reader.new
        W.Sink writer.old writer.new M.Sink messages.old messages.new result) }
    ensures whole_units { KeepsPromise (λ writer _ _ _. WritesWholeUnits writer)
        (ran_over R.Source reader.old reader.new
        W.Sink writer.old writer.new M.Sink messages.old messages.new result) }
    ensures written { Keeps (WritesOutputOf (λ input. expanded input options) (span W.Sink writer.old writer.new))
        (reader_span R.Source reader.old reader.new)
        (span W.Sink writer.old writer.new) (span M.Sink messages.old messages.new) result.fault }
    ensures accounted { KeepsPromise (RanWith (AccountsForText options.skip)) (ran_over R.Source reader.old reader.new
        W.Sink writer.old writer.new M.Sink messages.old messages.new result) }
{
    start(
        alloc,
        LineEngine::<Expansion>::new(alloc, options),
        reader,
        writer,
        messages,
    )
}
