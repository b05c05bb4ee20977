//! Compact RINEX 3.0, line by line: the kind of each line, the types in force, and the open epoch.

ghost use Rattle.std.specs.Prelude.{◌≡◌, ◌≢◌, ◌≤◌, ◌⊎◌, if◌then◌else◌, [], true, false, length};
ghost use Rattle.crx_base.specs.declared.limits.TheConstants.{LINE_LIMIT};
ghost use Rattle.crx_compact.specs.Blocks.{PendingLines};
ghost use Rattle.crx_compact.specs.PrintedBlocks.{ArePrinted};
ghost use Rattle.crx_header.specs.meaning.EpochColumns.{begins_epoch};
ghost use Rattle.crx_filter.specs.CompactStages.{is_compact_stage};
ghost use Rattle.crx_filter.specs.RinexStages.{is_open_stage};
ghost use Rattle.crx_filter.specs.Stages.{is_ended};
ghost use Rattle.crx_filter.specs.declared.stage.Stage.{Stage};
ghost use Rattle.crx_filter.specs.declared.stage.Stage.TheVariants.{Between, Looking, Open};

use crate::stage::{Stage, counts_types, with_records_left};
use crate::types_lines::{accept_header_line, accept_record};
use crx_base::{Fault, Padded};
use crx_compact::{Block, Columns};
use crx_header::crinex::{CRINEX_PROGRAM_LABEL, CRINEX_VERSION, CRINEX_VERSION_LABEL};
use crx_header::epoch_columns::records_in;
use crx_header::{Types, is_labelled};
use crx_rinex::{begins_epoch, is_event_line};
use crx_text::columns::trim_columns;

/// A reader of compact text, one line at a time.
#[derive(Drop)]
pub struct CompactReader {
    pub stage: Stage,
    pub(crate) types: Types,
    pub(crate) columns: Box<Columns>,
    ghost consistent: { is_compact_stage stage columns.value ≡ true },
}

impl CompactReader {
    ghost use Rattle.crx_base.specs.Padded.{line_in};
    ghost use Rattle.crx_filter.specs.CompactReaders.{ReadsCompactLine, line_copied};

    /// Reads a line of the open epoch and prints its row into `lines`. `Ok(true)`: it was the last one, and
    /// `lines` has all the epoch's lines of RINEX. Returns the faults of [`Columns::feed_into`]; after a
    /// fault all epochs are forgotten, the open one too, and `lines` is empty.
    #[inline(always)]
    pub(crate) fn continue_epoch(
        &mut self,
        line: Padded<'_>,
        lines: &mut Block,
    ) -> Result<bool, Fault>
        requires open { self.old.stage ≡ Open }
        requires short { length (line_in line) ≤ LINE_LIMIT }
        requires printed { ArePrinted self.old.columns.value lines.old }
        ensures reads { ReadsCompactLine self.old (line_in line.entry) result
            (if is_open_stage self.new.stage then [] else lines.new.lines) self.new }
        ensures printed { ArePrinted self.new.columns.value lines.new }
    {
        match self.columns.feed_into(line, lines) {
            Ok(false) => Ok(false),
            Ok(true) => {
                self.stage = Stage::Between;
                Ok(true)
            }
            Err(fault) => {
                self.stage = Stage::Between;
                Err(fault)
            }
        }
    }

    /// Reads a line when no epoch is open. `Ok(true)`: the line, of the header or of an event, is copied into
    /// RINEX as it is. `Ok(false)`: it is one of the first two lines, begins an epoch, or is passed over.
    ///
    /// Returns `NotCompact` if the first line isn't the first line of Compact RINEX 3.0, and `BadProgLine` if
    /// the second line has another label; in the header the faults of its first line, then `BadTypesLine`;
    /// among an event's records `BadTypesLine`, if types lines count there; when an epoch or an event may
    /// begin, `BadEpoch` if an event's count is malformed, or the faults of [`Columns::begin`]. `OutOfMemory`
    /// is returned only at a line without a fault: the first types line that counts, or an epoch's first
    /// line. After a fault the stage and the types are unchanged.
    #[inline(never)]
    pub(crate) fn read_between(&mut self, line: &[u8]) -> Result<bool, Fault>
        requires running { is_ended self.old.stage ≡ false }
        requires between { self.old.stage ≢ Open }
        requires short { length line.now ≤ LINE_LIMIT }
        ensures reads { ReadsCompactLine self.old line.now result (line_copied line.now result) self.new }
        // If the line begins an epoch, none of the epoch's lines is printed yet.
        ensures unprinted { (block : PendingLines) → is_open_stage self.new.stage ≡ true
            → ArePrinted self.new.columns.value block }
    {
        match self.stage {
            Stage::FirstLines { count: 0 } => {
                if trim_columns(line, 1, 20) != CRINEX_VERSION.as_slice()
                    || !is_labelled(line, &CRINEX_VERSION_LABEL)
                {
                    return Err(Fault::NotCompact);
                }
                self.stage = Stage::FirstLines { count: 1 };
                Ok(false)
            }
            Stage::FirstLines { .. } => {
                if !is_labelled(line, &CRINEX_PROGRAM_LABEL) {
                    return Err(Fault::BadProgLine);
                }
                self.stage = Stage::Header { is_first: true };
                Ok(false)
            }
            Stage::Header { is_first } => {
                self.stage = accept_header_line(&mut self.types, is_first, line)?;
                self.columns.reset();
                Ok(true)
            }
            Stage::Event { left, counted } => {
                if accept_record(&mut self.types, counted, line)? {
                    self.columns.reset();
                }
                self.stage = with_records_left(left.saturating_sub(1), counted);
                Ok(true)
            }
            Stage::Looking if !begins_epoch(line) => Ok(false),
            Stage::Between | Stage::Looking => self.begin_unit(line),
            Stage::Closed => Ok(false),
            Stage::Open | Stage::Ended(_) => unreachable!(),
        }
    }

    /// Reads a line that has to begin an epoch, which is then open (`Ok(false)`), or an event (`Ok(true)`).
    /// Returns `BadEpoch` if an event's count is malformed, or the faults of [`Columns::begin`], which forget
    /// every epoch. After a fault the stage is unchanged.
    #[inline(never)]
    fn begin_unit(&mut self, line: &[u8]) -> Result<bool, Fault>
        requires stage { (self.old.stage ≡ Between)
            ⊎ ((self.old.stage ≡ Looking) × (begins_epoch line.now ≡ true)) }
        requires short { length line.now ≤ LINE_LIMIT }
        ensures reads { ReadsCompactLine self.old line.now result (line_copied line.now result) self.new }
        ensures unprinted { (block : PendingLines) → is_open_stage self.new.stage ≡ true
            → ArePrinted self.new.columns.value block }
    {
        if is_event_line(line) {
            let Some(count) = records_in(line) else {
                return Err(Fault::BadEpoch);
            };
            self.stage = with_records_left(count, counts_types(line));
            return Ok(true);
        }
        self.columns.begin(&self.types, line)?;
        self.stage = Stage::Open;
        Ok(false)
    }
}
